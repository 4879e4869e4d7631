//! Rows read from bytes.

ghost use Rattle.std.specs.Prelude.{◌≡◌, ◌≤◌, map, length, option_map, IfOk, IfSome};
ghost use Rattle.std.specs.Option.{option_and_then};
ghost use Rattle.volt_value.specs.Reading.{value_at};
ghost use Rattle.table_chunks.specs.Reading.{items_at, row_at, if_all, chunk_at};

use std::alloc::{AllocError, Global};
use volt_value::{Value, decode};

/// So many values at the beginning of bytes, and how many bytes they take.
fn read_values(
    alloc: Global,
    count: u8,
    bytes: &[u8],
) -> Result<Option<(Vec<Value>, usize)>, AllocError>
    ensures read { IfOk result (λ read. option_map (λ r. (r.0.items, r.1)) read ≡ items_at value_at count bytes.now) }
    ensures within { IfOk result (λ read. IfSome read (λ r. r.1 ≤ length bytes.now)) }
{
    let mut values = Vec::new(alloc);
    let mut at = 0usize;
    let mut left = count;
    while left > 0 {
        let Some((value, len)) = decode(alloc, &bytes[at..])? else {
            return Ok(None);
        };
        values.push(value)?;
        at += len;
        left -= 1;
    }
    Ok(Some((values, at)))
}

/// The row that bytes begin with, and how many bytes it takes.
fn read_row(alloc: Global, bytes: &[u8]) -> Result<Option<(Vec<Value>, usize)>, AllocError>
    ensures read { IfOk result (λ read. option_map (λ r. (r.0.items, r.1)) read ≡ row_at bytes.now) }
    ensures within { IfOk result (λ read. IfSome read (λ r. r.1 ≤ length bytes.now)) }
{
    let [count, rest @ ..] = bytes else {
        return Ok(None);
    };
    match read_values(alloc, *count, rest)? {
        Some((row, len)) => Ok(Some((row, 1 + len))),
        None => Ok(None),
    }
}

/// So many rows that bytes are.
fn read_rows(alloc: Global, count: u16, bytes: &[u8]) -> Result<Option<Vec<Vec<Value>>>, AllocError>
    ensures { IfOk result (λ read. option_map (λ rows. map (λ row. row.items) rows.items) read
        ≡ option_and_then (if_all (length bytes.now)) (items_at row_at count bytes.now)) }
{
    let mut rows = Vec::new(alloc);
    let mut at = 0usize;
    let mut left = count;
    while left > 0 {
        let Some((row, len)) = read_row(alloc, &bytes[at..])? else {
            return Ok(None);
        };
        rows.push(row)?;
        at += len;
        left -= 1;
    }
    if at == bytes.len() {
        Ok(Some(rows))
    } else {
        Ok(None)
    }
}

/// The number of the table and the rows of a chunk. `None` comes exactly where the bytes are no chunk:
/// they have no rows of that number, each with its values, or more behind them.
pub fn read_chunk(alloc: Global, bytes: &[u8]) -> Result<Option<(u16, Vec<Vec<Value>>)>, AllocError>
    ensures { IfOk result (λ read. option_map (λ r. (r.0, map (λ row. row.items) r.1.items)) read ≡ chunk_at bytes.now) }
{
    let [a, b, c, d, rest @ ..] = bytes else {
        return Ok(None);
    };
    match read_rows(alloc, u16::from_be_bytes([*c, *d]), rest)? {
        Some(rows) => Ok(Some((u16::from_be_bytes([*a, *b]), rows))),
        None => Ok(None),
    }
}
