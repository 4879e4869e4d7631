//! The rows of a block as bytes.

ghost use Rattle.std.specs.Prelude.{◌≡◌, ◌<◌, [], ◌∷◌, ◌++◌, length, map, IfOk, OnOk};
ghost use Rattle.std.specs.Option.{option_copied};
ghost use Rattle.table_rows.specs.Spread.{AreTuples};
ghost use Rattle.table_chunks.specs.Chunks.{rows_of, row_bytes, chunk_bytes, IsSpelledRow, CanSpell};

use crate::laws::blocks_have_the_rows;
use row_codec::RowLayout;
use std::alloc::{AllocError, Global};
use tuple_block::Block;
use volt_value::{Value, encode};

/// Puts the row of a tuple, if there is one, behind others.
fn push_row(
    alloc: Global,
    layout: &RowLayout,
    tuple: Option<&[u8]>,
    rows: &mut Vec<Vec<Value>>,
) -> Result<(), AllocError>
    requires { AreTuples layout.now (option_copied tuple ∷ []) }
    ensures { OnOk result (map (λ row. row.items) rows.new.items
        ≡ map (λ row. row.items) rows.old.items ++ rows_of layout.now (option_copied tuple.entry ∷ [])) }
{
    if let Some(tuple) = tuple {
        rows.push(layout.unpack(alloc, tuple)?)?;
    }
    Ok(())
}

/// The rows of a block, in order of their places. Their values are copied.
pub fn rows_in(
    alloc: Global,
    layout: &RowLayout,
    block: &Block,
) -> Result<Vec<Vec<Value>>, AllocError>
    requires { AreTuples layout.now block.now.slots }
    ensures { IfOk result (λ rows. map (λ row. row.items) rows.items ≡ rows_of layout.now block.now.slots) }
{
    let _width = block.width();
    let mut rows = Vec::new(alloc);
    for i in 0..64u8 {
        push_row(alloc, layout, block.get(i), &mut rows)?;
    }
    Ok(rows)
}

/// Writes how many values a row has, 255 at most, and these at the end of bytes.
fn write_row(row: &[Value], into: &mut Vec<u8>) -> Result<(), AllocError>
    requires { IsSpelledRow row.now }
    ensures { OnOk result (into.new.items ≡ into.old.items ++ row_bytes row.now) }
{
    into.push(row.len() as u8)?;
    let mut left = row;
    while let [value, rest @ ..] = left {
        encode(value, into)?;
        left = rest;
    }
    Ok(())
}

/// Writes rows of the table of a number, 65,535 at most, as a chunk at the end of bytes: the number and
/// how many rows there are, in two bytes each, and of each row how many values it has, in one byte, and
/// these. Out of memory some of it may be written.
pub fn write_chunk(number: u16, rows: &[Vec<Value>], into: &mut Vec<u8>) -> Result<(), AllocError>
    requires { CanSpell (map (λ row. row.items) rows.now) }
    ensures { OnOk result (into.new.items ≡ into.old.items ++ chunk_bytes number (map (λ row. row.items) rows.now)) }
{
    into.extend_from_slice(&number.to_be_bytes())?;
    into.extend_from_slice(&(rows.len() as u16).to_be_bytes())?;
    let mut left = rows;
    while let [row, rest @ ..] = left {
        write_row(row.as_slice(), into)?;
        left = rest;
    }
    Ok(())
}

/// The rows of a block of the table of a number as a chunk.
pub fn chunk_of(
    alloc: Global,
    number: u16,
    layout: &RowLayout,
    block: &Block,
) -> Result<Vec<u8>, AllocError>
    requires tuples { AreTuples layout.now block.now.slots }
    requires columns { length layout.now < 256 }
    ensures { IfOk result (λ chunk. chunk.items ≡ chunk_bytes number (rows_of layout.now block.now.slots)) }
{
    blocks_have_the_rows();
    let _widths = (block.width(), layout.width());
    let rows = rows_in(alloc, layout, block)?;
    let mut chunk = Vec::new(alloc);
    write_chunk(number, rows.as_slice(), &mut chunk)?;
    Ok(chunk)
}
