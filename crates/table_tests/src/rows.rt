use crate::pairs::{columns, field};
use row_codec::{RowFault, RowLayout};
use std::alloc::{AllocError, Global};
use std::test::*;
use table_rows::*;
use volt_index::Key;
use volt_value::{ColType, Text, Value};

/// People with a number, a name that no two have, and a sum that may be NULL; keys by number, by
/// name, and by sum and then number.
fn people(alloc: Global) -> Result<TableRows, AllocError> {
    let fields = [
        field(ColType::Integer, true),
        field(ColType::Varchar(4), false),
        field(ColType::Big, false),
    ];
    let layout = RowLayout::new(alloc, Vec::from_slice(alloc, &fields)?)?;
    let mut keys = Vec::new(alloc);
    keys.push(columns(alloc, &[0])?)?;
    keys.push(columns(alloc, &[1])?)?;
    keys.push(columns(alloc, &[2, 0])?)?;
    TableRows::new(alloc, layout, keys)
}

/// A call that changes such a table. A row is given by its number, name and sum, or by its number alone.
#[derive(Clone, Copy)]
enum Call<'a> {
    Put(i64, &'a str, Option<i64>),
    PutBare(Option<i64>),
    Change(i64, &'a str, Option<i64>),
    Take(i64),
}

/// Whether a call met a row.
type Answer = Result<bool, RowFault>;

fn integer(n: Option<i64>) -> Value {
    match n {
        Some(n) => Value::Int(n),
        None => Value::Null,
    }
}

fn person(
    alloc: Global,
    id: Option<i64>,
    name: Option<&str>,
    sum: Option<i64>,
) -> Result<Vec<Value>, AllocError> {
    let name = match name {
        Some(name) => Value::Text(Text::of(alloc, name)?),
        None => Value::Null,
    };
    let mut row = Vec::with_capacity(alloc, 3)?;
    row.push(integer(id))?;
    row.push(name)?;
    row.push(integer(sum))?;
    Ok(row)
}

/// The key of an integer. No list of values is made for it, since the proof that one is dropped is long.
fn integer_key(alloc: Global, n: i64) -> Result<Key, AllocError> {
    let mut key = Key::new(alloc);
    key.push_integer(n)?;
    Ok(key)
}

/// Puts a row in.
fn put(table: &mut TableRows, row: &[Value]) -> Answer {
    if table.layout().fields().len() != row.len() {
        return Err(RowFault::NoMemory);
    }
    table.insert(row)?;
    Ok(true)
}

/// Puts a row in the place of the one with its number.
fn change(table: &mut TableRows, row: &[Value]) -> Answer {
    if table.layout().fields().len() != row.len() {
        return Err(RowFault::NoMemory);
    }
    let key = table.key_of(row)?;
    table.update(&key, row)
}

/// Makes one call.
fn make(alloc: Global, table: &mut TableRows, call: &Call) -> Answer {
    match call {
        Call::Put(id, name, sum) => put(
            table,
            person(alloc, Some(*id), Some(*name), *sum)?.as_slice(),
        ),
        Call::PutBare(id) => put(table, person(alloc, *id, None, None)?.as_slice()),
        Call::Change(id, name, sum) => change(
            table,
            person(alloc, Some(*id), Some(*name), *sum)?.as_slice(),
        ),
        Call::Take(id) => Ok(table.delete(&integer_key(alloc, *id)?)?),
    }
}

/// Makes the calls one after another, and answers the place of the first whose answer is another.
fn first_wrong(alloc: Global, table: &mut TableRows, calls: &[(Call, Answer)]) -> Option<usize> {
    for i in 0..calls.len() {
        let (call, answer) = &calls[i];
        if make(alloc, table, call) != *answer {
            return Some(i);
        }
    }
    None
}

/// The digits of the numbers of rows, in order.
fn digits(alloc: Global, rows: Rows<'_>) -> Result<i64, AllocError> {
    let mut digits = 0i64;
    for row in rows {
        if let Some(Value::Int(n)) = row.values(alloc)?.as_slice().first() {
            digits = digits.saturating_mul(10).saturating_add(*n);
        }
    }
    Ok(digits)
}

/// Those of the rows in order of a key, from one key on and before another.
fn numbers(
    alloc: Global,
    table: &TableRows,
    number: usize,
    from: Option<&Key>,
    to: Option<&Key>,
) -> Result<i64, AllocError> {
    if number < table.keys() {
        digits(alloc, table.range(number, from, to))
    } else {
        Ok(-1)
    }
}

/// Such a table after calls, where each has the answer beside it.
fn table_after(alloc: Global, calls: &[(Call, Answer)]) -> Result<TableRows, Fail> {
    let mut table = people(alloc)?;
    match first_wrong(alloc, &mut table, calls) {
        None => Ok(table),
        Some(_) => Err(Fail::from("a call answers otherwise")),
    }
}

/// The numbers of the rows in order of each of the three keys. There is no fourth.
fn orders(alloc: Global, table: &TableRows) -> Result<[i64; 4], AllocError> {
    let mut orders = [0; 4];
    for number in 0..4 {
        orders[number] = numbers(alloc, table, number, None, None)?;
    }
    Ok(orders)
}

const DUPLICATE: Answer = Err(RowFault::Duplicate);

const LONG: Answer = Err(RowFault::TooLong);

const FOUR: [(Call, Answer); 4] = [
    (Call::Put(3, "c", None), Ok(true)),
    (Call::Put(1, "b", Some(5)), Ok(true)),
    (Call::Put(2, "d", Some(-5)), Ok(true)),
    (Call::Put(4, "a", Some(5)), Ok(true)),
];

/// Of several faults the first counts, and what is refused isn't there.
const REFUSED: [(Call, Answer); 8] = [
    (Call::Put(1, "b", Some(5)), Ok(true)),
    (Call::Put(1, "c", None), DUPLICATE),
    (Call::Put(2, "b", None), DUPLICATE),
    (Call::Put(1, "abcde", None), LONG),
    (
        Call::Put(2147483648, "abcde", None),
        Err(RowFault::OutOfRange),
    ),
    (Call::Put(2, "c", Some(5)), Ok(true)),
    (Call::Change(2, "b", None), DUPLICATE),
    (Call::Change(2, "abcde", None), LONG),
];

/// NULL is told before all other faults of a row, and no two rows have NULL in a key's column.
const BARE: [(Call, Answer); 3] = [
    (Call::PutBare(Some(1)), Ok(true)),
    (Call::PutBare(Some(2)), DUPLICATE),
    (Call::PutBare(None), Err(RowFault::NullInColumn)),
];

/// A change keeps one key and changes another, changes both, or keeps all.
const CHANGED: [(Call, Answer); 6] = [
    (Call::Put(1, "b", Some(5)), Ok(true)),
    (Call::Put(2, "c", Some(6)), Ok(true)),
    (Call::Change(1, "d", Some(5)), Ok(true)),
    (Call::Change(3, "abcde", None), Ok(false)),
    (Call::Change(2, "b", Some(4)), Ok(true)),
    (Call::Change(2, "b", Some(4)), Ok(true)),
];

const TAKEN: [(Call, Answer); 6] = [
    (Call::Put(1, "d", Some(5)), Ok(true)),
    (Call::Put(2, "b", Some(4)), Ok(true)),
    (Call::Take(2), Ok(true)),
    (Call::Take(2), Ok(false)),
    (Call::Change(2, "b", Some(4)), Ok(false)),
    (Call::Put(3, "b", Some(4)), Ok(true)),
];

/// Calls, and the numbers of the rows after them, in order of each key.
const RUNS: [(&[(Call, Answer)], [i64; 4]); 5] = [
    (&FOUR, [1234, 4132, 3214, -1]),
    (&REFUSED, [12, 12, 12, -1]),
    (&BARE, [1, 1, 1, -1]),
    (&CHANGED, [12, 21, 21, -1]),
    (&TAKEN, [13, 31, 31, -1]),
];

/// The place of the first run that leaves other rows.
fn first_other(alloc: Global) -> Result<Option<usize>, Fail> {
    for i in 0..RUNS.len() {
        let (calls, wanted) = &RUNS[i];
        let table = table_after(alloc, calls)?;
        if orders(alloc, &table)? != *wanted {
            return Ok(Some(i));
        }
    }
    Ok(None)
}

#[test]
fn calls_answer_and_rows_come_in_order_of_each_key(rt: HostRuntime) -> Result<(), Fail> {
    assert_eq!(rt; first_other(rt.alloc())?, None);
    Ok(())
}

/// A sum, and whether what is meant stands behind all rows of it.
type Bound = Option<(i64, bool)>;

fn key_at(alloc: Global, bound: Bound) -> Result<Option<Key>, AllocError> {
    let Some((sum, is_end)) = bound else {
        return Ok(None);
    };
    let mut key = integer_key(alloc, sum)?;
    if is_end {
        key.push_end()?;
    }
    Ok(Some(key))
}

/// The numbers of the four rows, by their sums, from one bound on and before another.
fn between(alloc: Global, from: Bound, to: Bound) -> Result<i64, Fail> {
    let (from, to) = (key_at(alloc, from)?, key_at(alloc, to)?);
    let table = table_after(alloc, &FOUR)?;
    Ok(numbers(alloc, &table, 2, from.as_ref(), to.as_ref())?)
}

/// From -5 to 5, before -5, and above 5.
const RANGES: [(Bound, Bound, i64); 3] = [
    (Some((-5, false)), Some((5, true)), 214),
    (None, Some((-5, false)), 3),
    (Some((5, true)), None, 0),
];

#[test]
fn rows_come_between_bounds(rt: HostRuntime) -> Result<(), Fail> {
    for (from, to, wanted) in RANGES {
        assert_eq!(rt; between(rt.alloc(), from, to)?, wanted);
    }
    Ok(())
}

/// Whether a row is there and is the one of this number, name and sum.
fn is_person(
    alloc: Global,
    row: Option<Row<'_>>,
    id: i64,
    name: &str,
    sum: i64,
) -> Result<bool, AllocError> {
    let Some(row) = row else {
        return Ok(false);
    };
    let wanted = person(alloc, Some(id), Some(name), Some(sum))?;
    Ok(row.len() == 3 && row.values(alloc)?.as_slice() == wanted.as_slice())
}

/// Whether the second row is found by its number after calls, and is the one of this name and sum.
fn has_second(alloc: Global, calls: &[(Call, Answer)]) -> Result<bool, Fail> {
    let key = integer_key(alloc, 2)?;
    let table = table_after(alloc, calls)?;
    Ok(is_person(alloc, table.get(&key), 2, "b", 4)?)
}

#[test]
fn rows_are_found_by_their_key(rt: HostRuntime) -> Result<(), Fail> {
    let found = (
        has_second(rt.alloc(), &CHANGED)?,
        has_second(rt.alloc(), &TAKEN)?,
    );
    assert_eq!(rt; found, (true, false));
    Ok(())
}

const MOVED: [(Call<'static>, Answer); 3] = [
    (Call::Put(1, "b", Some(5)), Ok(true)),
    (Call::Put(2, "c", None), Ok(true)),
    (Call::Take(1), Ok(true)),
];

/// In how many blocks the rows stand after calls when they are moved together, and their numbers.
fn moved_after(alloc: Global, calls: &[(Call, Answer)]) -> Result<(u32, [i64; 4]), Fail> {
    let mut table = table_after(alloc, calls)?;
    let blocks = table.compact()?;
    Ok((blocks, orders(alloc, &table)?))
}

/// The last row goes to the place that was free, and every key finds it there.
#[test]
fn rows_are_found_where_they_moved(rt: HostRuntime) -> Result<(), Fail> {
    assert_eq!(rt; moved_after(rt.alloc(), &MOVED)?, (1, [2, 2, 2, -1]));
    Ok(())
}

const OLD: [(Call<'static>, Answer); 2] = [
    (Call::Put(1, "d", Some(5)), Ok(true)),
    (Call::Put(2, "b", Some(4)), Ok(true)),
];

/// Puts a row in the place of the second, and gives what was there.
fn replaced(alloc: Global, table: &mut TableRows) -> Result<i64, RowFault> {
    let key = integer_key(alloc, 2)?;
    let row = person(alloc, Some(2), Some("c"), Some(7))?;
    if table.layout().fields().len() != row.len() || table.key_of(row.as_slice())? != key {
        return Ok(-2);
    }
    Ok(last(table.replace(&key, row.as_slice())?))
}

/// Takes the second row out, and gives what it was.
fn taken(alloc: Global, table: &mut TableRows) -> Result<i64, AllocError> {
    let key = integer_key(alloc, 2)?;
    Ok(last(table.take(&key)?))
}

/// What was in the place of a row that is put over the second one, and what is taken out then, twice.
fn old_rows(alloc: Global) -> Result<(i64, i64, i64), Fail> {
    let mut table = table_after(alloc, &OLD)?;
    let before = replaced(alloc, &mut table)?;
    let after = taken(alloc, &mut table)?;
    Ok((before, after, taken(alloc, &mut table)?))
}

/// The last value of a row, -1 where there is none.
fn last(row: Option<Vec<Value>>) -> i64 {
    match row.as_ref().and_then(|row| row.last()) {
        Some(Value::Int(n)) => *n,
        _ => -1,
    }
}

#[test]
fn old_rows_are_given_back(rt: HostRuntime) -> Result<(), Fail> {
    assert_eq!(rt; old_rows(rt.alloc())?, (4, 7, -1));
    Ok(())
}
