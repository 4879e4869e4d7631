use super::*;
use std::alloc::{AllocError, Global};
use std::cmp::Ordering;
use std::test::*;

/// A value whose text isn't owned.
#[derive(Clone, Copy)]
enum Written<'a> {
    Null,
    Int(i64),
    Text(&'a str),
}

fn value(alloc: Global, written: &Written) -> Result<Value, AllocError> {
    match written {
        Written::Null => Ok(Value::Null),
        Written::Int(n) => Ok(Value::Int(*n)),
        Written::Text(text) => Ok(Value::Text(Text::of(alloc, *text)?)),
    }
}

/// A text as it is shown, whether it is another one, and how it compares with that.
fn text_answers(
    alloc: Global,
    text: &str,
    other: &str,
) -> Result<(bool, bool, Option<Ordering>), AllocError> {
    let made = Text::of(alloc, text)?;
    let other = Text::of(alloc, other)?;
    Ok((
        made.as_str() == text,
        made == other,
        made.partial_cmp(&other),
    ))
}

#[test]
fn texts_are_what_they_were_made_of(rt: HostRuntime) -> Result<(), Fail> {
    assert_eq!(rt;
        text_answers(rt.alloc(), "año", "años")?,
        (true, false, Some(Ordering::Less))
    );
    Ok(())
}

/// NULL, the numbers by their size, and the texts by their bytes.
const RISING: [Written; 12] = [
    Written::Null,
    Written::Int(-9223372036854775807),
    Written::Int(-1),
    Written::Int(0),
    Written::Int(9223372036854775807),
    Written::Text(""),
    Written::Text("10"),
    Written::Text("9"),
    Written::Text("Z"),
    Written::Text("a"),
    Written::Text("aa"),
    Written::Text("ñ"),
];

/// Whether each comparison of two values says this.
fn is_order(left: &Value, right: &Value, order: Ordering) -> bool {
    compare(left, right) == order
        && left.cmp(right) == order
        && left.partial_cmp(right) == Some(order)
        && (left == right) == (order == Ordering::Equal)
}

/// The places of the first two values of which a comparison says something else than of their
/// places, or of a value whose copy is another.
fn first_out_of_order(
    alloc: Global,
    rising: &[Written],
) -> Result<Option<(usize, usize)>, AllocError> {
    for i in 0..rising.len() {
        let left = value(alloc, &rising[i])?;
        if left.copy(alloc)? != left {
            return Ok(Some((i, i)));
        }
        for j in 0..rising.len() {
            let right = value(alloc, &rising[j])?;
            if !is_order(&left, &right, i.cmp(&j)) {
                return Ok(Some((i, j)));
            }
        }
    }
    Ok(None)
}

#[test]
fn values_are_in_order(rt: HostRuntime) -> Result<(), Fail> {
    order_is_total();
    assert_eq!(rt; first_out_of_order(rt.alloc(), &RISING)?, None);
    Ok(())
}

const OUT: Result<(), Misfit> = Err(Misfit::OutOfRange);

const WRONG: Result<(), Misfit> = Err(Misfit::WrongClass);

/// Values with whether they fit a type. Of each type of integers the greatest number and one more,
/// in either sign. A text counts by its bytes: `año` is four, in three characters.
const FITS: [(Written, ColType, Result<(), Misfit>); 25] = [
    (Written::Int(127), ColType::Tiny, Ok(())),
    (Written::Int(-127), ColType::Tiny, Ok(())),
    (Written::Int(128), ColType::Tiny, OUT),
    (Written::Int(-128), ColType::Tiny, OUT),
    (Written::Int(i64::MIN), ColType::Tiny, OUT),
    (Written::Int(32767), ColType::Small, Ok(())),
    (Written::Int(-32767), ColType::Small, Ok(())),
    (Written::Int(32768), ColType::Small, OUT),
    (Written::Int(-32768), ColType::Small, OUT),
    (Written::Int(i64::MIN), ColType::Small, OUT),
    (Written::Int(2147483647), ColType::Integer, Ok(())),
    (Written::Int(-2147483647), ColType::Integer, Ok(())),
    (Written::Int(2147483648), ColType::Integer, OUT),
    (Written::Int(-2147483648), ColType::Integer, OUT),
    (Written::Int(i64::MIN), ColType::Integer, OUT),
    (Written::Int(9223372036854775807), ColType::Big, Ok(())),
    (Written::Int(-9223372036854775807), ColType::Big, Ok(())),
    (Written::Int(i64::MIN), ColType::Big, OUT),
    (Written::Int(i64::MIN), ColType::Varchar(9), OUT),
    (Written::Int(1), ColType::Varchar(9), WRONG),
    (Written::Null, ColType::Tiny, Ok(())),
    (Written::Text("año"), ColType::Varchar(4), Ok(())),
    (
        Written::Text("año"),
        ColType::Varchar(3),
        Err(Misfit::TooLong),
    ),
    (Written::Text("año"), ColType::Big, WRONG),
    (Written::Null, ColType::Varchar(1), Ok(())),
];

/// The place of the first value that fits its type where it shouldn't, or the other way round.
fn first_misfit(
    alloc: Global,
    cases: &[(Written, ColType, Result<(), Misfit>)],
) -> Result<Option<usize>, AllocError> {
    for i in 0..cases.len() {
        let (written, kind, wanted) = &cases[i];
        if fits(&value(alloc, written)?, *kind) != *wanted {
            return Ok(Some(i));
        }
    }
    Ok(None)
}

#[test]
fn values_fit_their_types(rt: HostRuntime) -> Result<(), Fail> {
    assert_eq!(rt; first_misfit(rt.alloc(), &FITS)?, None);
    Ok(())
}

const CLASSES: [(ColType, Class); 4] = [
    (ColType::Tiny, Class::Int),
    (ColType::Small, Class::Int),
    (ColType::Integer, Class::Int),
    (ColType::Varchar(1), Class::Text),
];

/// The place of the first type of another class.
fn first_of_wrong_class(cases: &[(ColType, Class)]) -> Option<usize> {
    for i in 0..cases.len() {
        let (kind, class) = cases[i];
        if kind.class() != class {
            return Some(i);
        }
    }
    None
}

#[test]
fn types_have_classes(rt: HostRuntime) -> Result<(), Fail> {
    assert_eq!(rt; first_of_wrong_class(&CLASSES), None);
    Ok(())
}

/// Values with their spelling.
const SPELLINGS: [(Written, &[u8]); 4] = [
    (Written::Null, &[0]),
    (Written::Int(1), &[1, 0, 0, 0, 0, 0, 0, 0, 1]),
    (
        Written::Int(-1),
        &[1, 255, 255, 255, 255, 255, 255, 255, 255],
    ),
    (Written::Text("ab"), &[2, 0, 0, 0, 2, 97, 98]),
];

/// Writes a value of few bytes at the end.
fn put(alloc: Global, written: &Written, into: &mut Vec<u8>) -> Result<(), Fail> {
    match written {
        Written::Text(text) => {
            if text.len() > 100 {
                return Err("too long".into());
            }
            encode(&Value::Text(Text::of(alloc, *text)?), into)?;
        }
        Written::Int(n) => {
            if *n == i64::MIN {
                return Err("no value".into());
            }
            encode(&Value::Int(*n), into)?;
        }
        Written::Null => encode(&Value::Null, into)?,
    }
    Ok(())
}

/// The place of the first value that is spelled otherwise, behind the ones before it.
fn first_misspelled(alloc: Global, cases: &[(Written, &[u8])]) -> Result<Option<usize>, Fail> {
    let mut written = Vec::new(alloc);
    let mut wanted = Vec::new(alloc);
    for i in 0..cases.len() {
        let (value, spelling) = &cases[i];
        put(alloc, value, &mut written)?;
        wanted.extend_from_slice(*spelling)?;
        if written.as_slice() != wanted.as_slice() {
            return Ok(Some(i));
        }
    }
    Ok(None)
}

#[test]
fn values_are_spelled(rt: HostRuntime) -> Result<(), Fail> {
    one_spelling();
    assert_eq!(rt; first_misspelled(rt.alloc(), &SPELLINGS)?, None);
    Ok(())
}

/// Bytes with the value that they begin with, and how many of them spell it. Begin with none: too
/// few bytes, the least i64, no UTF-8, no kind.
const READ: [(&[u8], Option<(Written, usize)>); 13] = [
    (&[0, 7], Some((Written::Null, 1))),
    (
        &[1, 0, 0, 0, 0, 0, 0, 3, 232],
        Some((Written::Int(1000), 9)),
    ),
    (
        &[1, 128, 0, 0, 0, 0, 0, 0, 1, 5, 5],
        Some((Written::Int(-9223372036854775807), 9)),
    ),
    (&[2, 0, 0, 0, 2, 97, 98, 99], Some((Written::Text("ab"), 7))),
    (&[], None),
    (&[1, 0], None),
    (&[1, 0, 0, 0, 0, 0, 0, 0], None),
    (&[1, 128, 0, 0, 0, 0, 0, 0, 0], None),
    (&[2, 0, 0, 0], None),
    (&[2, 0, 0, 0, 2, 97], None),
    (&[2, 0, 0, 0, 1, 255], None),
    (&[2, 0, 0, 0, 1, 195, 177], None),
    (&[3], None),
];

/// Whether the bytes are read as this.
fn is_read(
    alloc: Global,
    bytes: &[u8],
    wanted: &Option<(Written, usize)>,
) -> Result<bool, AllocError> {
    match (decode(alloc, bytes)?, wanted) {
        (Some((found, count)), Some((written, length))) => {
            Ok(found == value(alloc, written)? && count == *length)
        }
        (None, None) => Ok(true),
        _ => Ok(false),
    }
}

/// The place of the first bytes that are read otherwise.
fn first_misread(
    alloc: Global,
    cases: &[(&[u8], Option<(Written, usize)>)],
) -> Result<Option<usize>, AllocError> {
    for i in 0..cases.len() {
        let (bytes, wanted) = &cases[i];
        if !is_read(alloc, *bytes, wanted)? {
            return Ok(Some(i));
        }
    }
    Ok(None)
}

#[test]
fn values_are_read(rt: HostRuntime) -> Result<(), Fail> {
    assert_eq!(rt; first_misread(rt.alloc(), &READ)?, None);
    Ok(())
}
