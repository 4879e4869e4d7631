use std::alloc::{AllocError, Global};
use std::test::*;
use volt_index::*;
use volt_value::{Text, Value};

/// The key of one integer.
fn integer_key(alloc: Global, n: i64) -> Result<Key, AllocError> {
    key_of(alloc, &[Value::Int(n)])
}

/// How many places a part of an index has, and the digits of these in order.
fn digits(range: IndexRange<'_>) -> (usize, u64) {
    let mut count = 0usize;
    let mut number = 0u64;
    for place in range {
        count = count.saturating_add(1);
        number = number.saturating_mul(10).saturating_add(u64::from(place));
    }
    (count, number)
}

#[test]
fn values_are_spelled(rt: HostRuntime) -> Result<(), Fail> {
    keys_are_in_order();
    let alloc = rt.alloc();
    let values = [
        Value::Null,
        Value::Int(1),
        Value::Int(-1),
        Value::Text(Text::of(alloc, "ab")?),
    ];
    let key = key_of(alloc, &values)?;
    let spelled = [
        0, 1, 128, 0, 0, 0, 0, 0, 0, 1, 1, 127, 255, 255, 255, 255, 255, 255, 255, 2, 98, 99, 0,
    ];
    assert_eq!(rt; key.as_slice(), spelled.as_slice());
    let end = end_of(alloc, &values[..1])?;
    assert_eq!(rt; end.as_slice(), [0, 3].as_slice());
    Ok(())
}

/// A key that is filled again has nothing of what it had.
#[test]
fn keys_are_filled_anew(rt: HostRuntime) -> Result<(), Fail> {
    let alloc = rt.alloc();
    let mut key = Key::new(alloc);
    key.push_text("x")?;
    key.clear();
    key.push_null()?;
    key.push_integer(7)?;
    assert!(rt; key == key_of(alloc, &[Value::Null, Value::Int(7)])?);
    key.push_end()?;
    assert!(rt; key != key_of(alloc, &[Value::Null, Value::Int(7)])?);
    Ok(())
}

#[test]
fn a_unique_index_has_a_key_once(rt: HostRuntime) -> Result<(), Fail> {
    let alloc = rt.alloc();
    let mut index = Index::new(alloc, true);
    let mut null = key_of(alloc, &[Value::Null])?;
    let one = integer_key(alloc, 1)?;
    assert_eq!(rt; index.insert(&null, 4), Ok(()));
    assert_eq!(rt; index.insert(&one, 3), Ok(()));
    assert_eq!(rt; index.insert(&null, 5), Err(IndexFault::Duplicate(4)));
    assert_eq!(rt; index.get(&null), Some(4));
    assert_eq!(rt; index.remove(&mut null, 5), false);
    assert_eq!(rt; index.remove(&mut null, 4), true);
    assert_eq!(rt; index.remove(&mut null, 4), false);
    assert_eq!(rt; index.get(&null), None);
    assert_eq!(rt; index.insert(&null, 5), Ok(()));
    assert_eq!(rt; index.len(), 2);
    Ok(())
}

#[test]
fn a_plain_index_has_places_in_order(rt: HostRuntime) -> Result<(), Fail> {
    let alloc = rt.alloc();
    let mut index = Index::new(alloc, false);
    let mut one = integer_key(alloc, 1)?;
    for place in [5, 3, 9, 3] {
        assert_eq!(rt; index.insert(&one, place), Ok(()));
    }
    assert_eq!(rt; index.len(), 3);
    assert_eq!(rt; index.get(&one), Some(3));
    assert_eq!(rt; digits(index.range(Some(&one), None)), (3, 359));
    assert_eq!(rt; index.remove(&mut one, 3), true);
    assert_eq!(rt; index.remove(&mut one, 4), false);
    assert_eq!(rt; digits(index.range(None, None)), (2, 59));
    assert_eq!(rt; index.get(&integer_key(alloc, 0)?), None);
    Ok(())
}

/// From a key, which counts, to another, which doesn't, and to the end of one.
#[test]
fn ranges_go_by_keys(rt: HostRuntime) -> Result<(), Fail> {
    let alloc = rt.alloc();
    let mut index = Index::new(alloc, false);
    for (n, place) in [(-3, 1), (-1, 2), (0, 3), (2, 4), (2, 5)] {
        assert_eq!(rt; index.insert(&integer_key(alloc, n)?, place), Ok(()));
    }
    let low = integer_key(alloc, -1)?;
    let high = integer_key(alloc, 2)?;
    let end = end_of(alloc, &[Value::Int(2)])?;
    assert_eq!(rt; digits(index.range(Some(&low), Some(&high))), (2, 23));
    assert_eq!(rt; digits(index.range(Some(&low), Some(&end))), (4, 2345));
    assert_eq!(rt; digits(index.range(Some(&high), Some(&low))), (0, 0));
    assert_eq!(rt; digits(index.range(None, Some(&low))), (1, 1));
    assert_eq!(rt; digits(index.range(Some(&end), None)), (0, 0));
    Ok(())
}
