ghost use Rattle.std.specs.Prelude.{◌≡◌};

use row_codec::*;
use std::alloc::{AllocError, Global};
use std::test::*;
use volt_value::{ColType, Text, Value};

/// A column of a type, and whether it takes NULL.
fn field(kind: ColType, not_null: bool) -> Field
    ensures { result ≡ record { kind = kind; not_null = not_null } }
{
    Field { kind, not_null }
}

/// A layout with a column of each type.
fn all_types(alloc: Global) -> Result<RowLayout, AllocError> {
    let fields = [
        field(ColType::Tiny, false),
        field(ColType::Small, true),
        field(ColType::Integer, false),
        field(ColType::Big, false),
        field(ColType::Varchar(3), false),
    ];
    RowLayout::new(alloc, Vec::from_slice(alloc, &fields)?)
}

fn text(alloc: Global, text: &str) -> Result<Value, AllocError> {
    Ok(Value::Text(Text::of(alloc, text)?))
}

#[test]
fn rows_are_packed_and_read(rt: HostRuntime) -> Result<(), Fail> {
    let alloc = rt.alloc();
    let layout = all_types(alloc)?;
    assert_eq!(rt; layout.width(), 20);
    let row = [
        Value::Int(-127),
        Value::Int(32767),
        Value::Null,
        Value::Int(-9223372036854775807),
        text(alloc, "ño")?,
    ];
    assert_eq!(rt; row.len(), layout.fields().len());
    assert_eq!(rt; layout.fault(&row), None);
    let mut tuple = vec![in alloc; 9u8; 3]?;
    layout.pack(&row, &mut tuple)?;
    let packed = [
        129, 127, 255, 128, 0, 0, 0, 128, 0, 0, 0, 0, 0, 0, 1, 0, 3, 195, 177, 111,
    ];
    assert_eq!(rt; tuple.as_slice(), packed.as_slice());
    assert!(rt; layout.unpack(alloc, &tuple)?.as_slice() == row.as_slice());
    assert!(rt; matches!(layout.cell(&tuple, 2), Cell::Null));
    assert!(rt; layout.cell(&tuple, 4).to_value(alloc)? == row[4]);
    Ok(())
}

/// The least fault counts, whatever its column.
#[test]
fn faults_are_in_order(rt: HostRuntime) -> Result<(), Fail> {
    let alloc = rt.alloc();
    let layout = all_types(alloc)?;
    assert_eq!(rt; layout.fields().len(), 5);
    let mut row = [
        Value::Int(127),
        Value::Int(0),
        Value::Null,
        Value::Int(1),
        text(alloc, "abcd")?,
    ];
    assert_eq!(rt; layout.fault(&row), Some(RowFault::TooLong));
    row[0] = Value::Int(-128);
    assert_eq!(rt; layout.fault(&row), Some(RowFault::OutOfRange));
    row[1] = Value::Null;
    assert_eq!(rt; layout.fault(&row), Some(RowFault::NullInColumn));
    let big = field(ColType::Big, true);
    assert_eq!(rt;
        fault_of(big, &Value::Int(i64::MIN)),
        Some(RowFault::OutOfRange)
    );
    assert_eq!(rt; fault_of(big, &row[4]), Some(RowFault::OutOfRange));
    assert_eq!(rt; fault_of(big, &Value::Int(5)), None);
    Ok(())
}
