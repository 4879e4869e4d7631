//! The parts of which the lines of a report are made.

ghost use Rattle.std.specs.Prelude.{◌≡◌, [], ◌∷◌, ◌++◌, decimal, OnOk};
ghost use Rattle.volt_report.specs.Spelling.{then_number, applied_line};

use itoa::Buffer;
use std::alloc::AllocError;
use volt_base::Applied;

/// A byte.
pub(crate) fn put_byte(into: &mut Vec<u8>, byte: u8) -> Result<(), AllocError>
    ensures { OnOk result (into.new.items ≡ into.old.items ++ byte ∷ []) }
{
    into.push(byte)?;
    Ok(())
}

/// A number.
pub(crate) fn put_decimal(into: &mut Vec<u8>, number: u64) -> Result<(), AllocError>
    ensures { OnOk result (into.new.items ≡ into.old.items ++ decimal number) }
{
    let mut buffer = Buffer::new();
    into.extend_from_slice(buffer.format(number).as_bytes())
}

/// A number behind a space.
pub(crate) fn put_number(into: &mut Vec<u8>, number: u64) -> Result<(), AllocError>
    ensures { OnOk result (into.new.items ≡ into.old.items ++ then_number number) }
{
    into.push(b' ')?;
    put_decimal(into, number)
}

/// Two numbers, each behind a space.
pub(crate) fn put_pair(into: &mut Vec<u8>, first: u64, second: u64) -> Result<(), AllocError>
    ensures { OnOk result (into.new.items
        ≡ into.old.items ++ then_number first ++ then_number second) }
{
    put_number(into, first)?;
    put_number(into, second)
}

/// The line of a call of the serial list.
pub(crate) fn put_applied_line(into: &mut Vec<u8>, applied: Applied) -> Result<(), AllocError>
    ensures { OnOk result (into.new.items ≡ into.old.items ++ applied_line applied) }
{
    put_decimal(into, applied.point)?;
    put_number(into, u64::from(applied.call))?;
    put_byte(into, b'\n')
}
