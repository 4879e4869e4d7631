//! Lists of values of one form.

ghost use Rattle.std.specs.Prelude.{◌≡◌, ◌^◌, ◌++◌, flat_map, OnOk};
ghost use Rattle.std.specs.List.{AllByRecursion};
ghost use Rattle.byte_codec.specs.Exactness.{FitsIn};
ghost use Rattle.byte_codec.specs.Readers.{Gives, many_at, list_bytes, list_at, short_list_bytes, short_list_at};

use crate::form::Form;
use crate::numbers::{read_u8, read_u32};
use crate::unread::Unread;
use std::alloc::{AllocError, Global};

/// Writes values one behind another.
fn put_many<F: Form>(out: &mut Vec<u8>, items: &[F::Of]) -> Result<(), AllocError>
    requires { AllByRecursion F.CanSpell items.now }
    ensures spelled { OnOk result (out.new.items ≡ out.old.items ++ flat_map F.spelling items.now) }
    ensures fits { OnOk result (AllByRecursion F.Fits items.now) }
{
    let mut left = items;
    while let [one, rest @ ..] = left {
        F::put(out, one)?;
        left = rest;
    }
    Ok(())
}

/// Reads so many values, one behind another.
pub fn read_many<F: Form>(
    alloc: Global,
    count: usize,
    bytes: &[u8],
) -> Result<(Vec<F::Of>, &[u8]), Unread>
    ensures { Gives (λ x. (x.0.items, x.1.now)) result (many_at F.read_at count bytes.now) }
{
    let mut items = Vec::new(alloc);
    let mut rest = bytes;
    let mut left = count;
    while left > 0 {
        let (one, behind) = F::read(alloc, rest)?;
        if items.push(one).is_err() {
            return Err(Unread::NoMemory);
        }
        rest = behind;
        left -= 1;
    }
    Ok((items, rest))
}

/// Writes a list: how many values it has, in four bytes, and these.
pub fn put_list<F: Form>(out: &mut Vec<u8>, items: &[F::Of]) -> Result<(), AllocError>
    requires { FitsIn (2 ^ 32) F.CanSpell items.now }
    ensures spelled { OnOk result (out.new.items ≡ out.old.items ++ list_bytes F.spelling items.now) }
    ensures fits { OnOk result (FitsIn (2 ^ 32) F.Fits items.now) }
{
    out.extend_from_slice(&(items.len() as u32).to_be_bytes())?;
    put_many::<F>(out, items)
}

/// Reads a list whose number of values stands ahead in four bytes.
pub fn read_list<F: Form>(alloc: Global, bytes: &[u8]) -> Result<(Vec<F::Of>, &[u8]), Unread>
    ensures { Gives (λ x. (x.0.items, x.1.now)) result (list_at F.read_at bytes.now) }
{
    let (count, rest) = read_u32(bytes)?;
    read_many::<F>(alloc, count as usize, rest)
}

/// Writes a list: how many values it has, in one byte, and these.
pub fn put_short_list<F: Form>(out: &mut Vec<u8>, items: &[F::Of]) -> Result<(), AllocError>
    requires { FitsIn (2 ^ 8) F.CanSpell items.now }
    ensures spelled { OnOk result (out.new.items ≡ out.old.items ++ short_list_bytes F.spelling items.now) }
    ensures fits { OnOk result (FitsIn (2 ^ 8) F.Fits items.now) }
{
    out.push(items.len() as u8)?;
    put_many::<F>(out, items)
}

/// Reads a list whose number of values stands ahead in one byte.
pub fn read_short_list<F: Form>(alloc: Global, bytes: &[u8]) -> Result<(Vec<F::Of>, &[u8]), Unread>
    ensures { Gives (λ x. (x.0.items, x.1.now)) result (short_list_at F.read_at bytes.now) }
{
    let (count, rest) = read_u8(bytes)?;
    read_many::<F>(alloc, count as usize, rest)
}
