//! Reads the head of a base from the beginning of bytes. Numbers have their high byte first.

ghost use Rattle.std.specs.Prelude.{◌≡◌, Some};
ghost use Rattle.std.specs.Int.{w16, w32, w64};
ghost use Rattle.volt_base.specs.Reading.{number_at, body_at};
ghost use Rattle.snapshot_io.specs.Reading.{Gives, byte_at};

use std::alloc::AllocError;
use volt_base::Bytes;

/// Why nothing was read.
#[derive(Debug, Drop)]
pub(crate) enum Unread {
    /// The bytes aren't what is read, and don't begin with it.
    NoBase,
    NoMemory,
}

impl From<AllocError> for Unread {
    ghost use Rattle.snapshot_io.specs.declared.reading.Unread.TheVariants.{NoMemory};

    ghost from_gives = { λ _ e. e ≡ NoMemory };

    fn from(_e: AllocError) -> Unread {
        Unread::NoMemory
    }
}

pub(crate) fn read_u8(bytes: &[u8]) -> Result<(u8, &[u8]), Unread>
    ensures { Gives (λ x. (x.0, x.1.now)) result (byte_at bytes.now) }
{
    match bytes {
        [] => Err(Unread::NoBase),
        [byte, rest @ ..] => Ok((*byte, rest)),
    }
}

pub(crate) fn read_u16(bytes: &[u8]) -> Result<(u16, &[u8]), Unread>
    ensures { Gives (λ x. (x.0, x.1.now)) result (number_at w16 bytes.now) }
{
    if bytes.len() < 2 {
        return Err(Unread::NoBase);
    }
    let (prefix, rest) = bytes.split_at(2);
    let number = u16::from_be_bytes([prefix[0], prefix[1]]);
    Ok((number, rest))
}

pub(crate) fn read_u32(bytes: &[u8]) -> Result<(u32, &[u8]), Unread>
    ensures { Gives (λ x. (x.0, x.1.now)) result (number_at w32 bytes.now) }
{
    if bytes.len() < 4 {
        return Err(Unread::NoBase);
    }
    let (prefix, rest) = bytes.split_at(4);
    let number = u32::from_be_bytes([prefix[0], prefix[1], prefix[2], prefix[3]]);
    Ok((number, rest))
}

pub(crate) fn read_u64(bytes: &[u8]) -> Result<(u64, &[u8]), Unread>
    ensures { Gives (λ x. (x.0, x.1.now)) result (number_at w64 bytes.now) }
{
    if bytes.len() < 8 {
        return Err(Unread::NoBase);
    }
    let (prefix, rest) = bytes.split_at(8);
    let number = u64::from_be_bytes([
        prefix[0], prefix[1], prefix[2], prefix[3], prefix[4], prefix[5], prefix[6], prefix[7],
    ]);
    Ok((number, rest))
}

/// A text of bytes behind its length.
#[tactic(auto, unfolding(volt_base::specs::Reading::body_at))]
pub(crate) fn read_body(bytes: &[u8]) -> Result<(&[u8], &[u8]), Unread>
    ensures { Gives (λ x. (x.0.now, x.1.now)) result (body_at bytes.now) }
{
    let (len, rest) = read_u32(bytes)?;
    let len = len as usize;
    if rest.len() < len {
        return Err(Unread::NoBase);
    }
    Ok(rest.split_at(len))
}
