//! Reads numbers from the beginning of bytes. They have their high byte first.

ghost use Rattle.std.specs.Prelude.{◌≡◌, Some};
ghost use Rattle.std.specs.Int.{w16, w64};
ghost use Rattle.volt_base.specs.Reading.{number_at};
ghost use Rattle.log_records.specs.Reading.{Gives};

use std::alloc::AllocError;

/// Why nothing was read.
#[derive(Debug, Drop)]
pub(crate) enum Unread {
    /// The bytes aren't what is read, and don't begin with it.
    Other,
    NoMemory,
}

impl From<AllocError> for Unread {
    ghost use Rattle.log_records.specs.declared.reading.Unread.TheVariants.{NoMemory};

    ghost from_gives = { λ _ e. e ≡ NoMemory };

    fn from(_e: AllocError) -> Unread {
        Unread::NoMemory
    }
}

pub(crate) fn read_u16(bytes: &[u8]) -> Result<(u16, &[u8]), Unread>
    ensures { Gives (λ x. (x.0, x.1.now)) result (number_at w16 bytes.now) }
{
    if bytes.len() < 2 {
        return Err(Unread::Other);
    }
    let (prefix, rest) = bytes.split_at(2);
    let number = u16::from_be_bytes([prefix[0], prefix[1]]);
    Ok((number, rest))
}

pub(crate) fn read_u64(bytes: &[u8]) -> Result<(u64, &[u8]), Unread>
    ensures { Gives (λ x. (x.0, x.1.now)) result (number_at w64 bytes.now) }
{
    if bytes.len() < 8 {
        return Err(Unread::Other);
    }
    let (prefix, rest) = bytes.split_at(8);
    let number = u64::from_be_bytes([
        prefix[0], prefix[1], prefix[2], prefix[3], prefix[4], prefix[5], prefix[6], prefix[7],
    ]);
    Ok((number, rest))
}
