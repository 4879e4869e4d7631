//! Numbers as bytes, the high byte first.

ghost use Rattle.std.specs.Prelude.{◌≡◌, ◌++◌, OnOk};
ghost use Rattle.std.specs.Int.{w16, w32, w64, to_be_bytes};
ghost use Rattle.volt_base.specs.Reading.{number_at};
ghost use Rattle.byte_codec.specs.Exactness.{IsWide, wide_bytes};
ghost use Rattle.byte_codec.specs.Readers.{Gives, byte_at, wide_at};

use crate::unread::Unread;
use std::alloc::AllocError;

/// The first byte, and what stands behind it.
pub fn read_u8(bytes: &[u8]) -> Result<(u8, &[u8]), Unread>
    ensures { Gives (λ x. (x.0, x.1.now)) result (byte_at bytes.now) }
{
    match bytes {
        [] => Err(Unread::NotSpelled),
        [byte, rest @ ..] => Ok((*byte, rest)),
    }
}

/// The number of the first two bytes, and what stands behind them.
pub fn read_u16(bytes: &[u8]) -> Result<(u16, &[u8]), Unread>
    ensures { Gives (λ x. (x.0, x.1.now)) result (number_at w16 bytes.now) }
{
    if bytes.len() < 2 {
        return Err(Unread::NotSpelled);
    }
    let (prefix, rest) = bytes.split_at(2);
    let number = u16::from_be_bytes([prefix[0], prefix[1]]);
    Ok((number, rest))
}

/// The number of the first four bytes, and what stands behind them.
pub fn read_u32(bytes: &[u8]) -> Result<(u32, &[u8]), Unread>
    ensures { Gives (λ x. (x.0, x.1.now)) result (number_at w32 bytes.now) }
{
    if bytes.len() < 4 {
        return Err(Unread::NotSpelled);
    }
    let (prefix, rest) = bytes.split_at(4);
    let number = u32::from_be_bytes([prefix[0], prefix[1], prefix[2], prefix[3]]);
    Ok((number, rest))
}

/// The number of the first eight bytes, and what stands behind them.
pub fn read_u64(bytes: &[u8]) -> Result<(u64, &[u8]), Unread>
    ensures { Gives (λ x. (x.0, x.1.now)) result (number_at w64 bytes.now) }
{
    if bytes.len() < 8 {
        return Err(Unread::NotSpelled);
    }
    let (prefix, rest) = bytes.split_at(8);
    let number = u64::from_be_bytes([
        prefix[0], prefix[1], prefix[2], prefix[3], prefix[4], prefix[5], prefix[6], prefix[7],
    ]);
    Ok((number, rest))
}

/// The number with a sign of the first 16 bytes, and what stands behind them.
#[tactic(auto, unfolding(crate::specs::Readers::wide_at))]
pub fn read_i128(bytes: &[u8]) -> Result<(i128, &[u8]), Unread>
    ensures { Gives (λ x. (x.0, x.1.now)) result (wide_at bytes.now) }
{
    let (high, rest) = read_u64(bytes)?;
    let (low, rest) = read_u64(rest)?;
    let bits = high as u128 * 18_446_744_073_709_551_616 + low as u128;
    Ok((bits.cast_signed(), rest))
}

/// The high half of 128 bits, and the low half.
fn put_halves(out: &mut Vec<u8>, high: u64, low: u64) -> Result<(), AllocError>
    ensures { OnOk result (out.new.items ≡ out.old.items ++ (to_be_bytes w64 high ++ to_be_bytes w64 low)) }
{
    out.extend_from_slice(&high.to_be_bytes())?;
    out.extend_from_slice(&low.to_be_bytes())
}

/// Writes a number with a sign in 16 bytes, in two's complement.
#[tactic(auto, unfolding(crate::specs::Exactness::wide_bytes))]
pub fn put_i128(out: &mut Vec<u8>, z: i128) -> Result<(), AllocError>
    ensures spelled { OnOk result (out.new.items ≡ out.old.items ++ wide_bytes z) }
    ensures fits { IsWide z }
{
    let bits = z.cast_unsigned();
    let high = (bits / 18_446_744_073_709_551_616) as u64;
    let low = (bits % 18_446_744_073_709_551_616) as u64;
    put_halves(out, high, low)
}
