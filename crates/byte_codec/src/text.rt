//! Bytes behind their length.

ghost use Rattle.std.specs.Prelude.{◌≡◌, ◌<◌, ◌^◌, ◌++◌, length, OnOk};
ghost use Rattle.volt_base.specs.Reading.{body_at};
ghost use Rattle.volt_base.specs.Spelling.{body_bytes};
ghost use Rattle.byte_codec.specs.Readers.{Gives};

use crate::numbers::read_u32;
use crate::unread::Unread;
use std::alloc::AllocError;

/// The bytes behind a length in four bytes, and what stands behind them.
#[tactic(auto, unfolding(volt_base::specs::Reading::body_at))]
pub fn read_body(bytes: &[u8]) -> Result<(&[u8], &[u8]), Unread>
    ensures { Gives (λ x. (x.0.now, x.1.now)) result (body_at bytes.now) }
{
    let (len, rest) = read_u32(bytes)?;
    let len = len as usize;
    if rest.len() < len {
        return Err(Unread::NotSpelled);
    }
    Ok(rest.split_at(len))
}

/// Writes bytes behind their length in four bytes, which hold a length below 2^32.
#[tactic(auto, unfolding(volt_base::specs::Spelling::body_bytes))]
pub fn put_body(out: &mut Vec<u8>, body: &[u8]) -> Result<(), AllocError>
    requires { length body.now < 2 ^ 32 }
    ensures { OnOk result (out.new.items ≡ out.old.items ++ body_bytes body.now) }
{
    out.extend_from_slice(&(body.len() as u32).to_be_bytes())?;
    out.extend_from_slice(body)
}
