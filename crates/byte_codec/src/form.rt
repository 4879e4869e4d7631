//! Forms: values with exactly one spelling each.

ghost use Rattle.std.specs.Prelude.{◌≡◌, ◌≢◌, ℕ, List, ◌++◌, OnOk, IfOk, IfSome, IfNone};
ghost use Rattle.byte_codec.specs.Exactness.{Exact};
ghost use Rattle.byte_codec.specs.Readers.{Reader, Gives};

use crate::unread::Unread;
use std::alloc::{AllocError, Global};
use volt_base::Bytes;

/// A form of bytes: what is spelled in it, how, and how it is read again. One kind of value may have
/// several forms.
pub trait Form {
    /// What is spelled.
    type Of: Drop;

    /// The spelling of a value.
    ghost spelling: { Self.Of → List ℕ };

    /// What has a spelling: each number and each length fits the bytes that hold it.
    ghost Fits: { Self.Of → Type 0 };

    /// What is asked of a value that is to be spelled, besides what its type says.
    ghost CanSpell: { Self.Of → Type 0 };

    /// What bytes begin with, and what stands behind it.
    ghost read_at: { Reader Self.Of };

    /// Writes the spelling at the end. Without memory a part of it may stand there.
    fn put(out: &mut Vec<u8>, x: &Self::Of) -> Result<(), AllocError>
        requires { CanSpell x.now }
        ensures spelled { OnOk result (out.new.items ≡ out.old.items ++ spelling x.now) }
        ensures fits { OnOk result (Fits x.now) };

    /// Reads a value from the beginning of bytes, and gives what stands behind it.
    fn read(alloc: Global, bytes: &[u8]) -> Result<(Self::Of, &[u8]), Unread>
        ensures { Gives (λ x. (x.0, x.1.now)) result (read_at bytes.now) };

    /// What is read is spelled so, and what is spelled so is read again.
    ghost exact: { Exact read_at spelling Fits };
}

/// The spelling of a value.
pub fn spell<F: Form>(alloc: Global, x: &F::Of) -> Result<Bytes, AllocError>
    requires { F.CanSpell x.now }
    ensures spelled { IfOk result (λ bytes. bytes ≡ F.spelling x.now) }
    ensures fits { OnOk result (F.Fits x.now) }
{
    let mut out = Vec::new(alloc);
    F::put(&mut out, x)?;
    Ok(Bytes::from_vec(out))
}

/// The value whose spelling the bytes are, all of them. `None` exactly where they are none's.
pub fn read_whole<F: Form>(alloc: Global, bytes: &[u8]) -> Result<Option<F::Of>, AllocError>
    ensures found { IfOk result (λ read. IfSome read (λ x. (bytes.now ≡ F.spelling x) × F.Fits x)) }
    ensures none { IfOk result (λ read. IfNone read ((x : F.Of) → F.Fits x → bytes.now ≢ F.spelling x)) }
{
    match F::read(alloc, bytes) {
        Ok((x, [])) => Ok(Some(x)),
        Ok(_) => Ok(None),
        Err(Unread::NotSpelled) => Ok(None),
        Err(Unread::NoMemory) => Err(AllocError),
    }
}

/// No spelling of a form begins another one: bytes begin with the spelling of one value at most.
pub fn spellings_are_prefix_free<F: Form>()
    ensures { (a b : F.Of) (x y : List ℕ) → F.Fits a → F.Fits b
        → F.spelling a ++ x ≡ F.spelling b ++ y → (a ≡ b) × (x ≡ y) }
{}
