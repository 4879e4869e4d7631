//! Why nothing was read.

use std::alloc::AllocError;

/// Why nothing was read.
#[derive(Debug, Drop)]
pub enum Unread {
    /// The bytes don't begin with the spelling of what is read.
    NotSpelled,
    NoMemory,
}

impl From<AllocError> for Unread {
    ghost use Rattle.std.specs.Prelude.{◌≡◌};
    ghost use Rattle.byte_codec.specs.declared.unread.Unread.TheVariants.{NoMemory};

    ghost from_gives = { λ _ e. e ≡ NoMemory };

    fn from(_e: AllocError) -> Unread {
        Unread::NoMemory
    }
}
