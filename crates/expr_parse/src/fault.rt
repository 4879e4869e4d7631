//! Why reading ends.

ghost use Rattle.std.specs.Prelude.{◌≡◌, ◌<◌, ◌^◌};
ghost use Rattle.expr_parse.specs.Reads.{refused_at};

use std::alloc::{AllocError, AllocFailed};
use thiserror::Error;

/// Why no tree was read.
#[derive(Clone, Copy, Debug, PartialEq, Eq, Error)]
pub enum ParseFault {
    /// The first token that no text of the grammar goes on with, by its number from 0: the number
    /// of the tokens where the text ends too early.
    #[error("token {0} doesn't fit")]
    Syntax(u32),
    /// Out of memory.
    #[error("memory is wanting")]
    NoMemory,
}

/// Why a rule wasn't read.
#[derive(Clone, Copy, Debug, PartialEq, Eq)]
pub enum Fault {
    /// The cursor stands at the first token that doesn't fit.
    Syntax,
    /// Out of memory. Nothing is said of where the cursor stands.
    NoMemory,
}

impl Fault {
    /// This fault, where reading ended at the token of this number.
    pub fn at(self, place: usize) -> ParseFault
        requires { place < 2 ^ 32 }
        ensures { result ≡ refused_at self place }
    {
        match self {
            Fault::Syntax => ParseFault::Syntax(place as u32),
            Fault::NoMemory => ParseFault::NoMemory,
        }
    }

    /// This fault, where something was read before it, which is dropped. A function that drops a tree
    /// itself is dear to prove.
    pub fn after<T: Drop>(self, _read: T) -> Fault
        ensures { result ≡ self }
    {
        self
    }
}

impl From<AllocError> for Fault {
    ghost use Rattle.std.specs.Prelude.{◌≡◌};
    ghost use Rattle.expr_parse.specs.declared.fault.Fault.TheVariants.{NoMemory};

    ghost from_gives = { λ _ fault. fault ≡ NoMemory };

    fn from(_error: AllocError) -> Fault {
        Fault::NoMemory
    }
}

impl<T: Drop> From<AllocFailed<T>> for Fault {
    ghost use Rattle.std.specs.Prelude.{◌≡◌};
    ghost use Rattle.expr_parse.specs.declared.fault.Fault.TheVariants.{NoMemory};

    ghost from_gives = { λ _ fault. fault ≡ NoMemory };

    fn from(_failed: AllocFailed<T>) -> Fault {
        Fault::NoMemory
    }
}
