//! Why a row is refused.

ghost use Rattle.std.specs.Prelude.{◌≡◌};
ghost use Rattle.row_codec.specs.Faults as faults;

use std::alloc::{AllocError, AllocFailed};

/// Why a row isn't put into a table. Where several reasons stand together, the first of this list is
/// given.
#[derive(Clone, Copy, Debug, PartialEq, Eq)]
pub enum RowFault {
    /// NULL in a column that takes none.
    NullInColumn,
    /// An integer beyond the range of its column's type.
    OutOfRange,
    /// A text of more bytes than its column's type allows.
    TooLong,
    /// Another row has the same values in the columns of a unique key.
    Duplicate,
    /// Memory was wanting.
    NoMemory,
}

impl RowFault {
    /// Its number among the faults, from 0.
    fn rank(self) -> u8
        ensures { result ≡ faults.rank self }
    {
        match self {
            RowFault::NullInColumn => 0,
            RowFault::OutOfRange => 1,
            RowFault::TooLong => 2,
            RowFault::Duplicate => 3,
            RowFault::NoMemory => 4,
        }
    }

    /// Of two faults, where there are any, the one that counts.
    pub fn least(a: Option<RowFault>, b: Option<RowFault>) -> Option<RowFault>
        ensures { result ≡ faults.least a b }
    {
        match (a, b) {
            (None, b) => b,
            (a, None) => a,
            (Some(a), Some(b)) => Some(if a.rank() <= b.rank() { a } else { b }),
        }
    }
}

impl From<AllocError> for RowFault {
    ghost use Rattle.std.specs.Prelude.{◌≡◌};
    ghost use Rattle.row_codec.specs.declared.fault.RowFault.TheVariants.{NoMemory};

    ghost from_gives = { λ _ fault. fault ≡ NoMemory };

    fn from(_failed: AllocError) -> RowFault {
        RowFault::NoMemory
    }
}

impl<T: Drop> From<AllocFailed<T>> for RowFault {
    ghost use Rattle.std.specs.Prelude.{◌≡◌};
    ghost use Rattle.row_codec.specs.declared.fault.RowFault.TheVariants.{NoMemory};

    ghost from_gives = { λ _ fault. fault ≡ NoMemory };

    fn from(_failed: AllocFailed<T>) -> RowFault {
        RowFault::NoMemory
    }
}
