//! Why an index refuses an entry.

use std::alloc::{AllocError, AllocFailed};

/// Why an entry isn't put into an index.
#[derive(Clone, Copy, Debug, PartialEq, Eq)]
pub enum IndexFault {
    /// The index is unique and holds the key, at this place.
    Duplicate(u32),
    /// Memory was wanting.
    NoMemory,
}

impl From<AllocError> for IndexFault {
    ghost use Rattle.std.specs.Prelude.{◌≡◌};
    ghost use Rattle.volt_index.specs.declared.fault.IndexFault.TheVariants.{NoMemory};

    ghost from_gives = { λ _ fault. fault ≡ NoMemory };

    fn from(_failed: AllocError) -> IndexFault {
        IndexFault::NoMemory
    }
}

impl<T: Drop> From<AllocFailed<T>> for IndexFault {
    ghost use Rattle.std.specs.Prelude.{◌≡◌};
    ghost use Rattle.volt_index.specs.declared.fault.IndexFault.TheVariants.{NoMemory};

    ghost from_gives = { λ _ fault. fault ≡ NoMemory };

    fn from(_failed: AllocFailed<T>) -> IndexFault {
        IndexFault::NoMemory
    }
}
