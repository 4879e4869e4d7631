//! Why a statement is refused.

ghost use Rattle.std.specs.Prelude.{◌≡◌};
ghost use Rattle.sql_resolve.specs.Faults as faults;

use std::alloc::{AllocError, AllocFailed};
use thiserror::Error;

/// Why a statement is refused. Of several faults the one of the least number counts.
#[derive(Clone, Copy, Debug, PartialEq, Eq, Error)]
pub enum CheckFault {
    /// A table or a column isn't there; a column's name fits columns of both tables, both tables of a
    /// FROM go by one name, or an INSERT or a SET names a column twice.
    #[error("a name is not there")]
    NoSuchName,
    /// It has more than 32 `?`, more than 255 places that take a value of its program, or more than
    /// 255 outputs.
    #[error("there is too much of something")]
    TooMany,
    /// A value is of a class that doesn't fit where it stands, a truth value stands where none may, or
    /// an INSERT has not as many values as columns.
    #[error("a value does not fit where it stands")]
    TypeMismatch,
    /// A SELECT over two partitioned tables that each partition can't answer by itself.
    #[error("a join does not stay within partitions")]
    NotDistributable,
    /// A SET of a column of the primary key.
    #[error("a column of the primary key is set")]
    ChangesKey,
    /// A value of a program stands in a statement of its own, or a `?` in a program, or a name of the
    /// program that nothing bound before.
    #[error("a name of the program is not bound")]
    UnboundName,
    /// Out of memory.
    #[error("out of memory")]
    NoMemory,
}

impl CheckFault {
    /// Its number among the numbers of all refusals of an input.
    pub fn code(self) -> u8
        ensures { result ≡ faults.code_of self }
    {
        match self {
            CheckFault::NoSuchName => 9,
            CheckFault::TooMany => 13,
            CheckFault::TypeMismatch => 14,
            CheckFault::NotDistributable => 15,
            CheckFault::ChangesKey => 16,
            CheckFault::UnboundName => 19,
            CheckFault::NoMemory => 255,
        }
    }

    /// The one of the lesser number, of a fault that was found before and this one.
    pub(crate) fn or_worse(self, before: Option<CheckFault>) -> CheckFault
        ensures { result ≡ faults.least before self }
    {
        match before {
            Some(before) if before.code() <= self.code() => before,
            _ => self,
        }
    }
}

impl From<AllocError> for CheckFault {
    ghost use Rattle.std.specs.Prelude.{◌≡◌};
    ghost use Rattle.sql_resolve.specs.declared.fault.CheckFault.TheVariants.{NoMemory};

    ghost from_gives = { λ _ fault. fault ≡ NoMemory };

    fn from(_error: AllocError) -> CheckFault {
        CheckFault::NoMemory
    }
}

impl<T: Drop> From<AllocFailed<T>> for CheckFault {
    ghost use Rattle.std.specs.Prelude.{◌≡◌};
    ghost use Rattle.sql_resolve.specs.declared.fault.CheckFault.TheVariants.{NoMemory};

    ghost from_gives = { λ _ fault. fault ≡ NoMemory };

    fn from(_failed: AllocFailed<T>) -> CheckFault {
        CheckFault::NoMemory
    }
}
