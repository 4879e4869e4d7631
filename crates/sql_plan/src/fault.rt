//! Faults of statements.

ghost use Rattle.std.specs.Prelude.{◌≡◌};
ghost use Rattle.sql_plan.specs.Faults as faults;

use std::alloc::{AllocError, AllocFailed};

/// Why a statement failed. It then changed nothing. Of several faults the least counts.
#[derive(Clone, Copy, Debug, PartialEq, Eq)]
pub enum Fault {
    /// An integer expression left the range of BIGINT.
    Overflow,
    DivideByZero,
    /// A column that takes no NULL was to be NULL.
    NullInColumn,
    /// An integer is beyond the range of its column, or a LIMIT is NULL or below 0.
    OutOfRange,
    /// A text is longer than its column allows.
    TooLong,
    /// A procedure that runs on one partition inserted a row that lies in another.
    WrongPartition,
    /// Two rows of a table would agree on a unique key.
    Duplicate,
    /// More than 10,000 rows, or groups.
    TooManyRows,
}

impl Fault {
    /// Its number, from 1 to 8. The least fault is the one of the least number.
    pub fn code(self) -> u8
        ensures { result ≡ faults.code_of self }
    {
        match self {
            Fault::Overflow => 1,
            Fault::DivideByZero => 2,
            Fault::NullInColumn => 3,
            Fault::OutOfRange => 4,
            Fault::TooLong => 5,
            Fault::WrongPartition => 6,
            Fault::Duplicate => 7,
            Fault::TooManyRows => 8,
        }
    }

    /// The fault of a number. `None` where there is none.
    pub fn of_code(code: u8) -> Option<Fault>
        ensures { result ≡ faults.fault_of code }
    {
        match code {
            1 => Some(Fault::Overflow),
            2 => Some(Fault::DivideByZero),
            3 => Some(Fault::NullInColumn),
            4 => Some(Fault::OutOfRange),
            5 => Some(Fault::TooLong),
            6 => Some(Fault::WrongPartition),
            7 => Some(Fault::Duplicate),
            8 => Some(Fault::TooManyRows),
            _ => None,
        }
    }
}

/// Why a statement wasn't run to its end.
#[derive(Clone, Copy, Debug, PartialEq, Eq)]
pub enum RunFault {
    Fault(Fault),
    /// Out of memory.
    NoMemory,
}

impl From<Fault> for RunFault {
    ghost use Rattle.std.specs.Prelude.{◌≡◌};
    ghost use Rattle.sql_plan.specs.declared.fault.RunFault.TheVariants as run;

    ghost from_gives = { λ fault made. made ≡ run.Fault fault };

    fn from(fault: Fault) -> RunFault {
        RunFault::Fault(fault)
    }
}

impl From<AllocError> for RunFault {
    ghost use Rattle.std.specs.Prelude.{◌≡◌};
    ghost use Rattle.sql_plan.specs.declared.fault.RunFault.TheVariants as run;

    ghost from_gives = { λ _ made. made ≡ run.NoMemory };

    fn from(_error: AllocError) -> RunFault {
        RunFault::NoMemory
    }
}

impl<T: Drop> From<AllocFailed<T>> for RunFault {
    ghost use Rattle.std.specs.Prelude.{◌≡◌};
    ghost use Rattle.sql_plan.specs.declared.fault.RunFault.TheVariants as run;

    ghost from_gives = { λ _ made. made ≡ run.NoMemory };

    fn from(_failed: AllocFailed<T>) -> RunFault {
        RunFault::NoMemory
    }
}
