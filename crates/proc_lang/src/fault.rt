//! Why a procedure is refused.

ghost use Rattle.std.specs.Prelude.{◌≡◌};
ghost use Rattle.proc_lang.specs.Faults as faults;

use sql_resolve::CheckFault;
use std::alloc::AllocError;
use thiserror::Error;

/// Why a procedure is refused. Of several faults the one of the least number counts.
#[derive(Clone, Copy, Debug, PartialEq, Eq, Error)]
pub enum ProcFault {
    /// Two parameters have one name.
    #[error("two parameters have one name")]
    DuplicateName,
    /// A fault of a statement or an expression. `NoSuchName` is also a column that a result has not, and
    /// a table or a column of the partitioning that isn't there. `TooMany` is also more than 64
    /// statements or 32 parameters, more than 255 values in a RETURN, and a VARCHAR whose length isn't
    /// from 1 to 2,048. It is neither `UnboundName` nor `NoMemory`, which stand below.
    #[error("{0}")]
    Check(CheckFault),
    /// A procedure that runs on one partition changes a table that all partitions have.
    #[error("a table that all partitions have is changed on one of them")]
    WritesReplicated,
    /// The parameter that is to choose the partition isn't there or is of another class than the
    /// column, or the column isn't the table's partitioning column.
    #[error("no parameter chooses the partition")]
    NotSinglePartition,
    /// A name of the program that nothing bound before, a `?` in a program, or a value of a program in
    /// a plain statement.
    #[error("a name of the program is not bound")]
    UnboundName,
    /// A variable gets another class or a result other columns than at first, a LET sets a truth value,
    /// or the condition of an IF is none.
    #[error("a value of the program is of another type")]
    BadType,
    /// Out of memory.
    #[error("out of memory")]
    NoMemory,
}

impl ProcFault {
    /// Its number among the numbers of all refusals of an input.
    pub fn code(self) -> u8
        ensures { result ≡ faults.code_of self }
    {
        match self {
            ProcFault::DuplicateName => 8,
            ProcFault::Check(fault) => fault.code(),
            ProcFault::WritesReplicated => 17,
            ProcFault::NotSinglePartition => 18,
            ProcFault::UnboundName => 19,
            ProcFault::BadType => 20,
            ProcFault::NoMemory => 255,
        }
    }

    /// A table or a column isn't there.
    pub(crate) fn no_such_name() -> ProcFault
        ensures { result ≡ faults.no_such_name }
    {
        ProcFault::Check(CheckFault::NoSuchName)
    }

    /// There is more of something than there may be.
    pub(crate) fn too_many() -> ProcFault
        ensures { result ≡ faults.too_many }
    {
        ProcFault::Check(CheckFault::TooMany)
    }

    /// The one of the lesser number, of a fault that was found before and this one.
    pub(crate) fn or_worse(self, before: Option<ProcFault>) -> ProcFault
        ensures { result ≡ faults.least before self }
    {
        match before {
            Some(before) if before.code() <= self.code() => before,
            _ => self,
        }
    }

    /// A fault of a statement or an expression as one of its procedure.
    fn of_check(fault: CheckFault) -> ProcFault
        ensures { result ≡ faults.of_check fault }
    {
        match fault {
            CheckFault::UnboundName => ProcFault::UnboundName,
            CheckFault::NoMemory => ProcFault::NoMemory,
            other => ProcFault::Check(other),
        }
    }
}

/// The worse of what was found before and a fault that is there or not.
pub(crate) fn worse_if(
    holds: bool,
    fault: ProcFault,
    before: Option<ProcFault>,
) -> Option<ProcFault>
    ensures { result ≡ faults.worse_if holds fault before }
{
    if holds {
        Some(fault.or_worse(before))
    } else {
        before
    }
}

/// The worse of what was found before and the fault of a statement or an expression.
pub(crate) fn with_check(fault: Option<CheckFault>, before: Option<ProcFault>) -> Option<ProcFault>
    ensures { result ≡ faults.with_check fault before }
{
    match fault {
        Some(fault) => Some(ProcFault::of_check(fault).or_worse(before)),
        None => before,
    }
}

impl From<AllocError> for ProcFault {
    ghost use Rattle.std.specs.Prelude.{◌≡◌};
    ghost use Rattle.proc_lang.specs.declared.fault.ProcFault.TheVariants.{NoMemory};

    ghost from_gives = { λ _ fault. fault ≡ NoMemory };

    fn from(_error: AllocError) -> ProcFault {
        ProcFault::NoMemory
    }
}
