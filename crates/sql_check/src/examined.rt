//! Statements with their faults.

ghost use Rattle.std.specs.Prelude.{◌≡◌};
ghost use Rattle.sql_check.specs.Checked as checked;
ghost use Rattle.sql_check.specs.Statements as spec;

use sql_plan::{Action, Prepared, ProgramValue, Scope};
use sql_resolve::{CheckFault, Names, Notes};
use sqlite_items::Items;
use volt_value::{Class, Text};

/// How many `?` a statement may have.
const MOST_QUESTIONS: usize = 32;

/// How many places a statement may have that take a value of its program.
const MOST_PLACES: usize = 255;

/// How many outputs a statement may have.
const MOST_COLUMNS: usize = 255;

/// A statement with its faults.
#[derive(Debug, Drop)]
pub struct Examined {
    /// What it is where there is no fault. Its parameters and columns are right as far as they can be
    /// told also where there are faults.
    pub prepared: Prepared,
    /// The values of its program that it takes, one for each of its parameters. A statement outside of
    /// programs takes none.
    pub args: Items<ProgramValue>,
    /// The fault of the least number.
    pub fault: Option<CheckFault>,
}

impl Examined {
    /// The statement, where it has no fault.
    pub(crate) fn accept(self) -> Result<Prepared, CheckFault>
        ensures { result ≡ checked.accepted self.fault self.prepared }
    {
        match self.fault {
            Some(fault) => Err(fault),
            None => Ok(self.prepared),
        }
    }
}

fn scope_of(single: bool, partitioned: bool) -> Scope
    ensures { result ≡ spec.scope_of single partitioned }
{
    if single {
        Scope::OnePartition
    } else if partitioned {
        Scope::AllPartitions
    } else {
        Scope::Replicated
    }
}

/// How many parameters a statement may have.
fn most_params(names: &Names<'_>) -> usize
    ensures { result ≡ spec.most_params names.now.program }
{
    if names.has_program() {
        MOST_PLACES
    } else {
        MOST_QUESTIONS
    }
}

/// A statement with its faults.
pub(crate) fn finish(
    names: &Names<'_>,
    single: bool,
    partitioned: bool,
    columns: Items<(Text, Class)>,
    notes: Notes,
    action: Action,
) -> Examined
    ensures { result ≡ spec.finished names.now.program single partitioned columns notes action }
{
    let mut notes = notes;
    let params = notes.params.len();
    notes.limit(most_params(names), params);
    notes.limit(MOST_COLUMNS, columns.len());
    Examined {
        prepared: Prepared {
            scope: scope_of(single, partitioned),
            params: notes.params,
            columns,
            action,
        },
        args: notes.args,
        fault: notes.fault,
    }
}
