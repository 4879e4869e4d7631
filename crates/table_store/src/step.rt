//! What undoes a change.

ghost use Rattle.std.specs.Prelude.{◌≡◌, OnOk, OnErr, IfErr};
ghost use Rattle.table_store.specs.Steps.{undone, CanUndo};

use table_rows::TableRows;
use volt_index::Key;
use volt_value::Value;

/// What undoes a change of one row of a table.
#[derive(Drop)]
pub(crate) enum Step {
    /// The row of this key was put in.
    Inserted(u16, Key),
    /// This row was taken out.
    Deleted(u16, Vec<Value>),
    /// This row, whose key this is, had another put in its place.
    Updated(u16, Key, Vec<Value>),
}

impl Step {
    /// Undoes the change. Out of memory, the tables stay as they were and the step is given back.
    pub(crate) fn undo(self, tables: &mut Vec<TableRows>) -> Result<(), Step>
        requires { CanUndo self tables.old.items }
        ensures undone { OnOk result (tables.new.items ≡ undone self tables.old.items) }
        ensures back { IfErr result (λ step. step ≡ self) }
        ensures kept { OnErr result (tables.new.items ≡ tables.old.items) }
    {
        match self {
            Step::Inserted(number, key) => match tables[number as usize].delete(&key) {
                Ok(_) => Ok(()),
                Err(_) => Err(Step::Inserted(number, key)),
            },
            Step::Deleted(number, row) => match tables[number as usize].insert(row.as_slice()) {
                Ok(()) => Ok(()),
                Err(_) => Err(Step::Deleted(number, row)),
            },
            Step::Updated(number, key, row) => {
                match tables[number as usize].update(&key, row.as_slice()) {
                    Ok(_) => Ok(()),
                    Err(_) => Err(Step::Updated(number, key, row)),
                }
            }
        }
    }
}
