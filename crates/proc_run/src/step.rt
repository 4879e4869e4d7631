//! Steps of a run.

use sql_plan::{Cause, Rows};
use volt_value::Value;

/// What a run comes to.
#[derive(Debug, Drop)]
pub enum Step {
    /// A statement of the program, by its number, is to be run with these arguments.
    NeedSql { statement: u16, args: Vec<Value> },
    /// The call has ended with these rows.
    Return(Rows),
    /// The call is aborted.
    Abort(Cause),
}
