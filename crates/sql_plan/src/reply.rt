//! What a call answers.

use crate::fault::Fault;
use crate::row::Rows;
use volt_value::Text;

/// Why a call was aborted. It then changed nothing.
#[derive(Debug, Drop)]
pub enum Cause {
    /// An ABORT of the program, with its text.
    User(Text),
    /// A statement or an expression failed.
    Fault(Fault),
    /// It was to run a 201st statement.
    Statements,
    /// It was to run a 100,001st step.
    Steps,
    /// Its reply takes more than 262,144 bytes.
    Size,
}

/// What a call answers.
#[derive(Debug, Drop)]
pub enum ProcReply {
    Ok(Rows),
    Abort(Cause),
}
