//! Compiled programs.

use crate::expression::{Cond, Scalar};
use crate::prepared::Prepared;
use sqlite_items::Items;
use volt_value::{Class, Text};

/// What a procedure does. A procedure that is a plain statement runs it with all its parameters and
/// returns its rows.
///
/// While it runs, a program knows the values of its variables, the rows of its results, and the row
/// that each FOR is at. Each stands in it by its number from 0.
#[derive(Debug, Drop)]
pub struct Program {
    /// The class of each variable. The parameters come first in their order; the others are NULL
    /// until they are set.
    pub variables: Items<Class>,
    /// The classes of the columns of each result. A result has no rows until it is made.
    pub results: Items<Items<Class>>,
    /// How many FORs stand in one another at most.
    pub rows: usize,
    /// The statements in the order of the text, those that are never reached too.
    pub statements: Items<Prepared>,
    /// The steps. Behind the last one the program returns no rows.
    pub steps: Items<ProgramStep>,
}

/// A step of a program.
///
/// An expression of a step is over no row. Its arguments are what it takes from the program, one for
/// each place where the text takes a value, from left to right.
#[derive(Debug, Drop)]
pub enum ProgramStep {
    /// Sets a variable.
    Let {
        variable: usize,
        args: Items<ProgramValue>,
        value: Scalar,
    },
    /// Runs a statement with these arguments, and keeps its rows as a result where one is named.
    Sql {
        statement: u16,
        args: Items<ProgramValue>,
        result: Option<usize>,
    },
    /// Takes the first steps where the condition is true, and else the others.
    If {
        args: Items<ProgramValue>,
        condition: Cond,
        steps: Items<ProgramStep>,
        otherwise: Items<ProgramStep>,
    },
    /// Takes the steps for each row that the result has when the step is reached.
    For {
        /// How many FORs this one stands in, which is the number of its row.
        row: usize,
        result: usize,
        steps: Items<ProgramStep>,
    },
    /// Ends the call with this text, and undoes what it changed.
    Abort(Text),
    /// Ends the call.
    Return(Returned),
}

/// What a program returns.
#[derive(Debug, Drop)]
pub enum Returned {
    /// No rows.
    Nothing,
    /// The rows of a result.
    Result(usize),
    /// One row of these values. The arguments are those of all of them.
    Values {
        args: Items<ProgramValue>,
        /// One or more.
        values: Items<Scalar>,
    },
}

/// A value that an expression or a statement takes from its program.
#[derive(Clone, Copy, Debug, PartialEq, Eq)]
pub enum ProgramValue {
    /// A variable or a parameter.
    Variable(usize),
    /// A column of the row of a FOR.
    Column { row: usize, column: usize },
    /// How many rows a result has.
    Rows(usize),
    /// A column of a result's first row: NULL where it has no row.
    First { result: usize, column: usize },
}
