//! Expressions.

use expr_parse::{Arithmetic, Comparison};
use sqlite_items::{Boxed, Items};
use volt_value::Value;

/// An expression that gives a value, over a row and a list of arguments. It has a meaning on any
/// row and arguments: what isn't there is NULL. A truth value never stands in it.
///
/// An operator of SQL that groups to the left is one node with all its operands. So an expression
/// is at most some 200 levels deep, since parentheses, NOT and unary minus nest at most 100 deep, and
/// what recurses on it needs little stack.
#[derive(Debug, Drop)]
pub enum Scalar {
    /// NULL, a number or a text.
    Literal(Value),
    /// A column, by its number from 0 in the row. In a SELECT over two tables the row is a row of
    /// the left table with one of the right behind it.
    Column(usize),
    /// An argument, by its number from 0.
    Param(usize),
    /// Unary minus.
    Negate(Boxed<Scalar>),
    /// The first operand, and then each operation with its right operand, in order from the left.
    Chain {
        first: Boxed<Scalar>,
        /// One or more. They are `+` and `-` alone, or `*` and `/` alone.
        rest: Items<(Arithmetic, Scalar)>,
    },
}

/// An expression that gives a truth value: true, false, or unknown.
#[derive(Debug, Drop)]
pub enum Cond {
    /// NULL, where a truth value stands.
    Unknown,
    Compare(Comparison, Scalar, Scalar),
    /// `value IS NULL`. IS NOT NULL is this under `Not`.
    IsNull(Scalar),
    /// `value BETWEEN low AND high`: both comparisons, joined by AND. NOT BETWEEN is this under
    /// `Not`.
    Between {
        value: Scalar,
        low: Scalar,
        high: Scalar,
    },
    /// `value IN (items)`: a comparison with each item, joined by OR. NOT IN is this under `Not`.
    In {
        value: Scalar,
        /// One or more.
        items: Items<Scalar>,
    },
    Not(Boxed<Cond>),
    /// All of them, in order from the left. Once one is false no further one is evaluated. Without
    /// any it is true, as a WHERE that isn't written.
    And(Items<Cond>),
    /// Some of them, in order from the left. Once one is true no further one is evaluated. Without
    /// any it is false.
    Or(Items<Cond>),
}
