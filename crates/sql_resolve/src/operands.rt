//! Operators that group to the left: a chain of them is gone through by a loop.

ghost use Rattle.std.specs.Prelude.{◌≡◌, ◌<◌, true, false, IfOk, None};
ghost use Rattle.std.specs.Option.{IfSome};
ghost use Rattle.expr_parse.specs.declared.expression.Expr.{size-Expr};
ghost use Rattle.sql_resolve.specs.declared.notes.Notes.{Notes};
ghost use Rattle.sql_resolve.specs.Expressions.{joined_at, meaning_of};
ghost use Rattle.sql_resolve.specs.Named.{Tables};
ghost use Rattle.sql_resolve.specs.Operands as spec;

use expr_parse::{Arithmetic, Expr};
use std::alloc::{AllocError, Global};
use volt_value::Class;

/// An operator that groups to the left.
#[derive(Clone, Copy, Debug, PartialEq, Eq)]
pub enum Operator {
    Calculate(Arithmetic),
    And,
    Or,
}

/// The last operator of an expression, with its operands.
fn last_operator(e: &Expr) -> Option<(Operator, &Expr, &Expr)>
    ensures joined { IfSome result (λ last. (names : Tables) (notes : Notes) → (meaning_of names e.now).resolve Class.Int notes ≡ joined_at last.0 (meaning_of names last.1.now) (meaning_of names last.2.now) notes) }
    ensures less { IfSome result (λ last. (size-Expr last.1.now < size-Expr e.now) × (size-Expr last.2.now < size-Expr e.now)) }
    ensures none { result ≡ None → spec.is_operator e.now ≡ false }
    ensures single { result ≡ None → (names : Tables) (notes : Notes) → (meaning_of names e.now).resolve Class.Int notes ≡ (meaning_of names e.now).single Class.Int notes }
{
    match e {
        Expr::Calculate(operation, left, right) => {
            Some((Operator::Calculate(*operation), left.get(), right.get()))
        }
        Expr::And(left, right) => Some((Operator::And, left.get(), right.get())),
        Expr::Or(left, right) => Some((Operator::Or, left.get(), right.get())),
        _ => None,
    }
}

/// The leftmost operand of an operator, and the operators behind it with their right operands, the last
/// one first.
pub(crate) fn operands<'a>(
    alloc: Global,
    e: &'a Expr,
) -> Result<(&'a Expr, Vec<(Operator, &'a Expr)>), AllocError>
    requires { spec.is_operator e.now ≡ true }
    ensures joined { IfOk result (λ found. (names : Tables) (notes : Notes) → spec.joined_all names ((meaning_of names found.0.now).single Class.Int notes) found.1.items ≡ (meaning_of names e.now).resolve Class.Int notes) }
    ensures first { IfOk result (λ found. size-Expr found.0.now < size-Expr e.now) }
    ensures behind { IfOk result (λ found. spec.AreBelow (size-Expr e.now) found.1.items) }
{
    let mut first = e;
    let mut behind = Vec::new(alloc);
    'leftward: while let Some((operator, left, right)) = last_operator(first) {
        behind.push((operator, right))?;
        first = left;
    }
    Ok((first, behind))
}
