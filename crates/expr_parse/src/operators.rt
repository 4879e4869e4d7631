//! Operators, and what they make of their operands.

ghost use Rattle.std.specs.Prelude.{◌≡◌, IfOk};
ghost use Rattle.expr_parse.specs.Reads.{Chooses};
ghost use Rattle.expr_parse.specs.Expressions as spec;

use crate::cursor::Tokens;
use crate::expression::{Arithmetic, Comparison, Expr};
use sql_grammar::Kind;
use sqlite_items::{Boxed, Items};
use std::alloc::{AllocError, Global};

/// `*` or `/`.
pub fn scaling(tokens: &mut Tokens<'_>) -> Option<Arithmetic>
    ensures { Chooses spec.scaling result tokens.old tokens.new }
{
    if tokens.eat(Kind::Star) {
        Some(Arithmetic::Multiply)
    } else if tokens.eat(Kind::Slash) {
        Some(Arithmetic::Divide)
    } else {
        None
    }
}

/// `+` or `-`.
pub fn adding(tokens: &mut Tokens<'_>) -> Option<Arithmetic>
    ensures { Chooses spec.adding result tokens.old tokens.new }
{
    if tokens.eat(Kind::Plus) {
        Some(Arithmetic::Add)
    } else if tokens.eat(Kind::Minus) {
        Some(Arithmetic::Subtract)
    } else {
        None
    }
}

/// `=`, `<>`, `!=`, `<`, `<=`, `>` or `>=`.
pub fn comparing(tokens: &mut Tokens<'_>) -> Option<Comparison>
    ensures { Chooses spec.comparing result tokens.old tokens.new }
{
    if tokens.eat(Kind::Equal) {
        Some(Comparison::Equal)
    } else if tokens.eat(Kind::NotEqual) {
        Some(Comparison::NotEqual)
    } else if tokens.eat(Kind::Less) {
        Some(Comparison::Less)
    } else if tokens.eat(Kind::LessEqual) {
        Some(Comparison::LessOrEqual)
    } else if tokens.eat(Kind::Greater) {
        Some(Comparison::Greater)
    } else if tokens.eat(Kind::GreaterEqual) {
        Some(Comparison::GreaterOrEqual)
    } else {
        None
    }
}

pub fn parenthesize(alloc: Global, inner: Expr) -> Result<Expr, AllocError>
    ensures { IfOk result (λ e. e ≡ Expr.Parenthesized inner) }
{
    Ok(Expr::Parenthesized(Boxed::new(alloc, inner)?))
}

pub fn negate(alloc: Global, operand: Expr) -> Result<Expr, AllocError>
    ensures { IfOk result (λ e. e ≡ Expr.Negate operand) }
{
    Ok(Expr::Negate(Boxed::new(alloc, operand)?))
}

pub fn invert(alloc: Global, operand: Expr) -> Result<Expr, AllocError>
    ensures { IfOk result (λ e. e ≡ Expr.Not operand) }
{
    Ok(Expr::Not(Boxed::new(alloc, operand)?))
}

pub fn is_null(alloc: Global, value: Expr, negated: bool) -> Result<Expr, AllocError>
    ensures { IfOk result (λ e. e ≡ Expr.IsNull value negated) }
{
    Ok(Expr::IsNull {
        value: Boxed::new(alloc, value)?,
        negated,
    })
}

pub fn is_in(
    alloc: Global,
    value: Expr,
    items: Items<Expr>,
    negated: bool,
) -> Result<Expr, AllocError>
    ensures { IfOk result (λ e. e ≡ Expr.In value items negated) }
{
    Ok(Expr::In {
        value: Boxed::new(alloc, value)?,
        items,
        negated,
    })
}

/// Both operands, each in a box.
fn boxed(alloc: Global, left: Expr, right: Expr) -> Result<(Boxed<Expr>, Boxed<Expr>), AllocError>
    ensures { IfOk result (λ boxes. (boxes.0 ≡ left) × (boxes.1 ≡ right)) }
{
    match Boxed::new(alloc, left) {
        Ok(left) => Ok((left, Boxed::new(alloc, right)?)),
        Err(error) => {
            drop(right);
            Err(error)
        }
    }
}

pub fn calculate(
    alloc: Global,
    operator: Arithmetic,
    left: Expr,
    right: Expr,
) -> Result<Expr, AllocError>
    ensures { IfOk result (λ e. e ≡ Expr.Calculate operator left right) }
{
    let (left, right) = boxed(alloc, left, right)?;
    Ok(Expr::Calculate(operator, left, right))
}

pub fn compare(
    alloc: Global,
    operator: Comparison,
    left: Expr,
    right: Expr,
) -> Result<Expr, AllocError>
    ensures { IfOk result (λ e. e ≡ Expr.Compare operator left right) }
{
    let (left, right) = boxed(alloc, left, right)?;
    Ok(Expr::Compare(operator, left, right))
}

pub fn between(
    alloc: Global,
    value: Expr,
    low: Expr,
    high: Expr,
    negated: bool,
) -> Result<Expr, AllocError>
    ensures { IfOk result (λ e. e ≡ Expr.Between value low high negated) }
{
    let value = match Boxed::new(alloc, value) {
        Ok(value) => value,
        Err(error) => {
            drop(low);
            drop(high);
            return Err(error);
        }
    };
    let (low, high) = boxed(alloc, low, high)?;
    Ok(Expr::Between {
        value,
        low,
        high,
        negated,
    })
}

pub fn both(alloc: Global, left: Expr, right: Expr) -> Result<Expr, AllocError>
    ensures { IfOk result (λ e. e ≡ Expr.And left right) }
{
    let (left, right) = boxed(alloc, left, right)?;
    Ok(Expr::And(left, right))
}

pub fn either(alloc: Global, left: Expr, right: Expr) -> Result<Expr, AllocError>
    ensures { IfOk result (λ e. e ≡ Expr.Or left right) }
{
    let (left, right) = boxed(alloc, left, right)?;
    Ok(Expr::Or(left, right))
}
