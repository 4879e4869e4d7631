//! Expressions of steps.

ghost use Rattle.std.specs.Prelude.{◌≡◌, IfOk};
ghost use Rattle.sql_resolve.specs.Expressions.{meaning_of};
ghost use Rattle.sql_resolve.specs.Notes.{nothing};
ghost use Rattle.proc_lang.specs.Values as spec;

use expr_parse::Expr;
use sql_plan::{Cond, Scalar};
use sql_resolve::{Bound, Names, Notes, Sort, alone, condition, sort_of};
use sqlite_items::Items;
use std::alloc::{AllocError, Global};
use volt_value::Value;

/// What names stand for in an expression of a step, in front of which this is bound.
pub(crate) fn names_of(bound: &Bound) -> Names<'_>
    ensures { result ≡ spec.names_of bound.now }
{
    Names::none().in_program(Some(bound))
}

pub(crate) fn is_truth(sort: Sort) -> bool
    ensures { result ≡ spec.is_truth sort }
{
    match sort {
        Sort::Truth => true,
        _ => false,
    }
}

/// Whether it may stand where a condition does: NULL does too.
pub(crate) fn may_be_truth(sort: Sort) -> bool
    ensures { result ≡ spec.may_be_truth sort }
{
    match sort {
        Sort::Truth | Sort::Null => true,
        _ => false,
    }
}

/// What an expression of a step gives.
pub(crate) fn sort_in(bound: &Bound, e: &Expr) -> Sort
    ensures { result ≡ (meaning_of (spec.names_of bound.now) e.now).sort }
{
    sort_of(&names_of(bound), e)
}

/// The value of a LET. A truth value is none, which is noted elsewhere.
fn value(
    alloc: Global,
    names: &Names<'_>,
    notes: &mut Notes,
    e: &Expr,
) -> Result<Scalar, AllocError>
    ensures { IfOk result (λ x. (notes.new, x) ≡ spec.value_in (meaning_of names.now e.now) notes.old) }
{
    if is_truth(sort_of(names, e)) {
        condition(alloc, names, notes, e)?;
        return Ok(Scalar::Literal(Value::Null));
    }
    alone(alloc, names, notes, e)
}

/// The value of a LET, and what is found out about it.
pub(crate) fn value_of(
    alloc: Global,
    bound: &Bound,
    e: &Expr,
) -> Result<(Notes, Scalar), AllocError>
    ensures { IfOk result (λ found. found ≡ spec.value_in (meaning_of (spec.names_of bound.now) e.now) nothing) }
{
    let mut notes = Notes::new(alloc);
    let made = value(alloc, &names_of(bound), &mut notes, e)?;
    Ok((notes, made))
}

/// The condition of an IF. A value is none, which is noted elsewhere.
fn condition_by(
    alloc: Global,
    names: &Names<'_>,
    notes: &mut Notes,
    e: &Expr,
) -> Result<Cond, AllocError>
    ensures { IfOk result (λ x. (notes.new, x) ≡ spec.condition_in (meaning_of names.now e.now) notes.old) }
{
    if may_be_truth(sort_of(names, e)) {
        return condition(alloc, names, notes, e);
    }
    alone(alloc, names, notes, e)?;
    Ok(Cond::Unknown)
}

/// The condition of an IF, and what is found out about it.
pub(crate) fn condition_of(
    alloc: Global,
    bound: &Bound,
    e: &Expr,
) -> Result<(Notes, Cond), AllocError>
    ensures { IfOk result (λ found. found ≡ spec.condition_in (meaning_of (spec.names_of bound.now) e.now) nothing) }
{
    let mut notes = Notes::new(alloc);
    let made = condition_by(alloc, &names_of(bound), &mut notes, e)?;
    Ok((notes, made))
}

/// The values of a RETURN.
pub(crate) fn values(
    alloc: Global,
    names: &Names<'_>,
    notes: &mut Notes,
    expressions: &[Expr],
) -> Result<Items<Scalar>, AllocError>
    ensures { IfOk result (λ xs. (notes.new, xs) ≡ spec.values_in names.now expressions.now notes.old) }
{
    let mut values = Items::new(alloc);
    for e in expressions {
        values.push(alone(alloc, names, notes, e)?)?;
    }
    Ok(values)
}
