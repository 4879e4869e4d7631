//! What an expression stands for, while it is put together from the left.

ghost use Rattle.std.specs.Prelude.{◌≡◌, [], ◌∷◌, IfOk, OnOk};
ghost use Rattle.sql_resolve.specs.Expressions as spec;

use crate::fault::CheckFault;
use crate::notes::Notes;
use expr_parse::Arithmetic;
use sql_plan::{Cond, Scalar};
use sqlite_items::{Boxed, Items};
use std::alloc::{AllocError, Global};
use std::mem::replace;
use volt_value::Value;

/// What an expression stands for. An operator that groups to the left may have more operands behind.
#[derive(Debug, Drop)]
pub enum Resolved {
    /// NULL, which is a value or a truth value.
    Null,
    Value(Scalar),
    /// An operand, and then operations with their right operands. All are `+` and `-`, or all are `*`
    /// and `/`.
    Chain {
        first: Scalar,
        rest: Items<(Arithmetic, Scalar)>,
    },
    Truth(Cond),
    And(Items<Cond>),
    Or(Items<Cond>),
}

/// An operator that groups to the left, with what its right operand stands for.
#[derive(Debug, Drop)]
pub enum RightSide {
    Calculate(Arithmetic, Scalar),
    And(Cond),
    Or(Cond),
}

fn is_sum(operation: Arithmetic) -> bool
    ensures { result ≡ spec.is_sum operation }
{
    match operation {
        Arithmetic::Add | Arithmetic::Subtract => true,
        Arithmetic::Multiply | Arithmetic::Divide => false,
    }
}

/// Whether an operation groups as these do.
fn group_alike(operation: Arithmetic, rest: &[(Arithmetic, Scalar)]) -> bool
    ensures { result ≡ spec.group_alike operation rest.now }
{
    match rest {
        [] => true,
        [next, ..] => is_sum(operation) == is_sum(next.0),
    }
}

impl Resolved {
    /// As a value. A truth value is a fault.
    pub(crate) fn into_scalar(self, alloc: Global, notes: &mut Notes) -> Result<Scalar, AllocError>
        ensures { IfOk result (λ x. (notes.new, x) ≡ spec.as_scalar self notes.old) }
    {
        match self {
            Resolved::Null => Ok(Scalar::Literal(Value::Null)),
            Resolved::Value(x) => Ok(x),
            Resolved::Chain { first, rest } => Ok(Scalar::Chain {
                first: Boxed::new(alloc, first)?,
                rest,
            }),
            _ => {
                notes.blame(CheckFault::TypeMismatch);
                Ok(Scalar::Literal(Value::Null))
            }
        }
    }

    /// As a truth value. A value other than NULL is a fault.
    pub(crate) fn into_cond(self, notes: &mut Notes) -> Cond
        ensures { (notes.new, result) ≡ spec.as_cond self notes.old }
    {
        match self {
            Resolved::Null => Cond::Unknown,
            Resolved::Truth(x) => x,
            Resolved::And(conditions) => Cond::And(conditions),
            Resolved::Or(conditions) => Cond::Or(conditions),
            _ => {
                notes.blame(CheckFault::TypeMismatch);
                Cond::Unknown
            }
        }
    }
}

fn chain_of(
    alloc: Global,
    first: Scalar,
    operation: Arithmetic,
    right: Scalar,
) -> Result<Resolved, AllocError>
    ensures { IfOk result (λ x. x ≡ Resolved.Chain first ((operation, right) ∷ [])) }
{
    let mut rest = Items::new(alloc);
    rest.push((operation, right))?;
    Ok(Resolved::Chain { first, rest })
}

/// An operation behind what stands on its left.
fn chained(
    alloc: Global,
    notes: &mut Notes,
    operation: Arithmetic,
    left: Resolved,
    right: Scalar,
) -> Result<Resolved, AllocError>
    ensures { IfOk result (λ x. (notes.new, x) ≡ spec.chained operation left right notes.old) }
{
    match left {
        Resolved::Chain { first, mut rest } => {
            if group_alike(operation, rest.as_slice()) {
                rest.push((operation, right))?;
                Ok(Resolved::Chain { first, rest })
            } else {
                let first = Scalar::Chain {
                    first: Boxed::new(alloc, first)?,
                    rest,
                };
                chain_of(alloc, first, operation, right)
            }
        }
        other => {
            let first = other.into_scalar(alloc, notes)?;
            chain_of(alloc, first, operation, right)
        }
    }
}

fn pair(alloc: Global, left: Cond, right: Cond) -> Result<Items<Cond>, AllocError>
    ensures { IfOk result (λ x. x ≡ left ∷ right ∷ []) }
{
    let mut both = Items::new(alloc);
    both.push(left)?;
    both.push(right)?;
    Ok(both)
}

/// An AND behind what stands on its left.
fn conjoined(
    alloc: Global,
    notes: &mut Notes,
    left: Resolved,
    right: Cond,
) -> Result<Resolved, AllocError>
    ensures { IfOk result (λ x. (notes.new, x) ≡ spec.conjoined left right notes.old) }
{
    match left {
        Resolved::And(mut conditions) => {
            conditions.push(right)?;
            Ok(Resolved::And(conditions))
        }
        other => {
            let left = other.into_cond(notes);
            Ok(Resolved::And(pair(alloc, left, right)?))
        }
    }
}

/// An OR behind what stands on its left.
fn disjoined(
    alloc: Global,
    notes: &mut Notes,
    left: Resolved,
    right: Cond,
) -> Result<Resolved, AllocError>
    ensures { IfOk result (λ x. (notes.new, x) ≡ spec.disjoined left right notes.old) }
{
    match left {
        Resolved::Or(mut conditions) => {
            conditions.push(right)?;
            Ok(Resolved::Or(conditions))
        }
        other => {
            let left = other.into_cond(notes);
            Ok(Resolved::Or(pair(alloc, left, right)?))
        }
    }
}

/// An operator with its right side, behind what stands on its left.
fn joined(
    alloc: Global,
    notes: &mut Notes,
    left: Resolved,
    right: RightSide,
) -> Result<Resolved, AllocError>
    ensures { IfOk result (λ x. (notes.new, x) ≡ spec.joined_to left right notes.old) }
{
    match right {
        RightSide::Calculate(operation, right) => chained(alloc, notes, operation, left, right),
        RightSide::And(right) => conjoined(alloc, notes, left, right),
        RightSide::Or(right) => disjoined(alloc, notes, left, right),
    }
}

/// Puts an operator with its right side behind what stands on its left.
pub(crate) fn join(
    alloc: Global,
    notes: &mut Notes,
    left: &mut Resolved,
    right: RightSide,
) -> Result<(), AllocError>
    ensures { OnOk result ((notes.new, left.new) ≡ spec.joined_to left.old right notes.old) }
{
    let before = replace(left, Resolved::Null);
    *left = joined(alloc, notes, before, right)?;
    Ok(())
}
