//! From an expression to the value or the truth value that it stands for.

ghost use Rattle.std.specs.Prelude.{◌≡◌, true, map, is_some, IfOk, OnOk};
ghost use Rattle.sql_resolve.specs.Names.{column_of};
ghost use Rattle.sql_resolve.specs.Notes.{fitted};
ghost use Rattle.sql_resolve.specs.Operands.{is_operator};
ghost use Rattle.sql_resolve.specs.Expressions as spec;

use crate::bound::Given;
use crate::fault::CheckFault;
use crate::names::Names;
use crate::notes::Notes;
use crate::operands::{Operator, operands};
use crate::resolved::{Resolved, RightSide, join};
use crate::sort::{common_among, common_of_three, common_of_two, sort_of};
use expr_parse::{ColumnName, Expr};
use sql_plan::{Cond, Scalar};
use sqlite_items::{Boxed, Items};
use std::alloc::{AllocError, Global};
use volt_value::{Class, Text, Value};

/// A column by its number, where a value of a class is wanted.
fn column(names: &Names<'_>, notes: &mut Notes, name: &ColumnName, class: Class) -> Resolved
    ensures { (notes.new, result) ≡ spec.column_found (column_of names.now name.now) class notes.old }
{
    match names.column(name) {
        Some(column) => {
            notes.fit(column.class, class);
            Resolved::Value(Scalar::Column(column.number))
        }
        None => {
            notes.blame(CheckFault::NoSuchName);
            Resolved::Null
        }
    }
}

fn negated_if(alloc: Global, negated: bool, condition: Cond) -> Result<Cond, AllocError>
    ensures { IfOk result (λ x. x ≡ spec.negated_if negated condition) }
{
    if negated {
        Ok(Cond::Not(Boxed::new(alloc, condition)?))
    } else {
        Ok(condition)
    }
}

/// A copy of a text, where a value of a class is wanted.
fn text_literal(
    alloc: Global,
    notes: &mut Notes,
    text: &Text,
    class: Class,
) -> Result<Resolved, AllocError>
    ensures noted { OnOk result (notes.new ≡ fitted Class.Text class notes.old) }
    ensures made { IfOk result (λ x. x ≡ Resolved.Value (Scalar.Literal (Value.Text text.now))) }
{
    let copy = Text::of(alloc, text.as_str())?;
    notes.fit(Class::Text, class);
    Ok(Resolved::Value(Scalar::Literal(Value::Text(copy))))
}

/// The number of the parameter that a `?` is, where a value of a class is wanted. In a program it is
/// none, and a fault.
pub fn question(
    names: &Names<'_>,
    notes: &mut Notes,
    class: Class,
) -> Result<Option<usize>, AllocError>
    ensures { IfOk result (λ x. (notes.new, x) ≡ spec.question (is_some names.now.program) class notes.old) }
{
    if names.has_program() {
        notes.stray();
        return Ok(None);
    }
    Ok(Some(notes.param(class)?))
}

/// The number of the place that takes a value of a program, where one of a class is wanted.
pub fn taken(notes: &mut Notes, value: Given, class: Class) -> Result<Option<usize>, AllocError>
    ensures { IfOk result (λ x. (notes.new, x) ≡ spec.taken value class notes.old) }
{
    match value {
        Given::Value(value, own) => {
            notes.fit(own, class);
            Ok(Some(notes.place(value, own)?))
        }
        Given::Unbound => {
            notes.blame(CheckFault::UnboundName);
            Ok(None)
        }
        Given::NoColumn => {
            notes.blame(CheckFault::NoSuchName);
            Ok(None)
        }
    }
}

/// The parameter of a number.
fn param_at(number: Option<usize>) -> Resolved
    ensures { result ≡ spec.param_at number }
{
    match number {
        Some(number) => Resolved::Value(Scalar::Param(number)),
        None => Resolved::Null,
    }
}

/// A `?`, where a value of a class is wanted.
fn parameter(names: &Names<'_>, notes: &mut Notes, class: Class) -> Result<Resolved, AllocError>
    ensures { IfOk result (λ x. (notes.new, x) ≡ spec.with (spec.question (is_some names.now.program) class notes.old) spec.as_param) }
{
    Ok(param_at(question(names, notes, class)?))
}

/// A value of a program, where one of a class is wanted.
fn given(notes: &mut Notes, value: Given, class: Class) -> Result<Resolved, AllocError>
    ensures { IfOk result (λ x. (notes.new, x) ≡ spec.with (spec.taken value class notes.old) spec.as_param) }
{
    Ok(param_at(taken(notes, value, class)?))
}

fn negation(alloc: Global, x: Scalar) -> Result<Resolved, AllocError>
    ensures { IfOk result (λ made. made ≡ Resolved.Value (Scalar.Negate x)) }
{
    Ok(Resolved::Value(Scalar::Negate(Boxed::new(alloc, x)?)))
}

/// A condition, or what is true where it is false.
fn negatable(alloc: Global, negated: bool, condition: Cond) -> Result<Resolved, AllocError>
    ensures { IfOk result (λ x. x ≡ Resolved.Truth (spec.negated_if negated condition)) }
{
    Ok(Resolved::Truth(negated_if(alloc, negated, condition)?))
}

/// A number, where a value of a class is wanted.
fn literal(notes: &mut Notes, value: Value, own: Class, class: Class) -> Resolved
    ensures noted { notes.new ≡ fitted own class notes.old }
    ensures made { result ≡ Resolved.Value (Scalar.Literal value) }
{
    notes.fit(own, class);
    Resolved::Value(Scalar::Literal(value))
}

/// The value that an expression stands for, where one of a class is wanted.
#[cycle(resolve)]
pub fn scalar(
    alloc: Global,
    names: &Names<'_>,
    notes: &mut Notes,
    e: &Expr,
    class: Class,
) -> Result<Scalar, AllocError>
    ensures { IfOk result (λ x. (notes.new, x) ≡ spec.scalar_in (spec.meaning_of names.now e.now) class notes.old) }
{
    resolve(alloc, names, notes, e, class)?.into_scalar(alloc, notes)
}

/// The truth value that an expression stands for.
#[cycle(resolve)]
pub fn condition(
    alloc: Global,
    names: &Names<'_>,
    notes: &mut Notes,
    e: &Expr,
) -> Result<Cond, AllocError>
    ensures { IfOk result (λ x. (notes.new, x) ≡ spec.cond_in (spec.meaning_of names.now e.now) notes.old) }
{
    Ok(resolve(alloc, names, notes, e, Class::Int)?.into_cond(notes))
}

/// The value that an expression stands for, where it stands by itself.
#[cycle(resolve)]
pub fn alone(
    alloc: Global,
    names: &Names<'_>,
    notes: &mut Notes,
    e: &Expr,
) -> Result<Scalar, AllocError>
    ensures { IfOk result (λ x. (notes.new, x) ≡ spec.alone_in (spec.meaning_of names.now e.now) notes.old) }
{
    let sort = sort_of(names, e);
    notes.note_alone(sort);
    scalar(alloc, names, notes, e, sort.own_class())
}

/// Values of one class.
#[cycle(resolve)]
fn scalars(
    alloc: Global,
    names: &Names<'_>,
    notes: &mut Notes,
    items: &[Expr],
    class: Class,
) -> Result<Items<Scalar>, AllocError>
    ensures { IfOk result (λ xs. (notes.new, xs) ≡ spec.scalars_in (map (spec.meaning_of names.now) items.now) class notes.old) }
{
    let mut values = Items::new(alloc);
    for item in items {
        values.push(scalar(alloc, names, notes, item, class)?)?;
    }
    Ok(values)
}

/// What a NOT or a test stands for.
#[cycle(resolve)]
fn test(
    alloc: Global,
    names: &Names<'_>,
    notes: &mut Notes,
    e: &Expr,
) -> Result<Resolved, AllocError>
    ensures { IfOk result (λ x. (notes.new, x) ≡ (spec.meaning_of names.now e.now).test notes.old) }
{
    match e {
        Expr::Compare(comparison, a, b) => {
            let class = common_of_two(names, a.get(), b.get());
            let a = scalar(alloc, names, notes, a.get(), class)?;
            let b = scalar(alloc, names, notes, b.get(), class)?;
            Ok(Resolved::Truth(Cond::Compare(*comparison, a, b)))
        }
        Expr::IsNull { value, negated } => {
            let value = alone(alloc, names, notes, value.get())?;
            negatable(alloc, *negated, Cond::IsNull(value))
        }
        Expr::Between {
            value,
            low,
            high,
            negated,
        } => {
            let class = common_of_three(names, value.get(), low.get(), high.get());
            let value = scalar(alloc, names, notes, value.get(), class)?;
            let low = scalar(alloc, names, notes, low.get(), class)?;
            let high = scalar(alloc, names, notes, high.get(), class)?;
            negatable(alloc, *negated, Cond::Between { value, low, high })
        }
        Expr::Not(x) => {
            let x = condition(alloc, names, notes, x.get())?;
            negatable(alloc, true, x)
        }
        Expr::In {
            value,
            items,
            negated,
        } => {
            let class = common_among(names, value.get(), items.as_slice());
            let value = scalar(alloc, names, notes, value.get(), class)?;
            let items = scalars(alloc, names, notes, items.as_slice(), class)?;
            negatable(alloc, *negated, Cond::In { value, items })
        }
        _ => Ok(Resolved::Null),
    }
}

/// What an operator with its right operand stands for.
#[cycle(resolve)]
fn right_side(
    alloc: Global,
    names: &Names<'_>,
    notes: &mut Notes,
    operator: Operator,
    right: &Expr,
) -> Result<RightSide, AllocError>
    ensures { IfOk result (λ x. (notes.new, x) ≡ spec.right_side operator (spec.meaning_of names.now right.now) notes.old) }
{
    match operator {
        Operator::Calculate(operation) => {
            let right = scalar(alloc, names, notes, right, Class::Int)?;
            Ok(RightSide::Calculate(operation, right))
        }
        Operator::And => Ok(RightSide::And(condition(alloc, names, notes, right)?)),
        Operator::Or => Ok(RightSide::Or(condition(alloc, names, notes, right)?)),
    }
}

/// What operators that group to the left stand for, where a number or a truth value is wanted. The
/// operands on their left are gone through by a loop, since an input may have thousands of them.
#[cycle(resolve)]
fn chain(
    alloc: Global,
    names: &Names<'_>,
    notes: &mut Notes,
    e: &Expr,
) -> Result<Resolved, AllocError>
    requires { is_operator e.now ≡ true }
    ensures { IfOk result (λ x. (notes.new, x) ≡ (spec.meaning_of names.now e.now).resolve Class.Int notes.old) }
{
    let (first, mut behind) = operands(alloc, e)?;
    let mut so_far = single(alloc, names, notes, first, Class::Int)?;
    'onward: while let Some((operator, right)) = behind.pop() {
        let right = right_side(alloc, names, notes, operator, right)?;
        join(alloc, notes, &mut so_far, right)?;
    }
    Ok(so_far)
}

/// What an expression stands for that is no operator which groups to the left.
#[cycle(resolve)]
fn single(
    alloc: Global,
    names: &Names<'_>,
    notes: &mut Notes,
    e: &Expr,
    class: Class,
) -> Result<Resolved, AllocError>
    ensures { IfOk result (λ x. (notes.new, x) ≡ (spec.meaning_of names.now e.now).single class notes.old) }
{
    match e {
        Expr::Number(n) => Ok(literal(notes, Value::Int(*n), Class::Int, class)),
        Expr::Text(text) => text_literal(alloc, notes, text, class),
        Expr::Null => Ok(Resolved::Null),
        Expr::Parameter => parameter(names, notes, class),
        Expr::Column(name) => Ok(column(names, notes, name, class)),
        Expr::Parenthesized(inner) => resolve(alloc, names, notes, inner.get(), class),
        Expr::Negate(x) => {
            notes.fit(Class::Int, class);
            let x = scalar(alloc, names, notes, x.get(), Class::Int)?;
            negation(alloc, x)
        }
        Expr::Variable(name) => given(notes, names.variable(name), class),
        Expr::RowColumn { row, column } => given(notes, names.row_column(row, column), class),
        Expr::Rows(name) => given(notes, names.rows(name), class),
        Expr::First {
            result: made,
            column,
        } => given(notes, names.first(made, column), class),
        Expr::Not(_)
        | Expr::Compare(_, _, _)
        | Expr::IsNull { .. }
        | Expr::Between { .. }
        | Expr::In { .. } => test(alloc, names, notes, e),
        Expr::Calculate(_, _, _) | Expr::And(_, _) | Expr::Or(_, _) => Ok(Resolved::Null),
    }
}

/// What an expression stands for, where a value of a class is wanted.
#[cycle(resolve)]
fn resolve(
    alloc: Global,
    names: &Names<'_>,
    notes: &mut Notes,
    e: &Expr,
    class: Class,
) -> Result<Resolved, AllocError>
    ensures { IfOk result (λ x. (notes.new, x) ≡ (spec.meaning_of names.now e.now).resolve class notes.old) }
{
    match e {
        Expr::Calculate(_, _, _) => {
            notes.fit(Class::Int, class);
            chain(alloc, names, notes, e)
        }
        Expr::And(_, _) | Expr::Or(_, _) => chain(alloc, names, notes, e),
        _ => single(alloc, names, notes, e, class),
    }
}
