//! What an expression gives.

ghost use Rattle.std.specs.Prelude.{◌≡◌, [], ◌∷◌, map};
ghost use Rattle.sql_resolve.specs.Names.{column_of};
ghost use Rattle.sql_resolve.specs.Expressions as spec;

use crate::bound::Given;
use crate::names::Names;
use expr_parse::{ColumnName, Expr};
use volt_value::Class;

/// What an expression gives, as far as its form tells.
#[derive(Clone, Copy, Debug, PartialEq, Eq)]
pub enum Sort {
    /// NULL or a value of this class.
    Value(Class),
    /// NULL as it is written, which has no class of its own.
    Null,
    /// A value of the class that it is to have: a `?`.
    Open,
    /// A truth value.
    Truth,
}

/// What a column gives. A name that stands for none is a fault elsewhere.
fn sort_of_column(names: &Names<'_>, name: &ColumnName) -> Sort
    ensures { result ≡ spec.sort_of_found (column_of names.now name.now) }
{
    match names.column(name) {
        Some(column) => Sort::Value(column.class),
        None => Sort::Value(Class::Int),
    }
}

/// What a value of a program is. A name that stands for none is a fault elsewhere.
fn sort_of_given(value: Given) -> Sort
    ensures { result ≡ spec.sort_of_given value }
{
    match value {
        Given::Value(_, class) => Sort::Value(class),
        Given::Unbound | Given::NoColumn => Sort::Null,
    }
}

/// What an expression gives.
pub fn sort_of(names: &Names<'_>, e: &Expr) -> Sort
    ensures { result ≡ spec.sort_of names.now e.now }
{
    match e {
        Expr::Number(_) | Expr::Negate(_) | Expr::Calculate(_, _, _) => Sort::Value(Class::Int),
        Expr::Text(_) => Sort::Value(Class::Text),
        Expr::Null => Sort::Null,
        Expr::Parameter => Sort::Open,
        Expr::Column(name) => sort_of_column(names, name),
        Expr::Parenthesized(inner) => sort_of(names, inner.get()),
        Expr::Variable(name) => sort_of_given(names.variable(name)),
        Expr::RowColumn { row, column } => sort_of_given(names.row_column(row, column)),
        Expr::Rows(name) => sort_of_given(names.rows(name)),
        Expr::First {
            result: made,
            column,
        } => sort_of_given(names.first(made, column)),
        _ => Sort::Truth,
    }
}

impl Sort {
    /// The class, where it has one.
    pub fn class(self) -> Option<Class>
        ensures { result ≡ spec.class_in self }
    {
        match self {
            Sort::Value(class) => Some(class),
            _ => None,
        }
    }

    /// The class of a value that stands by itself. NULL is an integer.
    pub fn own_class(self) -> Class
        ensures { result ≡ spec.own_class self }
    {
        match self {
            Sort::Value(class) => class,
            _ => Class::Int,
        }
    }

    /// Whether a value of it may stand by itself.
    pub fn stands_alone(self) -> bool
        ensures { result ≡ spec.stands_alone self }
    {
        match self {
            Sort::Value(_) | Sort::Null => true,
            Sort::Open | Sort::Truth => false,
        }
    }
}

/// The class of two values that are compared.
pub fn common_of_two(names: &Names<'_>, a: &Expr, b: &Expr) -> Class
    ensures { result ≡ spec.common (spec.sort_of names.now a.now ∷ spec.sort_of names.now b.now ∷ []) }
{
    match sort_of(names, a) {
        Sort::Value(class) => class,
        _ => sort_of(names, b).own_class(),
    }
}

/// The class of three values that are compared.
pub fn common_of_three(names: &Names<'_>, a: &Expr, b: &Expr, c: &Expr) -> Class
    ensures { result ≡ spec.common (spec.sort_of names.now a.now ∷ spec.sort_of names.now b.now ∷ spec.sort_of names.now c.now ∷ []) }
{
    match sort_of(names, a) {
        Sort::Value(class) => class,
        _ => common_of_two(names, b, c),
    }
}

/// The class of a value and of those with which it is compared.
pub fn common_among(names: &Names<'_>, value: &Expr, items: &[Expr]) -> Class
    ensures { result ≡ spec.common (spec.sort_of names.now value.now ∷ map (λ item. item.sort) (map (spec.meaning_of names.now) items.now)) }
{
    if let Sort::Value(class) = sort_of(names, value) {
        return class;
    }
    for item in items {
        if let Sort::Value(class) = sort_of(names, item) {
            return class;
        }
    }
    Class::Int
}
