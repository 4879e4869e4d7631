//! What the names of a program stand for.

ghost use Rattle.std.specs.Prelude.{◌≡◌, None, position, slice_get};
ghost use Rattle.volt_catalog.specs.Names.{same_name};
ghost use Rattle.sql_resolve.specs.Bound as spec;

use crate::names::is_same;
use sql_plan::ProgramValue;
use sqlite_items::Items;
use volt_value::{Class, Text};

/// What the names of a program stand for at a place of its text. Variables, results and the rows of
/// FORs are named apart from one another, all without ASCII case.
///
/// A LET and an SQL bind their names for all steps behind them in the text, also where they stand in
/// a branch of an IF or in a FOR. The row of a FOR is bound in its body alone, where it hides an outer
/// one of its name.
#[derive(Debug, Drop)]
pub struct Bound {
    /// The parameters, and then the variables in the order in which a LET names them first. Each has
    /// the class that it was given there.
    pub variables: Items<(Text, Class)>,
    /// The results in the order in which an SQL names them first, with their columns.
    pub results: Items<(Text, Items<(Text, Class)>)>,
    /// The rows of the FORs in which the place stands, from the outermost. Each has the number of the
    /// result that the FOR goes over: none where there is no such result.
    pub rows: Items<(Text, Option<usize>)>,
}

/// What a name of a program stands for.
#[derive(Clone, Copy, Debug, PartialEq, Eq)]
pub enum Given {
    /// Nothing bound it before.
    Unbound,
    /// The result or the row is bound, and has no column of this name.
    NoColumn,
    /// A value of this class.
    Value(ProgramValue, Class),
}

/// The place of the first of these names that is this one.
pub fn head_place(heads: &[(Text, Class)], name: &Text) -> Option<usize>
    ensures { result ≡ position (λ head. same_name name.now head.0) heads.now }
{
    heads.iter().position(|head| is_same(name, &head.0))
}

/// The first column of a name, with its number.
pub fn head_named(heads: &[(Text, Class)], name: &Text) -> Option<(usize, Class)>
    ensures { result ≡ spec.head_named heads.now name.now }
{
    match head_place(heads, name) {
        Some(number) => match heads.get(number) {
            Some(head) => Some((number, head.1)),
            None => None,
        },
        None => None,
    }
}

/// The last row of a name.
fn last_named(rows: &[(Text, Option<usize>)], name: &Text) -> Option<usize>
    ensures { result ≡ spec.last_named name.now None 0 rows.now }
{
    let mut found = None;
    for number in 0..rows.len() {
        if is_same(name, &rows[number].0) {
            found = Some(number);
        }
    }
    found
}

impl Bound {
    /// The number of the variable of a name.
    pub fn variable_named(&self, name: &Text) -> Option<usize>
        ensures { result ≡ spec.variable_named self.now name.now }
    {
        head_place(self.variables.as_slice(), name)
    }

    /// The number of the result of a name.
    pub fn result_named(&self, name: &Text) -> Option<usize>
        ensures { result ≡ spec.result_named self.now name.now }
    {
        self.results
            .as_slice()
            .iter()
            .position(|made| is_same(name, &made.0))
    }

    /// `:name`.
    pub(crate) fn variable(&self, name: &Text) -> Given
        ensures { result ≡ spec.variable self.now name.now }
    {
        match self.variable_named(name) {
            Some(number) => match self.variables.get(number) {
                Some(variable) => Given::Value(ProgramValue::Variable(number), variable.1),
                None => Given::Unbound,
            },
            None => Given::Unbound,
        }
    }

    /// `ROWS(name)`.
    pub(crate) fn rows(&self, name: &Text) -> Given
        ensures { result ≡ spec.rows self.now name.now }
    {
        match self.result_named(name) {
            Some(number) => Given::Value(ProgramValue::Rows(number), Class::Int),
            None => Given::Unbound,
        }
    }

    /// The first column of a name of the result of a number, with its number.
    fn head_of(&self, number: usize, column: &Text) -> Option<(usize, Class)>
        ensures { result ≡ spec.head_named (spec.heads_of self.now number) column.now }
    {
        match self.results.get(number) {
            Some(made) => head_named(made.1.as_slice(), column),
            None => None,
        }
    }

    /// `FIRST(name.column)`.
    pub(crate) fn first(&self, name: &Text, column: &Text) -> Given
        ensures { result ≡ spec.first self.now name.now column.now }
    {
        let Some(made) = self.result_named(name) else {
            return Given::Unbound;
        };
        match self.head_of(made, column) {
            Some((column, class)) => Given::Value(
                ProgramValue::First {
                    result: made,
                    column,
                },
                class,
            ),
            None => Given::NoColumn,
        }
    }

    /// The result that the FOR of a row goes over.
    fn row_result(&self, row: usize) -> Option<usize>
        ensures { result ≡ spec.row_result (slice_get self.now.rows row) }
    {
        match self.rows.get(row) {
            Some(row) => row.1,
            None => None,
        }
    }

    /// A column of the row of a number.
    fn column_in(&self, row: usize, column: &Text) -> Given
        ensures { result ≡ spec.column_in self.now row column.now (spec.row_result (slice_get self.now.rows row)) }
    {
        let Some(made) = self.row_result(row) else {
            return Given::Unbound;
        };
        match self.head_of(made, column) {
            Some((column, class)) => Given::Value(ProgramValue::Column { row, column }, class),
            None => Given::NoColumn,
        }
    }

    /// `:name.column`.
    pub(crate) fn row_column(&self, name: &Text, column: &Text) -> Given
        ensures { result ≡ spec.row_column self.now name.now column.now }
    {
        match last_named(self.rows.as_slice(), name) {
            Some(row) => self.column_in(row, column),
            None => Given::Unbound,
        }
    }
}
