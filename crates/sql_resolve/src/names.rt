//! What the names of columns stand for.

ghost use Rattle.std.specs.Prelude.{◌≡◌, ◌+◌, ◌≤◌, ◌^◌, length, is_some};
ghost use Rattle.volt_catalog.specs.Names.{same_name};
ghost use Rattle.sql_resolve.specs.Named as named;
ghost use Rattle.sql_resolve.specs.Names as names;

use crate::bound::{Bound, Given};
use expr_parse::ColumnName;
use std::marker::Model;
use volt_catalog::{Column, Table};
use volt_value::{Class, Text};

/// A table, and the name that it goes by in a statement.
#[derive(Clone, Copy)]
pub struct NamedTable<'a> {
    pub name: &'a Text,
    pub table: &'a Table,
}

/// What names stand for where an expression stands: the columns of a FROM's first table, and of its
/// second one, where they are there; and in a program what it bound before.
#[derive(Drop)]
pub struct Names<'a> {
    left: Option<NamedTable<'a>>,
    right: Option<NamedTable<'a>>,
    program: Option<&'a Bound>,
}

impl<'a> Model for Names<'a> {
    ghost use Rattle.sql_resolve.specs.Named.{Tables, tables_of};

    ghost Value = { Tables };

    ghost view = { tables_of };
}

/// A column that a name stands for.
#[derive(Clone, Copy, Debug, PartialEq, Eq)]
pub struct FoundColumn {
    /// Its number from 0 in the row of all tables.
    pub number: usize,
    /// The class of its values.
    pub class: Class,
}

/// Which columns a name fits.
#[derive(Clone, Copy)]
pub enum Fitting {
    Nothing,
    One(FoundColumn),
    Several,
}

impl Fitting {
    /// The column, where it is one.
    fn found(self) -> Option<FoundColumn>
        ensures { result ≡ names.found_in self }
    {
        match self {
            Fitting::One(column) => Some(column),
            _ => None,
        }
    }

    /// With one more column.
    fn with(self, column: FoundColumn) -> Fitting
        ensures { result ≡ names.with_fitting self column }
    {
        match self {
            Fitting::Nothing => Fitting::One(column),
            _ => Fitting::Several,
        }
    }
}

/// Whether two names are one: they are compared without ASCII case.
pub fn is_same(a: &Text, b: &Text) -> bool
    ensures { result ≡ same_name a.now b.now }
{
    a.as_str().eq_ignore_ascii_case(b.as_str())
}

/// The columns of a table that a name fits, beside those of a table before it, whose row has so many
/// columns.
fn among(columns: &[Column], before: usize, name: &Text, so_far: Fitting) -> Fitting
    requires { before ≤ 2 ^ 60 }
    ensures { result ≡ names.with_all so_far (names.among before name.now columns.now) }
{
    let mut found = so_far;
    for place in 0..columns.len() {
        let column = &columns[place];
        if is_same(name, &column.name) {
            found = found.with(FoundColumn {
                number: before + place,
                class: column.kind.class(),
            });
        }
    }
    found
}

impl<'a> NamedTable<'a> {
    /// Whether a column that is written with this table's name, or without one, can be a column of it.
    fn goes_by(&self, written: &Option<Text>) -> bool
        ensures { result ≡ names.goes_by written.now self.now.name.now }
    {
        match written {
            Some(name) => is_same(name, self.name),
            None => true,
        }
    }
}

/// The columns of a table that a name fits, beside those of a table before it, whose row has so many
/// columns.
fn columns_in(
    table: Option<NamedTable<'_>>,
    before: usize,
    name: &ColumnName,
    so_far: Fitting,
) -> Fitting
    requires { before ≤ 2 ^ 60 }
    ensures { result ≡ names.with_all so_far (names.columns_in before name.now (named.named_in table.entry)) }
{
    match table {
        Some(named) if named.goes_by(&name.table) => {
            among(named.table.columns.as_slice(), before, &name.column, so_far)
        }
        _ => so_far,
    }
}

impl<'a> Names<'a> {
    /// No columns.
    pub fn none() -> Names<'a>
        ensures { result ≡ named.no_tables }
    {
        Names {
            left: None,
            right: None,
            program: None,
        }
    }

    /// The columns of a FROM's tables.
    pub fn of(left: NamedTable<'a>, right: Option<NamedTable<'a>>) -> Names<'a>
        ensures { result ≡ named.tables (named.named_by left.entry) (named.named_in right.entry) }
    {
        Names {
            left: Some(left),
            right,
            program: None,
        }
    }

    /// The same in a program that has bound this, or in none.
    pub fn in_program(self, program: Option<&'a Bound>) -> Names<'a>
        ensures { result ≡ named.in_program (named.bound_in program.entry) self.entry }
    {
        Names {
            left: self.left,
            right: self.right,
            program,
        }
    }

    /// Whether it is in a program.
    pub fn has_program(&self) -> bool
        ensures { result ≡ is_some self.now.program }
    {
        self.program.is_some()
    }

    /// `:name`.
    pub fn variable(&self, name: &Text) -> Given
        ensures { result ≡ names.variable_in self.now.program name.now }
    {
        match self.program {
            Some(bound) => bound.variable(name),
            None => Given::Unbound,
        }
    }

    /// `:row.column`.
    pub fn row_column(&self, row: &Text, column: &Text) -> Given
        ensures { result ≡ names.row_column_in self.now.program row.now column.now }
    {
        match self.program {
            Some(bound) => bound.row_column(row, column),
            None => Given::Unbound,
        }
    }

    /// `ROWS(name)`.
    pub fn rows(&self, name: &Text) -> Given
        ensures { result ≡ names.rows_in self.now.program name.now }
    {
        match self.program {
            Some(bound) => bound.rows(name),
            None => Given::Unbound,
        }
    }

    /// `FIRST(name.column)`.
    pub fn first(&self, name: &Text, column: &Text) -> Given
        ensures { result ≡ names.first_in self.now.program name.now column.now }
    {
        match self.program {
            Some(bound) => bound.first(name, column),
            None => Given::Unbound,
        }
    }

    /// The columns of the first table.
    pub fn left_columns(&self) -> &'a [Column]
        ensures { result.now ≡ named.columns_of self.now.left }
    {
        match self.left {
            Some(named) => named.table.columns.as_slice(),
            None => &[],
        }
    }

    /// The columns of the second table.
    pub fn right_columns(&self) -> &'a [Column]
        ensures { result.now ≡ named.columns_of self.now.right }
    {
        match self.right {
            Some(named) => named.table.columns.as_slice(),
            None => &[],
        }
    }

    /// The columns of the first table's primary key.
    pub fn left_key(&self) -> &'a [u8]
        ensures { result.now ≡ named.key_of self.now.left }
    {
        match self.left {
            Some(named) => named.table.key.as_slice(),
            None => &[],
        }
    }

    /// The columns of the second table's primary key.
    pub fn right_key(&self) -> &'a [u8]
        ensures { result.now ≡ named.key_of self.now.right }
    {
        match self.right {
            Some(named) => named.table.key.as_slice(),
            None => &[],
        }
    }

    /// How many columns the first table has.
    pub fn left_width(&self) -> usize
        ensures exact { result ≡ names.width self.now.left }
        ensures within { result ≤ 2 ^ 60 }
    {
        match &self.left {
            Some(named) => named.table.columns.as_slice().len(),
            None => 0,
        }
    }

    /// The column that a name stands for: the only one of both tables that it fits.
    #[tactic(auto, using(crate::proofs::NameLemmas::with_all_append, crate::proofs::NameLemmas::found_in_all))]
    pub fn column(&self, name: &ColumnName) -> Option<FoundColumn>
        ensures { result ≡ names.column_of self.now name.now }
    {
        let found = columns_in(self.left, 0, name, Fitting::Nothing);
        columns_in(self.right, self.left_width(), name, found).found()
    }
}
