//! The tables of a FROM.

ghost use Rattle.std.specs.Prelude.{◌≡◌, option_map};
ghost use Rattle.sql_check.specs.From as spec;

use sql_parse::{Expr, SecondTable, Select, TableName};
use sql_resolve::{NamedTable, Names, is_same, table_named};
use volt_catalog::Catalog;
use volt_value::Text;

/// A table of a FROM with its number.
#[derive(Clone, Copy)]
pub struct Source<'a> {
    pub number: u16,
    pub named: NamedTable<'a>,
}

/// The tables of a FROM.
#[derive(Clone, Copy)]
pub struct Sources<'a> {
    pub left: Source<'a>,
    pub right: Option<Source<'a>>,
}

/// The name that a table goes by: the one behind AS, and else its own.
pub fn known_as(name: &TableName) -> &Text
    ensures { result.now ≡ spec.known_as name.now }
{
    match &name.alias {
        Some(alias) => alias,
        None => &name.table,
    }
}

fn find_source<'a>(catalog: &'a Catalog, name: &'a TableName) -> Option<Source<'a>>
    ensures { spec.seen_right result ≡ spec.from_table catalog.now name.now }
{
    match table_named(catalog, &name.table) {
        Some((number, table)) => Some(Source {
            number,
            named: NamedTable {
                name: known_as(name),
                table,
            },
        }),
        None => None,
    }
}

/// The second table of a FROM.
pub fn second_name(second: &SecondTable) -> &TableName
    ensures { result.now ≡ spec.second_name second.now }
{
    match second {
        SecondTable::Listed(table) => table,
        SecondTable::Joined { table, .. } => table,
    }
}

/// ON, where it is written.
pub fn on_of(second: &Option<SecondTable>) -> Option<&Expr>
    ensures { option_map (λ e. e.now) result ≡ spec.on_of second.now }
{
    match second {
        Some(SecondTable::Joined { on, .. }) => Some(on),
        _ => None,
    }
}

/// Both tables, where they go by different names.
fn with_right<'a>(left: Source<'a>, right: Option<Source<'a>>) -> Option<Sources<'a>>
    ensures { spec.seen_from result ≡ spec.with_right (spec.seen_source left.entry) (spec.seen_right right.entry) }
{
    match right {
        Some(table) if !is_same(left.named.name, table.named.name) => Some(Sources { left, right }),
        _ => None,
    }
}

/// The tables of a FROM, where each is there and they go by different names.
pub fn find_sources<'a>(catalog: &'a Catalog, select: &'a Select) -> Option<Sources<'a>>
    ensures { spec.seen_from result ≡ spec.from_tables catalog.now select.now.first select.now.second }
{
    let left = match find_source(catalog, &select.first) {
        Some(left) => left,
        None => return None,
    };
    match &select.second {
        Some(second) => with_right(left, find_source(catalog, second_name(second))),
        None => Some(Sources { left, right: None }),
    }
}

impl<'a> Sources<'a> {
    /// The columns that may stand in the expressions.
    pub fn names(&self) -> Names<'a>
        ensures { result ≡ spec.tables_from (spec.seen_sources self.now) }
    {
        let right = match self.right {
            Some(source) => Some(source.named),
            None => None,
        };
        Names::of(self.left.named, right)
    }

    /// The partitioning column of the second table.
    pub(crate) fn right_part(&self) -> Option<u8>
        ensures { result ≡ spec.part_in (spec.seen_right self.now.right) }
    {
        match self.right {
            Some(source) => source.named.table.part,
            None => None,
        }
    }

    /// Whether a table is partitioned.
    pub(crate) fn names_partitioned(&self) -> bool
        ensures { result ≡ spec.names_partitioned (spec.seen_sources self.now) }
    {
        self.left.named.table.part.is_some() || self.right_part().is_some()
    }
}
