//! Complaints as sentences.

use crate::complaints::{About, Complaint, Part, Wanted};
use expr_parse::ColumnName;
use sql_resolve::Sort;
use std::fmt;
use volt_value::Class;

fn class_word(class: Class) -> &'static str {
    match class {
        Class::Int => "an integer",
        Class::Text => "a text",
    }
}

fn wanted_word(wanted: Wanted) -> &'static str {
    match wanted {
        Wanted::Value(class) => class_word(class),
        Wanted::Truth => "a truth value",
        Wanted::Alone => "a value of its own class",
    }
}

fn found_word(found: Sort) -> &'static str {
    match found {
        Sort::Value(class) => class_word(class),
        Sort::Null => "NULL",
        Sort::Open => "?",
        Sort::Truth => "a truth value",
    }
}

fn part_word(part: Part) -> &'static str {
    match part {
        Part::Tables => "tables",
        Part::Columns => "columns",
        Part::Values => "VALUES",
        Part::Sets => "SET",
        Part::Outputs => "outputs",
        Part::On => "ON",
        Part::Where => "WHERE",
        Part::GroupBy => "GROUP BY",
        Part::OrderBy => "ORDER BY",
        Part::Limit => "LIMIT",
        Part::Whole => "statement",
    }
}

/// The end of a word for so many things.
fn ending(count: usize) -> &'static str {
    if count == 1 { "" } else { "s" }
}

/// So many things of one kind and so many of another one.
fn write_counts<W: fmt::Write>(
    f: &mut fmt::Formatter<W>,
    one: (usize, &str),
    other: (usize, &str),
) -> fmt::Result {
    write!(f, "{} {}{}, ", one.0, one.1, ending(one.0))?;
    write!(f, "{} {}{}", other.0, other.1, ending(other.0))
}

/// A column as it is written, in quotes, behind these words.
fn write_column<W: fmt::Write>(
    f: &mut fmt::Formatter<W>,
    words: &str,
    name: &ColumnName,
) -> fmt::Result {
    match &name.table {
        Some(table) => write!(f, "{words} '{}.{}'", table.as_str(), name.column.as_str()),
        None => write!(f, "{words} '{}'", name.column.as_str()),
    }
}

/// A complaint of a name.
fn write_name<W: fmt::Write>(f: &mut fmt::Formatter<W>, about: &About) -> fmt::Result {
    match about {
        About::NoTable(name) => write!(f, "no table '{}'", name.as_str()),
        About::SameName(name) => write!(f, "both tables go by the name '{}'", name.as_str()),
        About::NoColumn(name) => write_column(f, "no column, or one of each table,", name),
        About::NoTarget(name) => write!(f, "no column '{}'", name.as_str()),
        About::Twice(name) => write!(f, "named a second time: '{}'", name.as_str()),
        About::NotGrouped(name) => write_column(f, "not in GROUP BY:", name),
        About::NoOrder(name) => write_column(f, "no output and no column", name),
        About::NoField { name, column } => {
            write!(f, "no column '{}' of '{}'", column.as_str(), name.as_str())
        }
        _ => write!(f, "* beside GROUP BY"),
    }
}

impl fmt::Display for About {
    fn fmt<W: fmt::Write>(&self, f: &mut fmt::Formatter<W>) -> fmt::Result {
        match self {
            About::Counts { columns, values } => {
                write_counts(f, (*columns, "column"), (*values, "value"))
            }
            About::Misfit { wanted, found } => {
                let wanted = wanted_word(*wanted);
                write!(f, "{wanted} is wanted, and {} found", found_word(*found))
            }
            About::NoAggregate => write!(f, "neither a column of GROUP BY nor an aggregate"),
            About::KeyColumn(name) => write!(f, "in the primary key: '{}'", name.as_str()),
            About::Unbound(name) => write!(f, "not bound: '{}'", name.as_str()),
            About::Question => write!(f, "? in a program"),
            About::Many { params, columns } => {
                write_counts(f, (*params, "parameter"), (*columns, "output"))
            }
            About::Join { first, second } => write!(
                f,
                "'{}' and '{}' are not joined on their partitioning columns",
                first.as_str(),
                second.as_str()
            ),
            _ => write_name(f, self),
        }
    }
}

impl fmt::Display for Complaint {
    fn fmt<W: fmt::Write>(&self, f: &mut fmt::Formatter<W>) -> fmt::Result {
        write!(f, "{}: {}", part_word(self.part), self.about)
    }
}
