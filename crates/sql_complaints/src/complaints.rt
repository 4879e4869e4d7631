//! What a refusal is about.

ghost use Rattle.std.specs.Prelude.{◌≡◌};
ghost use Rattle.sql_complaints.specs.Complaints as spec;

use expr_parse::ColumnName;
use sql_resolve::{CheckFault, Sort};
use volt_value::{Class, Text};

/// What may stand at a place of a statement.
#[derive(Clone, Copy, Debug, PartialEq, Eq)]
pub enum Wanted {
    /// A value of this class, or NULL.
    Value(Class),
    /// A truth value, or NULL.
    Truth,
    /// A value by itself, which tells its own class.
    Alone,
}

/// A part of a statement.
#[derive(Clone, Copy, Debug, PartialEq, Eq)]
pub enum Part {
    /// The table, or the tables of a FROM.
    Tables,
    /// The names of columns of an INSERT.
    Columns,
    /// VALUES.
    Values,
    /// SET.
    Sets,
    /// What a SELECT gives.
    Outputs,
    On,
    Where,
    GroupBy,
    OrderBy,
    Limit,
    Whole,
}

/// What is wrong in a statement.
#[derive(Debug, Drop)]
pub enum About {
    /// No table has this name.
    NoTable(Text),
    /// Both tables of a FROM go by this name.
    SameName(Text),
    /// This names no column of the tables, or one of each.
    NoColumn(ColumnName),
    /// The table that is changed has no column of this name.
    NoTarget(Text),
    /// The column of this name is named before.
    Twice(Text),
    /// This names no column of GROUP BY.
    NotGrouped(ColumnName),
    /// `*` stands beside GROUP BY.
    AllGrouped,
    /// This names no output, and without groups no column either.
    NoOrder(ColumnName),
    /// The result or the row of a FOR has no such column.
    NoField { name: Text, column: Text },
    /// An INSERT has not as many values as columns.
    Counts { columns: usize, values: usize },
    /// Something may not stand where it does.
    Misfit { wanted: Wanted, found: Sort },
    /// An output beside groups is neither a column of GROUP BY nor one aggregate.
    NoAggregate,
    /// The column of the primary key of this name is set.
    KeyColumn(Text),
    /// Nothing bound this name of a program before.
    Unbound(Text),
    /// A `?` stands in a program.
    Question,
    /// It has so many parameters, or places that take a value of its program, and so many outputs.
    Many { params: usize, columns: usize },
    /// Two partitioned tables that go by these names are joined otherwise than by the equality of their
    /// partitioning columns.
    Join { first: Text, second: Text },
}

/// What is wrong, and where.
#[derive(Debug, Drop)]
pub struct Complaint {
    pub part: Part,
    pub about: About,
}

impl About {
    /// The fault that it is.
    pub fn fault(&self) -> CheckFault
        ensures { result ≡ spec.fault_of self.now }
    {
        match self {
            About::Counts { .. } | About::Misfit { .. } | About::NoAggregate => {
                CheckFault::TypeMismatch
            }
            About::KeyColumn(_) => CheckFault::ChangesKey,
            About::Unbound(_) | About::Question => CheckFault::UnboundName,
            About::Many { .. } => CheckFault::TooMany,
            About::Join { .. } => CheckFault::NotDistributable,
            _ => CheckFault::NoSuchName,
        }
    }
}

/// The first complaint of a fault, among those so far.
#[derive(Debug, Drop)]
pub struct Search {
    pub fault: CheckFault,
    pub found: Option<Complaint>,
}

impl Search {
    /// Nothing so far.
    pub fn of(fault: CheckFault) -> Search
        ensures { result ≡ spec.search_of fault }
    {
        Search { fault, found: None }
    }

    /// Notes a complaint.
    pub fn note(&mut self, part: Part, about: About)
        ensures { self.new ≡ spec.noted self.old (spec.complaint part about) }
    {
        if let None = self.found {
            if about.fault().code() == self.fault.code() {
                self.found = Some(Complaint { part, about });
            }
        }
    }

    /// Notes what stands where something else may stand.
    pub fn fit(&mut self, part: Part, wanted: Wanted, found: Sort)
        ensures { self.new ≡ spec.all_noted self.old (spec.misfit part wanted found) }
    {
        if !may_stand(wanted, found) {
            self.note(part, About::Misfit { wanted, found });
        }
    }
}

/// Whether what an expression gives may stand where this is wanted.
fn may_stand(wanted: Wanted, found: Sort) -> bool
    ensures { result ≡ spec.may_stand wanted found }
{
    match (wanted, found) {
        (_, Sort::Null) => true,
        (Wanted::Value(wanted), Sort::Value(class)) => class == wanted,
        (Wanted::Value(_), Sort::Open) => true,
        (Wanted::Truth, Sort::Truth) => true,
        (Wanted::Alone, Sort::Value(_)) => true,
        _ => false,
    }
}
