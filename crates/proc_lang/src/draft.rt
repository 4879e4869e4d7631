//! What is known of a program in front of a place of its text.

ghost use Rattle.std.specs.Prelude.{◌≡◌, None, length, OnOk, IfOk};
ghost use Rattle.proc_lang.specs.Drafts as spec;

use crate::fault::{ProcFault, with_check, worse_if};
use sql_plan::Prepared;
use sql_resolve::{Bound, CheckFault, Sort, head_named, is_same};
use sqlite_items::Items;
use std::alloc::{AllocError, Global};
use volt_catalog::{Catalog, Table};
use volt_value::{Class, Text};

/// What is known of a program in front of a place of its text.
#[derive(Drop)]
pub struct Draft {
    /// What its names stand for.
    pub bound: Bound,
    /// The statements before that place.
    pub statements: Items<Prepared>,
    /// How many FORs stand in one another at most.
    pub rows: usize,
    /// The fault of the least number.
    pub fault: Option<ProcFault>,
}

/// Whether two classes are one.
pub(crate) fn is_same_class(a: Class, b: Class) -> bool
    ensures { result ≡ spec.same_class a b }
{
    match (a, b) {
        (Class::Int, Class::Int) | (Class::Text, Class::Text) => true,
        _ => false,
    }
}

/// Whether a value fits a variable of a class.
fn fits_class(sort: Sort, wanted: Class) -> bool
    ensures { result ≡ spec.fits_class sort wanted }
{
    match sort {
        Sort::Value(class) => is_same_class(class, wanted),
        _ => true,
    }
}

/// Whether two columns have the same name and class.
fn is_same_head(a: &(Text, Class), b: &(Text, Class)) -> bool
    ensures { result ≡ spec.same_head a.now b.now }
{
    is_same(&a.0, &b.0) && is_same_class(a.1, b.1)
}

/// Whether columns have the same names and classes.
fn have_same_heads(a: &[(Text, Class)], b: &[(Text, Class)]) -> bool
    ensures { result ≡ spec.same_heads a.now b.now }
{
    if a.len() != b.len() {
        return false;
    }
    for place in 0..a.len() {
        if !is_same_head(&a[place], &b[place]) {
            return false;
        }
    }
    true
}

/// A copy of columns.
fn copied(alloc: Global, heads: &[(Text, Class)]) -> Result<Items<(Text, Class)>, AllocError>
    ensures { IfOk result (λ copy. copy ≡ heads.now) }
{
    let mut copy = Items::new(alloc);
    for head in heads {
        copy.push((Text::of(alloc, head.0.as_str())?, head.1))?;
    }
    Ok(copy)
}

/// Whether a table is partitioned.
fn is_part(table: Option<&Table>) -> bool
    ensures { result ≡ spec.is_part (spec.now_of table.entry) }
{
    match table {
        Some(table) => table.part.is_some(),
        None => false,
    }
}

/// Whether a statement that changes a table of this number changes one that all partitions have.
pub(crate) fn writes_replicated(catalog: &Catalog, written: Option<u16>) -> bool
    ensures { result ≡ spec.writes_replicated catalog.now written }
{
    match written {
        Some(number) => !is_part(catalog.tables().get(number as usize)),
        None => false,
    }
}

impl Draft {
    /// In front of the first step, where the parameters are bound.
    pub(crate) fn start(
        alloc: Global,
        parameters: Items<(Text, Class)>,
        fault: Option<ProcFault>,
    ) -> Draft
        ensures { result ≡ spec.started parameters fault }
    {
        Draft {
            bound: Bound {
                variables: parameters,
                results: Items::new(alloc),
                rows: Items::new(alloc),
            },
            statements: Items::new(alloc),
            rows: 0,
            fault,
        }
    }

    /// Notes a fault.
    pub(crate) fn blame(&mut self, fault: ProcFault)
        ensures { self.new ≡ spec.blamed fault self.old }
    {
        self.fault = Some(fault.or_worse(self.fault));
    }

    /// Notes a fault that is there or not.
    pub(crate) fn blame_if(&mut self, holds: bool, fault: ProcFault)
        ensures { self.new ≡ spec.blamed_if holds fault self.old }
    {
        self.fault = worse_if(holds, fault, self.fault);
    }

    /// Notes the fault of an expression or a statement.
    pub(crate) fn note(&mut self, fault: Option<CheckFault>)
        ensures { self.new ≡ spec.noted fault self.old }
    {
        self.fault = with_check(fault, self.fault);
    }

    /// Sets a variable to a value, and answers its number.
    pub(crate) fn set_variable(
        &mut self,
        alloc: Global,
        name: &Text,
        sort: Sort,
    ) -> Result<usize, AllocError>
        ensures { IfOk result (λ number. (self.new, number) ≡ spec.with_variable name.now sort self.old) }
    {
        match head_named(self.bound.variables.as_slice(), name) {
            Some((number, known)) => {
                self.blame_if(!fits_class(sort, known), ProcFault::BadType);
                Ok(number)
            }
            None => {
                let number = self.bound.variables.len();
                let name = Text::of(alloc, name.as_str())?;
                self.bound.variables.push((name, sort.own_class()))?;
                Ok(number)
            }
        }
    }

    /// Whether the result of a number has these columns.
    fn has_heads(&self, number: usize, heads: &[(Text, Class)]) -> bool
        ensures { result ≡ spec.same_heads (spec.heads_made self.now number) heads.now }
    {
        match self.bound.results.get(number) {
            Some(made) => have_same_heads(made.1.as_slice(), heads),
            None => have_same_heads(&[], heads),
        }
    }

    /// Makes a result of a name that none has, and answers its number.
    fn push_result(&mut self, name: Text, heads: Items<(Text, Class)>) -> Result<usize, AllocError>
        ensures { IfOk result (λ number. (self.new, number) ≡ spec.result_set name heads None self.old) }
    {
        let number = self.bound.results.len();
        self.bound.results.push((name, heads))?;
        Ok(number)
    }

    /// Makes a result of these columns, and answers its number.
    pub(crate) fn make_result(
        &mut self,
        alloc: Global,
        name: &Text,
        heads: &[(Text, Class)],
    ) -> Result<usize, AllocError>
        ensures { IfOk result (λ number. (self.new, number) ≡ spec.with_result name.now heads.now self.old) }
    {
        match self.bound.result_named(name) {
            Some(number) => {
                let is_same = self.has_heads(number, heads);
                self.blame_if(!is_same, ProcFault::BadType);
                Ok(number)
            }
            None => self.push_result(Text::of(alloc, name.as_str())?, copied(alloc, heads)?),
        }
    }

    /// Enters a FOR over a result, where there is such a result.
    pub(crate) fn enter(
        &mut self,
        alloc: Global,
        row: &Text,
        over: Option<usize>,
    ) -> Result<(), AllocError>
        ensures { OnOk result (self.new ≡ spec.entered row.now over self.old) }
    {
        self.bound
            .rows
            .push((Text::of(alloc, row.as_str())?, over))?;
        let depth = self.bound.rows.len();
        if self.rows < depth {
            self.rows = depth;
        }
        self.blame_if(over.is_none(), ProcFault::UnboundName);
        Ok(())
    }

    /// Leaves a FOR.
    #[tactic(auto, using(crate::proofs::ListLemmas::without_pushed))]
    pub(crate) fn leave(&mut self)
        ensures { self.new ≡ spec.left self.old }
    {
        self.bound.rows.pop();
    }

    /// Adds a statement.
    pub(crate) fn add_statement(
        &mut self,
        catalog: &Catalog,
        single: bool,
        fault: Option<CheckFault>,
        statement: Prepared,
    ) -> Result<(), AllocError>
        ensures { OnOk result (self.new ≡ spec.with_one catalog.now single fault statement self.old) }
    {
        let replicated = single && writes_replicated(catalog, statement.written());
        self.note(fault);
        self.blame_if(replicated, ProcFault::WritesReplicated);
        self.statements.push(statement)
    }
}
