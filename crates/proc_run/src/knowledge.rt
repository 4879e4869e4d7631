//! What a program knows while it runs.

ghost use Rattle.std.specs.Prelude.{◌≡◌, ◌+◌, ◌-◌, ◌++◌, [], nat_lt, map, length, pos, replicate, IfOk, OnOk, IsTrue};
ghost use Rattle.sql_meaning.specs.Programs as spec;
ghost use Rattle.expr_eval.specs.Shown.{shown};

use crate::row_at::{RowAt, value_in};
use crate::shared::SharedRows;
use expr_eval::Seen;
use sql_plan::{Program, ProgramValue, Rows};
use sqlite_items::Items;
use std::alloc::{AllocError, Global};
use std::marker::Model;
use volt_value::{Class, Value};

/// How many steps a call may run.
const MOST_STEPS: u32 = 100000;

/// How many statements a call may run.
const MOST_STATEMENTS: u16 = 200;

/// What a program knows: its variables, its results, the row that each FOR is at, and how many steps
/// and statements it has run.
#[derive(Drop)]
pub(crate) struct Knowledge {
    variables: Vec<Value>,
    results: Vec<SharedRows>,
    rows: Vec<RowAt>,
    steps: u32,
    statements: u16,
}

impl Model for Knowledge {
    ghost use Rattle.sql_meaning.specs.Programs.{Known};

    ghost Value = { Known };

    ghost view = { λ k. record { variables = k.variables.items; results = k.results.items; rows = k.rows.items; steps = k.steps; statements = k.statements } };
}

/// Puts so many NULL behind values.
fn add_nulls(values: &mut Vec<Value>, count: usize) -> Result<(), AllocError>
    ensures { OnOk result (values.new.items ≡ values.old.items ++ spec.nulls count) }
{
    for _number in 0..count {
        values.push(Value::Null)?;
    }
    Ok(())
}

/// The arguments, and NULL for each further variable.
fn first_variables(args: Vec<Value>, count: usize) -> Result<Vec<Value>, AllocError>
    ensures { IfOk result (λ variables. variables.items ≡ args.items ++ spec.nulls (count - length args.items)) }
{
    let missing = count.saturating_sub(args.len());
    let mut variables = args;
    add_nulls(&mut variables, missing)?;
    Ok(variables)
}

/// The results before they are made, without rows.
fn first_results(alloc: Global, results: &[Items<Class>]) -> Result<Vec<SharedRows>, AllocError>
    ensures { IfOk result (λ made. made.items ≡ map (λ classes. []) results.now) }
{
    let mut made = Vec::new(alloc);
    for _classes in results {
        made.push(SharedRows::none())?;
    }
    Ok(made)
}

/// No row for each of so many FORs.
fn first_rows(alloc: Global, count: usize) -> Result<Vec<RowAt>, AllocError>
    ensures { IfOk result (λ rows. rows.items ≡ replicate count []) }
{
    let mut rows = Vec::new(alloc);
    for _number in 0..count {
        rows.push(RowAt::none())?;
    }
    Ok(rows)
}

/// How many rows there are, as a value. `None` where i64 doesn't hold it: no memory holds so many rows.
fn count_of(rows: &SharedRows) -> Result<Seen<'_>, AllocError>
    ensures { IfOk result (λ count. shown count ≡ Value.Int (pos (length rows.now))) }
{
    match i64::try_from(rows.len()) {
        Ok(count) => Ok(Seen::Int(count)),
        Err(_) => Err(AllocError),
    }
}

impl Knowledge {
    /// What is known before the first step: the parameters are the first variables.
    pub(crate) fn start(
        alloc: Global,
        program: &Program,
        args: Vec<Value>,
    ) -> Result<Knowledge, AllocError>
        ensures { IfOk result (λ known. known ≡ spec.at_start program.now args.items) }
    {
        Ok(Knowledge {
            variables: first_variables(args, program.variables.len())?,
            results: first_results(alloc, program.results.as_slice())?,
            rows: first_rows(alloc, program.rows)?,
            steps: 0,
            statements: 0,
        })
    }

    /// A value that an expression or a statement takes.
    fn seen(&self, place: ProgramValue) -> Result<Seen<'_>, AllocError>
        ensures { IfOk result (λ seen. shown seen ≡ spec.value_at self.now place) }
    {
        match place {
            ProgramValue::Variable(number) => Ok(Seen::at(self.variables.as_slice(), number)),
            ProgramValue::Column { row, column } => Ok(self.column(row, column)),
            ProgramValue::Rows(result) => self.count(result),
            ProgramValue::First { result, column } => Ok(self.first(result, column)),
        }
    }

    /// A column of the row of a FOR.
    fn column(&self, row: usize, column: usize) -> Seen<'_>
        ensures { shown result ≡ spec.value_at self.now (ProgramValue.Column row column) }
    {
        match self.rows.get(row) {
            Some(row) => row.value(column),
            None => Seen::Null,
        }
    }

    /// How many rows a result has.
    fn count(&self, result_number: usize) -> Result<Seen<'_>, AllocError>
        ensures { IfOk result (λ seen. shown seen ≡ spec.value_at self.now (ProgramValue.Rows result_number)) }
    {
        match self.results.get(result_number) {
            Some(rows) => count_of(rows),
            None => Ok(Seen::Int(0)),
        }
    }

    /// A column of a result's first row.
    fn first(&self, result_number: usize, column: usize) -> Seen<'_>
        ensures { shown result ≡ spec.value_at self.now (ProgramValue.First result_number column) }
    {
        match self.results.get(result_number) {
            Some(rows) => value_in(rows, 0, column),
            None => Seen::Null,
        }
    }

    /// Copies of the values that an expression or a statement takes.
    pub(crate) fn arguments(
        &self,
        alloc: Global,
        places: &[ProgramValue],
    ) -> Result<Vec<Value>, AllocError>
        ensures { IfOk result (λ args. args.items ≡ spec.arguments self.now places.now) }
    {
        let mut args = Vec::with_capacity(alloc, places.len())?;
        for place in places {
            args.push(self.seen(*place)?.owned(alloc)?)?;
        }
        Ok(args)
    }

    /// The rows of a result.
    pub(crate) fn result(&self, number: usize) -> Result<SharedRows, AllocError>
        ensures { IfOk result (λ rows. rows ≡ spec.result_at self.now number) }
    {
        match self.results.get(number) {
            Some(rows) => rows.share(),
            None => Ok(SharedRows::none()),
        }
    }

    /// Takes the rows of a result, and forgets the others and the rows that FORs are at.
    pub(crate) fn take_result(&mut self, number: usize) -> SharedRows
        ensures { result ≡ spec.result_at self.old number }
    {
        self.rows.clear();
        if number < self.results.len() {
            self.results.swap_remove(number)
        } else {
            SharedRows::none()
        }
    }

    /// Counts a step, if one more may be run.
    pub(crate) fn count_step(&mut self) -> bool
        ensures may { result ≡ nat_lt self.old.steps spec.most_steps }
        ensures counted { IsTrue result → self.new ≡ record self.old { steps = self.old.steps + 1 } }
    {
        if self.steps < MOST_STEPS {
            self.steps += 1;
            true
        } else {
            false
        }
    }

    /// Counts a statement, if one more may be run.
    pub(crate) fn count_statement(&mut self) -> bool
        ensures may { result ≡ nat_lt self.old.statements spec.most_statements }
        ensures counted { IsTrue result → self.new ≡ record self.old { statements = self.old.statements + 1 } }
    {
        if self.statements < MOST_STATEMENTS {
            self.statements += 1;
            true
        } else {
            false
        }
    }

    /// Sets a variable.
    pub(crate) fn set_variable(&mut self, number: usize, value: Value)
        ensures { self.new ≡ spec.set_variable self.old number value }
    {
        if number < self.variables.len() {
            self.variables[number] = value;
        }
    }

    /// Sets the row that a FOR is at.
    pub(crate) fn set_row(&mut self, number: usize, row: RowAt)
        ensures { self.new ≡ spec.set_row self.old number row }
    {
        if number < self.rows.len() {
            self.rows[number] = row;
        }
    }

    /// Keeps rows as a result, where one is named.
    pub(crate) fn keep(
        &mut self,
        alloc: Global,
        number: Option<usize>,
        rows: Rows,
    ) -> Result<(), AllocError>
        ensures { OnOk result (self.new ≡ spec.keep_rows self.old number rows.rows) }
    {
        let Some(number) = number else {
            return Ok(());
        };
        if number < self.results.len() {
            self.results[number] = SharedRows::of(alloc, rows)?;
        }
        Ok(())
    }
}
