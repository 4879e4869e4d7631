//! The rules of steps.

ghost use Rattle.std.specs.Prelude.{◌≡◌};
ghost use Rattle.sql_grammar.specs.Grammar.{parse, at};
ghost use Rattle.expr_parse.specs.Expressions.{name, before};
ghost use Rattle.expr_parse.specs.Expressions as expressions;
ghost use Rattle.sql_parse.specs.Statements as statements;
ghost use Rattle.expr_parse.specs.Reads.{Reads};
ghost use Rattle.ddl_parse.specs.NestsSteps.{NestsSteps};
ghost use Rattle.ddl_parse.specs.Procedures as spec;

use crate::procedure::{ReturnText, StepText};
use expr_parse::{ColumnName, Expr, Fault, Tokens, comma_list, expr};
use sql_grammar::Kind;
use sql_parse::{Stmt, stmt};
use sqlite_items::Items;
use std::alloc::Global;
use volt_value::Text;

/// Whether the expressions are a name alone.
fn is_lone_name(values: &[Expr]) -> bool
    ensures { result ≡ spec.is_lone_name values.now }
{
    matches!(values, [Expr::Column(ColumnName { table: None, .. })])
}

/// The result that an expression names which is a name alone.
fn result_of(value: Option<Expr>) -> ReturnText
    ensures { result ≡ spec.result_of value }
{
    match value {
        Some(Expr::Column(name)) => ReturnText::Result(name.column),
        _ => ReturnText::Nothing,
    }
}

/// What expressions behind RETURN give: a name alone is a result.
fn returned_of(mut values: Items<Expr>) -> ReturnText
    ensures { result ≡ spec.returned_of values }
{
    if is_lone_name(values.as_slice()) {
        result_of(values.pop())
    } else {
        ReturnText::Values(values)
    }
}

/// `name "="`.
#[tactic(auto, using(expr_parse::proofs::Steps::steps))]
fn name_before_equal(alloc: Global, tokens: &mut Tokens<'_>) -> Result<Text, Fault>
    ensures { Reads (parse (before name Kind.Equal) tokens.old) result tokens.new }
{
    let name = tokens.name(alloc)?;
    tokens.expect(Kind::Equal)?;
    Ok(name)
}

/// `[name "="]`, behind SQL.
#[tactic(auto, using(expr_parse::proofs::Steps::steps), unfolding(crate::specs::Procedures::result_name))]
fn result_name(alloc: Global, tokens: &mut Tokens<'_>) -> Result<Option<Text>, Fault>
    ensures { Reads (parse spec.result_name tokens.old) result tokens.new }
{
    if !tokens.sees(Kind::Name) {
        return Ok(None);
    }
    Ok(Some(name_before_equal(alloc, tokens)?))
}

/// `END ";"`.
#[tactic(auto, using(expr_parse::proofs::Steps::steps))]
fn ended(tokens: &mut Tokens<'_>) -> Result<(), Fault>
    ensures { Reads (parse spec.ended tokens.old) result tokens.new }
{
    tokens.expect(Kind::End)?;
    tokens.expect(Kind::Semicolon)
}

/// `text ";"`, behind ABORT.
#[tactic(auto, using(expr_parse::proofs::Steps::steps))]
fn message(alloc: Global, tokens: &mut Tokens<'_>) -> Result<Text, Fault>
    ensures { Reads (parse spec.message tokens.old) result tokens.new }
{
    let text = tokens.text(alloc)?;
    tokens.expect(Kind::Semicolon)?;
    Ok(text)
}

/// `expr ";"`.
#[tactic(auto, using(expr_parse::proofs::Steps::steps))]
fn closed_expr(alloc: Global, tokens: &mut Tokens<'_>, depth: usize) -> Result<Expr, Fault>
    ensures { Reads (parse (before (expressions.expr depth) Kind.Semicolon) tokens.old) result tokens.new }
{
    let value = expr(alloc, tokens, depth)?;
    match tokens.expect(Kind::Semicolon) {
        Ok(()) => Ok(value),
        Err(fault) => Err(fault.after(value)),
    }
}

/// `name "=" expr ";"`, behind LET.
#[tactic(auto, using(expr_parse::proofs::Steps::steps), unfolding(crate::specs::Procedures::assigned))]
fn assigned(alloc: Global, tokens: &mut Tokens<'_>, depth: usize) -> Result<StepText, Fault>
    ensures { Reads (parse (spec.assigned depth) tokens.old) result tokens.new }
{
    let variable = tokens.name(alloc)?;
    tokens.expect(Kind::Equal)?;
    let value = closed_expr(alloc, tokens, depth)?;
    Ok(StepText::Let { variable, value })
}

/// `stmt ";"`.
#[tactic(auto, using(expr_parse::proofs::Steps::steps))]
fn closed_stmt(alloc: Global, tokens: &mut Tokens<'_>, depth: usize) -> Result<Stmt, Fault>
    ensures { Reads (parse (before (statements.stmt depth) Kind.Semicolon) tokens.old) result tokens.new }
{
    let statement = stmt(alloc, tokens, depth)?;
    match tokens.expect(Kind::Semicolon) {
        Ok(()) => Ok(statement),
        Err(fault) => Err(fault.after(statement)),
    }
}

/// `[name "="] stmt ";"`, behind SQL.
#[tactic(auto, using(expr_parse::proofs::Steps::steps), unfolding(crate::specs::Procedures::executed))]
fn executed(alloc: Global, tokens: &mut Tokens<'_>, depth: usize) -> Result<StepText, Fault>
    ensures { Reads (parse (spec.executed depth) tokens.old) result tokens.new }
{
    let result = result_name(alloc, tokens)?;
    let statement = closed_stmt(alloc, tokens, depth)?;
    Ok(StepText::Sql { result, statement })
}

/// `expr {"," expr}`.
#[tactic(auto, unfolding(crate::specs::Procedures::exprs))]
fn exprs(alloc: Global, tokens: &mut Tokens<'_>, depth: usize) -> Result<Items<Expr>, Fault>
    ensures { Reads (parse (spec.exprs depth) tokens.old) result tokens.new }
{
    comma_list(alloc, tokens, |alloc, tokens| expr(alloc, tokens, depth))
}

/// `[name | expr {"," expr}] ";"`, behind RETURN.
#[tactic(auto, using(expr_parse::proofs::Steps::steps), unfolding(crate::specs::Procedures::returned))]
fn returned(alloc: Global, tokens: &mut Tokens<'_>, depth: usize) -> Result<ReturnText, Fault>
    ensures { Reads (parse (spec.returned depth) tokens.old) result tokens.new }
{
    if tokens.eat(Kind::Semicolon) {
        return Ok(ReturnText::Nothing);
    }
    let values = exprs(alloc, tokens, depth)?;
    tokens.expect(Kind::Semicolon)?;
    Ok(returned_of(values))
}

/// The rules of a step in which so many nestings are left. They take the function that reads the
/// steps in it as a value, so that each is proved by itself.
#[derive(Clone, Copy)]
pub struct StepRules<F> {
    pub alloc: Global,
    pub depth: usize,
    pub steps: F,
}

impl<F: Fn(Global, &mut Tokens<'_>, usize) -> Result<Items<StepText>, Fault>> StepRules<F> {
    /// The steps in a step.
    fn inner(&self, tokens: &mut Tokens<'_>) -> Result<Items<StepText>, Fault>
        requires { NestsSteps self.now.depth (F.pre self.now.steps) (F.post self.now.steps) }
        ensures { Reads (parse (spec.steps self.now.depth) tokens.old) result tokens.new }
    {
        (self.steps)(self.alloc, tokens, self.depth)
    }

    /// `[ELSE {step}]`.
    #[tactic(auto, using(expr_parse::proofs::Steps::steps), unfolding(crate::specs::Procedures::otherwise))]
    fn otherwise(&self, tokens: &mut Tokens<'_>) -> Result<Items<StepText>, Fault>
        requires { NestsSteps self.now.depth (F.pre self.now.steps) (F.post self.now.steps) }
        ensures { Reads (parse (spec.otherwise (spec.steps self.now.depth)) tokens.old) result tokens.new }
    {
        if tokens.eat(Kind::Else) {
            self.inner(tokens)
        } else {
            Ok(Items::new(self.alloc))
        }
    }

    /// `expr THEN {step} [ELSE {step}] END ";"`, behind IF.
    #[tactic(auto, using(expr_parse::proofs::Steps::steps), unfolding(crate::specs::Procedures::chosen))]
    fn chosen(&self, tokens: &mut Tokens<'_>) -> Result<StepText, Fault>
        requires { NestsSteps self.now.depth (F.pre self.now.steps) (F.post self.now.steps) }
        ensures { Reads (parse (spec.chosen self.now.depth (spec.steps self.now.depth)) tokens.old) result tokens.new }
    {
        let condition = expr(self.alloc, tokens, self.depth)?;
        if let Err(fault) = tokens.expect(Kind::Then) {
            return Err(fault.after(condition));
        }
        let steps = match self.inner(tokens) {
            Ok(steps) => steps,
            Err(fault) => return Err(fault.after(condition)),
        };
        let otherwise = match self.otherwise(tokens) {
            Ok(otherwise) => otherwise,
            Err(fault) => return Err(fault.after(condition).after(steps)),
        };
        let step = StepText::If {
            condition,
            steps,
            otherwise,
        };
        match ended(tokens) {
            Ok(()) => Ok(step),
            Err(fault) => Err(fault.after(step)),
        }
    }

    /// `name IN name DO {step} END ";"`, behind FOR.
    #[tactic(auto, using(expr_parse::proofs::Steps::steps), unfolding(crate::specs::Procedures::repeated))]
    fn repeated(&self, tokens: &mut Tokens<'_>) -> Result<StepText, Fault>
        requires { NestsSteps self.now.depth (F.pre self.now.steps) (F.post self.now.steps) }
        ensures { Reads (parse (spec.repeated (spec.steps self.now.depth)) tokens.old) result tokens.new }
    {
        let row = tokens.name(self.alloc)?;
        tokens.expect(Kind::In)?;
        let result = tokens.name(self.alloc)?;
        tokens.expect(Kind::Do)?;
        let steps = self.inner(tokens)?;
        let step = StepText::For { row, result, steps };
        match ended(tokens) {
            Ok(()) => Ok(step),
            Err(fault) => Err(fault.after(step)),
        }
    }

    /// A step.
    #[tactic(auto, using(expr_parse::proofs::Steps::steps), unfolding(crate::specs::Procedures::step))]
    fn step(&self, tokens: &mut Tokens<'_>) -> Result<StepText, Fault>
        requires { NestsSteps self.now.depth (F.pre self.now.steps) (F.post self.now.steps) }
        ensures { Reads (parse (spec.step self.now.depth (spec.steps self.now.depth)) tokens.old) result tokens.new }
    {
        if tokens.eat(Kind::Let) {
            return assigned(self.alloc, tokens, self.depth);
        }
        if tokens.eat(Kind::Sql) {
            return executed(self.alloc, tokens, self.depth);
        }
        if tokens.eat(Kind::If) {
            return self.chosen(tokens);
        }
        if tokens.eat(Kind::For) {
            return self.repeated(tokens);
        }
        if tokens.eat(Kind::Abort) {
            return Ok(StepText::Abort(message(self.alloc, tokens)?));
        }
        tokens.expect(Kind::Return)?;
        Ok(StepText::Return(returned(self.alloc, tokens, self.depth)?))
    }

    /// Whether a step is next.
    #[tactic(auto, unfolding(crate::specs::Procedures::step))]
    fn begins(&self, tokens: &Tokens<'_>) -> bool
        ensures { result ≡ at (spec.step self.now.depth (spec.steps self.now.depth)) tokens.now }
    {
        tokens.sees(Kind::Let)
            || tokens.sees(Kind::Sql)
            || tokens.sees(Kind::If)
            || tokens.sees(Kind::For)
            || tokens.sees(Kind::Abort)
            || tokens.sees(Kind::Return)
    }

    /// `{step}`.
    #[tactic(auto, using(expr_parse::proofs::Steps::steps))]
    fn many(&self, tokens: &mut Tokens<'_>) -> Result<Items<StepText>, Fault>
        requires { NestsSteps self.now.depth (F.pre self.now.steps) (F.post self.now.steps) }
        ensures { Reads (parse (spec.many (spec.step self.now.depth (spec.steps self.now.depth))) tokens.old) result tokens.new }
    {
        let mut found = Items::new(self.alloc);
        for _turn in 0..tokens.left() {
            if !self.begins(tokens) {
                return Ok(found);
            }
            found.push(self.step(tokens)?)?;
        }
        Ok(found)
    }
}

/// `{step}`, where so many nestings are left.
pub fn steps(alloc: Global, tokens: &mut Tokens<'_>, depth: usize) -> Result<Items<StepText>, Fault>
    ensures { Reads (parse (spec.steps depth) tokens.old) result tokens.new }
{
    if depth == 0 {
        return Ok(Items::new(alloc));
    }
    StepRules {
        alloc,
        depth: depth - 1,
        steps,
    }
    .many(tokens)
}
