//! Expressions that hold no other expression.

ghost use Rattle.std.specs.Prelude.{◌≡◌};
ghost use Rattle.sql_grammar.specs.Grammar.{parse, at};
ghost use Rattle.expr_parse.specs.Words.{column_named, bound_named};
ghost use Rattle.expr_parse.specs.Reads.{Reads};
ghost use Rattle.expr_parse.specs.Expressions as spec;

use crate::cursor::Tokens;
use crate::expression::{ColumnName, Expr};
use crate::fault::Fault;
use sql_grammar::Kind;
use std::alloc::Global;
use volt_value::Text;

/// `["." name]`.
fn after_dot(alloc: Global, tokens: &mut Tokens<'_>) -> Result<Option<Text>, Fault>
    ensures { Reads (parse spec.after_dot tokens.old) result tokens.new }
{
    if tokens.eat(Kind::Dot) {
        Ok(Some(tokens.name(alloc)?))
    } else {
        Ok(None)
    }
}

fn column_named(name: Text, second: Option<Text>) -> ColumnName
    ensures { result ≡ column_named name second }
{
    match second {
        None => ColumnName {
            table: None,
            column: name,
        },
        Some(column) => ColumnName {
            table: Some(name),
            column,
        },
    }
}

fn bound_named(name: Text, second: Option<Text>) -> Expr
    ensures { result ≡ bound_named name second }
{
    match second {
        None => Expr::Variable(name),
        Some(column) => Expr::RowColumn { row: name, column },
    }
}

/// `name ["." name]`, a column.
#[tactic(auto, using(crate::proofs::Steps::steps), unfolding(crate::specs::Expressions::column))]
pub fn column(alloc: Global, tokens: &mut Tokens<'_>) -> Result<ColumnName, Fault>
    ensures { Reads (parse spec.column tokens.old) result tokens.new }
{
    let name = tokens.name(alloc)?;
    let second = after_dot(alloc, tokens)?;
    Ok(column_named(name, second))
}

/// `name ["." name]`, behind a colon.
#[tactic(auto, using(crate::proofs::Steps::steps), unfolding(crate::specs::Expressions::bound))]
fn bound(alloc: Global, tokens: &mut Tokens<'_>) -> Result<Expr, Fault>
    ensures { Reads (parse spec.bound tokens.old) result tokens.new }
{
    let name = tokens.name(alloc)?;
    let second = after_dot(alloc, tokens)?;
    Ok(bound_named(name, second))
}

/// `"(" name ")"`, behind ROWS.
#[tactic(auto, using(crate::proofs::Steps::steps), unfolding(crate::specs::Expressions::rows))]
fn rows(alloc: Global, tokens: &mut Tokens<'_>, depth: usize) -> Result<Expr, Fault>
    ensures { Reads (parse (spec.rows depth) tokens.old) result tokens.new }
{
    tokens.open(depth, Kind::LeftParen)?;
    let result = tokens.name(alloc)?;
    tokens.expect(Kind::RightParen)?;
    Ok(Expr::Rows(result))
}

/// `"(" name "." name ")"`, behind FIRST.
#[tactic(auto, using(crate::proofs::Steps::steps), unfolding(crate::specs::Expressions::first_of_rows))]
fn first_of_rows(alloc: Global, tokens: &mut Tokens<'_>, depth: usize) -> Result<Expr, Fault>
    ensures { Reads (parse (spec.first_of_rows depth) tokens.old) result tokens.new }
{
    tokens.open(depth, Kind::LeftParen)?;
    let result = tokens.name(alloc)?;
    tokens.expect(Kind::Dot)?;
    let column = tokens.name(alloc)?;
    tokens.expect(Kind::RightParen)?;
    Ok(Expr::First { result, column })
}

/// A name, `":"`, ROWS or FIRST, and what follows it.
#[tactic(auto, using(crate::proofs::Steps::steps), unfolding(crate::specs::Expressions::named, crate::specs::Expressions::column))]
pub fn named(alloc: Global, tokens: &mut Tokens<'_>, depth: usize) -> Result<Expr, Fault>
    ensures { Reads (parse (spec.named depth) tokens.old) result tokens.new }
{
    if tokens.sees(Kind::Name) {
        return Ok(Expr::Column(column(alloc, tokens)?));
    }
    if tokens.eat(Kind::Colon) {
        return bound(alloc, tokens);
    }
    if tokens.eat(Kind::Rows) {
        return rows(alloc, tokens, depth);
    }
    tokens.expect(Kind::First)?;
    first_of_rows(alloc, tokens, depth)
}

/// Whether a number, a text, NULL or `?` is next.
#[tactic(auto, unfolding(crate::specs::Expressions::literal))]
pub fn begins_literal(tokens: &Tokens<'_>) -> bool
    ensures { result ≡ at spec.literal tokens.now }
{
    tokens.sees(Kind::Number)
        || tokens.sees(Kind::Text)
        || tokens.sees(Kind::Null)
        || tokens.sees(Kind::Question)
}

/// A number, a text, NULL or `?`.
#[tactic(auto, using(crate::proofs::Steps::steps), unfolding(crate::specs::Expressions::literal))]
pub fn literal(alloc: Global, tokens: &mut Tokens<'_>) -> Result<Expr, Fault>
    ensures { Reads (parse spec.literal tokens.old) result tokens.new }
{
    if tokens.sees(Kind::Number) {
        return Ok(Expr::Number(tokens.number()?));
    }
    if tokens.sees(Kind::Text) {
        return Ok(Expr::Text(tokens.text(alloc)?));
    }
    if tokens.eat(Kind::Null) {
        return Ok(Expr::Null);
    }
    tokens.expect(Kind::Question)?;
    Ok(Expr::Parameter)
}
