//! INSERT, UPDATE and DELETE.

ghost use Rattle.std.specs.Prelude.{◌≡◌};
ghost use Rattle.sql_grammar.specs.Grammar.{parse};
ghost use Rattle.expr_parse.specs.Reads.{Reads};
ghost use Rattle.sql_parse.specs.Statements as spec;

use crate::parts::names;
use crate::statement::{Assignment, Delete, Insert, Update};
use expr_parse::{Expr, Fault, Tokens, comma_list, expr, inner_expr};
use sql_grammar::Kind;
use sqlite_items::Items;
use std::alloc::Global;
use volt_value::Text;

/// `[WHERE expr]`.
#[tactic(auto, using(expr_parse::proofs::Steps::steps), unfolding(crate::specs::Statements::filter))]
pub fn filter(alloc: Global, tokens: &mut Tokens<'_>, depth: usize) -> Result<Option<Expr>, Fault>
    ensures { Reads (parse (spec.filter depth) tokens.old) result tokens.new }
{
    if tokens.eat(Kind::Where) {
        return Ok(Some(expr(alloc, tokens, depth)?));
    }
    Ok(None)
}

/// `expr {"," expr}`, behind a parenthesis.
#[tactic(auto, unfolding(crate::specs::Statements::inner_exprs))]
fn inner_exprs(alloc: Global, tokens: &mut Tokens<'_>, depth: usize) -> Result<Items<Expr>, Fault>
    ensures { Reads (parse (spec.inner_exprs depth) tokens.old) result tokens.new }
{
    comma_list(
        alloc,
        tokens,
        |alloc, tokens| inner_expr(alloc, tokens, depth),
    )
}

/// `["(" names ")"]`.
#[tactic(auto, using(expr_parse::proofs::Steps::steps), unfolding(crate::specs::Statements::named_columns))]
fn named_columns(
    alloc: Global,
    tokens: &mut Tokens<'_>,
    depth: usize,
) -> Result<Option<Items<Text>>, Fault>
    ensures { Reads (parse (spec.named_columns depth) tokens.old) result tokens.new }
{
    if !tokens.begins(depth, Kind::LeftParen) {
        return Ok(None);
    }
    tokens.open(depth, Kind::LeftParen)?;
    let names = names(alloc, tokens)?;
    tokens.expect(Kind::RightParen)?;
    Ok(Some(names))
}

/// `"(" expr {"," expr} ")"`.
#[tactic(auto, using(expr_parse::proofs::Steps::steps), unfolding(crate::specs::Statements::values))]
fn values(alloc: Global, tokens: &mut Tokens<'_>, depth: usize) -> Result<Items<Expr>, Fault>
    ensures { Reads (parse (spec.values depth) tokens.old) result tokens.new }
{
    tokens.open(depth, Kind::LeftParen)?;
    let values = inner_exprs(alloc, tokens, depth)?;
    tokens.expect(Kind::RightParen)?;
    Ok(values)
}

/// `name ["(" names ")"] VALUES "(" expr {"," expr} ")"`.
#[tactic(auto, using(expr_parse::proofs::Steps::steps), unfolding(crate::specs::Statements::insert))]
pub fn insert(alloc: Global, tokens: &mut Tokens<'_>, depth: usize) -> Result<Insert, Fault>
    ensures { Reads (parse (spec.insert depth) tokens.old) result tokens.new }
{
    let table = tokens.name(alloc)?;
    let columns = named_columns(alloc, tokens, depth)?;
    tokens.expect(Kind::Values)?;
    let values = values(alloc, tokens, depth)?;
    Ok(Insert {
        table,
        columns,
        values,
    })
}

/// `name "=" expr`.
#[tactic(auto, using(expr_parse::proofs::Steps::steps), unfolding(crate::specs::Statements::assignment))]
fn assignment(alloc: Global, tokens: &mut Tokens<'_>, depth: usize) -> Result<Assignment, Fault>
    ensures { Reads (parse (spec.assignment depth) tokens.old) result tokens.new }
{
    let column = tokens.name(alloc)?;
    tokens.expect(Kind::Equal)?;
    let value = expr(alloc, tokens, depth)?;
    Ok(Assignment { column, value })
}

/// `name "=" expr {"," name "=" expr}`.
#[tactic(auto, unfolding(crate::specs::Statements::assignments))]
fn assignments(
    alloc: Global,
    tokens: &mut Tokens<'_>,
    depth: usize,
) -> Result<Items<Assignment>, Fault>
    ensures { Reads (parse (spec.assignments depth) tokens.old) result tokens.new }
{
    comma_list(
        alloc,
        tokens,
        |alloc, tokens| assignment(alloc, tokens, depth),
    )
}

/// `name SET name "=" expr {"," name "=" expr} [WHERE expr]`.
#[tactic(auto, using(expr_parse::proofs::Steps::steps), unfolding(crate::specs::Statements::update))]
pub fn update(alloc: Global, tokens: &mut Tokens<'_>, depth: usize) -> Result<Update, Fault>
    ensures { Reads (parse (spec.update depth) tokens.old) result tokens.new }
{
    let table = tokens.name(alloc)?;
    tokens.expect(Kind::Set)?;
    let sets = assignments(alloc, tokens, depth)?;
    let filter = filter(alloc, tokens, depth)?;
    Ok(Update {
        table,
        sets,
        filter,
    })
}

/// `name [WHERE expr]`.
#[tactic(auto, using(expr_parse::proofs::Steps::steps), unfolding(crate::specs::Statements::delete))]
pub fn delete(alloc: Global, tokens: &mut Tokens<'_>, depth: usize) -> Result<Delete, Fault>
    ensures { Reads (parse (spec.delete depth) tokens.old) result tokens.new }
{
    let table = tokens.name(alloc)?;
    let filter = filter(alloc, tokens, depth)?;
    Ok(Delete { table, filter })
}
