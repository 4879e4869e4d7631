//! SELECT.

ghost use Rattle.std.specs.Prelude.{◌≡◌};
ghost use Rattle.sql_grammar.specs.Grammar.{parse};
ghost use Rattle.expr_parse.specs.Reads.{Reads};
ghost use Rattle.sql_parse.specs.Statements as spec;

use crate::parts::{groups, limited, order, table};
use crate::statement::{
    Aggregate, Limit, Output, OutputValue, Outputs, SecondTable, Select, SortKey, TableName,
};
use crate::writes::filter;
use expr_parse::{ColumnName, Expr, Fault, Tokens, comma_list, expr, inner_expr};
use sql_grammar::Kind;
use sqlite_items::Items;
use std::alloc::Global;
use volt_value::Text;

/// What stands behind FROM, up to the condition of WHERE.
#[derive(Drop)]
pub struct Origin {
    pub first: TableName,
    pub second: Option<SecondTable>,
    pub filter: Option<Expr>,
}

/// What stands behind the condition of WHERE.
#[derive(Drop)]
pub struct Rest {
    pub groups: Items<ColumnName>,
    pub order: Items<SortKey>,
    pub limit: Option<Limit>,
}

/// What stands behind the outputs.
#[derive(Drop)]
pub struct Behind {
    pub origin: Origin,
    pub rest: Rest,
}

fn select_of(outputs: Outputs, behind: Behind) -> Select
    ensures { result ≡ spec.select_of outputs behind }
{
    let Behind { origin, rest } = behind;
    let Origin {
        first,
        second,
        filter,
    } = origin;
    let Rest {
        groups,
        order,
        limit,
    } = rest;
    Select {
        outputs,
        first,
        second,
        filter,
        groups,
        order,
        limit,
    }
}

/// `expr ")"`, behind a parenthesis.
#[tactic(auto, using(expr_parse::proofs::Steps::steps), unfolding(crate::specs::Statements::closed))]
fn closed(alloc: Global, tokens: &mut Tokens<'_>, depth: usize) -> Result<Expr, Fault>
    ensures { Reads (parse (spec.closed depth) tokens.old) result tokens.new }
{
    let value = inner_expr(alloc, tokens, depth)?;
    match tokens.expect(Kind::RightParen) {
        Ok(()) => Ok(value),
        Err(fault) => Err(fault.after(value)),
    }
}

/// `"(" expr ")"`, behind SUM, MIN or MAX.
#[tactic(auto, using(expr_parse::proofs::Steps::steps), unfolding(crate::specs::Statements::aggregated))]
fn aggregated(
    alloc: Global,
    tokens: &mut Tokens<'_>,
    depth: usize,
    aggregate: Aggregate,
) -> Result<OutputValue, Fault>
    ensures { Reads (parse (spec.aggregated depth aggregate) tokens.old) result tokens.new }
{
    tokens.open(depth, Kind::LeftParen)?;
    let value = closed(alloc, tokens, depth)?;
    Ok(OutputValue::Aggregate(aggregate, value))
}

/// `"*" ")" | expr ")"`, behind a parenthesis.
#[tactic(auto, using(expr_parse::proofs::Steps::steps), unfolding(crate::specs::Statements::counted_value))]
fn counted_value(alloc: Global, tokens: &mut Tokens<'_>, depth: usize) -> Result<OutputValue, Fault>
    ensures { Reads (parse (spec.counted_value depth) tokens.old) result tokens.new }
{
    if tokens.eat(Kind::Star) {
        tokens.expect(Kind::RightParen)?;
        return Ok(OutputValue::CountRows);
    }
    let value = closed(alloc, tokens, depth)?;
    Ok(OutputValue::Aggregate(Aggregate::Count, value))
}

/// `"(" ("*" | expr) ")"`, behind COUNT.
#[tactic(auto, using(expr_parse::proofs::Steps::steps), unfolding(crate::specs::Statements::counted))]
fn counted(alloc: Global, tokens: &mut Tokens<'_>, depth: usize) -> Result<OutputValue, Fault>
    ensures { Reads (parse (spec.counted depth) tokens.old) result tokens.new }
{
    tokens.open(depth, Kind::LeftParen)?;
    let value = counted_value(alloc, tokens, depth)?;
    Ok(value)
}

/// MIN or MAX of an expression, or an expression.
#[tactic(auto, using(expr_parse::proofs::Steps::steps), unfolding(crate::specs::Statements::least_or_greatest))]
fn least_or_greatest(
    alloc: Global,
    tokens: &mut Tokens<'_>,
    depth: usize,
) -> Result<OutputValue, Fault>
    ensures { Reads (parse (spec.least_or_greatest depth) tokens.old) result tokens.new }
{
    if tokens.eat(Kind::Min) {
        return aggregated(alloc, tokens, depth, Aggregate::Min);
    }
    if tokens.eat(Kind::Max) {
        return aggregated(alloc, tokens, depth, Aggregate::Max);
    }
    Ok(OutputValue::Expr(expr(alloc, tokens, depth)?))
}

/// An aggregate, or an expression.
#[tactic(auto, using(expr_parse::proofs::Steps::steps), unfolding(crate::specs::Statements::output_value))]
fn output_value(alloc: Global, tokens: &mut Tokens<'_>, depth: usize) -> Result<OutputValue, Fault>
    ensures { Reads (parse (spec.output_value depth) tokens.old) result tokens.new }
{
    if tokens.eat(Kind::Count) {
        return counted(alloc, tokens, depth);
    }
    if tokens.eat(Kind::Sum) {
        return aggregated(alloc, tokens, depth, Aggregate::Sum);
    }
    least_or_greatest(alloc, tokens, depth)
}

/// `[AS name]`.
#[tactic(auto, using(expr_parse::proofs::Steps::steps), unfolding(crate::specs::Statements::output_name))]
fn output_name(alloc: Global, tokens: &mut Tokens<'_>) -> Result<Option<Text>, Fault>
    ensures { Reads (parse spec.output_name tokens.old) result tokens.new }
{
    if tokens.eat(Kind::As) {
        return Ok(Some(tokens.name(alloc)?));
    }
    Ok(None)
}

/// An output and its name.
#[tactic(auto, using(expr_parse::proofs::Steps::steps), unfolding(crate::specs::Statements::output))]
fn output(alloc: Global, tokens: &mut Tokens<'_>, depth: usize) -> Result<Output, Fault>
    ensures { Reads (parse (spec.output depth) tokens.old) result tokens.new }
{
    let value = output_value(alloc, tokens, depth)?;
    match output_name(alloc, tokens) {
        Ok(name) => Ok(Output { value, name }),
        Err(fault) => Err(fault.after(value)),
    }
}

/// `out {"," out}`.
#[tactic(auto, unfolding(crate::specs::Statements::listed_outputs))]
fn listed_outputs(
    alloc: Global,
    tokens: &mut Tokens<'_>,
    depth: usize,
) -> Result<Items<Output>, Fault>
    ensures { Reads (parse (spec.listed_outputs depth) tokens.old) result tokens.new }
{
    comma_list(alloc, tokens, |alloc, tokens| output(alloc, tokens, depth))
}

/// `"*" | out {"," out}`.
#[tactic(auto, using(expr_parse::proofs::Steps::steps), unfolding(crate::specs::Statements::outputs))]
fn outputs(alloc: Global, tokens: &mut Tokens<'_>, depth: usize) -> Result<Outputs, Fault>
    ensures { Reads (parse (spec.outputs depth) tokens.old) result tokens.new }
{
    if tokens.eat(Kind::Star) {
        return Ok(Outputs::All);
    }
    Ok(Outputs::Listed(listed_outputs(alloc, tokens, depth)?))
}

/// `name [[AS] name] ON expr`.
#[tactic(auto, using(expr_parse::proofs::Steps::steps), unfolding(crate::specs::Statements::joined))]
fn joined(alloc: Global, tokens: &mut Tokens<'_>, depth: usize) -> Result<SecondTable, Fault>
    ensures { Reads (parse (spec.joined depth) tokens.old) result tokens.new }
{
    let table = table(alloc, tokens)?;
    tokens.expect(Kind::On)?;
    let on = expr(alloc, tokens, depth)?;
    Ok(SecondTable::Joined { table, on })
}

/// The second table of a FROM, where there is one.
#[tactic(auto, using(expr_parse::proofs::Steps::steps), unfolding(crate::specs::Statements::second_table))]
fn second_table(
    alloc: Global,
    tokens: &mut Tokens<'_>,
    depth: usize,
) -> Result<Option<SecondTable>, Fault>
    ensures { Reads (parse (spec.second_table depth) tokens.old) result tokens.new }
{
    if tokens.eat(Kind::Comma) {
        return Ok(Some(SecondTable::Listed(table(alloc, tokens)?)));
    }
    if tokens.eat(Kind::Inner) {
        tokens.expect(Kind::Join)?;
        return Ok(Some(joined(alloc, tokens, depth)?));
    }
    if tokens.eat(Kind::Join) {
        return Ok(Some(joined(alloc, tokens, depth)?));
    }
    Ok(None)
}

/// What stands behind FROM, up to the condition of WHERE.
#[tactic(auto, using(expr_parse::proofs::Steps::steps), unfolding(crate::specs::Statements::source))]
fn source(alloc: Global, tokens: &mut Tokens<'_>, depth: usize) -> Result<Origin, Fault>
    ensures { Reads (parse (spec.source depth) tokens.old) result tokens.new }
{
    let first = table(alloc, tokens)?;
    let second = match second_table(alloc, tokens, depth) {
        Ok(second) => second,
        Err(fault) => return Err(fault.after(first)),
    };
    match filter(alloc, tokens, depth) {
        Ok(filter) => Ok(Origin {
            first,
            second,
            filter,
        }),
        Err(fault) => Err(fault.after(first).after(second)),
    }
}

/// `[GROUP BY ..] [ORDER BY ..] [LIMIT ..]`.
#[tactic(auto, using(expr_parse::proofs::Steps::steps), unfolding(crate::specs::Statements::tail))]
fn tail(alloc: Global, tokens: &mut Tokens<'_>) -> Result<Rest, Fault>
    ensures { Reads (parse spec.tail tokens.old) result tokens.new }
{
    let groups = groups(alloc, tokens)?;
    let order = order(alloc, tokens)?;
    let limit = limited(alloc, tokens)?;
    Ok(Rest {
        groups,
        order,
        limit,
    })
}

/// FROM, and what stands behind it.
#[tactic(auto, using(expr_parse::proofs::Steps::steps), unfolding(crate::specs::Statements::behind))]
fn behind_outputs(alloc: Global, tokens: &mut Tokens<'_>, depth: usize) -> Result<Behind, Fault>
    ensures { Reads (parse (spec.behind depth) tokens.old) result tokens.new }
{
    tokens.expect(Kind::From)?;
    let origin = source(alloc, tokens, depth)?;
    match tail(alloc, tokens) {
        Ok(rest) => Ok(Behind { origin, rest }),
        Err(fault) => Err(fault.after(origin)),
    }
}

/// What stands behind SELECT.
#[tactic(auto, using(expr_parse::proofs::Steps::steps), unfolding(crate::specs::Statements::select))]
pub fn select(alloc: Global, tokens: &mut Tokens<'_>, depth: usize) -> Result<Select, Fault>
    ensures { Reads (parse (spec.select depth) tokens.old) result tokens.new }
{
    let outputs = outputs(alloc, tokens, depth)?;
    let behind = behind_outputs(alloc, tokens, depth)?;
    Ok(select_of(outputs, behind))
}
