//! Parts of statements that hold no expression.

ghost use Rattle.std.specs.Prelude.{◌≡◌};
ghost use Rattle.sql_grammar.specs.Grammar.{parse};
ghost use Rattle.expr_parse.specs.Reads.{Reads};
ghost use Rattle.sql_parse.specs.Statements as spec;

use crate::statement::{Limit, SortKey, TableName};
use expr_parse::{ColumnName, Fault, Tokens, column, comma_list};
use sql_grammar::Kind;
use sqlite_items::Items;
use std::alloc::Global;
use volt_value::Text;

/// `name {"," name}`.
#[tactic(auto, unfolding(crate::specs::Statements::names))]
pub fn names(alloc: Global, tokens: &mut Tokens<'_>) -> Result<Items<Text>, Fault>
    ensures { Reads (parse spec.names tokens.old) result tokens.new }
{
    comma_list(alloc, tokens, |alloc, tokens| tokens.name(alloc))
}

/// `col {"," col}`.
#[tactic(auto, unfolding(crate::specs::Statements::columns))]
fn columns(alloc: Global, tokens: &mut Tokens<'_>) -> Result<Items<ColumnName>, Fault>
    ensures { Reads (parse spec.columns tokens.old) result tokens.new }
{
    comma_list(alloc, tokens, |alloc, tokens| column(alloc, tokens))
}

/// `[[AS] name]`.
#[tactic(auto, using(expr_parse::proofs::Steps::steps), unfolding(crate::specs::Statements::alias))]
fn alias(alloc: Global, tokens: &mut Tokens<'_>) -> Result<Option<Text>, Fault>
    ensures { Reads (parse spec.alias tokens.old) result tokens.new }
{
    if tokens.eat(Kind::As) || tokens.sees(Kind::Name) {
        return Ok(Some(tokens.name(alloc)?));
    }
    Ok(None)
}

/// `name [[AS] name]`.
#[tactic(auto, using(expr_parse::proofs::Steps::steps), unfolding(crate::specs::Statements::table))]
pub fn table(alloc: Global, tokens: &mut Tokens<'_>) -> Result<TableName, Fault>
    ensures { Reads (parse spec.table tokens.old) result tokens.new }
{
    let table = tokens.name(alloc)?;
    let alias = alias(alloc, tokens)?;
    Ok(TableName { table, alias })
}

/// `[GROUP BY col {"," col}]`.
#[tactic(auto, using(expr_parse::proofs::Steps::steps), unfolding(crate::specs::Statements::groups))]
pub fn groups(alloc: Global, tokens: &mut Tokens<'_>) -> Result<Items<ColumnName>, Fault>
    ensures { Reads (parse spec.groups tokens.old) result tokens.new }
{
    if tokens.eat(Kind::Group) {
        tokens.expect(Kind::By)?;
        return columns(alloc, tokens);
    }
    Ok(Items::new(alloc))
}

/// `[ASC | DESC]`: whether it is DESC.
#[tactic(auto, using(expr_parse::proofs::Steps::steps), unfolding(crate::specs::Statements::descending))]
fn descending(tokens: &mut Tokens<'_>) -> bool
    ensures { parse spec.descending tokens.old ≡ Ok (result, tokens.new) }
{
    if tokens.eat(Kind::Desc) {
        return true;
    }
    tokens.eat(Kind::Asc);
    false
}

/// `col [ASC | DESC]`.
#[tactic(auto, using(expr_parse::proofs::Steps::steps), unfolding(crate::specs::Statements::key))]
fn key(alloc: Global, tokens: &mut Tokens<'_>) -> Result<SortKey, Fault>
    ensures { Reads (parse spec.key tokens.old) result tokens.new }
{
    let column = column(alloc, tokens)?;
    let descending = descending(tokens);
    Ok(SortKey { column, descending })
}

/// `key {"," key}`.
#[tactic(auto, unfolding(crate::specs::Statements::keys))]
fn keys(alloc: Global, tokens: &mut Tokens<'_>) -> Result<Items<SortKey>, Fault>
    ensures { Reads (parse spec.keys tokens.old) result tokens.new }
{
    comma_list(alloc, tokens, key)
}

/// `[ORDER BY key {"," key}]`.
#[tactic(auto, using(expr_parse::proofs::Steps::steps), unfolding(crate::specs::Statements::order))]
pub fn order(alloc: Global, tokens: &mut Tokens<'_>) -> Result<Items<SortKey>, Fault>
    ensures { Reads (parse spec.order tokens.old) result tokens.new }
{
    if tokens.eat(Kind::Order) {
        tokens.expect(Kind::By)?;
        return keys(alloc, tokens);
    }
    Ok(Items::new(alloc))
}

/// A number, `?`, or `":" name`.
#[tactic(auto, using(expr_parse::proofs::Steps::steps), unfolding(crate::specs::Statements::limit_value))]
fn limit_value(alloc: Global, tokens: &mut Tokens<'_>) -> Result<Limit, Fault>
    ensures { Reads (parse spec.limit_value tokens.old) result tokens.new }
{
    if tokens.sees(Kind::Number) {
        return Ok(Limit::Number(tokens.number()?));
    }
    if tokens.eat(Kind::Question) {
        return Ok(Limit::Parameter);
    }
    tokens.expect(Kind::Colon)?;
    Ok(Limit::Variable(tokens.name(alloc)?))
}

/// `[LIMIT (number | "?" | ":" name)]`.
#[tactic(auto, using(expr_parse::proofs::Steps::steps), unfolding(crate::specs::Statements::limited))]
pub fn limited(alloc: Global, tokens: &mut Tokens<'_>) -> Result<Option<Limit>, Fault>
    ensures { Reads (parse spec.limited tokens.old) result tokens.new }
{
    if tokens.eat(Kind::Limit) {
        return Ok(Some(limit_value(alloc, tokens)?));
    }
    Ok(None)
}
