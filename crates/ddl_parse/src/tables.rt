//! The rules of tables, indexes and partitions.

ghost use Rattle.std.specs.Prelude.{◌≡◌};
ghost use Rattle.sql_grammar.specs.Grammar.{parse, skip};
ghost use Rattle.expr_parse.specs.Expressions.{name};
ghost use Rattle.expr_parse.specs.Reads.{Reads};
ghost use Rattle.sql_parse.specs.Statements.{names};
ghost use Rattle.ddl_parse.specs.Types.{closed};
ghost use Rattle.ddl_parse.specs.Ddl as spec;

use crate::ddl::{ColumnText, CreateIndex, CreateTable, PartitionTable, TableItem};
use crate::types::type_name;
use expr_parse::{Fault, Tokens, comma_list};
use sql_grammar::Kind;
use sql_parse::names;
use sqlite_items::Items;
use std::alloc::Global;
use volt_value::Text;

/// `"(" names ")"`.
#[tactic(auto, using(expr_parse::proofs::Steps::steps))]
fn closed_names(alloc: Global, tokens: &mut Tokens<'_>) -> Result<Items<Text>, Fault>
    ensures { Reads (parse (closed names) tokens.old) result tokens.new }
{
    tokens.expect(Kind::LeftParen)?;
    let found = names(alloc, tokens)?;
    tokens.expect(Kind::RightParen)?;
    Ok(found)
}

/// `[NOT NULL]`.
#[tactic(auto, using(expr_parse::proofs::Steps::steps), unfolding(crate::specs::Ddl::not_null))]
fn not_null(tokens: &mut Tokens<'_>) -> Result<bool, Fault>
    ensures { Reads (parse spec.not_null tokens.old) result tokens.new }
{
    if !tokens.eat(Kind::Not) {
        return Ok(false);
    }
    tokens.expect(Kind::Null)?;
    Ok(true)
}

/// `[PRIMARY KEY]`.
#[tactic(auto, using(expr_parse::proofs::Steps::steps), unfolding(crate::specs::Ddl::primary_key))]
fn primary_key(tokens: &mut Tokens<'_>) -> Result<bool, Fault>
    ensures { Reads (parse spec.primary_key tokens.old) result tokens.new }
{
    if !tokens.eat(Kind::Primary) {
        return Ok(false);
    }
    tokens.expect(Kind::Key)?;
    Ok(true)
}

/// `name type [NOT NULL] [PRIMARY KEY]`.
#[tactic(auto, using(expr_parse::proofs::Steps::steps), unfolding(crate::specs::Ddl::column_text))]
fn column_text(alloc: Global, tokens: &mut Tokens<'_>) -> Result<ColumnText, Fault>
    ensures { Reads (parse spec.column_text tokens.old) result tokens.new }
{
    let name = tokens.name(alloc)?;
    let kind = type_name(tokens)?;
    let not_null = not_null(tokens)?;
    let primary_key = primary_key(tokens)?;
    Ok(ColumnText {
        name,
        kind,
        not_null,
        primary_key,
    })
}

/// `KEY "(" names ")"`, behind PRIMARY.
#[tactic(auto, using(expr_parse::proofs::Steps::steps), unfolding(crate::specs::Ddl::key_columns))]
fn key_columns(alloc: Global, tokens: &mut Tokens<'_>) -> Result<Items<Text>, Fault>
    ensures { Reads (parse spec.key_columns tokens.old) result tokens.new }
{
    tokens.expect(Kind::Key)?;
    closed_names(alloc, tokens)
}

/// `name PRIMARY KEY "(" names ")"`, behind CONSTRAINT.
#[tactic(auto, using(expr_parse::proofs::Steps::steps), unfolding(crate::specs::Ddl::named_key))]
fn named_key(alloc: Global, tokens: &mut Tokens<'_>) -> Result<TableItem, Fault>
    ensures { Reads (parse spec.named_key tokens.old) result tokens.new }
{
    let constraint = tokens.name(alloc)?;
    tokens.expect(Kind::Primary)?;
    let columns = key_columns(alloc, tokens)?;
    Ok(TableItem::PrimaryKey {
        constraint: Some(constraint),
        columns,
    })
}

/// A column, or the primary key of several.
#[tactic(auto, using(expr_parse::proofs::Steps::steps), unfolding(crate::specs::Ddl::table_item))]
fn table_item(alloc: Global, tokens: &mut Tokens<'_>) -> Result<TableItem, Fault>
    ensures { Reads (parse spec.table_item tokens.old) result tokens.new }
{
    if tokens.eat(Kind::Constraint) {
        return named_key(alloc, tokens);
    }
    if tokens.eat(Kind::Primary) {
        let columns = key_columns(alloc, tokens)?;
        return Ok(TableItem::PrimaryKey {
            constraint: None,
            columns,
        });
    }
    Ok(TableItem::Column(column_text(alloc, tokens)?))
}

/// `item {"," item}`.
#[tactic(auto, unfolding(crate::specs::Ddl::table_items))]
fn table_items(alloc: Global, tokens: &mut Tokens<'_>) -> Result<Items<TableItem>, Fault>
    ensures { Reads (parse spec.table_items tokens.old) result tokens.new }
{
    comma_list(alloc, tokens, table_item)
}

/// `name "(" item {"," item} ")"`, behind TABLE.
#[tactic(auto, using(expr_parse::proofs::Steps::steps), unfolding(crate::specs::Ddl::table_text))]
pub fn table_text(alloc: Global, tokens: &mut Tokens<'_>) -> Result<CreateTable, Fault>
    ensures { Reads (parse spec.table_text tokens.old) result tokens.new }
{
    let name = tokens.name(alloc)?;
    tokens.expect(Kind::LeftParen)?;
    let items = table_items(alloc, tokens)?;
    tokens.expect(Kind::RightParen)?;
    Ok(CreateTable { name, items })
}

/// `name ON name "(" names ")"`, behind INDEX.
#[tactic(auto, using(expr_parse::proofs::Steps::steps), unfolding(crate::specs::Ddl::index_text))]
pub fn index_text(
    alloc: Global,
    tokens: &mut Tokens<'_>,
    unique: bool,
) -> Result<CreateIndex, Fault>
    ensures { Reads (parse (spec.index_text unique) tokens.old) result tokens.new }
{
    let name = tokens.name(alloc)?;
    tokens.expect(Kind::On)?;
    let table = tokens.name(alloc)?;
    let columns = closed_names(alloc, tokens)?;
    Ok(CreateIndex {
        name,
        unique,
        table,
        columns,
    })
}

/// `ON COLUMN name`.
#[tactic(auto, using(expr_parse::proofs::Steps::steps))]
fn partition_column(alloc: Global, tokens: &mut Tokens<'_>) -> Result<Text, Fault>
    ensures { Reads (parse (skip Kind.On (skip Kind.Column name)) tokens.old) result tokens.new }
{
    tokens.expect(Kind::On)?;
    tokens.expect(Kind::Column)?;
    tokens.name(alloc)
}

/// `name ON COLUMN name`, behind PARTITION TABLE.
#[tactic(auto, using(expr_parse::proofs::Steps::steps), unfolding(crate::specs::Ddl::partition_text))]
pub fn partition_text(alloc: Global, tokens: &mut Tokens<'_>) -> Result<PartitionTable, Fault>
    ensures { Reads (parse spec.partition_text tokens.old) result tokens.new }
{
    let table = tokens.name(alloc)?;
    let column = partition_column(alloc, tokens)?;
    Ok(PartitionTable { table, column })
}
