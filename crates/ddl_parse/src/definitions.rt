//! The rules of procedures, and of all statements that define something.

ghost use Rattle.std.specs.Prelude.{◌≡◌};
ghost use Rattle.sql_grammar.specs.Grammar.{parse, opt, skip};
ghost use Rattle.expr_parse.specs.Reads.{Reads};
ghost use Rattle.ddl_parse.specs.Ddl as spec;
ghost use Rattle.ddl_parse.specs.Procedures as procedures;
ghost use Rattle.ddl_parse.specs.Types.{closed};

use crate::ddl::Ddl;
use crate::procedure::{ParameterText, ProcBody, ProcPartition, ProcText, ProgramText};
use crate::program::steps;
use crate::tables::{index_text, partition_text, table_text};
use crate::types::type_name;
use expr_parse::{Fault, Tokens, comma_list};
use sql_grammar::Kind;
use sql_parse::{MAX_NESTING, stmt};
use sqlite_items::Items;
use std::alloc::Global;

/// `[PARAMETER number]`.
#[tactic(auto, using(expr_parse::proofs::Steps::steps), unfolding(crate::specs::Procedures::parameter_number))]
fn parameter_number(tokens: &mut Tokens<'_>) -> Result<i64, Fault>
    ensures { Reads (parse procedures.parameter_number tokens.old) result tokens.new }
{
    if tokens.eat(Kind::Parameter) {
        tokens.number()
    } else {
        Ok(0)
    }
}

/// `ON TABLE name COLUMN name [PARAMETER number]`, behind PARTITION.
#[tactic(auto, using(expr_parse::proofs::Steps::steps), unfolding(crate::specs::Procedures::partitioned))]
fn partitioned(alloc: Global, tokens: &mut Tokens<'_>) -> Result<ProcPartition, Fault>
    ensures { Reads (parse procedures.partitioned tokens.old) result tokens.new }
{
    tokens.expect(Kind::On)?;
    tokens.expect(Kind::Table)?;
    let table = tokens.name(alloc)?;
    tokens.expect(Kind::Column)?;
    let column = tokens.name(alloc)?;
    let parameter = parameter_number(tokens)?;
    Ok(ProcPartition {
        table,
        column,
        parameter,
    })
}

/// `[PARTITION ON TABLE name COLUMN name [PARAMETER number]]`.
#[tactic(auto, using(expr_parse::proofs::Steps::steps))]
fn partition(alloc: Global, tokens: &mut Tokens<'_>) -> Result<Option<ProcPartition>, Fault>
    ensures { Reads (parse (opt (skip Kind.Partition procedures.partitioned)) tokens.old) result tokens.new }
{
    if tokens.eat(Kind::Partition) {
        Ok(Some(partitioned(alloc, tokens)?))
    } else {
        Ok(None)
    }
}

/// `name type`.
#[tactic(auto, using(expr_parse::proofs::Steps::steps), unfolding(crate::specs::Procedures::parameter))]
fn parameter(alloc: Global, tokens: &mut Tokens<'_>) -> Result<ParameterText, Fault>
    ensures { Reads (parse procedures.parameter tokens.old) result tokens.new }
{
    let name = tokens.name(alloc)?;
    let kind = type_name(tokens)?;
    Ok(ParameterText { name, kind })
}

/// `name type {"," name type}`.
#[tactic(auto, unfolding(crate::specs::Procedures::listed_parameters))]
fn listed_parameters(alloc: Global, tokens: &mut Tokens<'_>) -> Result<Items<ParameterText>, Fault>
    ensures { Reads (parse procedures.listed_parameters tokens.old) result tokens.new }
{
    comma_list(alloc, tokens, parameter)
}

/// `[name type {"," name type}]`.
#[tactic(auto, using(expr_parse::proofs::Steps::steps), unfolding(crate::specs::Procedures::parameters, crate::specs::Procedures::listed_parameters, crate::specs::Procedures::parameter))]
fn parameters(alloc: Global, tokens: &mut Tokens<'_>) -> Result<Items<ParameterText>, Fault>
    ensures { Reads (parse procedures.parameters tokens.old) result tokens.new }
{
    if tokens.sees(Kind::Name) {
        listed_parameters(alloc, tokens)
    } else {
        Ok(Items::new(alloc))
    }
}

/// `"(" [name type {"," name type}] ")"`.
#[tactic(auto, using(expr_parse::proofs::Steps::steps))]
fn closed_parameters(alloc: Global, tokens: &mut Tokens<'_>) -> Result<Items<ParameterText>, Fault>
    ensures { Reads (parse (closed procedures.parameters) tokens.old) result tokens.new }
{
    tokens.expect(Kind::LeftParen)?;
    let found = parameters(alloc, tokens)?;
    tokens.expect(Kind::RightParen)?;
    Ok(found)
}

/// The parameters and the steps, behind PROGRAM.
#[tactic(auto, using(expr_parse::proofs::Steps::steps), unfolding(crate::specs::Procedures::program))]
fn program(alloc: Global, tokens: &mut Tokens<'_>) -> Result<ProgramText, Fault>
    ensures { Reads (parse procedures.program tokens.old) result tokens.new }
{
    let parameters = closed_parameters(alloc, tokens)?;
    tokens.expect(Kind::Begin)?;
    let steps = steps(alloc, tokens, MAX_NESTING)?;
    tokens.expect(Kind::End)?;
    Ok(ProgramText { parameters, steps })
}

/// A statement, or PROGRAM and what follows it.
#[tactic(auto, using(expr_parse::proofs::Steps::steps), unfolding(crate::specs::Procedures::proc_body))]
fn proc_body(alloc: Global, tokens: &mut Tokens<'_>) -> Result<ProcBody, Fault>
    ensures { Reads (parse procedures.proc_body tokens.old) result tokens.new }
{
    if tokens.eat(Kind::Program) {
        Ok(ProcBody::Program(program(alloc, tokens)?))
    } else {
        Ok(ProcBody::Statement(stmt(alloc, tokens, MAX_NESTING)?))
    }
}

/// The name of a procedure and all that follows it.
#[tactic(auto, using(expr_parse::proofs::Steps::steps), unfolding(crate::specs::Procedures::procedure))]
fn procedure(alloc: Global, tokens: &mut Tokens<'_>) -> Result<ProcText, Fault>
    ensures { Reads (parse procedures.procedure tokens.old) result tokens.new }
{
    let name = tokens.name(alloc)?;
    let partition = partition(alloc, tokens)?;
    tokens.expect(Kind::As)?;
    let body = proc_body(alloc, tokens)?;
    Ok(ProcText {
        name,
        partition,
        body,
    })
}

/// What follows CREATE.
#[tactic(auto, using(expr_parse::proofs::Steps::steps), unfolding(crate::specs::Ddl::created))]
fn created(alloc: Global, tokens: &mut Tokens<'_>) -> Result<Ddl, Fault>
    ensures { Reads (parse spec.created tokens.old) result tokens.new }
{
    if tokens.eat(Kind::Table) {
        return Ok(Ddl::CreateTable(table_text(alloc, tokens)?));
    }
    if tokens.eat(Kind::Unique) {
        tokens.expect(Kind::Index)?;
        return Ok(Ddl::CreateIndex(index_text(alloc, tokens, true)?));
    }
    if tokens.eat(Kind::Index) {
        return Ok(Ddl::CreateIndex(index_text(alloc, tokens, false)?));
    }
    tokens.expect(Kind::Procedure)?;
    Ok(Ddl::CreateProcedure(procedure(alloc, tokens)?))
}

/// CREATE or PARTITION TABLE, and what follows it.
#[tactic(auto, using(expr_parse::proofs::Steps::steps), unfolding(crate::specs::Ddl::definition))]
fn definition(alloc: Global, tokens: &mut Tokens<'_>) -> Result<Ddl, Fault>
    ensures { Reads (parse spec.definition tokens.old) result tokens.new }
{
    if tokens.eat(Kind::Create) {
        return created(alloc, tokens);
    }
    tokens.expect(Kind::Partition)?;
    tokens.expect(Kind::Table)?;
    Ok(Ddl::PartitionTable(partition_text(alloc, tokens)?))
}

/// A statement that defines something, with its semicolon.
#[tactic(auto, using(expr_parse::proofs::Steps::steps), unfolding(crate::specs::Ddl::ddl))]
pub fn ddl(alloc: Global, tokens: &mut Tokens<'_>) -> Result<Ddl, Fault>
    ensures { Reads (parse spec.ddl tokens.old) result tokens.new }
{
    let found = definition(alloc, tokens)?;
    match tokens.expect(Kind::Semicolon) {
        Ok(()) => Ok(found),
        Err(fault) => Err(fault.after(found)),
    }
}
