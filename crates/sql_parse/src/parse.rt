//! Statements.

ghost use Rattle.std.specs.Prelude.{◌≡◌, ◌<◌, ◌≤◌, ◌^◌, ℕ, length, IfOk, Err};
ghost use Rattle.volt_text.specs.Tokens.{Reads as Lexes, Tokens as Lexed};
ghost use Rattle.sql_grammar.specs.Grammar.{parse};
ghost use Rattle.sql_grammar.specs.Reading.{IsRead, IsRefused};
ghost use Rattle.expr_parse.specs.Cursor.{toks};
ghost use Rattle.sql_parse.specs.Statements.{statement};
ghost use Rattle.expr_parse.specs.Reads.{Reads};
ghost use Rattle.sql_parse.specs.Statements as spec;

use crate::select::select;
use crate::statement::Stmt;
use crate::writes::{delete, insert, update};
use expr_parse::{Fault, ParseFault, Tokens};
use sql_grammar::Kind;
use std::alloc::Global;
use volt_text::Token;

/// Reads a statement, in which parentheses, NOT and unary minus may still nest so deep.
#[tactic(auto, using(expr_parse::proofs::Steps::steps), unfolding(crate::specs::Statements::stmt))]
pub fn stmt(alloc: Global, tokens: &mut Tokens<'_>, depth: usize) -> Result<Stmt, Fault>
    ensures { Reads (parse (spec.stmt depth) tokens.old) result tokens.new }
{
    if tokens.eat(Kind::Insert) {
        tokens.expect(Kind::Into)?;
        return Ok(Stmt::Insert(insert(alloc, tokens, depth)?));
    }
    if tokens.eat(Kind::Update) {
        return Ok(Stmt::Update(update(alloc, tokens, depth)?));
    }
    if tokens.eat(Kind::Delete) {
        tokens.expect(Kind::From)?;
        return Ok(Stmt::Delete(delete(alloc, tokens, depth)?));
    }
    tokens.expect(Kind::Select)?;
    Ok(Stmt::Select(select(alloc, tokens, depth)?))
}

/// How deep steps, parentheses, NOT and unary minus nest at most.
pub const MAX_NESTING: usize = 100;

/// Reads the statement that is a prefix of a text's tokens from the token of this number
/// on, and answers it with the number of the token behind it.
///
/// The tokens are those of the text, which has fewer than 2^32 bytes. The longest prefix decides: of
/// the tokens with which a statement begins it takes as many as there are. If they are a statement,
/// that is the answer. Else it is `Syntax`, with the number of the token behind them, which is the
/// number of all tokens where the text ends there.
pub fn parse_statement(
    alloc: Global,
    text: &str,
    tokens: &[Token],
    from: usize,
) -> Result<(Stmt, usize), ParseFault>
    requires short { length text.now < 2 ^ 32 }
    requires lexed { Lexes text.now (Lexed tokens.now) }
    requires within { from ≤ length tokens.now }
    ensures read { IfOk result (λ r. IsRead statement (toks text.now tokens.now) from r.0 r.1) }
    ensures refused { (place : ℕ) → result ≡ Err (ParseFault.Syntax place) → IsRefused statement (toks text.now tokens.now) from place }
{
    let mut cursor = Tokens::at(text, tokens, from);
    let read = stmt(alloc, &mut cursor, MAX_NESTING);
    let place = tokens.len().saturating_sub(cursor.left());
    match read {
        Ok(found) => Ok((found, place)),
        Err(fault) => Err(fault.at(place)),
    }
}
