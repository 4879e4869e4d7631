//! Statements that define something, by their places among the tokens of a text.

ghost use Rattle.std.specs.Prelude.{◌≡◌, ◌<◌, ◌≤◌, ◌^◌, ℕ, length, IfOk, Err};
ghost use Rattle.volt_text.specs.Tokens.{Reads as Lexes, Tokens as Lexed};
ghost use Rattle.sql_grammar.specs.Reading.{IsRead, IsRefused};
ghost use Rattle.expr_parse.specs.Cursor.{toks};
ghost use Rattle.ddl_parse.specs.Ddl.{ddl};

use crate::ddl::Ddl;
use crate::definitions::ddl;
use expr_parse::{ParseFault, Tokens};
use std::alloc::Global;
use volt_text::Token;

/// Reads a statement that defines something, with its semicolon, from the tokens of a text from one
/// of them on, counted from 0. The answer is the statement and the number of the token behind it.
///
/// The longest prefix of those tokens decides with which such a statement begins. If it is one, it is
/// the answer. If not, the answer is `Syntax` with the number of the token behind that prefix: the
/// first with which no statement goes on. Keywords are no names, and neither has case. In a
/// procedure parentheses, NOT, unary minus and steps nest at most 100 deep, and an expression has at
/// most 4096 tokens; the first token past either doesn't fit.
///
/// The tokens are those that `lex` gives of the text.
pub fn parse_ddl(
    alloc: Global,
    text: &str,
    tokens: &[Token],
    from: usize,
) -> Result<(Ddl, usize), ParseFault>
    requires short { length text.now < 2 ^ 32 }
    requires lexed { Lexes text.now (Lexed tokens.now) }
    requires within { from ≤ length tokens.now }
    ensures read { IfOk result (λ r. IsRead ddl (toks text.now tokens.now) from r.0 r.1) }
    ensures refused { (place : ℕ) → result ≡ Err (ParseFault.Syntax place) → IsRefused ddl (toks text.now tokens.now) from place }
{
    let mut cursor = Tokens::at(text, tokens, from);
    let read = ddl(alloc, &mut cursor);
    let place = tokens.len().saturating_sub(cursor.left());
    match read {
        Ok(found) => Ok((found, place)),
        Err(fault) => Err(fault.at(place)),
    }
}
