//! Whole expressions.

ghost use Rattle.std.specs.Prelude.{◌≡◌};
ghost use Rattle.sql_grammar.specs.Grammar.{parse};
ghost use Rattle.expr_parse.specs.Reads.{Reads};
ghost use Rattle.expr_parse.specs.Expressions as spec;

use crate::cursor::Tokens;
use crate::expression::Expr;
use crate::fault::Fault;
use crate::levels::Level;
use crate::rules::Rules;
use std::alloc::Global;

/// How many tokens an expression has at most.
const MAX_TOKENS: usize = 4096;

/// The part of an expression that has operators of this strength and above, where so many nestings
/// are left.
fn level(
    alloc: Global,
    tokens: &mut Tokens<'_>,
    depth: usize,
    strength: Level,
) -> Result<Expr, Fault>
    ensures { Reads (parse (spec.level depth strength) tokens.old) result tokens.new }
{
    Rules {
        alloc,
        depth,
        level,
    }
    .at_level(tokens, strength)
}

/// An expression, where so many nestings are left.
pub fn expr(alloc: Global, tokens: &mut Tokens<'_>, depth: usize) -> Result<Expr, Fault>
    ensures { Reads (parse (spec.expr depth) tokens.old) result tokens.new }
{
    let mut prefix = tokens.prefix(MAX_TOKENS);
    let count = prefix.left();
    let read = level(alloc, &mut prefix, depth, Level::Whole);
    tokens.advance(count.saturating_sub(prefix.left()));
    read
}

/// An expression behind a parenthesis that was opened where so many nestings were left.
pub fn inner_expr(alloc: Global, tokens: &mut Tokens<'_>, depth: usize) -> Result<Expr, Fault>
    ensures { Reads (parse (spec.inner_expr depth) tokens.old) result tokens.new }
{
    if depth == 0 {
        return Err(Fault::Syntax);
    }
    expr(alloc, tokens, depth - 1)
}
