//! The rules of types.

ghost use Rattle.std.specs.Prelude.{◌≡◌};
ghost use Rattle.sql_grammar.specs.Grammar.{parse};
ghost use Rattle.expr_parse.specs.Reads.{Reads};
ghost use Rattle.ddl_parse.specs.Types as spec;

use crate::ddl::TypeName;
use expr_parse::{Fault, Tokens};
use sql_grammar::Kind;

/// `number [BYTES]`.
#[tactic(auto, using(expr_parse::proofs::Steps::steps), unfolding(crate::specs::Types::length))]
fn length(tokens: &mut Tokens<'_>) -> Result<i64, Fault>
    ensures { Reads (parse spec.length tokens.old) result tokens.new }
{
    let length = tokens.number()?;
    tokens.eat(Kind::Bytes);
    Ok(length)
}

/// `"(" number [BYTES] ")"`, behind VARCHAR.
#[tactic(auto, using(expr_parse::proofs::Steps::steps))]
fn closed_length(tokens: &mut Tokens<'_>) -> Result<i64, Fault>
    ensures { Reads (parse (spec.closed spec.length) tokens.old) result tokens.new }
{
    tokens.expect(Kind::LeftParen)?;
    let length = length(tokens)?;
    tokens.expect(Kind::RightParen)?;
    Ok(length)
}

/// TINYINT, SMALLINT, INTEGER, BIGINT, or VARCHAR with its length.
#[tactic(auto, using(expr_parse::proofs::Steps::steps), unfolding(crate::specs::Types::type_name))]
pub fn type_name(tokens: &mut Tokens<'_>) -> Result<TypeName, Fault>
    ensures { Reads (parse spec.type_name tokens.old) result tokens.new }
{
    if tokens.eat(Kind::Tinyint) {
        return Ok(TypeName::Tinyint);
    }
    if tokens.eat(Kind::Smallint) {
        return Ok(TypeName::Smallint);
    }
    if tokens.eat(Kind::Integer) {
        return Ok(TypeName::Integer);
    }
    if tokens.eat(Kind::Bigint) {
        return Ok(TypeName::Bigint);
    }
    tokens.expect(Kind::Varchar)?;
    Ok(TypeName::Varchar(closed_length(tokens)?))
}
