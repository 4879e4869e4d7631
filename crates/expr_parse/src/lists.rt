//! Lists with commas.

ghost use Rattle.std.specs.Prelude.{List};
ghost use Rattle.sql_grammar.specs.Grammar.{Tok, Outcome};
ghost use Rattle.expr_parse.specs.Reads.{Reads};
ghost use Rattle.expr_parse.specs.CommaLists.{IsReadBy, comma_list};

use crate::cursor::Tokens;
use crate::fault::Fault;
use sql_grammar::Kind;
use sqlite_items::Items;
use std::alloc::Global;

/// Reads one or more items with commas between them. Each is read by `item`: where that reads by a
/// rule, the list is read by the rule of a list of them.
pub fn comma_list<T: Drop, F: Fn(Global, &mut Tokens<'_>) -> Result<T, Fault>>(
    alloc: Global,
    tokens: &mut Tokens<'_>,
    item: F,
) -> Result<Items<T>, Fault>
    requires { F.IsAlwaysCallable item }
    ensures { (read : List Tok → Outcome T) → IsReadBy read (F.post item) → Reads (comma_list read tokens.old) result tokens.new }
{
    let mut found = Items::new(alloc);
    found.push(item(alloc, tokens)?)?;
    for _turn in 0..tokens.left() {
        if !tokens.eat(Kind::Comma) {
            return Ok(found);
        }
        found.push(item(alloc, tokens)?)?;
    }
    Ok(found)
}
