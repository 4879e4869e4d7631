//! The lines that stand before the calls.

ghost use Rattle.std.specs.Prelude.{◌≡◌, ℕ, ◌+◌, ◌<◌, [], ◌∷◌, List, Some, IfOk, IfErr, IfSome, IfNone, length};
ghost use Rattle.volt_form.specs.Form.{Lines, head, head_size, lines_of, after_lines, wrong_call, wrong_from};

use crate::lines::next_line;

/// A deployment of one site, the starter catalog, and the mark at which the script begins.
pub const HEAD: &[u8] = b"%deployment
hosts = 1
sites = 1
k = 0
clients = 1
%ddl
CREATE TABLE acct (id BIGINT NOT NULL, bal BIGINT NOT NULL, PRIMARY KEY (id));
PARTITION TABLE acct ON COLUMN id;
CREATE PROCEDURE Put PARTITION ON TABLE acct COLUMN id PARAMETER 0 AS INSERT INTO acct VALUES (?, ?);
CREATE PROCEDURE Get PARTITION ON TABLE acct COLUMN id PARAMETER 0 AS SELECT bal FROM acct WHERE id = ?;
CREATE PROCEDURE Add PARTITION ON TABLE acct COLUMN id PARAMETER 0 AS PROGRAM (id BIGINT, n BIGINT) BEGIN
  SQL r = SELECT bal FROM acct WHERE id = :id;
  IF ROWS(r) = 0 THEN ABORT 'no account'; END;
  LET b = FIRST(r.bal) + :n;
  IF :b < 0 THEN ABORT 'below zero'; END;
  SQL UPDATE acct SET bal = :b WHERE id = :id;
  RETURN :b;
END;
CREATE PROCEDURE Move AS PROGRAM (src BIGINT, dst BIGINT, n BIGINT) BEGIN
  SQL r = SELECT bal FROM acct WHERE id = :src;
  SQL t = SELECT bal FROM acct WHERE id = :dst;
  IF ROWS(r) = 0 OR ROWS(t) = 0 OR FIRST(r.bal) < :n THEN ABORT 'cannot move'; END;
  SQL UPDATE acct SET bal = bal - :n WHERE id = :src;
  SQL UPDATE acct SET bal = bal + :n WHERE id = :dst;
  RETURN FIRST(r.bal) - :n;
END;
CREATE PROCEDURE Total AS SELECT SUM(bal) FROM acct;
%script
";

/// The head's lines, each ended by an LF.
#[tactic(auto, unfolding(crate::specs::Form::head))]
fn head() -> &'static [u8]
    ensures lines { lines_of result.now ≡ record { ended = head; rest = [] } }
    ensures size { length (lines_of result.now).ended ≡ head_size }
{
    HEAD
}

/// What follows the first line of a text, where it is the wanted one.
fn after_line<'a>(text: &'a [u8], wanted: &[u8]) -> Option<&'a [u8]>
    ensures found { IfSome result (λ after. lines_of text.now
        ≡ record { ended = wanted.now ∷ (lines_of after.now).ended; rest = (lines_of after.now).rest }) }
    ensures shorter { IfSome result (λ after. length after.now < length text.now) }
    ensures wrong { IfNone result ((number : ℕ) (first : List (List ℕ)) →
        wrong_from number (wanted.now ∷ first) (lines_of text.now).ended (lines_of text.now).rest ≡ Some number) }
{
    match next_line(text) {
        Some((line, after)) if line == wanted => Some(after),
        _ => None,
    }
}

/// Reads the head, and answers what follows it, or the number of the first line that isn't the
/// head's.
pub fn read_head(text: &[u8]) -> Result<&[u8], u32>
    ensures calls { IfOk result (λ after.
        after_lines head (lines_of text.now).ended ≡ Some (lines_of after.now).ended) }
    ensures rest { IfOk result (λ after. (lines_of text.now).rest ≡ (lines_of after.now).rest) }
    ensures wrong { IfOk result (λ after.
        wrong_from 1 head (lines_of text.now).ended (lines_of text.now).rest
        ≡ wrong_call (head_size + 1) (lines_of after.now).ended (lines_of after.now).rest) }
    ensures refused { IfErr result (λ line.
        wrong_from 1 head (lines_of text.now).ended (lines_of text.now).rest ≡ Some line) }
{
    let mut wanted = head();
    let mut after = text;
    let mut number = 1;
    while let Some((line, more)) = next_line(wanted) {
        match after_line(after, line) {
            Some(rest) => after = rest,
            None => return Err(number),
        }
        wanted = more;
        number += 1;
    }
    Ok(after)
}
