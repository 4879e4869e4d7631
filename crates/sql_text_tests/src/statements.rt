//! Statements that are read or refused, with the place that follows from the grammar's text.

use sql_parse::*;
use std::alloc::Global;
use std::test::Fail;
use volt_text::lex;

/// Whether a text begins with a statement, and the number of the token behind it; or the number of
/// the token at which it is refused.
fn answer(alloc: Global, text: &str) -> Result<(bool, usize), Fail> {
    if text.len() > 100_000 {
        return Err("too long".into());
    }
    let tokens = match lex(alloc, text) {
        Ok(tokens) => tokens,
        Err(_) => return Err("not lexed".into()),
    };
    match parse_statement(alloc, text, &tokens, 0) {
        Ok((_, next)) => Ok((true, next)),
        Err(ParseFault::Syntax(place)) => Ok((false, place as usize)),
        Err(ParseFault::NoMemory) => Err("out of memory".into()),
    }
}

/// The place of the first text whose answer is another.
fn first_wrong(
    alloc: Global,
    cases: &[(&str, usize)],
    is_read: bool,
) -> Result<Option<usize>, Fail> {
    for i in 0..cases.len() {
        let (text, wanted) = cases[i];
        if answer(alloc, text)? != (is_read, wanted) {
            return Ok(Some(i));
        }
    }
    Ok(None)
}

/// Texts with the number of the token behind the statement at their beginning.
const READ: [(&str, usize); 12] = [
    ("insert INTO t VALUES (1, ?)", 9),
    ("INSERT INTO t (a, b) VALUES ('it''s', NULL)", 14),
    ("UPDATE t SET a = 1, b = b - :n WHERE a IN (1, 2)", 21),
    ("DELETE FROM t", 3),
    ("DELETE FROM t WHERE a IS NOT NULL; x", 8),
    ("DELETE FROM t WHERE a = 9223372036854775807", 7),
    ("SELECT * FROM t", 4),
    (
        "SELECT a AS x, COUNT(*), COUNT(a), SUM(a) FROM t AS u, v w",
        26,
    ),
    ("SELECT MIN(a), MAX(b) FROM t INNER JOIN u ON t.a = u.a", 23),
    ("SELECT a FROM t JOIN u ON 1 = 1 LIMIT ?", 12),
    (
        "SELECT a FROM t WHERE a BETWEEN 1 AND 2 GROUP BY a, t.b ORDER BY a DESC, b ASC, c LIMIT 10",
        28,
    ),
    ("SELECT ROWS(r), FIRST(r.c), :v, :x.c FROM t LIMIT :n", 25),
];

#[test]
fn statements_are_read(rt: HostRuntime) -> Result<(), Fail> {
    assert_eq!(rt; first_wrong(rt.alloc(), &READ, true)?, None);
    Ok(())
}

/// Texts that no statement continues, each with the number of the token at which it is refused.
const REFUSED: [(&str, usize); 38] = [
    ("", 0),
    ("SELECT a FROM t WHERE )", 5),
    ("SELECT a FROM t WHERE", 5),
    ("SELECT from FROM t", 1),
    ("INSERT t VALUES (1)", 1),
    ("INSERT INTO t VALUES ()", 5),
    ("UPDATE t SET a 1", 4),
    ("DELETE t", 1),
    ("SELECT a FROM t INNER u", 5),
    ("SELECT a FROM t LIMIT -1", 5),
    ("DELETE FROM t WHERE a NOT = b", 6),
    ("DELETE FROM t WHERE a IN 1", 6),
    ("DELETE FROM t WHERE a = 9223372036854775808", 6),
    ("SELECT a FROM t GROUP a", 5),
    ("SELECT a FROM t ORDER a", 5),
    ("SELECT a FROM t WHERE a BETWEEN 1 OR 2", 8),
    ("SELECT a FROM t JOIN u WHERE a = 1", 6),
    ("SELECT SUM(*) FROM t", 3),
    ("SELECT COUNT() FROM t", 3),
    ("SELECT ROWS(1) FROM t", 3),
    ("SELECT FIRST(r) FROM t", 4),
    ("SELECT :1 FROM t", 2),
    ("SELECT a AS 1 FROM t", 3),
    ("SELECT a, FROM t", 3),
    ("SELECT *, a FROM t", 2),
    ("SELECT a FROM t LIMIT a", 5),
    ("SELECT a FROM t WHERE a IS 1", 7),
    ("SELECT a FROM t WHERE a IN (1,)", 10),
    ("SELECT a FROM t WHERE (a", 7),
    ("SELECT a FROM t WHERE a +", 7),
    ("SELECT a FROM t WHERE a < < b", 7),
    ("SELECT t. FROM t", 3),
    ("INSERT INTO t (a b) VALUES (1)", 5),
    ("INSERT INTO t (a) (1)", 6),
    ("INSERT INTO t VALUES (1", 6),
    ("UPDATE t a = 1", 2),
    ("UPDATE t SET a = 1,", 7),
    ("DELETE FROM 1", 2),
];

#[test]
fn the_first_token_that_does_not_fit_is_named(rt: HostRuntime) -> Result<(), Fail> {
    assert_eq!(rt; first_wrong(rt.alloc(), &REFUSED, false)?, None);
    Ok(())
}

/// A statement whose condition stands in so many parentheses.
fn nested(alloc: Global, count: usize) -> Result<String, Fail> {
    let mut text = String::from_str(alloc, "DELETE FROM t WHERE ")?;
    for _turn in 0..count {
        text.push_str("(")?;
    }
    text.push_str("1")?;
    for _turn in 0..count {
        text.push_str(")")?;
    }
    Ok(text)
}

fn nested_answer(alloc: Global, count: usize) -> Result<(bool, usize), Fail> {
    answer(alloc, nested(alloc, count)?.as_str())
}

#[test]
fn a_hundred_parentheses_are_read(rt: HostRuntime) -> Result<(), Fail> {
    assert_eq!(rt; nested_answer(rt.alloc(), 100)?, (true, 205));
    Ok(())
}

#[test]
fn one_parenthesis_more_is_refused(rt: HostRuntime) -> Result<(), Fail> {
    assert_eq!(rt; nested_answer(rt.alloc(), 101)?, (false, 104));
    Ok(())
}
