//! Definitions and procedures, read and refused. The places of refusals are counted by hand.

use ddl_parse::*;
use std::alloc::Global;
use std::test::Fail;
use volt_text::lex;

/// The definition that a text begins with, and the number of the token behind it; or none, and the
/// number of the token at which it is refused.
fn first_of(alloc: Global, text: &str) -> Result<(Option<Ddl>, usize), Fail> {
    if text.len() > 100_000 {
        return Err("too long".into());
    }
    let tokens = match lex(alloc, text) {
        Ok(tokens) => tokens,
        Err(_) => return Err("not lexed".into()),
    };
    match parse_ddl(alloc, text, &tokens, 0) {
        Ok((ddl, next)) => Ok((Some(ddl), next)),
        Err(ParseFault::Syntax(place)) => Ok((None, place as usize)),
        Err(ParseFault::NoMemory) => Err("out of memory".into()),
    }
}

/// How many definitions a text has, one behind another.
fn count_of(alloc: Global, text: &str) -> Result<usize, Fail> {
    if text.len() > 100_000 {
        return Err("too long".into());
    }
    let tokens = match lex(alloc, text) {
        Ok(tokens) => tokens,
        Err(_) => return Err("not lexed".into()),
    };
    let mut from = 0;
    for count in 0..tokens.len() {
        if from >= tokens.len() {
            return Ok(count);
        }
        match parse_ddl(alloc, text, &tokens, from) {
            Ok((_, next)) => from = next,
            Err(_) => return Err("refused".into()),
        }
    }
    Ok(tokens.len())
}

const STARTER: &str = "
CREATE TABLE acct (id BIGINT NOT NULL, bal BIGINT NOT NULL, PRIMARY KEY (id));
PARTITION TABLE acct ON COLUMN id;
CREATE PROCEDURE Put PARTITION ON TABLE acct COLUMN id PARAMETER 0 AS INSERT INTO acct VALUES (?, ?);
CREATE PROCEDURE Get PARTITION ON TABLE acct COLUMN id PARAMETER 0 AS SELECT bal FROM acct WHERE id = ?;
CREATE PROCEDURE Add PARTITION ON TABLE acct COLUMN id PARAMETER 0 AS PROGRAM (id BIGINT, n BIGINT) BEGIN
  SQL r = SELECT bal FROM acct WHERE id = :id;
  IF ROWS(r) = 0 THEN ABORT 'no account'; END;
  LET b = FIRST(r.bal) + :n;
  IF :b < 0 THEN ABORT 'below zero'; END;
  SQL UPDATE acct SET bal = :b WHERE id = :id;
  RETURN :b;
END;
CREATE PROCEDURE Move AS PROGRAM (src BIGINT, dst BIGINT, n BIGINT) BEGIN
  SQL r = SELECT bal FROM acct WHERE id = :src;
  SQL t = SELECT bal FROM acct WHERE id = :dst;
  IF ROWS(r) = 0 OR ROWS(t) = 0 OR FIRST(r.bal) < :n THEN ABORT 'cannot move'; END;
  SQL UPDATE acct SET bal = bal - :n WHERE id = :src;
  SQL UPDATE acct SET bal = bal + :n WHERE id = :dst;
  RETURN FIRST(r.bal) - :n;
END;
CREATE PROCEDURE Total AS SELECT SUM(bal) FROM acct;";

#[test]
fn the_starter_catalog_is_read(rt: HostRuntime) -> Result<(), Fail> {
    assert_eq!(rt; count_of(rt.alloc(), STARTER)?, 7);
    Ok(())
}

/// Whether a definition is read at the beginning of a text, and the number of the token at which that ends.
fn outcome(alloc: Global, text: &str) -> Result<(bool, usize), Fail> {
    let (found, place) = first_of(alloc, text)?;
    Ok((found.is_some(), place))
}

/// The place of the first text whose first definition doesn't end there, or that isn't refused there.
fn first_wrong(
    alloc: Global,
    cases: &[(&str, usize)],
    is_read: bool,
) -> Result<Option<usize>, Fail> {
    for i in 0..cases.len() {
        let (text, wanted) = &cases[i];
        if outcome(alloc, *text)? != (is_read, *wanted) {
            return Ok(Some(i));
        }
    }
    Ok(None)
}

/// Texts with the number of the token at which they are refused.
const REFUSED: [(&str, usize); 21] = [
    ("", 0),
    ("SELECT a FROM t;", 0),
    ("CREATE", 1),
    ("CREATE TABLE and (a INTEGER);", 2),
    ("CREATE TABLE t ();", 4),
    ("CREATE TABLE t (a);", 5),
    ("CREATE TABLE t (a INTEGER NOT);", 7),
    ("CREATE TABLE t (a VARCHAR(9 BYTES) PRIMARY);", 11),
    ("CREATE TABLE t (a VARCHAR(9223372036854775808));", 7),
    ("CREATE TABLE t (CONSTRAINT k (a));", 6),
    ("CREATE UNIQUE TABLE t (a INTEGER);", 2),
    ("CREATE INDEX i ON t (a)", 8),
    ("PARTITION TABLE t ON a;", 4),
    (
        "CREATE PROCEDURE p PARTITION ON TABLE t COLUMN c PARAMETER AS DELETE FROM t;",
        10,
    ),
    ("CREATE PROCEDURE p AS PROGRAM (a) BEGIN END;", 7),
    ("CREATE PROCEDURE p AS PROGRAM () BEGIN LET x = 1; END", 14),
    (
        "CREATE PROCEDURE p AS PROGRAM () BEGIN SQL r DELETE FROM t; END;",
        10,
    ),
    (
        "CREATE PROCEDURE p AS PROGRAM () BEGIN IF a THEN ELSE ELSE END; END;",
        12,
    ),
    (
        "CREATE PROCEDURE p AS PROGRAM () BEGIN FOR x IN r END; END;",
        12,
    ),
    ("CREATE PROCEDURE p AS PROGRAM () BEGIN ABORT a; END;", 9),
    (
        "CREATE PROCEDURE p AS PROGRAM () BEGIN RETURN a b; END;",
        10,
    ),
];

#[test]
fn refusals_have_places(rt: HostRuntime) -> Result<(), Fail> {
    assert_eq!(rt; first_wrong(rt.alloc(), &REFUSED, false)?, None);
    Ok(())
}

/// Texts with the number of the token behind their first definition.
const READ: [(&str, usize); 6] = [
    (
        "create table t (a tinyint, constraint k primary key (a, b)); and",
        18,
    ),
    ("CREATE UNIQUE INDEX i ON t (a, b); ;", 12),
    ("PARTITION TABLE t ON COLUMN c; )", 7),
    ("CREATE PROCEDURE p AS DELETE FROM t; DELETE", 8),
    (
        "CREATE PROCEDURE p AS PROGRAM () BEGIN RETURN; RETURN r; RETURN a, 1; END; END",
        20,
    ),
    (
        "CREATE PROCEDURE p AS PROGRAM () BEGIN FOR x IN r DO SQL DELETE FROM t; END; IF 1 = 1 THEN ELSE END; END;",
        30,
    ),
];

#[test]
fn what_comes_behind_is_left(rt: HostRuntime) -> Result<(), Fail> {
    assert_eq!(rt; first_wrong(rt.alloc(), &READ, true)?, None);
    Ok(())
}

/// A program of steps that nest so deep, with one more in the innermost.
fn nested(alloc: Global, depth: usize) -> Result<String, Fail> {
    let mut text = String::new(alloc);
    text.push_str("CREATE PROCEDURE p AS PROGRAM () BEGIN ")?;
    for _step in 0..depth {
        text.push_str("IF 1 = 1 THEN ")?;
    }
    text.push_str("RETURN; ")?;
    for _step in 0..depth {
        text.push_str("END; ")?;
    }
    text.push_str("END;")?;
    Ok(text)
}

/// Whether a program of steps that nest so deep is read, and the number of the token where that ends.
fn nested_answer(alloc: Global, depth: usize) -> Result<(bool, usize), Fail> {
    let text = nested(alloc, depth)?;
    outcome(alloc, text.as_str())
}

#[test]
fn steps_nest_a_hundred_deep(rt: HostRuntime) -> Result<(), Fail> {
    assert_eq!(rt; nested_answer(rt.alloc(), 99)?, (true, 8 + 99 * 7 + 4));
    assert_eq!(rt; nested_answer(rt.alloc(), 100)?, (false, 8 + 100 * 5));
    Ok(())
}

fn shown(alloc: Global, ddl: &Ddl) -> Result<String, Fail> {
    Ok(format!(in alloc; "{ddl:?}")?)
}

/// The definition that a text begins with, as it is written for debugging.
fn tree(alloc: Global, text: &str) -> Result<String, Fail> {
    match first_of(alloc, text)? {
        (Some(ddl), _) => shown(alloc, &ddl),
        (None, _) => Err("refused".into()),
    }
}

/// Definitions with their trees.
const TREES: [(&str, &str); 8] = [
    (
        "CREATE TABLE t (a TINYINT, b SMALLINT NOT NULL, c INTEGER PRIMARY KEY, d VARCHAR(9 BYTES) NOT NULL PRIMARY KEY);",
        "CreateTable(CreateTable { name: Text { held: \"t\" }, items: Items { items: \
         [Column(ColumnText { name: Text { held: \"a\" }, kind: Tinyint, not_null: false, \
         primary_key: false }), Column(ColumnText { name: Text { held: \"b\" }, kind: \
         Smallint, not_null: true, primary_key: false }), Column(ColumnText { name: Text { \
         held: \"c\" }, kind: Integer, not_null: false, primary_key: true }), \
         Column(ColumnText { name: Text { held: \"d\" }, kind: Varchar(9), not_null: true, \
         primary_key: true })] } })",
    ),
    (
        "CREATE TABLE u (a BIGINT, PRIMARY KEY (a), CONSTRAINT k PRIMARY KEY (a, b));",
        "CreateTable(CreateTable { name: Text { held: \"u\" }, items: Items { items: \
         [Column(ColumnText { name: Text { held: \"a\" }, kind: Bigint, not_null: false, \
         primary_key: false }), PrimaryKey { constraint: None, columns: Items { items: [Text \
         { held: \"a\" }] } }, PrimaryKey { constraint: Some(Text { held: \"k\" }), columns: \
         Items { items: [Text { held: \"a\" }, Text { held: \"b\" }] } }] } })",
    ),
    (
        "CREATE INDEX i ON t (a, b);",
        "CreateIndex(CreateIndex { name: Text { held: \"i\" }, unique: false, table: Text { \
         held: \"t\" }, columns: Items { items: [Text { held: \"a\" }, Text { held: \"b\" }] \
         } })",
    ),
    (
        "CREATE UNIQUE INDEX j ON t (c);",
        "CreateIndex(CreateIndex { name: Text { held: \"j\" }, unique: true, table: Text { \
         held: \"t\" }, columns: Items { items: [Text { held: \"c\" }] } })",
    ),
    (
        "PARTITION TABLE t ON COLUMN a;",
        "PartitionTable(PartitionTable { table: Text { held: \"t\" }, column: Text { held: \
         \"a\" } })",
    ),
    (
        "CREATE PROCEDURE p PARTITION ON TABLE t COLUMN a AS DELETE FROM t;",
        "CreateProcedure(ProcText { name: Text { held: \"p\" }, partition: Some(ProcPartition \
         { table: Text { held: \"t\" }, column: Text { held: \"a\" }, parameter: 0 }), body: \
         Statement(Delete(Delete { table: Text { held: \"t\" }, filter: None })) })",
    ),
    (
        "CREATE PROCEDURE q PARTITION ON TABLE t COLUMN a PARAMETER 3 AS PROGRAM () BEGIN END;",
        "CreateProcedure(ProcText { name: Text { held: \"q\" }, partition: Some(ProcPartition \
         { table: Text { held: \"t\" }, column: Text { held: \"a\" }, parameter: 3 }), body: \
         Program(ProgramText { parameters: Items { items: [] }, steps: Items { items: [] } }) \
         })",
    ),
    (
        "CREATE PROCEDURE r AS PROGRAM (a TINYINT, b VARCHAR(7)) BEGIN
  LET v = 1;
  SQL DELETE FROM t;
  SQL s = DELETE FROM t;
  FOR x IN s DO ABORT 'it''s'; END;
  IF 1 THEN RETURN; ELSE RETURN s; END;
  IF 2 THEN END;
  RETURN (s);
  RETURN t.s;
  RETURN s, 4;
END;",
        "CreateProcedure(ProcText { name: Text { held: \"r\" }, partition: None, body: \
         Program(ProgramText { parameters: Items { items: [ParameterText { name: Text { held: \
         \"a\" }, kind: Tinyint }, ParameterText { name: Text { held: \"b\" }, kind: \
         Varchar(7) }] }, steps: Items { items: [Let { variable: Text { held: \"v\" }, value: \
         Number(1) }, Sql { result: None, statement: Delete(Delete { table: Text { held: \
         \"t\" }, filter: None }) }, Sql { result: Some(Text { held: \"s\" }), statement: \
         Delete(Delete { table: Text { held: \"t\" }, filter: None }) }, For { row: Text { \
         held: \"x\" }, result: Text { held: \"s\" }, steps: Items { items: [Abort(Text { \
         held: \"it's\" })] } }, If { condition: Number(1), steps: Items { items: \
         [Return(Nothing)] }, otherwise: Items { items: [Return(Result(Text { held: \"s\" \
         }))] } }, If { condition: Number(2), steps: Items { items: [] }, otherwise: Items { \
         items: [] } }, Return(Values(Items { items: [Parenthesized(Boxed { inner: \
         Column(ColumnName { table: None, column: Text { held: \"s\" } }) })] })), \
         Return(Values(Items { items: [Column(ColumnName { table: Some(Text { held: \"t\" }), \
         column: Text { held: \"s\" } })] })), Return(Values(Items { items: \
         [Column(ColumnName { table: None, column: Text { held: \"s\" } }), Number(4)] }))] } \
         }) })",
    ),
];

#[test]
fn trees_hold_what_is_written(rt: HostRuntime) -> Result<(), Fail> {
    for (text, wanted) in TREES {
        assert_eq!(rt; tree(rt.alloc(), text)?.as_str(), wanted);
    }
    Ok(())
}
