//! Expressions that are read or refused, with the place that follows from the grammar's text.

use expr_parse::*;
use sql_grammar::Kind;
use std::alloc::Global;
use std::test::Fail;
use volt_text::lex;

/// The expression at a text's beginning, where there is one, and the number of the token at which
/// reading ends.
fn first_of(alloc: Global, text: &str) -> Result<(Option<Expr>, usize), Fail> {
    if text.len() > 100_000 {
        return Err("too long".into());
    }
    let tokens = match lex(alloc, text) {
        Ok(tokens) => tokens,
        Err(_) => return Err("not lexed".into()),
    };
    let mut cursor = Tokens::at(text, tokens.as_slice(), 0);
    let read = expr(alloc, &mut cursor, 100);
    let place = tokens.len().saturating_sub(cursor.left());
    match read {
        Ok(read) => Ok((Some(read), place)),
        Err(Fault::Syntax) => Ok((None, place)),
        Err(Fault::NoMemory) => Err("out of memory".into()),
    }
}

/// Whether there is an expression at a text's beginning, and where reading ends.
fn answer(alloc: Global, text: &str) -> Result<(bool, usize), Fail> {
    let (found, place) = first_of(alloc, text)?;
    Ok((found.is_some(), place))
}

/// Texts with where reading of the expression at their beginning ends.
const ANSWERS: [(&str, bool, usize); 24] = [
    ("1 2", true, 1),
    ("'it''s' x", true, 1),
    ("NULL", true, 1),
    ("?", true, 1),
    ("t.a b", true, 3),
    (":v", true, 2),
    (":x.c)", true, 4),
    ("ROWS(r) = 0", true, 6),
    ("FIRST(r.c) < :n", true, 9),
    ("a IN (1, -2)", true, 8),
    ("a NOT IN (1)", true, 6),
    ("a NOT BETWEEN 1 AND 2 AND b", true, 8),
    ("a IS NOT NULL OR NOT b IS NULL", true, 9),
    ("(a + 1) * 2 <> b / c", true, 11),
    ("9223372036854775807", true, 1),
    ("9223372036854775808", false, 0),
    ("", false, 0),
    ("a + ", false, 2),
    ("a < < b", false, 2),
    ("a NOT = b", false, 2),
    ("a IN 1", false, 2),
    ("a BETWEEN 1 OR 2", false, 3),
    ("(a", false, 2),
    ("ROWS(1)", false, 2),
];

/// The place of the first text whose answer is another.
fn first_wrong(alloc: Global, cases: &[(&str, bool, usize)]) -> Result<Option<usize>, Fail> {
    for i in 0..cases.len() {
        let (text, is_read, place) = cases[i];
        if answer(alloc, text)? != (is_read, place) {
            return Ok(Some(i));
        }
    }
    Ok(None)
}

#[test]
fn expressions_end_where_the_grammar_says(rt: HostRuntime) -> Result<(), Fail> {
    assert_eq!(rt; first_wrong(rt.alloc(), &ANSWERS)?, None);
    Ok(())
}

/// An expression that begins with so many of a text, and ends with so many of another one.
fn nested(alloc: Global, count: usize, open: &str, close: &str) -> Result<String, Fail> {
    let mut text = String::new(alloc);
    for _turn in 0..count {
        text.push_str(open)?;
    }
    text.push_str("1")?;
    for _turn in 0..count {
        text.push_str(close)?;
    }
    Ok(text)
}

/// Nested expressions with where reading of them ends: the texts before and behind the innermost
/// one, and how many there are.
const NESTED: [(&str, &str, usize, bool, usize); 8] = [
    ("(", ")", 100, true, 201),
    ("(", ")", 101, false, 100),
    ("NOT ", "", 100, true, 101),
    ("NOT ", "", 101, false, 100),
    ("- ", "", 100, true, 101),
    ("- ", "", 101, false, 100),
    ("1+", "", 2047, true, 4095),
    ("1+", "", 2048, false, 4096),
];

/// The place of the first of these whose answer is another.
fn first_wrong_nested(
    alloc: Global,
    cases: &[(&str, &str, usize, bool, usize)],
) -> Result<Option<usize>, Fail> {
    for i in 0..cases.len() {
        let (open, close, count, is_read, place) = cases[i];
        let text = nested(alloc, count, open, close)?;
        if answer(alloc, text.as_str())? != (is_read, place) {
            return Ok(Some(i));
        }
    }
    Ok(None)
}

#[test]
fn limits_hold(rt: HostRuntime) -> Result<(), Fail> {
    assert_eq!(rt; first_wrong_nested(rt.alloc(), &NESTED)?, None);
    Ok(())
}

/// Whether the expression is `(NOT a = b) AND (c + (d * (-e)))`.
fn is_by_strength(expr: &Expr) -> bool {
    let Expr::And(left, right) = expr else {
        return false;
    };
    let Expr::Not(test) = left.get() else {
        return false;
    };
    let Expr::Calculate(Arithmetic::Add, _, product) = right.get() else {
        return false;
    };
    let Expr::Calculate(Arithmetic::Multiply, _, negated) = product.get() else {
        return false;
    };
    matches!(test.get(), Expr::Compare(Comparison::Equal, _, _))
        && matches!(negated.get(), Expr::Negate(_))
}

/// Whether the text is that expression, and where reading of it ends.
fn strength_of(alloc: Global, text: &str) -> Result<(bool, usize), Fail> {
    let (found, place) = first_of(alloc, text)?;
    match found {
        Some(read) => Ok((is_by_strength(&read), place)),
        None => Err("no expression".into()),
    }
}

#[test]
fn operators_bind_by_their_strength(rt: HostRuntime) -> Result<(), Fail> {
    assert_eq!(rt;
        strength_of(rt.alloc(), "NOT a = b AND c + d * -e")?,
        (true, 11)
    );
    Ok(())
}

/// Whether a cursor over two tokens that goes past three is at its end.
fn is_past_its_end(cursor: &Tokens<'_>) -> bool {
    let mut few = cursor.prefix(2);
    few.advance(3);
    few.left() == 0
}

/// Whether `t . a` is next, and nothing else is read.
fn is_before_column(cursor: &mut Tokens<'_>) -> bool {
    cursor.left() == 6
        && !cursor.eat(Kind::Select)
        && cursor.sees(Kind::Name)
        && cursor.expect(Kind::Dot) == Err(Fault::Syntax)
        && cursor.left() == 6
}

/// Whether `( 7` is next, and is read.
fn is_before_number(cursor: &mut Tokens<'_>) -> bool {
    cursor.begins(1, Kind::LeftParen)
        && !cursor.begins(0, Kind::LeftParen)
        && cursor.open(0, Kind::LeftParen) == Err(Fault::Syntax)
        && cursor.open(1, Kind::LeftParen) == Ok(())
        && cursor.number() == Ok(7)
}

/// Whether the last token is the text `x'y`.
fn is_before_text(alloc: Global, cursor: &mut Tokens<'_>) -> bool {
    match cursor.text(alloc) {
        Ok(found) => found.as_str() == "x'y" && cursor.name(alloc).is_err(),
        Err(_) => false,
    }
}

/// How many of the steps over the tokens of a text are as they should be, up to the first that isn't.
fn steps_over(alloc: Global, text: &str) -> Result<usize, Fail> {
    if text.len() > 100 {
        return Err("too long".into());
    }
    let tokens = match lex(alloc, text) {
        Ok(tokens) => tokens,
        Err(_) => return Err("not lexed".into()),
    };
    if tokens.is_empty() {
        return Ok(0);
    }
    let mut cursor = Tokens::at(text, tokens.as_slice(), 1);
    if !is_before_column(&mut cursor) {
        return Ok(1);
    }
    if !is_past_its_end(&cursor) {
        return Ok(2);
    }
    if column(alloc, &mut cursor).is_err() {
        return Ok(3);
    }
    if !is_before_number(&mut cursor) {
        return Ok(4);
    }
    if !is_before_text(alloc, &mut cursor) {
        return Ok(5);
    }
    Ok(6)
}

#[test]
fn a_cursor_goes_over_tokens(rt: HostRuntime) -> Result<(), Fail> {
    assert_eq!(rt; steps_over(rt.alloc(), "SELECT t . a ( 7 'x''y'")?, 6);
    Ok(())
}

#[test]
fn a_fault_becomes_the_answer(rt: HostRuntime) -> Result<(), Fail> {
    assert_eq!(rt; Fault::Syntax.at(7), ParseFault::Syntax(7));
    assert_eq!(rt; Fault::NoMemory.at(7), ParseFault::NoMemory);
    Ok(())
}
