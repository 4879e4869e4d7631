//! Texts with the tokens or the fault that were worked out for them by another lexer.

use crate::*;
use std::alloc::Global;
use std::test::Fail;

/// A page of SQL with every sign, comments, a CR LF behind one of them, doubled quotes, and
/// characters of several bytes in a text.
const PAGE: &str = "-- Every sign (and a lone ' in a comment)\r
SELECT a.*, _x1 + 2 - 3 / 4*5 FROM t AS b\tWHERE a<=b AND c>=d OR e<>f
  AND g!=h AND i<j AND k>l AND m=:n; --last -- twice
INSERT INTO t VALUES ('it''s', '', '''', 'añb ☃', ?, 9223372036854775808);
9ab--x
'a''b''''c''';
-- open at the end";

fn token(kind: TokenKind, at: u32, len: u32) -> Token {
    Token { kind, at, len }
}

fn word(at: u32, len: u32) -> Token {
    token(TokenKind::Word, at, len)
}

fn number(at: u32, len: u32) -> Token {
    token(TokenKind::Number, at, len)
}

fn text(at: u32, len: u32) -> Token {
    token(TokenKind::Text, at, len)
}

fn sign(at: u32, len: u32) -> Token {
    token(TokenKind::Sign, at, len)
}

#[test]
fn cuts_a_page(rt: HostRuntime) -> Result<(), Fail> {
    let wanted = [
        word(43, 6),
        word(50, 1),
        sign(51, 1),
        sign(52, 1),
        sign(53, 1),
        word(55, 3),
        sign(59, 1),
        number(61, 1),
        sign(63, 1),
        number(65, 1),
        sign(67, 1),
        number(69, 1),
        sign(70, 1),
        number(71, 1),
        word(73, 4),
        word(78, 1),
        word(80, 2),
        word(83, 1),
        word(85, 5),
        word(91, 1),
        sign(92, 2),
        word(94, 1),
        word(96, 3),
        word(100, 1),
        sign(101, 2),
        word(103, 1),
        word(105, 2),
        word(108, 1),
        sign(109, 2),
        word(111, 1),
        word(115, 3),
        word(119, 1),
        sign(120, 2),
        word(122, 1),
        word(124, 3),
        word(128, 1),
        sign(129, 1),
        word(130, 1),
        word(132, 3),
        word(136, 1),
        sign(137, 1),
        word(138, 1),
        word(140, 3),
        word(144, 1),
        sign(145, 1),
        sign(146, 1),
        word(147, 1),
        sign(148, 1),
        word(166, 6),
        word(173, 4),
        word(178, 1),
        word(180, 6),
        sign(187, 1),
        text(188, 7),
        sign(195, 1),
        text(197, 2),
        sign(199, 1),
        text(201, 4),
        sign(205, 1),
        text(207, 10),
        sign(217, 1),
        sign(219, 1),
        sign(220, 1),
        number(222, 19),
        sign(241, 1),
        sign(242, 1),
        number(244, 1),
        word(245, 2),
        text(251, 13),
        sign(264, 1),
    ];
    let tokens = lex(rt.alloc(), PAGE).ok().ok_or("refused")?;
    assert_eq!(rt; tokens.as_slice(), wanted.as_slice());
    Ok(())
}

#[test]
fn cuts_texts_without_tokens(rt: HostRuntime) -> Result<(), Fail> {
    for blank in ["", " ", "\t\n \n", "--", "-- a '$\r\n\t--\u{7}\u{1F600}"] {
        let tokens = tokens_in(rt.alloc(), blank).ok().ok_or("refused")?;
        assert_eq!(rt; tokens.len(), 0, "at {blank}");
    }
    Ok(())
}

/// What comes of a text that is shorter than the limit.
fn tokens_in(alloc: Global, source: &str) -> Result<Vec<Token>, LexFault> {
    if source.len() < 1000 {
        lex(alloc, source)
    } else {
        Err(LexFault::NoMemory)
    }
}

#[test]
fn refuses_characters(rt: HostRuntime) {
    let cases = [
        ("ab $", 3),
        ("!", 0),
        ("a ! = b", 2),
        ("\r\n", 0),
        ("-- c\r\n\u{1}", 6),
        ("\u{e9}", 0),
        ("a\"b", 1),
        ("$ 'a", 0),
        // A quoted text with a control character in it begins no token.
        ("a 'b\tc' d", 2),
        ("'a\u{7f}'", 0),
        ("'a\nb' 'c", 0),
    ];
    for (source, at) in cases {
        let fault = tokens_in(rt.alloc(), source).err();
        assert_eq!(rt; fault, Some(LexFault::BadChar(at)), "at {source}");
    }
}

#[test]
fn refuses_open_texts(rt: HostRuntime) {
    let cases = [
        ("x 'ay", 2),
        ("x '", 2),
        ("'a\tb", 0),
        ("'a' 'b $", 4),
        ("'a'b'", 4),
        // A doubled quote ends no text.
        ("'ab''cd", 0),
        ("'''", 0),
        ("'a' 'ab''", 4),
    ];
    for (source, at) in cases {
        let fault = tokens_in(rt.alloc(), source).err();
        assert_eq!(rt; fault, Some(LexFault::OpenText(at)), "at {source}");
    }
}

#[test]
fn laws_return() {
    one_reading();
    tokens_are_slices();
}
