//! Kinds of tokens, written beside their texts.

use crate::*;
use std::test::Fail;
use volt_text::TokenKind;

/// Two names, the second behind a comma.
struct TwoNames;

impl AnyRule for TwoNames {
    ghost use Rattle.std.specs.Prelude.{ℕ, List};
    ghost use Rattle.sql_grammar.specs.Grammar.{seq, skip, tok};
    ghost use Rattle.sql_grammar.specs.declared.kind.Kind.TheVariants as kind;

    ghost Value = { List ℕ × List ℕ };

    ghost rule = { seq (tok kind.Name) (skip kind.Comma (tok kind.Name)) };
}

/// The keywords, in capitals, in small letters and mixed, in the order of their kinds.
const KEYWORDS: [(&[u8], Kind); 61] = [
    (b"CREATE", Kind::Create),
    (b"table", Kind::Table),
    (b"Constraint", Kind::Constraint),
    (b"PRIMARY", Kind::Primary),
    (b"key", Kind::Key),
    (b"Not", Kind::Not),
    (b"NULL", Kind::Null),
    (b"tinyint", Kind::Tinyint),
    (b"Smallint", Kind::Smallint),
    (b"INTEGER", Kind::Integer),
    (b"bigint", Kind::Bigint),
    (b"Varchar", Kind::Varchar),
    (b"BYTES", Kind::Bytes),
    (b"unique", Kind::Unique),
    (b"Index", Kind::Index),
    (b"ON", Kind::On),
    (b"partition", Kind::Partition),
    (b"Column", Kind::Column),
    (b"PROCEDURE", Kind::Procedure),
    (b"parameter", Kind::Parameter),
    (b"As", Kind::As),
    (b"PROGRAM", Kind::Program),
    (b"begin", Kind::Begin),
    (b"End", Kind::End),
    (b"INSERT", Kind::Insert),
    (b"into", Kind::Into),
    (b"Values", Kind::Values),
    (b"UPDATE", Kind::Update),
    (b"set", Kind::Set),
    (b"Where", Kind::Where),
    (b"DELETE", Kind::Delete),
    (b"from", Kind::From),
    (b"Select", Kind::Select),
    (b"INNER", Kind::Inner),
    (b"join", Kind::Join),
    (b"Group", Kind::Group),
    (b"BY", Kind::By),
    (b"order", Kind::Order),
    (b"Limit", Kind::Limit),
    (b"COUNT", Kind::Count),
    (b"sum", Kind::Sum),
    (b"Min", Kind::Min),
    (b"MAX", Kind::Max),
    (b"asc", Kind::Asc),
    (b"Desc", Kind::Desc),
    (b"OR", Kind::Or),
    (b"and", Kind::And),
    (b"Is", Kind::Is),
    (b"BETWEEN", Kind::Between),
    (b"in", Kind::In),
    (b"Rows", Kind::Rows),
    (b"FIRST", Kind::First),
    (b"let", Kind::Let),
    (b"Sql", Kind::Sql),
    (b"IF", Kind::If),
    (b"then", Kind::Then),
    (b"Else", Kind::Else),
    (b"FOR", Kind::For),
    (b"do", Kind::Do),
    (b"Abort", Kind::Abort),
    (b"RETURN", Kind::Return),
];

fn kind_of_word(word: &[u8]) -> Kind {
    kind_of(TokenKind::Word, word)
}

fn kind_of_number(digits: &[u8]) -> Kind {
    kind_of(TokenKind::Number, digits)
}

fn kind_of_sign(sign: &[u8]) -> Kind {
    kind_of(TokenKind::Sign, sign)
}

#[test]
fn keywords_are_no_names(rt: HostRuntime) -> Result<(), Fail> {
    for (word, kind) in KEYWORDS {
        assert_eq!(rt; kind_of_word(word), kind);
        assert!(rt; kind_of_word(word).is(kind));
    }
    assert!(rt; !Kind::And.is(Kind::Or));
    Ok(())
}

#[test]
fn other_words_are_names(rt: HostRuntime) -> Result<(), Fail> {
    for word in [
        b"acct" as &[u8],
        b"_",
        b"SELECTED",
        b"AN",
        b"ANDY",
        b"_and",
        b"text",
        b"number",
    ] {
        assert_eq!(rt; kind_of_word(word), Kind::Name);
    }
    Ok(())
}

#[test]
fn signs_have_kinds(rt: HostRuntime) -> Result<(), Fail> {
    let signs: [(&[u8], Kind); 18] = [
        (b"(", Kind::LeftParen),
        (b")", Kind::RightParen),
        (b",", Kind::Comma),
        (b";", Kind::Semicolon),
        (b".", Kind::Dot),
        (b"*", Kind::Star),
        (b"+", Kind::Plus),
        (b"-", Kind::Minus),
        (b"/", Kind::Slash),
        (b"=", Kind::Equal),
        (b"<>", Kind::NotEqual),
        (b"!=", Kind::NotEqual),
        (b"<", Kind::Less),
        (b"<=", Kind::LessEqual),
        (b">", Kind::Greater),
        (b">=", Kind::GreaterEqual),
        (b"?", Kind::Question),
        (b":", Kind::Colon),
    ];
    for (sign, kind) in signs {
        assert_eq!(rt; kind_of_sign(sign), kind);
    }
    assert_eq!(rt; kind_of_sign(b"=="), Kind::Bad);
    assert_eq!(rt; kind_of_sign(b"AND"), Kind::Bad);
    assert_eq!(rt; kind_of(TokenKind::Text, b"'AND'"), Kind::Text);
    Ok(())
}

#[test]
fn numbers_end_at_the_greatest(rt: HostRuntime) -> Result<(), Fail> {
    for digits in [
        b"0" as &[u8],
        b"7",
        b"9223372036854775807",
        b"0000000000000000000000000001",
    ] {
        assert_eq!(rt; kind_of_number(digits), Kind::Number);
    }
    for digits in [
        b"9223372036854775808" as &[u8],
        b"18446744073709551616",
        b"99999999999999999999999999",
    ] {
        assert_eq!(rt; kind_of_number(digits), Kind::Bad);
    }
    assert_eq!(rt; number_value(b"0042"), Some(42));
    assert_eq!(rt;
        number_value(b"9223372036854775807"),
        Some(9_223_372_036_854_775_807)
    );
    assert_eq!(rt; number_value(b"9223372036854775808"), None);
    Ok(())
}

#[test]
fn laws_hold_of_a_rule() {
    one_token_decides::<TwoNames>();
    one_answer::<TwoNames>();
    prefixes_start::<TwoNames>();
}
