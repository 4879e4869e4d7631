//! Which kind a token has.

ghost use Rattle.std.specs.Prelude.{◌≡◌, ◌≤◌, map, IfSome};
ghost use Rattle.std.specs.Str.{str_eq_ignore_ascii_case};
ghost use Rattle.sql_grammar.specs.TokenKinds as spec;

use crate::kind::Kind;
use volt_text::TokenKind;

/// The greatest number.
const MAX_NUMBER: u64 = 9_223_372_036_854_775_807;

/// The words that are no names.
const KEYWORDS: [(&[u8], Kind); 61] = [
    (b"CREATE", Kind::Create),
    (b"TABLE", Kind::Table),
    (b"CONSTRAINT", Kind::Constraint),
    (b"PRIMARY", Kind::Primary),
    (b"KEY", Kind::Key),
    (b"NOT", Kind::Not),
    (b"NULL", Kind::Null),
    (b"TINYINT", Kind::Tinyint),
    (b"SMALLINT", Kind::Smallint),
    (b"INTEGER", Kind::Integer),
    (b"BIGINT", Kind::Bigint),
    (b"VARCHAR", Kind::Varchar),
    (b"BYTES", Kind::Bytes),
    (b"UNIQUE", Kind::Unique),
    (b"INDEX", Kind::Index),
    (b"ON", Kind::On),
    (b"PARTITION", Kind::Partition),
    (b"COLUMN", Kind::Column),
    (b"PROCEDURE", Kind::Procedure),
    (b"PARAMETER", Kind::Parameter),
    (b"AS", Kind::As),
    (b"PROGRAM", Kind::Program),
    (b"BEGIN", Kind::Begin),
    (b"END", Kind::End),
    (b"INSERT", Kind::Insert),
    (b"INTO", Kind::Into),
    (b"VALUES", Kind::Values),
    (b"UPDATE", Kind::Update),
    (b"SET", Kind::Set),
    (b"WHERE", Kind::Where),
    (b"DELETE", Kind::Delete),
    (b"FROM", Kind::From),
    (b"SELECT", Kind::Select),
    (b"INNER", Kind::Inner),
    (b"JOIN", Kind::Join),
    (b"GROUP", Kind::Group),
    (b"BY", Kind::By),
    (b"ORDER", Kind::Order),
    (b"LIMIT", Kind::Limit),
    (b"COUNT", Kind::Count),
    (b"SUM", Kind::Sum),
    (b"MIN", Kind::Min),
    (b"MAX", Kind::Max),
    (b"ASC", Kind::Asc),
    (b"DESC", Kind::Desc),
    (b"OR", Kind::Or),
    (b"AND", Kind::And),
    (b"IS", Kind::Is),
    (b"BETWEEN", Kind::Between),
    (b"IN", Kind::In),
    (b"ROWS", Kind::Rows),
    (b"FIRST", Kind::First),
    (b"LET", Kind::Let),
    (b"SQL", Kind::Sql),
    (b"IF", Kind::If),
    (b"THEN", Kind::Then),
    (b"ELSE", Kind::Else),
    (b"FOR", Kind::For),
    (b"DO", Kind::Do),
    (b"ABORT", Kind::Abort),
    (b"RETURN", Kind::Return),
];

const SIGNS: [(&[u8], Kind); 18] = [
    (b"(", Kind::LeftParen),
    (b")", Kind::RightParen),
    (b",", Kind::Comma),
    (b";", Kind::Semicolon),
    (b".", Kind::Dot),
    (b"*", Kind::Star),
    (b"+", Kind::Plus),
    (b"-", Kind::Minus),
    (b"/", Kind::Slash),
    (b"=", Kind::Equal),
    (b"<>", Kind::NotEqual),
    (b"!=", Kind::NotEqual),
    (b"<", Kind::Less),
    (b"<=", Kind::LessEqual),
    (b">", Kind::Greater),
    (b">=", Kind::GreaterEqual),
    (b"?", Kind::Question),
    (b":", Kind::Colon),
];

/// Whether both are the same but for the case of their letters.
fn same_word(a: &[u8], b: &[u8]) -> bool
    ensures { result ≡ str_eq_ignore_ascii_case a.now b.now }
{
    a.eq_ignore_ascii_case(b)
}

/// The kind of a text in a table, or another one where the table lacks it.
fn lookup(mut table: &[(&[u8], Kind)], text: &[u8], other: Kind) -> Kind
    ensures { result ≡ spec.lookup (map (λ k. (k.0.now, k.1)) table.entry.now) text.now other }
{
    while let [entry, rest @ ..] = table {
        if same_word(entry.0, text) {
            return entry.1;
        }
        table = rest;
    }
    other
}

/// The value of digits, or `None` where it is above 9223372036854775807.
pub fn number_value(digits: &[u8]) -> Option<u64>
    ensures value { result ≡ spec.number_value digits.now }
    ensures within { IfSome result (λ n. n ≤ MAX_NUMBER) }
{
    let mut value = 0;
    for digit in digits {
        let digit = u64::from(digit.saturating_sub(b'0'));
        if value > (MAX_NUMBER - digit) / 10 {
            return None;
        }
        value = 10 * value + digit;
    }
    Some(value)
}

#[tactic(auto, unfolding(crate::specs::TokenKinds::kind_of))]
fn number_kind(digits: &[u8]) -> Kind
    ensures { result ≡ spec.kind_of TokenKind.Number digits.now }
{
    match number_value(digits) {
        Some(_) => Kind::Number,
        None => Kind::Bad,
    }
}

/// The kind of a token with these bytes.
#[tactic(auto, unfolding(crate::specs::TokenKinds::kind_of, crate::specs::TokenKinds::keywords, crate::specs::TokenKinds::signs))]
pub fn kind_of(kind: TokenKind, text: &[u8]) -> Kind
    ensures { result ≡ spec.kind_of kind text.now }
{
    match kind {
        TokenKind::Word => lookup(&KEYWORDS, text, Kind::Name),
        TokenKind::Number => number_kind(text),
        TokenKind::Text => Kind::Text,
        TokenKind::Sign => lookup(&SIGNS, text, Kind::Bad),
    }
}
