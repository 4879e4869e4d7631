//! The piece at the beginning of a text.

ghost use Rattle.std.specs.Prelude.{◌≡◌, ◌<◌, length, true};
ghost use Rattle.volt_text.specs.Tokens.{begins, is_quote};
ghost use Rattle.volt_text.specs.Scan.{begins_comment, sign_len, IsFirstPiece};

use crate::bytes::{blanks, bytes_in_line, digits, is_blank, is_letter, word_bytes};
use crate::quoted::{Quoted, read_quoted};
use crate::token::TokenKind;

/// What a piece of a text is.
#[derive(Clone, Copy, Debug, PartialEq, Eq)]
pub enum PieceKind {
    /// Spaces, tabs and LFs.
    Blank,
    /// Two hyphens, and what follows them in their line.
    Comment,
    /// A token.
    Lexeme(TokenKind),
}

/// The piece at the beginning of a text: what it is, and how many bytes it has.
#[derive(Clone, Copy, Debug, PartialEq, Eq)]
pub struct FirstPiece {
    pub kind: PieceKind,
    pub len: usize,
}

impl FirstPiece {
    fn new(kind: PieceKind, len: usize) -> FirstPiece
        ensures { result ≡ record { kind = kind; len = len } }
    {
        FirstPiece { kind, len }
    }
}

/// Why no piece stands at the beginning of a text.
#[derive(Clone, Copy, Debug, PartialEq, Eq)]
pub enum Stop {
    BadChar,
    OpenText,
}

/// Whether the text begins with two hyphens.
fn begins_comment(text: &[u8]) -> bool
    ensures { result ≡ begins_comment text.now }
{
    text.len() > 1 && text[0] == b'-' && text[1] == b'-'
}

/// How many bytes the longest sign at the beginning of the text has: 0 where there is none.
fn sign_len(text: &[u8]) -> usize
    ensures { result ≡ sign_len text.now }
{
    match text {
        [b'<', b'>' | b'=', ..] | [b'!' | b'>', b'=', ..] => 2,
        [
            b'('
            | b')'
            | b','
            | b';'
            | b'.'
            | b'*'
            | b'+'
            | b'-'
            | b'/'
            | b'='
            | b'<'
            | b'>'
            | b'?'
            | b':',
            ..
        ] => 1,
        _ => 0,
    }
}

/// The quoted text at the beginning of a text that begins with a quote.
fn quoted_piece(text: &[u8]) -> Result<FirstPiece, Stop>
    requires { begins is_quote text.now ≡ true }
    ensures { IsFirstPiece text.now result }
{
    match read_quoted(text) {
        Quoted::Closed {
            len,
            is_plain: true,
        } => Ok(FirstPiece::new(PieceKind::Lexeme(TokenKind::Text), len)),
        Quoted::Closed { .. } => Err(Stop::BadChar),
        Quoted::Open => Err(Stop::OpenText),
    }
}

/// The piece at the beginning of a text that isn't empty.
pub fn first_piece(text: &[u8]) -> Result<FirstPiece, Stop>
    requires { 0 < length text.now }
    ensures { IsFirstPiece text.now result }
{
    let first = text[0];
    if is_letter(first) {
        return Ok(FirstPiece::new(PieceKind::Lexeme(TokenKind::Word), word_bytes(text)));
    }
    if is_blank(first) {
        return Ok(FirstPiece::new(PieceKind::Blank, blanks(text)));
    }
    if first.is_ascii_digit() {
        return Ok(FirstPiece::new(PieceKind::Lexeme(TokenKind::Number), digits(text)));
    }
    if first == b'\'' {
        return quoted_piece(text);
    }
    if begins_comment(text) {
        return Ok(FirstPiece::new(PieceKind::Comment, bytes_in_line(text)));
    }
    let len = sign_len(text);
    if len == 0 {
        return Err(Stop::BadChar);
    }
    Ok(FirstPiece::new(PieceKind::Lexeme(TokenKind::Sign), len))
}
