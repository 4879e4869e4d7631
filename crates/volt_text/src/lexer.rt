//! Cuts a whole text.

ghost use Rattle.std.specs.Prelude.{◌≡◌, ◌<◌, ◌^◌, ◌++◌, [], ℕ, length, IfOk, OnOk, Err};
ghost use Rattle.volt_text.specs.Tokens.{Reads, Tokens, BadChar, OpenText, token_before};
ghost use Rattle.volt_text.specs.Scan.{fault_of};

use crate::piece::{FirstPiece, PieceKind, Stop, first_piece};
use crate::token::{LexFault, Token};
use std::alloc::{AllocFailed, Global};

/// Notes the piece at this place, where it is a token.
fn note(tokens: &mut Vec<Token>, at: u32, piece: FirstPiece) -> Result<(), AllocFailed<Token>>
    requires { piece.len < 2 ^ 32 }
    ensures { OnOk result (tokens.new.items
        ≡ tokens.old.items ++ token_before at piece.kind piece.len []) }
{
    match piece.kind {
        PieceKind::Lexeme(kind) => tokens.push(Token {
            kind,
            at,
            len: piece.len as u32,
        }),
        PieceKind::Blank | PieceKind::Comment => Ok(()),
    }
}

/// Why lexing stops at this place.
fn fault_of(stop: Stop, at: u32) -> LexFault
    ensures { result ≡ fault_of stop at }
{
    match stop {
        Stop::BadChar => LexFault::BadChar(at),
        Stop::OpenText => LexFault::OpenText(at),
    }
}

/// Cuts a text into its tokens, and answers them in their order.
///
/// At each place stands the longest token, blank or comment that begins there. A word is a letter
/// or `_` with the letters, digits and `_` that follow it, a number is digits, and the signs are
/// `( ) , ; . * + - / = <> != < <= > >= ? :`. A text stands in single quotes, and a quote that is
/// doubled belongs to it and doesn't end it. Blanks are spaces, tabs and LFs. A comment goes from
/// `--` to the end of its line.
///
/// The answer is `OpenText` with the place of the first quote that no later quote ends, or
/// `BadChar` with the place of the first byte at which none of these begins, whichever comes
/// first. A quoted text that holds a control character, U+0000 to U+001F or U+007F, is no token,
/// so `BadChar` has the place of its opening quote. The text has fewer than 2^32 bytes.
#[tactic(auto, unfolding(crate::specs::Tokens::Reads))]
pub fn lex(alloc: Global, text: &str) -> Result<Vec<Token>, LexFault>
    requires { length text.now < 2 ^ 32 }
    ensures read { IfOk result (λ tokens. Reads text.now (Tokens tokens.items)) }
    ensures bad_char { (at : ℕ) → result ≡ Err (LexFault.BadChar at) → Reads text.now (BadChar at) }
    ensures open_text { (at : ℕ) → result ≡ Err (LexFault.OpenText at) → Reads text.now (OpenText at) }
{
    let bytes = text.as_bytes();
    let mut tokens = Vec::new(alloc);
    let mut at = 0;
    while at < bytes.len() {
        let (_, rest) = bytes.split_at(at);
        match first_piece(rest) {
            Ok(piece) => {
                note(&mut tokens, at as u32, piece)?;
                at += piece.len;
            }
            Err(stop) => return Err(fault_of(stop, at as u32)),
        }
    }
    Ok(tokens)
}
