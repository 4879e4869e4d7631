//! Quoted texts.

ghost use Rattle.std.specs.Prelude.{◌≡◌, true};
ghost use Rattle.volt_text.specs.Tokens.{begins, is_quote};
ghost use Rattle.volt_text.specs.Scan.{IsQuoted};

use crate::bytes::may_be_quoted;

/// What a quote begins.
#[derive(Clone, Copy, Debug, PartialEq, Eq)]
pub enum Quoted {
    /// A quoted text. Its length counts its quotes. It is plain where it holds no control character.
    Closed { len: usize, is_plain: bool },
    /// No later quote ends it.
    Open,
}

/// What the quote at the text's beginning begins.
pub fn read_quoted(text: &[u8]) -> Quoted
    requires { begins is_quote text.now ≡ true }
    ensures { IsQuoted text.now result }
{
    let mut at = 1;
    let mut is_plain = true;
    while at < text.len() {
        let byte = text[at];
        if byte != b'\'' {
            is_plain &= may_be_quoted(byte);
            at += 1;
        } else if at + 1 < text.len() && text[at + 1] == b'\'' {
            at += 2;
        } else {
            return Quoted::Closed {
                len: at + 1,
                is_plain,
            };
        }
    }
    Quoted::Open
}
