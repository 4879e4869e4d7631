use std::alloc::AllocFailed;

/// What a token is.
#[derive(Clone, Copy, Debug, PartialEq, Eq)]
pub enum TokenKind {
    /// A letter or `_`, followed by letters, digits and `_`. Letters are ASCII.
    Word,
    /// Digits.
    Number,
    /// What stands in single quotes, with the quotes. A quote in it is doubled.
    Text,
    /// One of `( ) , ; . * + - / = <> != < <= > >= ? :`.
    Sign,
}

/// A token of a text. Places and lengths are in bytes.
#[derive(Clone, Copy, Debug, PartialEq, Eq)]
pub struct Token {
    pub kind: TokenKind,
    /// Where it begins. The text's first byte has the place 0.
    pub at: u32,
    /// How many bytes it has: one or more.
    pub len: u32,
}

/// Why a text was not cut into tokens. A place is that of a byte, from 0.
#[derive(Clone, Copy, Debug, PartialEq, Eq)]
pub enum LexFault {
    /// Here no token begins, and no blank or comment. A quoted text that holds a control character
    /// is no token: then this is the place of its opening quote.
    BadChar(u32),
    /// Here stands a quote that no later quote ends.
    OpenText(u32),
    /// Out of memory.
    NoMemory,
}

impl<T: Drop> From<AllocFailed<T>> for LexFault {
    ghost use Rattle.std.specs.Prelude.{◌≡◌};
    ghost use Rattle.volt_text.specs.declared.token.LexFault.TheVariants.{NoMemory};

    ghost from_gives = { λ _ fault. fault ≡ NoMemory };

    fn from(_failed: AllocFailed<T>) -> LexFault {
        LexFault::NoMemory
    }
}
