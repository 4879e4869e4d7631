//! What single bytes are, and how far runs of them go.

ghost use Rattle.std.specs.Prelude.{◌≡◌};
ghost use Rattle.std.specs.List.{prefix_len};
ghost use Rattle.std.specs.Char.{is_ascii_digit};
ghost use Rattle.volt_text.specs.Tokens.{is_blank, is_letter, is_word_byte, may_be_quoted, is_in_line};

/// A space, a tab or an LF.
pub fn is_blank(byte: u8) -> bool
    ensures { result ≡ is_blank byte }
{
    byte == b' ' || byte == b'\t' || byte == b'\n'
}

/// A letter or `_`.
pub fn is_letter(byte: u8) -> bool
    ensures { result ≡ is_letter byte }
{
    byte.is_ascii_alphabetic() || byte == b'_'
}

/// A letter, a digit or `_`.
pub fn is_word_byte(byte: u8) -> bool
    ensures { result ≡ is_word_byte byte }
{
    is_letter(byte) || byte.is_ascii_digit()
}

/// No control character.
pub fn may_be_quoted(byte: u8) -> bool
    ensures { result ≡ may_be_quoted byte }
{
    byte >= 0x20 && byte != 0x7f
}

/// How many blanks the text begins with.
#[tactic(auto, using(crate::proofs::Runs::runs))]
pub fn blanks(text: &[u8]) -> usize
    ensures { result ≡ prefix_len is_blank text.now }
{
    let mut len = 0;
    while len < text.len() && is_blank(text[len]) {
        len += 1;
    }
    len
}

/// How many word bytes the text begins with.
#[tactic(auto, using(crate::proofs::Runs::runs))]
pub fn word_bytes(text: &[u8]) -> usize
    ensures { result ≡ prefix_len is_word_byte text.now }
{
    let mut len = 0;
    while len < text.len() && is_word_byte(text[len]) {
        len += 1;
    }
    len
}

/// How many digits the text begins with.
#[tactic(auto, using(crate::proofs::Runs::runs))]
pub fn digits(text: &[u8]) -> usize
    ensures { result ≡ prefix_len is_ascii_digit text.now }
{
    let mut len = 0;
    while len < text.len() && text[len].is_ascii_digit() {
        len += 1;
    }
    len
}

/// How many bytes stand before the first LF of the text, or in all of it.
#[tactic(auto, using(crate::proofs::Runs::runs))]
pub fn bytes_in_line(text: &[u8]) -> usize
    ensures { result ≡ prefix_len is_in_line text.now }
{
    let mut len = 0;
    while len < text.len() && text[len] != b'\n' {
        len += 1;
    }
    len
}
