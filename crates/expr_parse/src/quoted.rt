//! The value of a quoted text.

ghost use Rattle.std.specs.Prelude.{◌≡◌, ◌+◌, ◌-◌, ◌<◌, ◌&&◌, ◌++◌, true, length, take, drop, slice_index, IfOk, MatchOption};
ghost use Rattle.volt_text.specs.Tokens.{is_quote};
ghost use Rattle.expr_parse.specs.Words as spec;

use std::alloc::{AllocError, Global};
use volt_value::Text;

/// Whether both bytes are quotes.
fn are_quotes(first: u8, second: u8) -> bool
    ensures { result ≡ (is_quote first && is_quote second) }
{
    first == b'\'' && second == b'\''
}

/// Where the first quote stands that is doubled.
fn find_pair(text: &[u8]) -> Option<usize>
    ensures { MatchOption result (spec.halved text.now ≡ text.now) (λ at. (at + 1 < length text.now)
        × (slice_index text.now at ≡ 39) × (slice_index text.now (at + 1) ≡ 39)
        × (spec.halved text.now ≡ take (at + 1) text.now ++ spec.halved (drop (at + 2) text.now))) }
{
    let mut at = 0;
    while at + 1 < text.len() {
        if are_quotes(text[at], text[at + 1]) {
            return Some(at);
        }
        at += 1;
    }
    None
}

/// The text up to the first of two quotes, and what stands behind both.
fn split_pair(text: &str, at: usize) -> (&str, &str)
    requires within { at + 1 < length text.now }
    requires first { slice_index text.now at ≡ 39 }
    requires second { slice_index text.now (at + 1) ≡ 39 }
    ensures prefix { result.0.now ≡ take (at + 1) text.now }
    ensures back { result.1.now ≡ drop (at + 2) text.now }
{
    (&text[..at + 1], &text[at + 2..])
}

/// The text with each doubled quote as one.
fn halved(alloc: Global, text: &str) -> Result<Text, AllocError>
    ensures { IfOk result (λ t. t ≡ spec.halved text.now) }
{
    let mut found = String::new(alloc);
    let mut rest = text;
    while let Some(at) = find_pair(rest.as_bytes()) {
        let (prefix, back) = split_pair(rest, at);
        found.push_str(prefix)?;
        rest = back;
    }
    found.push_str(rest)?;
    Text::of(alloc, found.as_str())
}

/// What stands between the quotes of a text.
fn inside(quoted: &str) -> &str
    requires { spec.is_quoted quoted.now ≡ true }
    ensures { result.now ≡ drop 1 (take (length quoted.now - 1) quoted.now) }
{
    &quoted[1..quoted.len() - 1]
}

fn is_quoted(text: &[u8]) -> bool
    ensures { result ≡ spec.is_quoted text.now }
{
    text.len() > 1 && are_quotes(text[0], text[text.len() - 1])
}

/// What stands between the quotes of a text, with each doubled quote as one. What doesn't stand in
/// quotes has no value.
#[tactic(auto, unfolding(crate::specs::Words::text_of))]
pub fn text_of(alloc: Global, quoted: &str) -> Result<Text, AllocError>
    ensures { IfOk result (λ t. t ≡ spec.text_of quoted.now) }
{
    if is_quoted(quoted.as_bytes()) {
        halved(alloc, inside(quoted))
    } else {
        Text::of(alloc, "")
    }
}
