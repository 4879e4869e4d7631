//! Cuts a text of SQL into tokens: words, numbers, quoted texts and signs.
#![tactic(auto)]

mod bytes;
mod laws;
mod lexer;
mod piece;
mod quoted;
#[cfg(test)]
mod tests;
mod token;

pub use laws::{one_reading, tokens_are_slices};
pub use lexer::lex;
pub use token::{LexFault, Token, TokenKind};
