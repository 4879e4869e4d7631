//! The grammar of SQL: what it tells apart, and how a grammar is given and read. A grammar is data,
//! whose rules the crates above write in their `specs/`; here stands what its texts are, and that
//! reading it with one token ahead is exact.
#![tactic(auto)]

mod kind;
mod laws;
#[cfg(test)]
mod tests;
mod words;

pub use kind::Kind;
pub use laws::{AnyRule, one_answer, one_token_decides, prefixes_start};
pub use words::{kind_of, number_value};
