//! What the refusal of a statement is about: the name, the classes or the numbers that a person wants to
//! read of. Begin with `about_refusal`.
#![tactic(auto)]

mod refusal;
mod select;
mod writes;

pub use refusal::about_refusal;
