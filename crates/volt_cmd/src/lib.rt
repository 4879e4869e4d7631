//! The top call of the product: words, a source and a sink go in, and a status comes out. Begin with
//! `volt` in `top`; `specs/Headline.antt` has the words of its contract.
#![tactic(auto)]

mod input;
mod printing;
mod run;
mod status;
#[cfg(test)]
mod tests;
mod top;
mod writing;

pub use status::Status;
pub use top::volt;
