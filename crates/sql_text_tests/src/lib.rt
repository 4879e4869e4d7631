//! Tests of the readers of SQL: what texts are read to, and where they are refused.
//! They stand apart from the crates that they call, whose code would be proved twice beside them.
#![tactic(auto)]

#[cfg(test)]
mod definitions;
#[cfg(test)]
mod expressions;
#[cfg(test)]
mod statements;
