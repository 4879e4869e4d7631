//! Tests of the running of SQL: values of expressions, and runs of programs.
//! They stand apart from the crates that they call, whose code would be proved twice beside them.
#![tactic(auto)]

#[cfg(test)]
mod runs;
#[cfg(test)]
mod values;
