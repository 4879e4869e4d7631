//! The report of a run: what it says (`specs/Report.antt`), and how it is written
//! (`specs/Spelling.antt`). Begin there; `examples` has small reports.
//!
//! A report is printed part by part: each function adds one part at the end of the bytes. After
//! running out of memory nothing is said of what stands there. The line of an event is a value of its own,
//! so that a long trace needs no memory.
#![tactic(auto)]

mod event;
mod examples;
mod parts;
mod printing;

pub use event::{EventLine, event_line};
pub use examples::{example_ends, example_faults, example_report};
pub use printing::{print_call_head, print_copy_head, print_head, print_opening, print_serial};

#[cfg(test)]
mod tests;
