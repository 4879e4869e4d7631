//! What is wrong in an expression, from the left to the right of its text: each time a name that stands
//! for nothing, or a class that doesn't fit. Begin with `Complaint` and `read`.
#![tactic(auto)]

mod complaints;
mod expressions;
mod sentence;

pub use complaints::{About, Complaint, Part, Search, Wanted};
pub use expressions::{copy, copy_name, read, read_column, read_name, read_own, read_question};
