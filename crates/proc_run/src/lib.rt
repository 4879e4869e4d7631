//! The running of compiled programs. A run asks for one statement after another, and is kept while a
//! statement is on its way. Begin with `ProcRun`.
#![tactic(auto)]

mod knowledge;
mod path;
mod procedure;
mod resuming;
mod row_at;
mod running;
mod shared;
mod single;
mod stand;
mod step;
mod turn;
mod went;

pub use procedure::ProcRun;
pub use step::Step;
