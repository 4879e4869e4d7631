//! Checked statements and compiled programs: the trees on which the meaning of SQL is defined, and
//! what runs of them give. Begin with `Prepared` and `Program`.
#![tactic(auto)]

mod expression;
mod fault;
mod partial;
mod plan;
mod prepared;
mod program;
mod reply;
mod row;
mod row_key;
mod select;

pub use expression::{Cond, Scalar};
pub use fault::{Fault, RunFault};
pub use partial::{Gathered, Group, KeyedRow, Partial};
pub use plan::Plan;
pub use prepared::{
    Action, DeletePlan, InsertPlan, Prepared, Scope, UpdatePlan, are_arguments, has_class,
};
pub use program::{Program, ProgramStep, ProgramValue, Returned};
pub use reply::{Cause, ProcReply};
pub use row::{Row, Rows};
pub use row_key::{Directed, RowKey};
pub use select::{Aggregated, GroupOutput, JoinPlan, Order, OrderBy, RowLimit, SelectPlan, Shape};
