//! What SQL means, evaluated: statements and calls on small databases, with the rows or the fault that
//! each gives. Each is a function without a body; its clauses are the examples.
#![tactic(auto)]

mod calls;
mod changes;
mod faults;
mod groups;
mod orders;
mod partitions;
mod programs;
mod truths;

pub use calls::{accounts_change, balances_move, overdrawn_accounts, sums_out_of_range};
pub use changes::{
    keys_of_whole_tables, least_fault_of_changes, rows_of_other_partitions, rows_that_fit,
};
pub use faults::{conditions_stop_early, least_fault_of_a_row, least_fault_over_rows};
pub use groups::{groups_of_no_rows, groups_with_null, order_over_groups};
pub use orders::{order_of_rows, rows_of_a_result, rows_of_two_tables};
pub use partitions::{counts_of_all, first_rows_of_all, sums_of_all};
pub use programs::{limits_of_programs, replies_too_long, results_and_loops};
pub use truths::{
    ands_and_ors, comparisons_with_null, lists_of_values, ranges_of_values, texts_by_bytes,
};
