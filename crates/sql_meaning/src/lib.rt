//! What SQL means: statements, programs and calls on plain tables. Begin with `specs/Values.antt`; a few
//! of its rules stand in `src/rules.rt`, evaluated.
#![tactic(auto)]

mod rules;

pub use rules::{
    dropped_rows_have_no_fault, first_rows_are_least, null_equals_nothing, parts_judge_no_sum,
    steps_have_a_limit,
};
