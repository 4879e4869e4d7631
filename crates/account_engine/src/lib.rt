//! The engine of one table of accounts, `acct (id BIGINT NOT NULL, bal BIGINT NOT NULL, PRIMARY KEY
//! (id))`, and of two procedures: Put, which is `INSERT INTO acct VALUES (?, ?)`, and Get, which is
//! `SELECT bal FROM acct WHERE id = ?`. Begin with `Accounts`; `specs/Accounts.antt` has what they mean.
#![tactic(auto)]

mod accounts;
mod call;
mod reply;
mod scenario;

pub use accounts::{AccountMaker, Accounts};
pub use call::AccountCall;
pub use reply::{print_reply, replies_are_given};
pub use scenario::{
    first_report_is_sound, first_report_is_spelled_so, first_run_is_this, four_calls_answer_so,
    put_has_this_body, wrong_reports_are_not_sound,
};

#[cfg(test)]
mod tests;
