//! Replies: how they are spelled, and how a report prints them.

ghost use Rattle.std.specs.Prelude.{◌≡◌, ◌++◌, ℕ, true, List, [], OnOk, IfOk};
ghost use Rattle.volt_base.specs.declared.entry.Applied.{Applied};
ghost use Rattle.volt_report.specs.Report.{ReportEnd};
ghost use Rattle.volt_report.specs.Spelling as spelling;
ghost use Rattle.soundness.specs.Meaning.{Script};
ghost use Rattle.soundness.specs.Sound.{reply_in};
ghost use Rattle.account_engine.specs.Accounts.{accounts};
ghost use Rattle.account_engine.specs.Spelling.{reply_bytes};
ghost use Rattle.account_engine.specs.Answers as answers;

use crate::call::{push_integer, value_at};
use itoa::Buffer;
use std::alloc::{AllocError, Global};
use volt_base::Bytes;

/// What a call answers.
#[derive(Clone, Copy)]
pub enum Answer {
    /// It was kept, with no row.
    Nothing,
    /// It was kept, with one row of this integer.
    Integer(i64),
    /// It aborted with the fault of this code.
    Fault(u8),
}

/// The first byte of a reply that has rows, and of one that has a fault.
const ROWS: u8 = 0;

const FAULT: u8 = 2;

impl Answer {
    /// The reply: a byte 0, the number of rows in 4 bytes, and of a row a byte 1 and its integer; or
    /// a byte 2 and the code.
    pub fn encode(self, alloc: Global) -> Result<Bytes, AllocError>
        ensures { IfOk result (λ reply. reply ≡ reply_bytes (answers.end_of_answer self)) }
    {
        let mut reply = Vec::new(alloc);
        match self {
            Answer::Nothing => reply.extend_from_slice(&[ROWS, 0, 0, 0, 0])?,
            Answer::Integer(integer) => {
                reply.extend_from_slice(&[ROWS, 0, 0, 0, 1, 1])?;
                push_integer(&mut reply, integer)?;
            }
            Answer::Fault(code) => reply.extend_from_slice(&[FAULT, code])?,
        }
        Ok(Bytes::from_vec(reply))
    }

    /// The answer that a reply spells.
    pub fn decode(reply: &[u8]) -> Option<Answer>
        ensures { result ≡ answers.answer_of reply.now }
    {
        match reply {
            [ROWS, rows @ ..] => row_of(rows),
            [FAULT, code] => Some(Answer::Fault(*code)),
            _ => None,
        }
    }

    /// Appends the text of the answer, as a report prints it.
    pub fn print(self, into: &mut Vec<u8>) -> Result<(), AllocError>
        ensures { OnOk result
            (into.new.items ≡ into.old.items ++ spelling.end_text (answers.end_of_answer self)) }
    {
        match self {
            Answer::Nothing => into.extend_from_slice(b"ok 0\n")?,
            Answer::Integer(integer) => {
                into.extend_from_slice(b"ok 1\n ")?;
                into.extend_from_slice(Buffer::new().format(integer).as_bytes())?;
                into.push(b'\n')?;
            }
            Answer::Fault(code) => {
                into.extend_from_slice(b"abort fault ")?;
                into.extend_from_slice(fault_name(code).as_bytes())?;
                into.push(b'\n')?;
            }
        }
        Ok(())
    }
}

/// Appends the text that a report prints of a reply, the lines of its end. Of bytes that are no reply
/// of this engine it appends any or none.
pub fn print_reply(reply: &[u8], into: &mut Vec<u8>) -> Result<(), AllocError>
    ensures { (e : ReportEnd) → answers.is_given e ≡ true → reply.now ≡ reply_bytes e
        → OnOk result (into.new.items ≡ into.old.items ++ spelling.end_text e) }
{
    match Answer::decode(reply) {
        Some(answer) => answer.print(into),
        None => Ok(()),
    }
}

/// In every serial run from no rows each reply is one that `print_reply` prints.
pub fn replies_are_given()
    ensures { (s : Script accounts) (list : List Applied) (call : ℕ) (e : ReportEnd)
        → reply_in accounts s (accounts.database []) list call ≡ Some e → answers.is_given e ≡ true }
{}

fn row_of(rows: &[u8]) -> Option<Answer>
    ensures { result ≡ answers.row_of rows.now }
{
    match rows {
        [0, 0, 0, 0] => Some(Answer::Nothing),
        [0, 0, 0, 1, 1, values @ ..] => {
            let (integer, _) = value_at(values)?;
            Some(Answer::Integer(integer))
        }
        _ => None,
    }
}

fn fault_name(code: u8) -> &'static str
    ensures { result.now ≡ spelling.fault_name code }
{
    match code {
        1 => "Overflow",
        2 => "DivideByZero",
        3 => "NullInColumn",
        4 => "OutOfRange",
        5 => "TooLong",
        6 => "WrongPartition",
        7 => "Duplicate",
        _ => "TooManyRows",
    }
}
