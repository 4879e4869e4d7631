//! Runs of programs.

ghost use Rattle.std.specs.Prelude.{◌≡◌, None, IfOk, map};
ghost use Rattle.sql_meaning.specs.Programs.{talk_of};
ghost use Rattle.proc_run.specs.Running as spec;
ghost use Rattle.proc_run.specs.Runs.{talk_from, rest_of_talk, fed_of, ends, IsAt};

use crate::knowledge::Knowledge;
use crate::resuming::resume;
use crate::running::go_from;
use crate::single::no_rows;
use crate::stand::Stand;
use crate::step::Step;
use crate::went::Went;
use sql_plan::{Cause, Fault, Program, Rows};
use std::alloc::{AllocError, Global};
use std::marker::Model;
use std::mem;
use volt_value::Value;

/// A run of a program, from one statement to the next. With its program and with what it is fed, it
/// stands for the rest of the talk of a call with the database.
///
/// It doesn't hold its program, which each call takes again. A step costs the same wherever it stands.
/// A question, and its answer, cost one turn for each IF and FOR that it stands in.
#[derive(Drop)]
pub struct ProcRun {
    alloc: Global,
    known: Knowledge,
    stand: Stand,
}

impl Model for ProcRun {
    ghost use Rattle.proc_run.specs.Runs.{Run};

    ghost Value = { Run };

    ghost view = { λ r. record { stand = r.stand; known = r.known } };
}

/// Goes on to the next statement, or to the end.
fn go_on(
    alloc: Global,
    known: &mut Knowledge,
    stand: Stand,
    program: &Program,
    fed: Option<Result<Rows, Fault>>,
) -> Result<Went, AllocError>
    ensures { IfOk result (λ went. talk_from stand known.old program.now (fed_of fed) ≡ spec.gone went (spec.left_in program.now.steps) known.new ends) }
{
    let path = match stand {
        Stand::Begins => return go_from(alloc, known, program.steps.as_slice(), 0),
        Stand::Waits(path) => path,
        Stand::Over => return Ok(Went::On),
    };
    match fed {
        Some(Ok(rows)) => resume(alloc, known, program.steps.as_slice(), path, rows),
        Some(Err(fault)) => Ok(Went::Aborts(Cause::Fault(fault))),
        None => resume(alloc, known, program.steps.as_slice(), path, no_rows(alloc)),
    }
}

impl ProcRun {
    /// A run of a program with these arguments, one for each parameter. It has run no step yet, and is
    /// fed nothing at first.
    pub fn start(alloc: Global, program: &Program, args: Vec<Value>) -> Result<ProcRun, AllocError>
        ensures { IfOk result (λ run. rest_of_talk run program.now None ≡ talk_of program.now args.items) }
    {
        Ok(ProcRun {
            alloc,
            known: Knowledge::start(alloc, program, args)?,
            stand: Stand::Begins,
        })
    }

    /// Runs on to the next statement, or to the end. It takes the program of the run, and what the
    /// statement that was asked last gave, or `None` where none was.
    ///
    /// Once a call has ended there is nothing left to be fed.
    pub fn feed(
        &mut self,
        program: &Program,
        fed: Option<Result<Rows, Fault>>,
    ) -> Result<Step, AllocError>
        ensures { IfOk result (λ step. IsAt (rest_of_talk self.old program.now (fed_of fed)) step (rest_of_talk self.new program.now)) }
    {
        let stand = mem::replace(&mut self.stand, Stand::Over);
        let went = go_on(self.alloc, &mut self.known, stand, program, fed)?;
        match went {
            Went::On => Ok(Step::Return(no_rows(self.alloc))),
            Went::Asks {
                statement,
                args,
                path,
            } => {
                self.stand = Stand::Waits(path);
                Ok(Step::NeedSql { statement, args })
            }
            Went::Returns(rows) => Ok(Step::Return(rows)),
            Went::Aborts(why) => Ok(Step::Abort(why)),
        }
    }
}
