//! What a partition answers in a round.

ghost use Rattle.std.specs.Prelude.{◌≡◌, ◌≢◌, ◌++◌, IfOk, OnOk, IfSome, IfNone};
ghost use Rattle.sql_wire.specs.declared.answers.Answer.{Answer as Answered};
ghost use Rattle.sql_wire.specs.ExactParts.{outcome_exact};
ghost use Rattle.sql_wire.specs.Parts.{outcome_bytes, answer_bytes};
ghost use Rattle.sql_wire.specs.Reading.{outcome_at};
ghost use Rattle.sql_wire.specs.Spelled.{OutcomeFits, CanSpellOutcome, AnswerFits, CanSpellAnswer};

use crate::parts::PartForm;
use crate::replies::read_fault;
use byte_codec::{Form, Unread, read_whole, spell};
use sql_plan::{Fault, Partial};
use std::alloc::{AllocError, Global};
use volt_base::Bytes;

/// What a partition answers in a round.
#[derive(Debug, Drop)]
pub enum Answer {
    /// There was no statement to run.
    Nothing,
    /// What the statement gave on this partition, or its fault there, which left the partition as it
    /// was.
    Outcome(Result<Partial, Fault>),
}

/// A part, or a fault.
struct OutcomeForm;

impl Form for OutcomeForm {
    type Of = Result<Partial, Fault>;

    ghost spelling = { outcome_bytes };

    ghost Fits = { OutcomeFits };

    ghost CanSpell = { CanSpellOutcome };

    ghost read_at = { outcome_at };

    ghost exact = { outcome_exact };

    fn put(out: &mut Vec<u8>, x: &Result<Partial, Fault>) -> Result<(), AllocError> {
        match x {
            Ok(part) => {
                out.push(0)?;
                PartForm::put(out, part)
            }
            Err(fault) => out.extend_from_slice(&[1, fault.code()]),
        }
    }

    #[tactic(auto, unfolding(crate::specs::Reading::outcome_at))]
    fn read(alloc: Global, bytes: &[u8]) -> Result<(Result<Partial, Fault>, &[u8]), Unread> {
        match bytes {
            [0, rest @ ..] => {
                let (part, rest) = PartForm::read(alloc, rest)?;
                Ok((Ok(part), rest))
            }
            [1, rest @ ..] => {
                let (fault, rest) = read_fault(rest)?;
                Ok((Err(fault), rest))
            }
            _ => Err(Unread::NotSpelled),
        }
    }
}

/// An answer as bytes. A part has fewer than 2^32 rows or groups, each with fewer than 2^32 values,
/// and each is a value.
pub fn spell_answer(alloc: Global, answer: &Answer) -> Result<Bytes, AllocError>
    requires { CanSpellAnswer answer.now }
    ensures spelled { IfOk result (λ bytes. bytes ≡ answer_bytes answer.now) }
    ensures fits { OnOk result (AnswerFits answer.now) }
{
    match answer {
        Answer::Nothing => Ok(Bytes::from_vec(Vec::new(alloc))),
        Answer::Outcome(outcome) => spell::<OutcomeForm>(alloc, outcome),
    }
}

/// The answer that these bytes are. `None` exactly where they are none.
pub fn read_answer(alloc: Global, bytes: &[u8]) -> Result<Option<Answer>, AllocError>
    ensures found { IfOk result (λ read. IfSome read (λ answer. (bytes.now ≡ answer_bytes answer) × AnswerFits answer)) }
    ensures none { IfOk result (λ read. IfNone read ((answer : Answered) → AnswerFits answer → bytes.now ≢ answer_bytes answer)) }
{
    if bytes.is_empty() {
        return Ok(Some(Answer::Nothing));
    }
    Ok(read_whole::<OutcomeForm>(alloc, bytes)?.map(Answer::Outcome))
}
