//! What an engine is asked: a call, and a round of one.

ghost use Rattle.std.specs.Prelude.{◌≡◌, ◌≢◌, IfOk, OnOk, IfSome, IfNone};
ghost use Rattle.sql_wire.specs.declared.bodies.CallBody.{CallBody as Call};
ghost use Rattle.sql_wire.specs.declared.bodies.RoundBody.{RoundBody as Round};
ghost use Rattle.sql_wire.specs.ExactValues.{call_exact, statement_exact};
ghost use Rattle.sql_wire.specs.Bodies.{call_bytes, statement_bytes, round_bytes};
ghost use Rattle.sql_wire.specs.Reading.{call_at, statement_at};
ghost use Rattle.sql_wire.specs.Spelled.{CallFits, StatementFits, RoundFits, CanSpellRow, CanSpellRound};

use crate::values::RowForm;
use byte_codec::{Form, Unread, read_u16, read_whole, spell};
use sql_plan::Row;
use std::alloc::{AllocError, Global};
use volt_base::Bytes;

/// A call: the number of a procedure, from 0 on, and its arguments.
#[derive(Debug, Drop)]
pub struct CallBody {
    pub procedure: u16,
    pub args: Row,
}

/// A statement of a procedure, from 0 on, and what it takes from the program, from left to right.
#[derive(Debug, Drop)]
pub struct StatementBody {
    pub procedure: u16,
    pub statement: u16,
    pub args: Row,
}

/// What each partition is to run in a round of a call on all partitions.
#[derive(Debug, Drop)]
pub enum RoundBody {
    /// No statement.
    Nothing,
    Statement(StatementBody),
}

/// A call.
struct CallForm;

impl Form for CallForm {
    type Of = CallBody;

    ghost spelling = { call_bytes };

    ghost Fits = { CallFits };

    ghost CanSpell = { λ call. CanSpellRow call.args };

    ghost read_at = { call_at };

    ghost exact = { call_exact };

    fn put(out: &mut Vec<u8>, x: &CallBody) -> Result<(), AllocError> {
        out.extend_from_slice(&x.procedure.to_be_bytes())?;
        RowForm::put(out, &x.args)
    }

    #[tactic(auto, unfolding(crate::specs::Reading::call_at))]
    fn read(alloc: Global, bytes: &[u8]) -> Result<(CallBody, &[u8]), Unread> {
        let (procedure, rest) = read_u16(bytes)?;
        let (args, rest) = RowForm::read(alloc, rest)?;
        Ok((CallBody { procedure, args }, rest))
    }
}

/// A statement.
struct StatementForm;

impl Form for StatementForm {
    type Of = StatementBody;

    ghost spelling = { statement_bytes };

    ghost Fits = { StatementFits };

    ghost CanSpell = { λ s. CanSpellRow s.args };

    ghost read_at = { statement_at };

    ghost exact = { statement_exact };

    fn put(out: &mut Vec<u8>, x: &StatementBody) -> Result<(), AllocError> {
        out.extend_from_slice(&x.procedure.to_be_bytes())?;
        out.extend_from_slice(&x.statement.to_be_bytes())?;
        RowForm::put(out, &x.args)
    }

    #[tactic(auto, unfolding(crate::specs::Reading::statement_at))]
    fn read(alloc: Global, bytes: &[u8]) -> Result<(StatementBody, &[u8]), Unread> {
        let (procedure, rest) = read_u16(bytes)?;
        let (statement, rest) = read_u16(rest)?;
        let (args, rest) = RowForm::read(alloc, rest)?;
        Ok((
            StatementBody {
                procedure,
                statement,
                args,
            },
            rest,
        ))
    }
}

/// The body of a call. It has 255 arguments at most, and each is a value.
pub fn spell_call(alloc: Global, call: &CallBody) -> Result<Bytes, AllocError>
    requires { CanSpellRow call.now.args }
    ensures spelled { IfOk result (λ bytes. bytes ≡ call_bytes call.now) }
    ensures fits { OnOk result (CallFits call.now) }
{
    spell::<CallForm>(alloc, call)
}

/// The call whose body these bytes are. `None` exactly where they are no call's.
pub fn read_call(alloc: Global, bytes: &[u8]) -> Result<Option<CallBody>, AllocError>
    ensures found { IfOk result (λ read. IfSome read (λ call. (bytes.now ≡ call_bytes call) × CallFits call)) }
    ensures none { IfOk result (λ read. IfNone read ((call : Call) → CallFits call → bytes.now ≢ call_bytes call)) }
{
    read_whole::<CallForm>(alloc, bytes)
}

/// The body of a round. A statement has 255 arguments at most, and each is a value.
pub fn spell_round(alloc: Global, round: &RoundBody) -> Result<Bytes, AllocError>
    requires { CanSpellRound round.now }
    ensures spelled { IfOk result (λ bytes. bytes ≡ round_bytes round.now) }
    ensures fits { OnOk result (RoundFits round.now) }
{
    match round {
        RoundBody::Nothing => Ok(Bytes::from_vec(Vec::new(alloc))),
        RoundBody::Statement(statement) => spell::<StatementForm>(alloc, statement),
    }
}

/// The round whose body these bytes are. `None` exactly where they are no round's.
pub fn read_round(alloc: Global, bytes: &[u8]) -> Result<Option<RoundBody>, AllocError>
    ensures found { IfOk result (λ read. IfSome read (λ round. (bytes.now ≡ round_bytes round) × RoundFits round)) }
    ensures none { IfOk result (λ read. IfNone read ((round : Round) → RoundFits round → bytes.now ≢ round_bytes round)) }
{
    if bytes.is_empty() {
        return Ok(Some(RoundBody::Nothing));
    }
    Ok(read_whole::<StatementForm>(alloc, bytes)?.map(RoundBody::Statement))
}
