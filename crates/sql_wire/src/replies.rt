//! Replies to calls.

ghost use Rattle.std.specs.Prelude.{◌≡◌, ◌≢◌, ◌++◌, IfOk, OnOk, IfSome, IfNone};
ghost use Rattle.sql_plan.specs.declared.reply.ProcReply.{ProcReply as Reply};
ghost use Rattle.volt_value.specs.declared.value.Value.TheVariants as cell;
ghost use Rattle.volt_value.specs.Spelling.{value_bytes};
ghost use Rattle.volt_value.specs.Values.{HasSpelling, IsValue};
ghost use Rattle.sql_meaning.specs.Replies.{cause_bytes, reply_bytes};
ghost use Rattle.byte_codec.specs.Readers.{Gives};
ghost use Rattle.sql_wire.specs.ExactReplies.{reply_exact};
ghost use Rattle.sql_wire.specs.Reading.{text_at, fault_at, reply_at};
ghost use Rattle.sql_wire.specs.Spelled.{CauseFits, CanSpellCause, ReplyFits, CanSpellReply};

use crate::values::{RowForm, ValueForm};
use byte_codec::{Form, Unread, put_body, put_list, read_list, read_u8, read_whole, spell};
use sql_plan::{Cause, Fault, ProcReply, Rows};
use sqlite_items::Items;
use std::alloc::{AllocError, Global};
use volt_base::Bytes;
use volt_value::{Text, Value};

/// Reads a value that is a text.
#[tactic(auto, unfolding(crate::specs::Reading::text_at))]
fn read_text(alloc: Global, bytes: &[u8]) -> Result<(Text, &[u8]), Unread>
    ensures { Gives (λ x. (x.0, x.1.now)) result (text_at bytes.now) }
{
    let (value, rest) = ValueForm::read(alloc, bytes)?;
    match value {
        Value::Text(text) => Ok((text, rest)),
        _ => Err(Unread::NotSpelled),
    }
}

/// Reads the number of a fault.
#[tactic(auto, unfolding(crate::specs::Reading::fault_at))]
pub(crate) fn read_fault(bytes: &[u8]) -> Result<(Fault, &[u8]), Unread>
    ensures { Gives (λ x. (x.0, x.1.now)) result (fault_at bytes.now) }
{
    let (code, rest) = read_u8(bytes)?;
    match Fault::of_code(code) {
        Some(fault) => Ok((fault, rest)),
        None => Err(Unread::NotSpelled),
    }
}

/// Writes a text as a value.
#[tactic(auto, unfolding(volt_base::specs::Spelling::body_bytes))]
fn put_text(out: &mut Vec<u8>, text: &Text) -> Result<(), AllocError>
    requires { HasSpelling (cell.Text text.now) }
    ensures spelled { OnOk result (out.new.items ≡ out.old.items ++ value_bytes (cell.Text text.now)) }
    ensures fits { OnOk result (IsValue (cell.Text text.now)) }
{
    out.push(2)?;
    put_body(out, text.as_str().as_bytes())
}

/// Writes why a call was aborted.
fn put_cause(out: &mut Vec<u8>, cause: &Cause) -> Result<(), AllocError>
    requires { CanSpellCause cause.now }
    ensures spelled { OnOk result (out.new.items ≡ out.old.items ++ cause_bytes cause.now) }
    ensures fits { OnOk result (CauseFits cause.now) }
{
    match cause {
        Cause::User(text) => {
            out.push(1)?;
            put_text(out, text)
        }
        Cause::Fault(fault) => out.extend_from_slice(&[2, fault.code()]),
        Cause::Statements => out.extend_from_slice(&[3]),
        Cause::Steps => out.extend_from_slice(&[4]),
        Cause::Size => out.extend_from_slice(&[5]),
    }
}

/// A reply.
struct ReplyForm;

impl Form for ReplyForm {
    type Of = ProcReply;

    ghost spelling = { reply_bytes };

    ghost Fits = { ReplyFits };

    ghost CanSpell = { CanSpellReply };

    ghost read_at = { reply_at };

    ghost exact = { reply_exact };

    fn put(out: &mut Vec<u8>, x: &ProcReply) -> Result<(), AllocError> {
        match x {
            ProcReply::Ok(rows) => {
                out.push(0)?;
                put_list::<RowForm>(out, rows.rows.as_slice())
            }
            ProcReply::Abort(cause) => put_cause(out, cause),
        }
    }

    #[tactic(auto, unfolding(crate::specs::Reading::reply_at))]
    fn read(alloc: Global, bytes: &[u8]) -> Result<(ProcReply, &[u8]), Unread> {
        match bytes {
            [0, rest @ ..] => {
                let (rows, rest) = read_list::<RowForm>(alloc, rest)?;
                let rows = Items::from_vec(rows);
                Ok((ProcReply::Ok(Rows { rows }), rest))
            }
            [1, rest @ ..] => {
                let (text, rest) = read_text(alloc, rest)?;
                Ok((ProcReply::Abort(Cause::User(text)), rest))
            }
            [2, rest @ ..] => {
                let (fault, rest) = read_fault(rest)?;
                Ok((ProcReply::Abort(Cause::Fault(fault)), rest))
            }
            [3, rest @ ..] => Ok((ProcReply::Abort(Cause::Statements), rest)),
            [4, rest @ ..] => Ok((ProcReply::Abort(Cause::Steps), rest)),
            [5, rest @ ..] => Ok((ProcReply::Abort(Cause::Size), rest)),
            _ => Err(Unread::NotSpelled),
        }
    }
}

/// A reply as bytes. It has fewer than 2^32 rows, each of 255 values at most, and each is a value.
pub fn spell_reply(alloc: Global, reply: &ProcReply) -> Result<Bytes, AllocError>
    requires { CanSpellReply reply.now }
    ensures spelled { IfOk result (λ bytes. bytes ≡ reply_bytes reply.now) }
    ensures fits { OnOk result (ReplyFits reply.now) }
{
    spell::<ReplyForm>(alloc, reply)
}

/// The reply that these bytes are. `None` exactly where they are none.
pub fn read_reply(alloc: Global, bytes: &[u8]) -> Result<Option<ProcReply>, AllocError>
    ensures found { IfOk result (λ read. IfSome read (λ reply. (bytes.now ≡ reply_bytes reply) × ReplyFits reply)) }
    ensures none { IfOk result (λ read. IfNone read ((reply : Reply) → ReplyFits reply → bytes.now ≢ reply_bytes reply)) }
{
    read_whole::<ReplyForm>(alloc, bytes)
}
