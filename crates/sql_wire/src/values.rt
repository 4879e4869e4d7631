//! Values, and rows of replies.

ghost use Rattle.std.specs.Prelude.{◌≡◌, ◌++◌, OnOk};
ghost use Rattle.volt_value.specs.Spelling.{value_bytes};
ghost use Rattle.volt_value.specs.Values.{HasSpelling, IsValue};
ghost use Rattle.sql_meaning.specs.Replies.{row_bytes};
ghost use Rattle.sql_wire.specs.ExactValues.{value_exact, row_exact};
ghost use Rattle.sql_wire.specs.Reading.{one_value_at, row_at};
ghost use Rattle.sql_wire.specs.Spelled.{RowFits, CanSpellRow};

use byte_codec::{Form, Unread, put_short_list, read_short_list};
use sql_plan::Row;
use std::alloc::{AllocError, Global};
use volt_value::{Value, decode, encode};

/// A value.
pub(crate) struct ValueForm;

impl Form for ValueForm {
    type Of = Value;

    ghost spelling = { value_bytes };

    ghost Fits = { IsValue };

    ghost CanSpell = { HasSpelling };

    ghost read_at = { one_value_at };

    ghost exact = { value_exact };

    fn put(out: &mut Vec<u8>, x: &Value) -> Result<(), AllocError> {
        encode(x, out)
    }

    #[tactic(auto, unfolding(crate::specs::Reading::one_value_at))]
    fn read(alloc: Global, bytes: &[u8]) -> Result<(Value, &[u8]), Unread> {
        match decode(alloc, bytes)? {
            Some((value, len)) => Ok((value, &bytes[len..])),
            None => Err(Unread::NotSpelled),
        }
    }
}

/// A row of a reply, or arguments: how many values there are, in one byte, and these.
pub(crate) struct RowForm;

impl Form for RowForm {
    type Of = Row;

    ghost spelling = { row_bytes };

    ghost Fits = { RowFits };

    ghost CanSpell = { CanSpellRow };

    ghost read_at = { row_at };

    ghost exact = { row_exact };

    fn put(out: &mut Vec<u8>, x: &Row) -> Result<(), AllocError> {
        put_short_list::<ValueForm>(out, x.as_slice())
    }

    #[tactic(auto, unfolding(crate::specs::Reading::row_at))]
    fn read(alloc: Global, bytes: &[u8]) -> Result<(Row, &[u8]), Unread> {
        let (values, rest) = read_short_list::<ValueForm>(alloc, bytes)?;
        Ok((Row::from_vec(values), rest))
    }
}
