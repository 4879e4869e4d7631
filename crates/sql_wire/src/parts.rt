//! What a partition made of a statement: its part.

ghost use Rattle.std.specs.Prelude.{◌≡◌, ◌++◌, OnOk};
ghost use Rattle.byte_codec.specs.Readers.{Gives};
ghost use Rattle.sql_wire.specs.ExactParts.{part_exact};
ghost use Rattle.sql_wire.specs.Parts.{limit_bytes, part_bytes};
ghost use Rattle.sql_wire.specs.Reading.{limit_at, part_at};
ghost use Rattle.sql_wire.specs.Spelled.{LimitFits, PartFits, CanSpellPart};

use crate::keyed::{GroupForm, KeyedForm};
use byte_codec::{Form, Unread, put_list, read_list, read_u64};
use sql_plan::Partial;
use sqlite_items::Items;
use std::alloc::{AllocError, Global};

/// Writes the value of LIMIT, where it is written.
fn put_limit(out: &mut Vec<u8>, limit: Option<u64>) -> Result<(), AllocError>
    ensures spelled { OnOk result (out.new.items ≡ out.old.items ++ limit_bytes limit) }
    ensures fits { LimitFits limit }
{
    match limit {
        None => out.extend_from_slice(&[0]),
        Some(n) => {
            out.push(1)?;
            out.extend_from_slice(&n.to_be_bytes())
        }
    }
}

/// Reads the value of LIMIT.
#[tactic(auto, unfolding(crate::specs::Reading::limit_at))]
fn read_limit(bytes: &[u8]) -> Result<(Option<u64>, &[u8]), Unread>
    ensures { Gives (λ x. (x.0, x.1.now)) result (limit_at bytes.now) }
{
    match bytes {
        [0, rest @ ..] => Ok((None, rest)),
        [1, rest @ ..] => {
            let (n, rest) = read_u64(rest)?;
            Ok((Some(n), rest))
        }
        _ => Err(Unread::NotSpelled),
    }
}

/// A part.
pub(crate) struct PartForm;

impl Form for PartForm {
    type Of = Partial;

    ghost spelling = { part_bytes };

    ghost Fits = { PartFits };

    ghost CanSpell = { CanSpellPart };

    ghost read_at = { part_at };

    ghost exact = { part_exact };

    fn put(out: &mut Vec<u8>, x: &Partial) -> Result<(), AllocError> {
        match x {
            Partial::Count(n) => {
                out.push(0)?;
                out.extend_from_slice(&n.to_be_bytes())
            }
            Partial::Rows { rows, limit } => {
                out.push(1)?;
                put_limit(out, *limit)?;
                put_list::<KeyedForm>(out, rows.as_slice())
            }
            Partial::Groups { groups, limit } => {
                out.push(2)?;
                put_limit(out, *limit)?;
                put_list::<GroupForm>(out, groups.as_slice())
            }
        }
    }

    #[tactic(auto, unfolding(crate::specs::Reading::part_at))]
    fn read(alloc: Global, bytes: &[u8]) -> Result<(Partial, &[u8]), Unread> {
        match bytes {
            [0, rest @ ..] => {
                let (n, rest) = read_u64(rest)?;
                Ok((Partial::Count(n), rest))
            }
            [1, rest @ ..] => {
                let (limit, rest) = read_limit(rest)?;
                let (rows, rest) = read_list::<KeyedForm>(alloc, rest)?;
                let rows = Items::from_vec(rows);
                Ok((Partial::Rows { rows, limit }, rest))
            }
            [2, rest @ ..] => {
                let (limit, rest) = read_limit(rest)?;
                let (groups, rest) = read_list::<GroupForm>(alloc, rest)?;
                let groups = Items::from_vec(groups);
                Ok((Partial::Groups { groups, limit }, rest))
            }
            _ => Err(Unread::NotSpelled),
        }
    }
}
