//! Rows with what they are put in order by, and groups with what was gathered of them.

ghost use Rattle.std.specs.Prelude.{◌≡◌, ◌++◌, OnOk};
ghost use Rattle.sql_wire.specs.ExactParts.{directed_exact, keyed_exact, gathered_exact, group_exact};
ghost use Rattle.sql_wire.specs.Parts.{directed_bytes, keyed_bytes, gathered_bytes, group_bytes};
ghost use Rattle.sql_wire.specs.Reading.{directed_at, keyed_at, gathered_at, group_at};
ghost use Rattle.sql_wire.specs.Spelled.{DirectedFits, CanSpellDirected, KeyedFits, CanSpellKeyed, GatheredFits, CanSpellGathered, GroupFits, CanSpellGroup};

use crate::values::ValueForm;
use byte_codec::{Form, Unread, put_i128, put_list, read_i128, read_list, read_u64};
use sql_plan::{Directed, Gathered, Group, KeyedRow, Row, RowKey};
use sqlite_items::Items;
use std::alloc::{AllocError, Global};

/// A value with its direction.
struct DirectedForm;

impl Form for DirectedForm {
    type Of = Directed;

    ghost spelling = { directed_bytes };

    ghost Fits = { DirectedFits };

    ghost CanSpell = { CanSpellDirected };

    ghost read_at = { directed_at };

    ghost exact = { directed_exact };

    fn put(out: &mut Vec<u8>, x: &Directed) -> Result<(), AllocError> {
        match x {
            Directed::Ascending(value) => {
                out.push(0)?;
                ValueForm::put(out, value)
            }
            Directed::Descending(value) => {
                out.push(1)?;
                ValueForm::put(out, value)
            }
        }
    }

    #[tactic(auto, unfolding(crate::specs::Reading::directed_at))]
    fn read(alloc: Global, bytes: &[u8]) -> Result<(Directed, &[u8]), Unread> {
        match bytes {
            [0, rest @ ..] => {
                let (value, rest) = ValueForm::read(alloc, rest)?;
                Ok((Directed::Ascending(value), rest))
            }
            [1, rest @ ..] => {
                let (value, rest) = ValueForm::read(alloc, rest)?;
                Ok((Directed::Descending(value), rest))
            }
            _ => Err(Unread::NotSpelled),
        }
    }
}

/// A row with what it is put in order by.
pub(crate) struct KeyedForm;

impl Form for KeyedForm {
    type Of = KeyedRow;

    ghost spelling = { keyed_bytes };

    ghost Fits = { KeyedFits };

    ghost CanSpell = { CanSpellKeyed };

    ghost read_at = { keyed_at };

    ghost exact = { keyed_exact };

    fn put(out: &mut Vec<u8>, x: &KeyedRow) -> Result<(), AllocError> {
        put_list::<DirectedForm>(out, x.key.as_slice())?;
        put_list::<ValueForm>(out, x.row.as_slice())
    }

    #[tactic(auto, unfolding(crate::specs::Reading::keyed_at))]
    fn read(alloc: Global, bytes: &[u8]) -> Result<(KeyedRow, &[u8]), Unread> {
        let (key, rest) = read_list::<DirectedForm>(alloc, bytes)?;
        let (row, rest) = read_list::<ValueForm>(alloc, rest)?;
        let key = RowKey::from_vec(key);
        let row = Row::from_vec(row);
        Ok((KeyedRow { key, row }, rest))
    }
}

/// What an aggregate gathered.
struct GatheredForm;

impl Form for GatheredForm {
    type Of = Gathered;

    ghost spelling = { gathered_bytes };

    ghost Fits = { GatheredFits };

    ghost CanSpell = { CanSpellGathered };

    ghost read_at = { gathered_at };

    ghost exact = { gathered_exact };

    fn put(out: &mut Vec<u8>, x: &Gathered) -> Result<(), AllocError> {
        match x {
            Gathered::Count(n) => {
                out.push(0)?;
                out.extend_from_slice(&n.to_be_bytes())
            }
            Gathered::Sum(None) => out.extend_from_slice(&[1]),
            Gathered::Sum(Some(sum)) => {
                out.push(2)?;
                put_i128(out, *sum)
            }
            Gathered::Min(value) => {
                out.push(3)?;
                ValueForm::put(out, value)
            }
            Gathered::Max(value) => {
                out.push(4)?;
                ValueForm::put(out, value)
            }
        }
    }

    #[tactic(auto, unfolding(crate::specs::Reading::gathered_at))]
    fn read(alloc: Global, bytes: &[u8]) -> Result<(Gathered, &[u8]), Unread> {
        match bytes {
            [0, rest @ ..] => {
                let (n, rest) = read_u64(rest)?;
                Ok((Gathered::Count(n), rest))
            }
            [1, rest @ ..] => Ok((Gathered::Sum(None), rest)),
            [2, rest @ ..] => {
                let (sum, rest) = read_i128(rest)?;
                Ok((Gathered::Sum(Some(sum)), rest))
            }
            [3, rest @ ..] => {
                let (value, rest) = ValueForm::read(alloc, rest)?;
                Ok((Gathered::Min(value), rest))
            }
            [4, rest @ ..] => {
                let (value, rest) = ValueForm::read(alloc, rest)?;
                Ok((Gathered::Max(value), rest))
            }
            _ => Err(Unread::NotSpelled),
        }
    }
}

/// A group.
pub(crate) struct GroupForm;

impl Form for GroupForm {
    type Of = Group;

    ghost spelling = { group_bytes };

    ghost Fits = { GroupFits };

    ghost CanSpell = { CanSpellGroup };

    ghost read_at = { group_at };

    ghost exact = { group_exact };

    fn put(out: &mut Vec<u8>, x: &Group) -> Result<(), AllocError> {
        put_list::<ValueForm>(out, x.key.as_slice())?;
        put_list::<GatheredForm>(out, x.gathered.as_slice())
    }

    #[tactic(auto, unfolding(crate::specs::Reading::group_at))]
    fn read(alloc: Global, bytes: &[u8]) -> Result<(Group, &[u8]), Unread> {
        let (key, rest) = read_list::<ValueForm>(alloc, bytes)?;
        let (gathered, rest) = read_list::<GatheredForm>(alloc, rest)?;
        let key = Row::from_vec(key);
        let gathered = Items::from_vec(gathered);
        Ok((Group { key, gathered }, rest))
    }
}
