//! What changes the rows of a table together with its indexes.

ghost use Rattle.std.specs.Prelude.{◌≡◌, ◌⊎◌, None, Some, Err, false, map, length, IsSome, IfSome, OnOk, OnErr, IfErr};
ghost use Rattle.std.specs.Option.{option_and_then};
ghost use Rattle.row_codec.specs.declared.fault.RowFault.{RowFault};
ghost use Rattle.row_codec.specs.Faults.{columns_fault};
ghost use Rattle.row_codec.specs.Packing.{row_of, IsTuple};
ghost use Rattle.table_rows.specs.Spread.{IsSpread};
ghost use Rattle.table_rows.specs.Held.{row_at, with_row, without_row};
ghost use Rattle.table_rows.specs.Order.{row_key};
ghost use Rattle.table_rows.specs.Table.{first_of, row_of_key, inserted, deleted, has_like, clashes, duplicate_if};
ghost use Rattle.table_rows.specs.Standing.{standing_table, keys_of, IsStanding, IsRowOfKey};

use crate::keyed;
use crate::keyed::KeyedIndex;
use crate::slots::Slots;
use row_codec::{RowFault, RowLayout};
use std::alloc::AllocError;
use volt_index::Key;
use volt_value::Value;

/// Packs a row into the place of other bytes. The first fault of its values is told.
pub(crate) fn pack(layout: &RowLayout, row: &[Value], into: &mut Vec<u8>) -> Result<(), RowFault>
    requires { length row.now ≡ length layout.now }
    ensures tuple { OnOk result (IsTuple layout.now into.new.items) }
    ensures row { OnOk result (row_of layout.now into.new.items ≡ row.now) }
    ensures fits { OnOk result (columns_fault layout.now row.now ≡ None) }
    ensures refused { IfErr result (λ fault.
        (fault ≡ RowFault.NoMemory) ⊎ (columns_fault layout.now row.now ≡ Some fault)) }
    ensures judged { (fault : RowFault) → columns_fault layout.now row.now ≡ Some fault → result ≡ Err fault }
{
    if let Some(fault) = layout.fault(row) {
        return Err(fault);
    }
    layout.pack(row, into)?;
    Ok(())
}

/// The place of the row whose primary key has a spelling.
pub(crate) fn place_of(slots: &Slots, indexes: &[KeyedIndex], key: &Key) -> Option<u32>
    requires { IsStanding slots.now indexes.now }
    ensures spread { IsSpread slots.now }
    ensures row { row_of_key (standing_table slots.now indexes.now) key.now ≡ option_and_then (row_at slots.now.held) result }
    ensures held { IfSome result (IsRowOfKey slots.now.held (first_of (keys_of indexes.now)) key.now) }
{
    slots.rules();
    keyed::first_place(indexes, key)
}

/// Puts the row of a tuple in. A refusal leaves the table as it was.
pub(crate) fn put_in(
    slots: &mut Slots,
    indexes: &mut [KeyedIndex],
    tuple: &[u8],
) -> Result<(), RowFault>
    requires standing { IsStanding slots.old indexes.old }
    requires tuple { IsTuple slots.old.fields tuple.now }
    ensures standing { IsStanding slots.new indexes.new }
    ensures inserted { OnOk result (standing_table slots.new indexes.new
        ≡ inserted (standing_table slots.old indexes.old) (row_of slots.old.fields tuple.now)) }
    ensures back { OnOk result (deleted (standing_table slots.new indexes.new)
        (row_key (first_of (keys_of indexes.old)) (row_of slots.old.fields tuple.now)) ≡ standing_table slots.old indexes.old) }
    ensures free { OnOk result (has_like (standing_table slots.old indexes.old) (row_of slots.old.fields tuple.now) ≡ false) }
    ensures refused { IfErr result (λ fault. (fault ≡ RowFault.NoMemory)
        ⊎ (duplicate_if (has_like (standing_table slots.old indexes.old) (row_of slots.old.fields tuple.now)) ≡ Some fault)) }
    ensures kept { OnErr result (standing_table slots.new indexes.new ≡ standing_table slots.old indexes.old) }
{
    keyed::come(indexes, slots.layout(), tuple)?;
    let place = slots.ready(tuple)?;
    keyed::enter(indexes, place)?;
    slots.accept();
    Ok(())
}

/// Takes the row at a place out. Out of memory, the table is as it was.
pub(crate) fn take_out(
    slots: &mut Slots,
    indexes: &mut [KeyedIndex],
    place: u32,
) -> Result<(), AllocError>
    requires standing { IsStanding slots.old indexes.old }
    requires held { IsSome (row_at slots.old.held place) }
    ensures standing { IsStanding slots.new indexes.new }
    ensures keys { keys_of indexes.new ≡ keys_of indexes.old }
    ensures taken { OnOk result (slots.new ≡ record slots.old { held = without_row slots.old.held place }) }
    ensures kept { OnErr result (slots.new ≡ slots.old) }
{
    keyed::go(indexes, slots.layout(), slots.tuple(place))?;
    slots.take(place)?;
    keyed::leave(indexes, place);
    Ok(())
}

/// Puts the row of a tuple in the place of the one that is there. A refusal leaves the table as it was.
pub(crate) fn put_over(
    slots: &mut Slots,
    indexes: &mut [KeyedIndex],
    place: u32,
    tuple: &[u8],
) -> Result<(), RowFault>
    requires standing { IsStanding slots.old indexes.old }
    requires held { IsSome (row_at slots.old.held place) }
    requires tuple { IsTuple slots.old.fields tuple.now }
    ensures standing { IsStanding slots.new indexes.new }
    ensures keys { keys_of indexes.new ≡ keys_of indexes.old }
    ensures put { OnOk result (slots.new ≡ record slots.old { held = with_row slots.old.held place (row_of slots.old.fields tuple.now) }) }
    ensures free { OnOk result (clashes (keys_of indexes.old) (row_of slots.old.fields tuple.now) (map (λ e. e.1) (without_row slots.old.held place)) ≡ false) }
    ensures refused { IfErr result (λ fault. (fault ≡ RowFault.NoMemory)
        ⊎ (duplicate_if (clashes (keys_of indexes.old) (row_of slots.old.fields tuple.now) (map (λ e. e.1) (without_row slots.old.held place))) ≡ Some fault)) }
    ensures kept { OnErr result (slots.new ≡ slots.old) }
{
    keyed::come(indexes, slots.layout(), tuple)?;
    keyed::go(indexes, slots.layout(), slots.tuple(place))?;
    keyed::compare(indexes);
    keyed::enter(indexes, place)?;
    match slots.put(place, tuple) {
        Ok(()) => {
            keyed::leave(indexes, place);
            Ok(())
        }
        Err(failed) => {
            keyed::back_out(indexes, place);
            Err(failed.into())
        }
    }
}
