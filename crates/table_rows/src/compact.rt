//! What moves the rows of a table to the first places.

ghost use Rattle.std.specs.Prelude.{◌≡◌, ◌<◌, None, Ok, true, false, OnOk};
ghost use Rattle.table_rows.specs.Held.{ArePacked, place_sum};
ghost use Rattle.table_rows.specs.Standing.{standing_table, IsStanding, StandFor};

use crate::keyed;
use crate::keyed::KeyedIndex;
use crate::slots::Slots;
use std::alloc::AllocError;

/// Moves the last row to the first free place before it, and answers whether there was one. The table
/// is the same after it, also where it runs out of memory.
fn move_last(slots: &mut Slots, indexes: &mut [KeyedIndex]) -> Result<bool, AllocError>
    requires standing { IsStanding slots.old indexes.old }
    requires spare { slots.old.ready ≡ None }
    ensures same { StandFor slots.new indexes.new (standing_table slots.old indexes.old) }
    ensures spare { slots.new.ready ≡ None }
    // A row then stands at an earlier place, so that a loop over it ends.
    ensures shrinks { result ≡ Ok true → place_sum slots.new.held < place_sum slots.old.held }
    ensures packed { result ≡ Ok false → ArePacked slots.new.held }
{
    let Some((from, to)) = slots.next_move() else {
        return Ok(false);
    };
    keyed::go(indexes, slots.layout(), slots.tuple(from))?;
    slots.shift(from, to)?;
    keyed::relocate(indexes, to);
    Ok(true)
}

/// Moves the rows to the first places. The table is the same after it, also where it runs out of
/// memory; then some rows may have moved.
pub(crate) fn compact(slots: &mut Slots, indexes: &mut [KeyedIndex]) -> Result<(), AllocError>
    requires { IsStanding slots.old indexes.old }
    ensures same { StandFor slots.new indexes.new (standing_table slots.old indexes.old) }
    ensures spare { OnOk result (slots.new.ready ≡ None) }
    ensures packed { OnOk result (ArePacked slots.new.held) }
{
    slots.free_spare()?;
    while move_last(slots, indexes)? {}
    Ok(())
}
