//! The rows of a table by their places.

ghost use Rattle.std.specs.Prelude.{◌≡◌, Some, None, IsSome, MatchOption, IfOk, IfSome, OnOk, OnErr, length};
ghost use Rattle.std.specs.Int.{div_ceil};
ghost use Rattle.row_codec.specs.Packing.{row_of, IsTuple};
ghost use Rattle.table_rows.specs.Held.{row_at, with_row, without_row, with_moved, CanMove, ArePacked};
ghost use Rattle.table_rows.specs.Spread as spread;
ghost use Rattle.pane_index.specs.Blocks.{all_slots};
ghost use Rattle.table_rows.specs.Spread.{IsSpread, AreTuples, held_from};

use crate::row::Row;
use cow_scan::CowScan;
use pane_index::{Pane, Place};
use row_codec::RowLayout;
use std::alloc::{AllocError, Global};
use std::marker::Model;

/// Rows by their places in packed blocks. A row can be made ready at a free place and is among the rows
/// once it is accepted, which takes no memory.
#[derive(Drop)]
pub(crate) struct Slots {
    layout: RowLayout,
    pane: Pane,
    // a place whose tuple isn't a row of the table
    spare: Option<u32>,
}

impl Model for Slots {
    ghost use Rattle.table_rows.specs.Spread.{Spread, spread_of, IsStored};

    ghost Value = { Spread };

    ghost view = { λ s. spread_of s.layout s.pane s.spare };

    ghost invariant = { λ s. IsStored s.layout s.pane s.spare };
}

impl Slots {
    /// No rows.
    pub(crate) fn new(alloc: Global, layout: RowLayout) -> Slots
        ensures { result ≡ spread.nothing layout }
    {
        Slots {
            pane: Pane::new(alloc, layout.width()),
            layout,
            spare: None,
        }
    }

    /// How the rows are packed.
    pub(crate) fn layout(&self) -> &RowLayout
        ensures fields { result.now ≡ self.now.fields }
        ensures rules { IsSpread self.now }
    {
        &self.layout
    }

    /// What holds of the rows at any time. It does nothing.
    pub(crate) fn rules(&self)
        ensures { IsSpread self.now }
    {
        let _fields = self.layout();
    }

    /// The tuple of the row at a place.
    pub(crate) fn tuple(&self, place: u32) -> &[u8]
        requires { IsSome (row_at self.now.held place) }
        ensures row { row_at self.now.held place ≡ Some (row_of self.now.fields result.now) }
        ensures tuple { IsTuple self.now.fields result.now }
    {
        match self.pane.get(Place::new(place)) {
            Some(tuple) => tuple,
            None => unreachable!(),
        }
    }

    /// The row at a place.
    pub(crate) fn row(&self, place: u32) -> Row<'_>
        requires { IsSome (row_at self.now.held place) }
        ensures { row_at self.now.held place ≡ Some result }
    {
        Row {
            layout: &self.layout,
            tuple: self.tuple(place),
        }
    }

    /// Makes the row of a tuple ready at a free place. Out of memory, all is as before.
    pub(crate) fn ready(&mut self, tuple: &[u8]) -> Result<u32, AllocError>
        requires { IsTuple self.old.fields tuple.now }
        ensures ready { IfOk result (λ p. self.new ≡ record self.old { ready = Some (p, row_of self.old.fields tuple.now) }) }
        ensures kept { OnErr result (self.new ≡ self.old) }
    {
        match self.spare {
            Some(place) => {
                self.pane.put(Place::new(place), tuple)?;
                Ok(place)
            }
            None => {
                let place = self.pane.add(tuple)?.number();
                self.spare = Some(place);
                Ok(place)
            }
        }
    }

    /// Accepts the row that was made ready.
    pub(crate) fn accept(&mut self)
        ensures free { IfSome self.old.ready (λ e. row_at self.old.held e.0 ≡ None) }
        ensures accepted { IfSome self.old.ready (λ e. self.new ≡ record self.old { held = with_row self.old.held e.0 e.1; ready = None }) }
    {
        self.spare = None;
    }

    /// Puts a tuple in the place of the one that is there. Out of memory, all is as before.
    pub(crate) fn put(&mut self, place: u32, tuple: &[u8]) -> Result<(), AllocError>
        requires held { IsSome (row_at self.old.held place) }
        requires tuple { IsTuple self.old.fields tuple.now }
        ensures put { OnOk result (self.new ≡ record self.old { held = with_row self.old.held place (row_of self.old.fields tuple.now) }) }
        ensures kept { OnErr result (self.new ≡ self.old) }
    {
        self.pane.put(Place::new(place), tuple)?;
        Ok(())
    }

    /// Frees a place that has a row. Out of memory, all is as before.
    pub(crate) fn take(&mut self, place: u32) -> Result<(), AllocError>
        requires { IsSome (row_at self.old.held place) }
        ensures taken { OnOk result (self.new ≡ record self.old { held = without_row self.old.held place }) }
        ensures kept { OnErr result (self.new ≡ self.old) }
    {
        self.pane.take(Place::new(place))?;
        Ok(())
    }

    /// Frees the spare place. Out of memory, all is as before.
    pub(crate) fn free_spare(&mut self) -> Result<(), AllocError>
        ensures freed { OnOk result (self.new ≡ record self.old { ready = None }) }
        ensures kept { OnErr result (self.new ≡ self.old) }
    {
        let Some(place) = self.spare else {
            return Ok(());
        };
        self.pane.take(Place::new(place))?;
        self.spare = None;
        Ok(())
    }

    /// The place of the last row and the first free place, where that is before it. `None` comes exactly
    /// where the rows stand at the first places. It takes no memory.
    pub(crate) fn next_move(&mut self) -> Option<(u32, u32)>
        requires { self.old.ready ≡ None }
        ensures kept { self.new ≡ self.old }
        ensures found { MatchOption result (ArePacked self.old.held) (λ m. CanMove self.old.held m.0 m.1) }
    {
        let (from, to) = self.pane.next_move()?;
        Some((from.number(), to.number()))
    }

    /// Moves a row to a free place before it. Out of memory, all is as before.
    pub(crate) fn shift(&mut self, from: u32, to: u32) -> Result<(), AllocError>
        requires spare { self.old.ready ≡ None }
        requires can { CanMove self.old.held from to }
        ensures moved { OnOk result (self.new ≡ record self.old { held = with_moved self.old.held from to }) }
        ensures kept { OnErr result (self.new ≡ self.old) }
    {
        self.pane.shift(Place::new(from), Place::new(to))?;
        Ok(())
    }

    /// In how many blocks the rows stand, where they stand at the first places.
    pub(crate) fn blocks(&self) -> u32
        requires spare { self.now.ready ≡ None }
        requires packed { ArePacked self.now.held }
        ensures { result ≡ div_ceil (length self.now.held) 64 }
    {
        self.pane.blocks()
    }

    /// A scan whose blocks have the rows as they stand, at their places. The rows are the same after
    /// it, also where it runs out of memory.
    pub(crate) fn share(&mut self) -> Result<CowScan, AllocError>
        ensures scan { IfOk result (λ scan. held_from self.old.fields 0 (all_slots scan) ≡ self.old.held) }
        ensures tuples { IfOk result (λ scan. AreTuples self.old.fields (all_slots scan)) }
        ensures fields { self.new.fields ≡ self.old.fields }
        ensures held { self.new.held ≡ self.old.held }
    {
        self.free_spare()?;
        self.pane.share()
    }
}
