//! How the rows of a table are packed.

ghost use Rattle.std.specs.Prelude.{◌≡◌, ◌<◌, ◌≤◌, None, Some, length, slice_get, IfOk, OnOk};
ghost use Rattle.std.specs.Option.{unwrap_or};
ghost use Rattle.volt_value.specs.declared.value.Value.TheVariants.{Null};
ghost use Rattle.row_codec.specs.Seen.{seen};
ghost use Rattle.row_codec.specs.Faults.{columns_fault};
ghost use Rattle.row_codec.specs.Packing.{row_width, packed, row_of, AreSound, AreOffsets, CanPack, IsTuple};

use crate::cell::{Cell, fault_of, width_of};
use crate::fault::RowFault;
use crate::field::Field;
use crate::{packing, reading};
use std::alloc::{AllocError, Global};
use std::marker::Model;
use volt_value::Value;

/// How the rows of a table are packed into tuples of a fixed width, seen as the list of its columns:
/// their values stand in order, each in as many bytes as its column's type takes.
#[derive(Debug, Drop)]
pub struct RowLayout {
    fields: Vec<Field>,
    // where each column begins
    offsets: Vec<u32>,
    width: u32,
}

impl Model for RowLayout {
    ghost use Rattle.std.specs.Prelude.{List};
    ghost use Rattle.row_codec.specs.declared.field.Field.{Field};
    ghost use Rattle.row_codec.specs.Packing.{IsLayout};

    ghost Value = { List Field };

    ghost view = { λ l. l.fields.items };

    ghost invariant = { λ l. IsLayout l.fields.items l.offsets.items l.width };
}

/// Where each column begins, and the width of all.
fn offsets_of(alloc: Global, fields: &[Field]) -> Result<(Vec<u32>, u32), AllocError>
    requires { row_width fields.now ≤ 8192 }
    ensures { IfOk result (λ r. AreOffsets fields.now r.0.items × (r.1 ≡ row_width fields.now)) }
{
    let mut offsets = Vec::with_capacity(alloc, fields.len())?;
    let mut end = 0;
    for column in 0..fields.len() {
        offsets.push(end)?;
        end += width_of(fields[column].kind);
    }
    Ok((offsets, end))
}

impl RowLayout {
    /// The layout of columns, of which there is at least one, and whose rows have at most 8,192 bytes.
    pub fn new(alloc: Global, fields: Vec<Field>) -> Result<RowLayout, AllocError>
        requires { CanPack fields.items }
        ensures { IfOk result (λ layout. layout ≡ fields.items) }
    {
        let (offsets, width) = offsets_of(alloc, fields.as_slice())?;
        Ok(RowLayout {
            fields,
            offsets,
            width,
        })
    }

    /// The columns.
    pub fn fields(&self) -> &[Field]
        ensures { result.now ≡ self.now }
    {
        self.fields.as_slice()
    }

    /// How many bytes a tuple has, 1 to 8,192.
    pub fn width(&self) -> u32
        ensures width { result ≡ row_width self.now }
        ensures limits { CanPack self.now }
    {
        self.width
    }

    /// The least fault of a row's values in their columns.
    pub fn fault(&self, row: &[Value]) -> Option<RowFault>
        requires { length row.now ≡ length self.now }
        ensures { result ≡ columns_fault self.now row.now }
    {
        let mut fault = None;
        for column in 0..row.len() {
            fault = RowFault::least(fault, fault_of(self.fields[column], &row[column]));
        }
        fault
    }

    /// Packs a row that has no fault into the place of other bytes.
    pub fn pack(&self, row: &[Value], into: &mut Vec<u8>) -> Result<(), AllocError>
        requires count { length row.now ≡ length self.now }
        requires fits { columns_fault self.now row.now ≡ None }
        ensures tuple { OnOk result (IsTuple self.now into.new.items) }
        ensures row { OnOk result (row_of self.now into.new.items ≡ row.now) }
    {
        into.clear();
        into.reserve(self.width as usize)?;
        for column in 0..row.len() {
            packing::put(into, self.fields[column].kind, &row[column])?;
        }
        Ok(())
    }

    /// The value of a column in a tuple, read where it stands.
    pub fn cell<'a>(&self, tuple: &'a [u8], column: u8) -> Cell<'a>
        requires column { column < length self.now }
        requires tuple { IsTuple self.now tuple.now }
        ensures { seen result ≡ unwrap_or (slice_get (row_of self.now tuple.now) column) Null }
    {
        self.read_at(tuple, column as usize)
    }

    fn read_at<'a>(&self, tuple: &'a [u8], column: usize) -> Cell<'a>
        requires column { column < length self.now }
        requires tuple { IsTuple self.now tuple.now }
        ensures { slice_get (row_of self.now tuple.now) column ≡ Some (seen result) }
    {
        let kind = self.fields[column].kind;
        let start = self.offsets[column] as usize;
        reading::read(kind, &tuple[start..start + width_of(kind) as usize])
    }

    /// The row of a tuple.
    pub fn unpack(&self, alloc: Global, tuple: &[u8]) -> Result<Vec<Value>, AllocError>
        requires { IsTuple self.now tuple.now }
        ensures { IfOk result (λ row. row.items ≡ row_of self.now tuple.now) }
    {
        let mut row = Vec::with_capacity(alloc, self.fields.len())?;
        for column in 0..self.fields.len() {
            row.push(self.read_at(tuple, column).to_value(alloc)?)?;
        }
        Ok(row)
    }
}
