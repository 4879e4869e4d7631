//! That what was scanned is loaded.

ghost use Rattle.std.specs.Prelude.{◌≡◌, ℕ, ◌<◌, true, List, Some, length, flat_map};
ghost use Rattle.std.specs.List.{AllByRecursion};
ghost use Rattle.std.specs.List.Sorted.{IsPermutation};
ghost use Rattle.volt_value.specs.declared.value.Value.{Value};
ghost use Rattle.row_codec.specs.declared.field.Field.{Field};
ghost use Rattle.row_codec.specs.Packing.{CanPack};
ghost use Rattle.tuple_block.specs.Tuples.{Slots, Tuples};
ghost use Rattle.pane_index.specs.Blocks.{all_slots};
ghost use Rattle.table_rows.specs.Spread.{AreTuples};
ghost use Rattle.table_rows.specs.Table.{Table, no_rows, IsTable};
ghost use Rattle.table_rows.specs.Standing.{rows_in, IsScanOf};
ghost use Rattle.table_chunks.specs.Loading.{loaded, can_load, restored};
ghost use Rattle.table_chunks.specs.Chunks.{rows_of, chunk_bytes, chunks_of, CanSpell};
ghost use Rattle.table_chunks.specs.Reading.{chunk_at};

/// The rows of a table's scan, put in any order into a table without rows, are all taken, and give the
/// table that was scanned.
pub fn scans_are_loaded()
    ensures { (table : Table) (scan : List Tuples) (rows : List (List Value)) → IsTable table → IsScanOf table scan
        → IsPermutation (rows_in table.schema.fields scan) rows
        → (can_load (no_rows table.schema) rows ≡ true) × (loaded (no_rows table.schema) rows ≡ table) }
{}

/// The blocks of a scan have its rows, one block after another, and tuples of rows if the scan has. The
/// rows of a block of 64 places can be written as a chunk.
pub fn blocks_have_the_rows()
    ensures rows { (fields : List Field) (scan : List Tuples) → flat_map (λ block. rows_of fields block.slots) scan ≡ rows_in fields scan }
    ensures tuples { (fields : List Field) (scan : List Tuples) → AreTuples fields (all_slots scan)
        → AllByRecursion (λ block. AreTuples fields block.slots) scan }
    ensures spelled { (fields : List Field) (slots : Slots) → AreTuples fields slots → length fields < 256
        → CanPack fields → length slots ≡ 64 → CanSpell (rows_of fields slots) }
{}

/// A chunk that was written is read again.
pub fn chunks_are_read_again()
    ensures { (number : ℕ) (rows : List (List Value)) → number < 65536 → CanSpell rows
        → chunk_at (chunk_bytes number rows) ≡ Some (number, rows) }
{}

/// The chunks of a scan's blocks, each of 64 places, read and loaded one after another into a table
/// without rows, give the table that was scanned.
pub fn scans_are_restored()
    ensures { (number : ℕ) (table : Table) (scan : List Tuples) → number < 65536 → length table.schema.fields < 256
        → IsTable table → IsScanOf table scan → AllByRecursion (λ block. length block.slots ≡ 64) scan
        → restored number (no_rows table.schema) (chunks_of number table.schema.fields scan) ≡ Some table }
{}
