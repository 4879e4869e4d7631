//! That a base has one spelling, what format 1 hasn't, and that rows are chunks.

ghost use Rattle.std.specs.Prelude.{◌≡◌, ℕ, ◌<◌, List, [], ◌∷◌, ◌++◌, length, flat_map, Some};
ghost use Rattle.std.specs.Int.{w16, to_be_bytes};
ghost use Rattle.std.specs.List.{AllByRecursion};
ghost use Rattle.volt_value.specs.declared.value.Value.{Value};
ghost use Rattle.volt_value.specs.Values.{IsValue};
ghost use Rattle.volt_value.specs.Spelling.{value_bytes};
ghost use Rattle.snapshot_io.specs.Base.{Base, base_bytes, BaseFits, IfOfNoClient};
ghost use Rattle.snapshot_io.specs.Chunks.{AreBytes, behind_chunk};
ghost use Rattle.snapshot_io.specs.Reading.{format_at, base_of};

/// A base that was written is read again. Bytes of format 2 are read only where they are the one
/// spelling of the base.
pub fn one_spelling()
    ensures again { (base : Base) → BaseFits base → base_of (base_bytes base) ≡ Some base }
    ensures one { (bytes rest : List ℕ) (base : Base) → AreBytes bytes → format_at bytes ≡ Some (2, rest)
        → base_of bytes ≡ Some base → (bytes ≡ base_bytes base) × BaseFits base }
{}

/// A base of format 1 has no last replies, and the call of its last transaction is of no client.
pub fn old_bases_have_no_clients()
    ensures { (bytes rest : List ℕ) (base : Base) → format_at bytes ≡ Some (1, rest)
        → base_of bytes ≡ Some base → (base.head.replies ≡ []) × IfOfNoClient base.head.last }
{}

/// Rows of a table of a number below 65535 are a chunk: the number and how many they are, in two
/// bytes each, and of each row how many values it has, in one byte, and these.
pub fn rows_are_chunks()
    ensures { (number : ℕ) (rows : List (List Value)) → number < 65535 → length rows < 65536
        → AllByRecursion (λ row. (length row < 256) × AllByRecursion IsValue row) rows
        → behind_chunk (to_be_bytes w16 number ++ (to_be_bytes w16 (length rows)
        ++ flat_map (λ row. length row ∷ flat_map value_bytes row) rows)) ≡ Some [] }
{}
