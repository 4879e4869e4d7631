//! That what stands in a batch has one spelling.

ghost use Rattle.std.specs.Prelude.{◌≡◌, ℕ, List, Some};
ghost use Rattle.std.specs.List.{AllByRecursion};
ghost use Rattle.snapshot_io.specs.Chunks.{AreBytes};
ghost use Rattle.log_records.specs.declared.record.Record.{Record};
ghost use Rattle.log_records.specs.Records.{RecordFits, records_bytes, records_of};
ghost use Rattle.log_records.specs.Manifest.{Names, NamesFit, manifest_bytes, manifest_of};

/// Records that were written are read again, and bytes are read as records only where they are their
/// one spelling.
pub fn records_have_one_spelling()
    ensures again { (records : List Record) → AllByRecursion RecordFits records
        → records_of (records_bytes records) ≡ Some records }
    ensures one { (bytes : List ℕ) (records : List Record) → AreBytes bytes → records_of bytes ≡ Some records
        → (bytes ≡ records_bytes records) × AllByRecursion RecordFits records }
{}

/// So it is with manifests.
pub fn manifests_have_one_spelling()
    ensures again { (names : Names) → NamesFit names → manifest_of (manifest_bytes names) ≡ Some names }
    ensures one { (bytes : List ℕ) (names : Names) → AreBytes bytes → manifest_of bytes ≡ Some names
        → (bytes ≡ manifest_bytes names) × NamesFit names }
{}
