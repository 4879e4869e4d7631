//! What an index's ordered map is sorted by.

ghost use Rattle.std.specs.Prelude.{◌≡◌, ◌≤◌, [], Some, refl, length, take, IfOk};
ghost use Rattle.std.specs.Int.{w64, to_be_bytes};
ghost use Rattle.std.specs.Cmp.{partial_order_from_total, partial_equiv_from_equiv};
ghost use Rattle.std.specs.Cmp.Lexicographic.{slice_cmp};
ghost use Rattle.std.specs.Ordering.{nat_cmp, eq_by_cmp};
ghost use Rattle.std.proofs.lemmas.Cmp.{eq_by_cmp_equiv};
ghost use Rattle.std.specs.Str.{bytes_eq};
ghost use Rattle.volt_index.specs.Entries.{entry_cmp, entry_total};

use std::alloc::{AllocError, Global};
use std::cmp::Ordering;
use std::marker::Model;

/// A key's bytes and a number that tells entries of one key apart, seen as this pair. Entries go by
/// their bytes, a prefix first, and then by their numbers.
#[derive(Debug, Drop)]
pub(crate) struct Entry {
    pub(crate) bytes: Vec<u8>,
    pub(crate) tie: u32,
}

impl Model for Entry {
    ghost use Rattle.std.specs.Prelude.{List, ℕ};

    ghost Value = { List ℕ × ℕ };

    ghost view = { λ e. (e.bytes.items, e.tie) };
}

impl Entry {
    /// No bytes.
    pub(crate) fn new(alloc: Global) -> Entry
        ensures { result ≡ ([], 0) }
    {
        Entry {
            bytes: Vec::new(alloc),
            tie: 0,
        }
    }

    /// Whether another entry has the same bytes.
    pub(crate) fn has_bytes_of(&self, other: &Entry) -> bool
        ensures { result ≡ bytes_eq other.now.0 self.now.0 }
    {
        other.bytes.as_slice() == self.bytes.as_slice()
    }

    /// A copy with another number.
    pub(crate) fn tied(&self, alloc: Global, tie: u32) -> Result<Entry, AllocError>
        ensures { IfOk result (λ copy. copy ≡ (self.now.0, tie)) }
    {
        Ok(Entry {
            bytes: Vec::from_slice(alloc, self.bytes.as_slice())?,
            tie,
        })
    }
}

/// The number whose bytes, high ones first, are the first eight of these.
fn first_word(bytes: &[u8]) -> u64
    requires { 8 ≤ length bytes.now }
    ensures { to_be_bytes w64 result ≡ take 8 bytes.now }
{
    u64::from_be_bytes([
        bytes[0], bytes[1], bytes[2], bytes[3], bytes[4], bytes[5], bytes[6], bytes[7],
    ])
}

// Eight bytes at a time, since most keys of a search differ in the first or the second eight.
// All at one lifetime, so that the borrow checker covers the calls.
fn compare_bytes<'a>(a: &'a [u8], b: &'a [u8]) -> Ordering
    ensures { result ≡ slice_cmp nat_cmp a.now b.now }
{
    if a.len() < 8 || b.len() < 8 {
        return a.cmp(b);
    }
    let order = first_word(a).cmp(&first_word(b));
    if order != Ordering::Equal {
        return order;
    }
    compare_bytes(&a[8..], &b[8..])
}

impl PartialEq for Entry {
    ghost eq = { eq_by_cmp entry_cmp };

    ghost laws = { partial_equiv_from_equiv (eq_by_cmp_equiv entry_total) };

    fn eq(&self, other: &Entry) -> bool {
        self.cmp(other) == Ordering::Equal
    }
}

impl Eq for Entry {
    ghost laws = { eq_by_cmp_equiv entry_total };
}

impl PartialOrd for Entry {
    ghost partial_cmp = { λ a b. Some (entry_cmp a b) };

    ghost laws = { partial_order_from_total entry_total };

    fn partial_cmp(&self, other: &Entry) -> Option<Ordering> {
        Some(self.cmp(other))
    }
}

impl Ord for Entry {
    ghost cmp = { entry_cmp };

    ghost total = { entry_total };

    ghost matches_partial_cmp = { λ a b. refl };

    ghost matches_eq = { λ a b. refl };

    fn cmp(&self, other: &Entry) -> Ordering {
        let order = compare_bytes(self.bytes.as_slice(), other.bytes.as_slice());
        order.then(self.tie.cmp(&other.tie))
    }
}
