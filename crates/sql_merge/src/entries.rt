//! Entries that are put in order by their keys.

ghost use Rattle.std.specs.Prelude.{◌≡◌, [], ◌∷◌, ◌++◌, List, Some, refl, IfOk, OnOk};
ghost use Rattle.std.specs.Cmp.{on_total, partial_order_from_total, partial_equiv_from_equiv};
ghost use Rattle.std.specs.Ordering.{eq_by_cmp, on};
ghost use Rattle.std.proofs.lemmas.Cmp.{eq_by_cmp_equiv};
ghost use Rattle.sql_meaning.specs.Maps.{put_all, latest as later};
ghost use Rattle.sql_merge.specs.Joined.{joined_from, joined_sorted};

use std::alloc::{AllocError, Global};
use std::cmp::Ordering;
use std::marker::Model;

/// A value with its key, seen as that pair. Entries are ordered by their keys alone.
#[derive(Drop)]
pub(crate) struct Entry<'a, K: Ord, V> {
    pub(crate) key: &'a K,
    pub(crate) value: &'a V,
}

impl<'a, K: Ord, V> Model for Entry<'a, K, V> {
    ghost use Rattle.std.specs.Coded.{coded×};

    ghost Value = { K × V };

    ghost coded = { coded× K.code V.code };

    ghost view = { λ e. (e.key.now, e.value.now) };
}

impl<'a, K: Ord, V> Entry<'a, K, V> {
    /// The same entry.
    fn same(&self) -> Entry<'a, K, V>
        ensures { result ≡ self.now }
    {
        Entry {
            key: self.key,
            value: self.value,
        }
    }

    /// The key of this entry with the value of another one.
    fn with_value_of(&self, other: &Entry<'a, K, V>) -> Entry<'a, K, V>
        ensures { result ≡ (self.now.0, other.now.1) }
    {
        Entry {
            key: self.key,
            value: other.value,
        }
    }
}

impl<'a, K: Ord, V> PartialEq for Entry<'a, K, V> {
    ghost eq = { eq_by_cmp (on (λ e. e.0) K.cmp) };

    ghost laws = { partial_equiv_from_equiv (eq_by_cmp_equiv (on_total (λ e. e.0) K.total)) };

    fn eq(&self, other: &Self) -> bool {
        self.cmp(other) == Ordering::Equal
    }
}

impl<'a, K: Ord, V> Eq for Entry<'a, K, V> {
    ghost laws = { eq_by_cmp_equiv (on_total (λ e. e.0) K.total) };
}

impl<'a, K: Ord, V> PartialOrd for Entry<'a, K, V> {
    ghost partial_cmp = { λ a b. Some (on (λ e. e.0) K.cmp a b) };

    ghost laws = { partial_order_from_total (on_total (λ e. e.0) K.total) };

    fn partial_cmp(&self, other: &Self) -> Option<Ordering> {
        Some(self.cmp(other))
    }
}

impl<'a, K: Ord, V> Ord for Entry<'a, K, V> {
    ghost cmp = { on (λ e. e.0) K.cmp };

    ghost total = { on_total (λ e. e.0) K.total };

    ghost matches_partial_cmp = { λ a b. refl };

    ghost matches_eq = { λ a b. refl };

    fn cmp(&self, other: &Self) -> Ordering {
        self.key.cmp(other.key)
    }
}

/// Entries in the order of their keys. Those with one key stay in the order in which they were, so that
/// they may be joined where they stand side by side.
pub(crate) fn in_order<'a, K: Ord, V>(
    entries: Vec<Entry<'a, K, V>>,
) -> Result<Vec<Entry<'a, K, V>>, AllocError>
    ensures { IfOk result (λ sorted. (join : V → V → V) → put_all K.cmp join [] entries.entry.items ≡ joined_sorted K.cmp join sorted.items) }
{
    let mut sorted = entries;
    sorted.sort()?;
    Ok(sorted)
}

/// The last entry of each key so far, and the one that comes, of which the next may have the key.
#[derive(Drop)]
struct Lasts<'a, K: Ord, V> {
    done: Vec<Entry<'a, K, V>>,
    last: Entry<'a, K, V>,
}

impl<'a, K: Ord, V> Lasts<'a, K, V> {
    /// Takes the next entry.
    fn add(&mut self, next: &Entry<'a, K, V>) -> Result<(), AllocError>
        ensures { OnOk result ((more : List (K × V)) → self.new.done.items ++ joined_from K.cmp later self.new.last more ≡ self.old.done.items ++ joined_from K.cmp later self.old.last (next.now ∷ more)) }
    {
        if next.key.cmp(self.last.key) == Ordering::Equal {
            self.last = self.last.with_value_of(next);
        } else {
            self.done.push(self.last.same())?;
            self.last = next.same();
        }
        Ok(())
    }
}

/// Of entries in order the last one of each key.
pub(crate) fn last_of_each<'a, K: Ord, V>(
    alloc: Global,
    sorted: &[Entry<'a, K, V>],
) -> Result<Vec<Entry<'a, K, V>>, AllocError>
    ensures { IfOk result (λ kept. kept.items ≡ joined_sorted K.cmp later sorted.now) }
{
    let Some((first, rest)) = sorted.split_first() else {
        return Ok(Vec::new(alloc));
    };
    let mut kept = Lasts {
        done: Vec::with_capacity(alloc, sorted.len())?,
        last: first.same(),
    };
    for next in rest {
        kept.add(next)?;
    }
    let Lasts { mut done, last } = kept;
    done.push(last)?;
    Ok(done)
}
