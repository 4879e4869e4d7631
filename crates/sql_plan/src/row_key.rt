//! What rows are put in order by.

ghost use Rattle.std.specs.Prelude.{◌≡◌, Some, refl};
ghost use Rattle.std.specs.Cmp.{IsTotalOrder, partial_order_from_total, partial_equiv_from_equiv};
ghost use Rattle.std.specs.Ordering.{eq_by_cmp};
ghost use Rattle.std.proofs.lemmas.Cmp.{eq_by_cmp_equiv};
ghost use Rattle.sql_plan.specs.Keys.{directed_cmp, directed_total, key_cmp, key_total};

use std::cmp::Ordering;
use std::marker::Model;
use volt_value::Value;

/// A value, and whether the least or the greatest comes first.
#[derive(Debug, Drop)]
pub enum Directed {
    Ascending(Value),
    /// Of two of these the greater value comes first.
    Descending(Value),
}

impl PartialEq for Directed {
    ghost eq = { eq_by_cmp directed_cmp };

    ghost laws = { partial_equiv_from_equiv (eq_by_cmp_equiv directed_total) };

    fn eq(&self, other: &Directed) -> bool {
        self.cmp(other) == Ordering::Equal
    }
}

impl Eq for Directed {
    ghost laws = { eq_by_cmp_equiv directed_total };
}

impl PartialOrd for Directed {
    ghost partial_cmp = { λ a b. Some (directed_cmp a b) };

    ghost laws = { partial_order_from_total directed_total };

    fn partial_cmp(&self, other: &Directed) -> Option<Ordering> {
        Some(self.cmp(other))
    }
}

impl Ord for Directed {
    ghost cmp = { directed_cmp };

    ghost total = { directed_total };

    ghost matches_partial_cmp = { λ a b. refl };

    ghost matches_eq = { λ a b. refl };

    fn cmp(&self, other: &Directed) -> Ordering {
        match (self, other) {
            (Directed::Ascending(a), Directed::Ascending(b)) => a.cmp(b),
            (Directed::Ascending(_), Directed::Descending(_)) => Ordering::Less,
            (Directed::Descending(_), Directed::Ascending(_)) => Ordering::Greater,
            (Directed::Descending(a), Directed::Descending(b)) => b.cmp(a),
        }
    }
}

/// What a row is put in order by, seen as the list of its values with their directions. The first
/// one decides, where two are equal the next one, and so on.
#[derive(Debug, Drop)]
pub struct RowKey {
    held: Vec<Directed>,
}

impl Model for RowKey {
    ghost use Rattle.std.specs.Prelude.{List};
    ghost use Rattle.sql_plan.specs.declared.row_key.Directed.{Directed};

    ghost Value = { List Directed };

    ghost view = { λ k. k.held.items };
}

impl RowKey {
    /// The key of a vector, which is not copied.
    pub fn from_vec(held: Vec<Directed>) -> RowKey
        ensures { result ≡ held.items }
    {
        RowKey { held }
    }

    /// The values with their directions, as a vector. They are not copied.
    pub fn into_vec(self) -> Vec<Directed>
        ensures { result.items ≡ self }
    {
        self.held
    }

    /// The values with their directions.
    pub fn as_slice(&self) -> &[Directed]
        ensures { result.now ≡ self.now }
    {
        self.held.as_slice()
    }
}

impl PartialEq for RowKey {
    ghost eq = { eq_by_cmp key_cmp };

    ghost laws = { partial_equiv_from_equiv (eq_by_cmp_equiv key_total) };

    fn eq(&self, other: &RowKey) -> bool {
        self.cmp(other) == Ordering::Equal
    }
}

impl Eq for RowKey {
    ghost laws = { eq_by_cmp_equiv key_total };
}

impl PartialOrd for RowKey {
    ghost partial_cmp = { λ a b. Some (key_cmp a b) };

    ghost laws = { partial_order_from_total key_total };

    fn partial_cmp(&self, other: &RowKey) -> Option<Ordering> {
        Some(self.cmp(other))
    }
}

impl Ord for RowKey {
    ghost cmp = { key_cmp };

    ghost total = { key_total };

    ghost matches_partial_cmp = { λ a b. refl };

    ghost matches_eq = { λ a b. refl };

    fn cmp(&self, other: &RowKey) -> Ordering {
        self.as_slice().cmp(other.as_slice())
    }
}
