//! Which joins of two partitioned tables each partition can make by itself.

ghost use Rattle.std.specs.Prelude.{◌≡◌, map};
ghost use Rattle.std.specs.List.{list_all};
ghost use Rattle.sql_check.specs.Distribution as spec;

use sql_parse::Comparison;
use sql_plan::{Cond, Scalar};

/// Whether the conjuncts so far tell that rows of different partitions don't join.
#[derive(Clone, Copy, Debug, PartialEq, Eq)]
pub enum Told {
    /// One is the equality of both partitioning columns.
    Yes,
    /// One has arithmetic.
    No,
    NotYet,
}

/// Whether an expression is without arithmetic.
fn is_plain(e: &Scalar) -> bool
    ensures { result ≡ spec.is_plain e.now }
{
    match e {
        Scalar::Negate(_) | Scalar::Chain { .. } => false,
        _ => true,
    }
}

fn are_plain(items: &[Scalar]) -> bool
    ensures { result ≡ list_all spec.is_plain items.now }
{
    items.iter().all(|item| is_plain(item))
}

fn is_column(e: &Scalar, number: usize) -> bool
    ensures { result ≡ spec.is_column number e.now }
{
    match e {
        Scalar::Column(n) => *n == number,
        _ => false,
    }
}

/// Whether this is the equality of two columns.
fn equates(comparison: Comparison, a: &Scalar, b: &Scalar, left: usize, right: usize) -> bool
    ensures { result ≡ spec.equates left right comparison a.now b.now }
{
    comparison == Comparison::Equal
        && ((is_column(a, left) && is_column(b, right))
            || (is_column(a, right) && is_column(b, left)))
}

/// Whether conditions are all without arithmetic.
#[cycle(plain)]
fn are_plain_conditions(conditions: &[Cond], left: usize, right: usize) -> bool
    ensures { result ≡ spec.all_plain (map (spec.part_of left right) conditions.now) }
{
    for condition in conditions {
        if !is_plain_condition(condition, left, right) {
            return false;
        }
    }
    true
}

/// Whether a condition is without arithmetic.
#[cycle(plain)]
fn is_plain_condition(condition: &Cond, left: usize, right: usize) -> bool
    ensures { result ≡ (spec.part_of left right condition.now).plain }
{
    match condition {
        Cond::Unknown => true,
        Cond::Compare(_, a, b) => is_plain(a) && is_plain(b),
        Cond::IsNull(value) => is_plain(value),
        Cond::Between { value, low, high } => is_plain(value) && is_plain(low) && is_plain(high),
        Cond::In { value, items } => is_plain(value) && are_plain(items.as_slice()),
        Cond::Not(condition) => is_plain_condition(condition.get(), left, right),
        Cond::And(conditions) | Cond::Or(conditions) => {
            are_plain_conditions(conditions.as_slice(), left, right)
        }
    }
}

/// What a conjunct tells behind others.
fn judged(so_far: Told, equal: bool, plain: bool) -> Told
    ensures { result ≡ spec.told equal plain so_far }
{
    match so_far {
        Told::NotYet => {
            if equal {
                Told::Yes
            } else if plain {
                Told::NotYet
            } else {
                Told::No
            }
        }
        _ => so_far,
    }
}

/// What the conjuncts of conditions tell behind others.
#[cycle(tells)]
fn all_tell(conditions: &[Cond], left: usize, right: usize, so_far: Told) -> Told
    ensures { result ≡ spec.all_tell (map (spec.part_of left right) conditions.now) so_far }
{
    let mut so_far = so_far;
    for condition in conditions {
        so_far = tells(condition, left, right, so_far);
    }
    so_far
}

/// What the conjuncts of a condition tell behind others.
#[cycle(tells)]
fn tells(condition: &Cond, left: usize, right: usize, so_far: Told) -> Told
    ensures { result ≡ (spec.part_of left right condition.now).tells so_far }
{
    match condition {
        Cond::And(conditions) => all_tell(conditions.as_slice(), left, right, so_far),
        Cond::Compare(comparison, a, b) => {
            let equal = equates(*comparison, a, b, left, right);
            judged(so_far, equal, is_plain(a) && is_plain(b))
        }
        _ => judged(so_far, false, is_plain_condition(condition, left, right)),
    }
}

/// Whether the conjuncts of ON followed by those of WHERE hold an equality of both columns that only
/// conjuncts without arithmetic precede.
pub(crate) fn tell_parts(left: usize, right: usize, on: &Cond, filter: &Cond) -> bool
    ensures { result ≡ spec.tell_parts left right on.now filter.now }
{
    tells(filter, left, right, tells(on, left, right, Told::NotYet)) == Told::Yes
}
