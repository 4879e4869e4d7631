//! Truth values: true, false, or unknown.

ghost use Rattle.std.specs.Prelude.{◌≡◌};
ghost use Rattle.sql_meaning.specs.Values as spec;

/// NOT: of unknown it is unknown.
pub(crate) fn opposite(truth: Option<bool>) -> Option<bool>
    ensures { result ≡ spec.opposite truth }
{
    match truth {
        Some(true) => Some(false),
        Some(false) => Some(true),
        None => None,
    }
}

/// AND: false where one is false, true where both are true, and else unknown.
pub(crate) fn conjunction(left: Option<bool>, right: Option<bool>) -> Option<bool>
    ensures { result ≡ spec.conjunction left right }
{
    match (left, right) {
        (Some(false), _) | (_, Some(false)) => Some(false),
        (Some(true), Some(true)) => Some(true),
        _ => None,
    }
}

/// OR: true where one is true, false where both are false, and else unknown.
pub(crate) fn disjunction(left: Option<bool>, right: Option<bool>) -> Option<bool>
    ensures { result ≡ spec.disjunction left right }
{
    match (left, right) {
        (Some(true), _) | (_, Some(true)) => Some(true),
        (Some(false), Some(false)) => Some(false),
        _ => None,
    }
}

/// Of unknown it isn't.
pub(crate) fn is_true(truth: Option<bool>) -> bool
    ensures { result ≡ spec.is_true truth }
{
    match truth {
        Some(true) => true,
        _ => false,
    }
}

pub(crate) fn is_false(truth: Option<bool>) -> bool
    ensures { result ≡ spec.is_true (spec.opposite truth) }
{
    match truth {
        Some(false) => true,
        _ => false,
    }
}
