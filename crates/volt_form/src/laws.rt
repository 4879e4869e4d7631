//! Laws of the form.

ghost use Rattle.std.specs.Prelude.{◌++◌, ◌∷◌, ◌≢◌, [], flat_map, ◌≡◌, ◌≤◌, ℕ, List, IfSome, All, is_some, is_none, length};
ghost use Rattle.volt_form.specs.Form.{HasBigints, lines_of, most_calls, calls_of_text, first_wrong_line};

/// A text has a first wrong line exactly where it isn't of the form.
pub fn wrong_or_of_form()
    ensures { (text : List ℕ) → is_some (first_wrong_line text) ≡ is_none (calls_of_text text) }
{}

/// A text of the form has no more than 100,000 calls, and each number in them is from `-(2^63 - 1)`
/// to `2^63 - 1`.
pub fn calls_within_bounds()
    ensures few { (text : List ℕ) → IfSome (calls_of_text text) (λ calls. length calls ≤ most_calls) }
    ensures bigints { (text : List ℕ) → IfSome (calls_of_text text) (All HasBigints) }
{}

/// A text is its lines, each with an LF behind it, and then what follows the last LF; none of these
/// has an LF in it.
pub fn lines_make_the_text()
    ensures joined { (text : List ℕ)
        → flat_map (λ line. line ++ 10 ∷ []) (lines_of text).ended ++ (lines_of text).rest ≡ text }
    ensures ended { (text : List ℕ) → All (All (λ b. b ≢ 10)) (lines_of text).ended }
    ensures rest { (text : List ℕ) → All (λ b. b ≢ 10) (lines_of text).rest }
{}

#[cfg(test)]
mod tests {
    use super::*;

    #[test]
    fn laws_return() {
        wrong_or_of_form();
        calls_within_bounds();
        lines_make_the_text();
    }
}
