//! Laws of grammars: they hold of every rule.

ghost use Rattle.std.specs.Prelude.{◌≡◌, ◌≤◌, ◌-◌, ◌++◌, ◌∷◌, ℕ, List, Ok, Err, true, length, drop};
ghost use Rattle.sql_grammar.specs.Grammar.{Derives, G, Starts, Tok, ok, parse};
ghost use Rattle.sql_grammar.specs.Reading.{GoOn, IsRead, IsRefused, free};

/// A rule that stands for any.
pub trait AnyRule {
    /// What its texts give.
    ghost Value: { Type 0 };

    /// The rule.
    ghost rule: { G Value };
}

/// Where the check finds that one token ahead decides, reading with one token ahead is exact: it
/// takes the longest prefix that is a text, with the one tree that this has, and where the longest
/// prefix with which a text begins is none, it stops at the token behind that prefix.
pub fn one_token_decides<R: AnyRule>()
    ensures read { ok R.rule ≡ true → (ts : List Tok) (from : ℕ) → from ≤ length ts
        → (tree : R.Value) (rest : List Tok) → parse R.rule (drop from ts) ≡ Ok (tree, rest)
        → IsRead R.rule ts from tree (length ts - length rest) }
    ensures refused { ok R.rule ≡ true → (ts : List Tok) (from : ℕ) → from ≤ length ts
        → (rest : List Tok) → parse R.rule (drop from ts) ≡ Err rest
        → IsRefused R.rule ts from (length ts - length rest) }
{}

/// Tokens have one answer: one tree that ends at one place, or one place at which they are refused.
/// This holds of every rule, whether one token decides or not.
pub fn one_answer<R: AnyRule>()
    ensures next { (ts : List Tok) (from : ℕ) (x y : R.Value) (n m : ℕ)
        → IsRead R.rule ts from x n → IsRead R.rule ts from y m → n ≡ m }
    ensures tree { (ts : List Tok) (from : ℕ) (x y : R.Value) (n m : ℕ)
        → IsRead R.rule ts from x n → IsRead R.rule ts from y m → x ≡ y }
    ensures place { (ts : List Tok) (from n m : ℕ)
        → IsRefused R.rule ts from n → IsRefused R.rule ts from m → n ≡ m }
    ensures either { (ts : List Tok) (from : ℕ) (x : R.Value) (n m : ℕ)
        → IsRead R.rule ts from x n → IsRefused R.rule ts from m → ⊥ }
{}

/// What begins a text without being all of it starts the rule. Where nothing in the rule forbids a
/// token, no other tokens do: what starts it goes on to a text.
pub fn prefixes_start<R: AnyRule>()
    ensures prefixes { (ts more : List Tok) (t : Tok) (x : R.Value)
        → Derives R.rule (ts ++ t ∷ more) x → Starts R.rule ts }
    ensures goes_on { ok R.rule ≡ true → free R.rule ≡ true
        → (ts : List Tok) → Starts R.rule ts → GoOn R.rule ts }
{}
