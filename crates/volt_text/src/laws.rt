//! Laws of what comes of a text.

ghost use Rattle.std.specs.Prelude.{◌≡◌, ℕ, List, All, length};
ghost use Rattle.volt_text.specs.declared.token.Token.{Token};
ghost use Rattle.volt_text.specs.Tokens.{AreSpans, IsSlice, Reading, Reads, Tokens};

/// One thing comes of each text, and no other: its tokens, or the place at which it can't be cut
/// further.
pub fn one_reading()
    ensures some { (text : List ℕ) → (reading : Reading) × Reads text reading }
    ensures only { (text : List ℕ) (a b : Reading) → Reads text a → Reads text b → a ≡ b }
{}

/// The tokens of a text stand in it one behind another, and the bytes of each are a word, a number,
/// a quoted text or a sign, as its kind says.
pub fn tokens_are_slices()
    ensures spans { (text : List ℕ) (tokens : List Token) → Reads text (Tokens tokens)
        → AreSpans 0 (length text) tokens }
    ensures slices { (text : List ℕ) (tokens : List Token) → Reads text (Tokens tokens)
        → All (IsSlice text) tokens }
{}
