//! Single bits of a word.

ghost use Rattle.std.specs.Prelude.{◌≡◌, ◌≢◌, ℕ, ◌<◌, ◌≤◌, ◌↔◌, IsTrue, MatchOption};
ghost use Rattle.std.specs.Int.{bit_at};
ghost use Rattle.tuple_block.specs.Bits.{IsFirstZero, IsNextOne, IsLastOne};

pub fn has_bit(word: u64, i: u8) -> bool
    requires { i < 64 }
    ensures { IsTrue result ↔ (bit_at word i ≡ 1) }
{
    word & (1 << i) != 0
}

pub fn with_bit(word: u64, i: u8) -> u64
    requires { i < 64 }
    ensures set { bit_at result i ≡ 1 }
    ensures others { (k : ℕ) → k ≢ i → bit_at result k ≡ bit_at word k }
{
    word | (1 << i)
}

pub fn without_bit(word: u64, i: u8) -> u64
    requires { i < 64 }
    ensures clear { bit_at result i ≡ 0 }
    ensures others { (k : ℕ) → k < 64 → k ≢ i → bit_at result k ≡ bit_at word k }
{
    word & !(1 << i)
}

/// The lowest bit that is 0.
pub fn first_zero(word: u64) -> Option<u8>
    ensures { MatchOption result ((k : ℕ) → k < 64 → bit_at word k ≡ 1) (IsFirstZero word) }
{
    if word == u64::MAX {
        None
    } else {
        Some(word.trailing_ones() as u8)
    }
}

/// The lowest bit from a place on that is 1.
pub fn next_one(word: u64, from: u8) -> Option<u8>
    requires { from < 64 }
    ensures { MatchOption result ((k : ℕ) → from ≤ k → k < 64 → bit_at word k ≡ 0) (IsNextOne word from) }
{
    let rest = word & (u64::MAX << from);
    if rest == 0 {
        None
    } else {
        Some(rest.trailing_zeros() as u8)
    }
}

/// The highest bit that is 1.
pub fn last_one(word: u64) -> Option<u8>
    ensures { MatchOption result ((k : ℕ) → k < 64 → bit_at word k ≡ 0) (IsLastOne word) }
{
    if word == 0 {
        None
    } else {
        Some(word.ilog2() as u8)
    }
}
