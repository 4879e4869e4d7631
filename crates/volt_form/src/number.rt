//! Numbers as a script writes them.

ghost use Rattle.std.specs.Prelude.{◌≡◌, ◌≤◌, IfSome};
ghost use Rattle.volt_value.specs.Values.{greatest};
ghost use Rattle.volt_form.specs.Form.{magnitude_of, number_of_word};

use crate::lines::after;

/// The greatest BIGINT.
const GREATEST: u64 = 9_223_372_036_854_775_807;

/// The number that digits write: one of them or more, where it is at most the greatest BIGINT.
fn read_magnitude(digits: &[u8]) -> Option<u64>
    ensures value { result ≡ magnitude_of digits.now }
    ensures small { IfSome result (λ n. n ≤ greatest) }
{
    if digits.is_empty() {
        return None;
    }
    let mut value: u64 = 0;
    for digit in digits {
        if !digit.is_ascii_digit() {
            return None;
        }
        value = value
            .checked_mul(10)?
            .checked_add(u64::from(*digit - b'0'))?;
    }
    if value <= GREATEST { Some(value) } else { None }
}

/// The number that a word writes: digits, with or without a minus sign directly before them.
#[tactic(auto, using(crate::proofs::Numbers::signs))]
pub fn read_number(word: &[u8]) -> Option<i64>
    ensures { result ≡ number_of_word word.now }
{
    match after(word, b"-") {
        Some(digits) => Some(-(read_magnitude(digits)? as i64)),
        None => Some(read_magnitude(word)? as i64),
    }
}
