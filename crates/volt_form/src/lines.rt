//! Texts, cut at bytes and into lines.

ghost use Rattle.std.specs.Prelude.{◌≡◌, ◌<◌, ◌==◌, [], ◌∷◌, MatchOption, IfSome, IfNone, length, option_copied, position};
ghost use Rattle.std.specs.List.{position_or_len, before_first, after_first};
ghost use Rattle.volt_form.specs.Form.{after_prefix, lines_of};

/// The place of the first such byte of a text.
fn place_of(text: &[u8], byte: u8) -> Option<usize>
    ensures { result ≡ position (λ b. b == byte) text.now }
{
    text.iter().position(|found| *found == byte)
}

/// What stands before the first such byte of a text, and what stands after it.
pub fn cut_at(text: &[u8], byte: u8) -> Option<(&[u8], &[u8])>
    ensures { MatchOption result (position_or_len (λ b. b == byte) text.now ≡ length text.now)
        (λ parts. (position_or_len (λ b. b == byte) text.now < length text.now)
        × (parts.0.now ≡ before_first (λ b. b == byte) text.now)
        × (parts.1.now ≡ after_first (λ b. b == byte) text.now)) }
{
    let place = place_of(text, byte)?;
    let (before, after) = text.split_at(place);
    Some((before, &after[1..]))
}

/// What follows the prefix, where the text begins with it.
pub fn after<'a>(text: &'a [u8], prefix: &[u8]) -> Option<&'a [u8]>
    ensures { option_copied result ≡ after_prefix prefix.now text.now }
{
    text.strip_prefix(prefix)
}

/// The first line of a text that an LF ends, without it, and what follows it.
pub fn next_line(text: &[u8]) -> Option<(&[u8], &[u8])>
    ensures none { IfNone result (lines_of text.now ≡ record { ended = []; rest = text.now }) }
    ensures line { IfSome result (λ cut. lines_of text.now
        ≡ record { ended = cut.0.now ∷ (lines_of cut.1.now).ended; rest = (lines_of cut.1.now).rest }) }
    ensures shorter { IfSome result (λ cut. length cut.1.now < length text.now) }
{
    cut_at(text, b'\n')
}
