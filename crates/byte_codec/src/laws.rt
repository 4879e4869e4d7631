//! That the readers of numbers and of bytes are exact.

ghost use Rattle.std.specs.Prelude.{◌<◌, ◌^◌, [], ◌∷◌, length};
ghost use Rattle.std.specs.Int.{w16, w32, w64, to_be_bytes};
ghost use Rattle.volt_base.specs.Reading.{number_at, body_at};
ghost use Rattle.volt_base.specs.Spelling.{body_bytes};
ghost use Rattle.byte_codec.specs.Exactness.{Exact, IsWide, wide_bytes};
ghost use Rattle.byte_codec.specs.Readers.{byte_at, wide_at};

/// Numbers of one, two, four and eight bytes, and numbers with a sign in 16 bytes.
pub fn numbers_are_exact()
    ensures one { Exact byte_at (λ n. n ∷ []) (λ n. n < 2 ^ 8) }
    ensures two { Exact (number_at w16) (to_be_bytes w16) (λ n. n < 2 ^ 16) }
    ensures four { Exact (number_at w32) (to_be_bytes w32) (λ n. n < 2 ^ 32) }
    ensures eight { Exact (number_at w64) (to_be_bytes w64) (λ n. n < 2 ^ 64) }
    ensures wide { Exact wide_at wide_bytes IsWide }
{}

/// Bytes behind their length in four bytes.
pub fn bodies_are_exact()
    ensures { Exact body_at body_bytes (λ body. length body < 2 ^ 32) }
{}
