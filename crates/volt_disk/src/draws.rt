//! Draws: numbers that look random and follow from where they began.
ghost use Rattle.std.specs.Prelude.{◌≡◌};
ghost use Rattle.volt_disk.specs.Draws.{next_state, draw_of};

/// The state after `x`.
#[tactic(auto, unfolding(crate::specs::Draws::next_state))]
pub fn next(x: u64) -> u64
    ensures { result ≡ next_state x }
{
    x.wrapping_mul(6_364_136_223_846_793_005)
        .wrapping_add(1_442_695_040_888_963_407)
}

/// The draw that a state gives.
pub fn draw(x: u64) -> u64
    ensures { result ≡ draw_of x }
{
    x >> 33
}
