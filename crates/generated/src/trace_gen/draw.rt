//! The generator of the draws.
ghost use Rattle.std.specs.Prelude.{◌≡◌, ◌/◌, ◌<◌, ◌^◌};
ghost use Rattle.generated.specs.trace_gen.Draws as draws;

const MULTIPLIER: u64 = 6_364_136_223_846_793_005;

const INCREMENT: u64 = 1_442_695_040_888_963_407;

/// The next state.
pub fn stepped(state: u64) -> u64
    ensures { result ≡ draws.stepped state }
{
    state.wrapping_mul(MULTIPLIER).wrapping_add(INCREMENT)
}

/// The draw of a state: its upper 31 bits.
pub fn drawn(state: u64) -> u64
    ensures value { result ≡ state / 2 ^ 33 }
    ensures small { result < 2 ^ 31 }
{
    state >> 33
}
