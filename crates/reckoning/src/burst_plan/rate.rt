//! What a burst may be sent in a tick, and after how many ticks it has caught up.
ghost use Rattle.std.specs.Prelude.{◌≡◌, ◌+◌, ◌≤◌, ◌^◌};
ghost use Rattle.rams_model.specs.Service.{rate_of, join_ticks, bits_of};

use rams_model::MOST_ON_WIRE;

// Bits per second of one byte in a tick of one ms.
const BITS_BY_MS: u64 = 8000;

/// The rate of a burst, in bytes per tick: `burst`, the most that a client is sent, or the Max
/// Receive Bitrate `bps` of its request where that is less (RFC 6285, 7.2), which is in bits per
/// second. A tick has `tick_ms` ms.
pub fn rate_of(bps: Option<u64>, tick_ms: u32, burst: u64) -> u64
    ensures { result ≡ rate_of bps tick_ms burst }
{
    let Some(bps) = bps else {
        return burst;
    };
    let bytes = u128::from(bps) * u128::from(tick_ms) / u128::from(BITS_BY_MS);
    bytes.min(u128::from(burst)) as u64
}

/// After how many ticks a burst has caught up with the multicast (RFC 6285, 7.3, Earliest Multicast
/// Join Time). `behind` are the bytes from its first packet on; `declared` are the bytes that the
/// source adds in a tick at most, and `depth` are those that the burst may keep from tick to tick.
#[tactic(auto, using(crate::proofs::burst_plan::JoinTimes::ceiling_is))]
pub fn join_ticks(behind: u64, rate: u64, declared: u64, depth: u64) -> u64
    requires { declared + MOST_ON_WIRE ≤ rate }
    ensures { result ≡ join_ticks behind rate declared depth }
{
    let most_waste = u64::from(MOST_ON_WIRE) - 1;
    let waste = most_waste - depth.min(most_waste);
    behind.div_ceil(rate - waste - declared)
}

/// A rate of bytes per tick in bits per second, rounded down: the Max Transmit Bitrate of an answer
/// (RFC 6285, 7.3).
pub fn bits_of(rate: u64, tick_ms: u32) -> u64
    requires rate { rate ≤ 10 ^ 9 }
    requires tick { 1 ≤ tick_ms }
    ensures { result ≡ bits_of rate tick_ms }
{
    rate * BITS_BY_MS / u64::from(tick_ms)
}
