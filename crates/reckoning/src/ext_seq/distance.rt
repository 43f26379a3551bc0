//! Distances of numbers that go around.
ghost use Rattle.std.specs.Prelude.{◌≡◌};
ghost use Rattle.rams_model.specs.Packets.{age_ms, ahead};

/// Sequence numbers have 16 bits (RFC 3550, 5.1).
pub const SEQUENCE_NUMBERS: u64 = 65536;

/// Timestamps of video count 90 to the ms (RFC 2250, 2).
pub const TICKS_PER_MS: u32 = 90;

/// How far `low` is ahead of a number, modulo 65,536.
pub fn ahead(low: u16, n: u64) -> u64
    ensures { result ≡ ahead low n }
{
    u64::from(low.wrapping_sub((n % SEQUENCE_NUMBERS) as u16))
}

/// How much older one timestamp is than another, in whole ms. Timestamps go around at 2^32
/// (RFC 3550, 5.1).
pub fn age_ms(newer: u32, older: u32) -> u32
    ensures { result ≡ age_ms newer older }
{
    newer.wrapping_sub(older) / TICKS_PER_MS
}
