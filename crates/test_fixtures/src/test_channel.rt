//! A channel's settings, and words of packets.

ghost use Rattle.std.specs.Prelude.{◌≡◌, ◌++◌, flat_map, IfOk, replicate};
ghost use Rattle.std.specs.Int.{to_be_bytes, w32};

use channel_config::{Access, Channel};
use std::alloc::{AllocError, Global};

/// The media source of the channel.
pub const SOURCE: u32 = 0x1122_3344;

/// Settings of a channel.
pub const CHANNEL: Channel = Channel {
    id: 7,
    ssrc: SOURCE,
    pt: 33,
    rtx: 99,
    server: 0xaabb_ccdd,
    seq0: 500,
    ring: 64,
    window: 0,
    access: Access::Marker,
    share: 10000,
    reserve: 1500,
    burst: 4000,
    declared: 100,
    minwire: 42,
    limit: 100,
    idle: 100,
    clients: 4,
    depth: 0,
    swell: 0,
};

/// Words in network byte order, with so many zeros behind them.
pub fn bytes_of(alloc: Global, words: &[u32], zeros: usize) -> Result<Vec<u8>, AllocError>
    ensures { IfOk result (λ bytes. bytes.items ≡ flat_map (to_be_bytes w32) words.now ++ replicate zeros 0) }
{
    let mut bytes = Vec::new(alloc);
    for word in words {
        bytes.extend_from_slice(&word.to_be_bytes())?;
    }
    bytes.extend_from_slice(&vec![in alloc; 0u8; zeros]?)?;
    Ok(bytes)
}
