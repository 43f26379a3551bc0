//! A journal, and how it is read.
ghost use Rattle.std.specs.Prelude.{◌≤◌};
ghost use Rattle.takeover.specs.standby.{HasReadSome};

use std::alloc::{AllocError, Global};
use takeover::standby::{FeedFault, Standby};

/// The head line and the line of a channel.
pub const HEAD: &str = "rams-trace 1 tick 10 link 100000
channel 7 ssrc 11223344 pt 33 rtx 99 server aabbccdd seq0 500 ring 64 window 0 access marker share 10000 reserve 1500 burst 4000 declared 100 minwire 42 limit 100 idle 100 clients 4
";

/// The same, a packet of the source (RTP 10 with the marker; timestamp 0; 4 bytes of 0), and a request for a burst
/// of it (RAMS-R).
pub const JOURNAL: &str = "rams-trace 1 tick 10 link 100000
channel 7 ssrc 11223344 pt 33 rtx 99 server aabbccdd seq0 500 ring 64 window 0 access marker share 10000 reserve 1500 burst 4000 declared 100 minwire 42 limit 100 idle 100 clients 4
live 7 80a1000a000000001122334400000000
fb 7 5 86cd00030000c0011122334401000000
";

/// One text behind another.
pub fn chained(alloc: Global, front: &str, text: &str) -> Result<Vec<u8>, AllocError> {
    let mut bytes = Vec::new(alloc);
    bytes.extend_from_slice(front.as_bytes())?;
    bytes.extend_from_slice(text.as_bytes())?;
    Ok(bytes)
}

/// Reads a text in pieces of at most so many bytes, up to `end`.
pub fn follow(
    alloc: Global,
    standby: &mut Standby,
    text: &[u8],
    size: usize,
) -> Result<(), FeedFault>
    requires size { 1 ≤ size }
    requires read { HasReadSome standby.old }
    ensures read { HasReadSome standby.new }
{
    let mut rest = text;
    for _ in 0..text.len() {
        if rest.is_empty() || standby.ended() {
            return Ok(());
        }
        let piece = &rest[..rest.len().min(size)];
        let count = standby.feed(alloc, piece)?;
        rest = &rest[count.min(rest.len())..];
    }
    Ok(())
}
