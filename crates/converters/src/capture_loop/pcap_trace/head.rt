//! The head of a capture file.
ghost use Rattle.std.specs.Prelude.{◌≡◌, ◌≤◌, length};
ghost use Rattle.converters.specs.capture_loop.pcap_trace.{order_of, head_at};
ghost use Rattle.converters.specs.capture_loop.pcap_trace.Files.{head_in};

use crate::capture_loop::pcap_trace::numbers::{short_by, word_by};

/// Bytes of a file's head.
pub const HEAD_SIZE: usize = 24;

// The magic of a classic file of microseconds.
pub(crate) const MICROSECONDS: u32 = 0xa1b2c3d4;

// The link type of Ethernet.
pub(crate) const ETHERNET: u32 = 1;

/// The byte order of a file, in which its magic reads.
#[derive(Clone, Copy, PartialEq, Eq)]
pub enum Endian {
    Little,
    Big,
}

/// Why a capture file is refused.
#[derive(Clone, Copy, PartialEq, Eq)]
pub enum CaptureFault {
    /// The head has fewer than 24 bytes.
    Short,
    /// It isn't that of a classic file of microseconds, in either byte order.
    Magic,
    /// The version isn't 2.4.
    Version,
    /// The link type isn't that of Ethernet.
    Link,
    /// A record ends early.
    Cut,
    /// A record has more than 262,144 bytes.
    Long,
}

/// The byte order of a file that begins with these bytes, or the first fault of its head.
#[tactic(auto, unfolding(crate::specs::capture_loop::pcap_trace::Files::head_at))]
pub fn read_head(bytes: &[u8]) -> Result<Endian, CaptureFault>
    ensures { result ≡ head_at bytes.now }
{
    if bytes.len() < HEAD_SIZE {
        return Err(CaptureFault::Short);
    }
    match order_of(MICROSECONDS, bytes) {
        None => Err(CaptureFault::Magic),
        Some(e) => read_rest(e, bytes),
    }
}

// What is behind the magic.
fn read_rest(e: Endian, bytes: &[u8]) -> Result<Endian, CaptureFault>
    requires { 24 ≤ length bytes.now }
    ensures { result ≡ head_in bytes.now (Some e) }
{
    if !(short_by(e, 4, bytes) == 2 && short_by(e, 6, bytes) == 4) {
        return Err(CaptureFault::Version);
    }
    if word_by(e, 20, bytes) != ETHERNET {
        return Err(CaptureFault::Link);
    }
    Ok(e)
}

// The byte order in which the bytes begin with this number.
pub(crate) fn order_of(magic: u32, bytes: &[u8]) -> Option<Endian>
    requires { 4 ≤ length bytes.now }
    ensures { result ≡ order_of magic bytes.now }
{
    if word_by(Endian::Big, 0, bytes) == magic {
        Some(Endian::Big)
    } else if word_by(Endian::Little, 0, bytes) == magic {
        Some(Endian::Little)
    } else {
        None
    }
}
