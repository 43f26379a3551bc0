//! What a capture file is.
ghost use Rattle.std.specs.Prelude.{◌≡◌};
ghost use Rattle.converters.specs.capture_loop.pcap_trace.{kind_at};
ghost use Rattle.converters.specs.capture_loop.pcap_trace.Files.{linked_kind};

use crate::capture_loop::pcap_trace::head::{ETHERNET, HEAD_SIZE, MICROSECONDS, order_of};
use crate::capture_loop::pcap_trace::numbers::{word_at, word_by};

// The type of the block with which a pcapng file begins, which reads the same in both byte orders.
const SECTION_HEADER: u32 = 0x0a0d0d0a;

// The magic of a classic file of nanoseconds.
const NANOSECONDS: u32 = 0xa1b23c4d;

/// What a capture file is, by its first 24 bytes.
#[derive(Clone, Copy, PartialEq, Eq)]
pub enum FileKind {
    /// Classic, of microseconds, of Ethernet frames.
    Ethernet,
    /// Classic, of microseconds, of IP packets (link type 101).
    RawIp,
    /// Classic, of microseconds, of frames of Linux's device `any` (link type 113).
    LinuxCooked,
    /// The same in the second version (link type 276).
    LinuxCooked2,
    /// Classic, of microseconds, of another link type.
    OtherLink(u32),
    /// Classic, of nanoseconds.
    Nanoseconds,
    Pcapng,
    /// None of these.
    Unknown,
}

/// What a capture file is that begins with these bytes.
#[tactic(auto, unfolding(crate::specs::capture_loop::pcap_trace::Files::kind_at))]
pub fn file_kind(bytes: &[u8]) -> FileKind
    ensures { result ≡ kind_at bytes.now }
{
    if bytes.len() < HEAD_SIZE {
        return FileKind::Unknown;
    }
    if word_at(0, bytes) == SECTION_HEADER {
        return FileKind::Pcapng;
    }
    if order_of(NANOSECONDS, bytes).is_some() {
        return FileKind::Nanoseconds;
    }
    match order_of(MICROSECONDS, bytes) {
        None => FileKind::Unknown,
        Some(e) => linked(word_by(e, 20, bytes)),
    }
}

// What a classic file of microseconds has, by its link type.
fn linked(link: u32) -> FileKind
    ensures { result ≡ linked_kind link }
{
    match link {
        ETHERNET => FileKind::Ethernet,
        101 => FileKind::RawIp,
        113 => FileKind::LinuxCooked,
        276 => FileKind::LinuxCooked2,
        _ => FileKind::OtherLink(link),
    }
}
