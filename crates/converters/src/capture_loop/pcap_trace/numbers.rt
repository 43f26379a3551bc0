//! Numbers in bytes.
ghost use Rattle.std.specs.Prelude.{◌≡◌, ◌+◌, ◌≤◌, length};
ghost use Rattle.converters.specs.capture_loop.pcap_trace.{short_by, word_by, short_at, word_at};

use crate::capture_loop::pcap_trace::head::Endian;
use byteorder::{BigEndian, ByteOrder, LittleEndian};

/// The 16 bits at a place, in a file's byte order.
pub fn short_by(e: Endian, at: usize, bytes: &[u8]) -> u16
    requires { at + 2 ≤ length bytes.now }
    ensures { result ≡ short_by e at bytes.now }
{
    let (_, rest) = bytes.split_at(at);
    match e {
        Endian::Little => LittleEndian::read_u16(rest),
        Endian::Big => BigEndian::read_u16(rest),
    }
}

/// The 32 bits at a place, in a file's byte order.
pub fn word_by(e: Endian, at: usize, bytes: &[u8]) -> u32
    requires { at + 4 ≤ length bytes.now }
    ensures { result ≡ word_by e at bytes.now }
{
    let (_, rest) = bytes.split_at(at);
    match e {
        Endian::Little => LittleEndian::read_u32(rest),
        Endian::Big => BigEndian::read_u32(rest),
    }
}

/// The 16 bits at a place, in network byte order.
pub fn short_at(at: usize, bytes: &[u8]) -> u16
    requires { at + 2 ≤ length bytes.now }
    ensures { result ≡ short_at at bytes.now }
{
    short_by(Endian::Big, at, bytes)
}

/// The 32 bits at a place, in network byte order.
pub fn word_at(at: usize, bytes: &[u8]) -> u32
    requires { at + 4 ≤ length bytes.now }
    ensures { result ≡ word_at at bytes.now }
{
    word_by(Endian::Big, at, bytes)
}
