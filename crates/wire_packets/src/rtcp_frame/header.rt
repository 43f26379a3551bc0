//! The header of the packet in front of some bytes, and the packet (RFC 3550, 6.1).
ghost use Rattle.std.specs.Prelude.{◌≡◌, ◌≤◌, drop, length};
ghost use Rattle.rams_model.specs.Formats.{framed_first, least_body, packet_fault, packet_size, rtcp_padding};
ghost use Rattle.wire_packets.specs.rtcp_frame.{shown_packet};

use crate::rtcp_frame::packet::Packet;
use byteorder::{BigEndian, ByteOrder};
use rams_model::{BYE, FrameFault, PSFB, RTPFB};

// The bytes that the packet in front says that it takes: its length counts words, less one.
fn size(bytes: &[u8]) -> usize
    requires { 4 ≤ length bytes.now }
    ensures { result ≡ packet_size bytes.now }
{
    4 * (usize::from(BigEndian::read_u16(&bytes[2..])) + 1)
}

// The padding bytes that its last byte counts, where the padding bit is set.
fn padding(bytes: &[u8]) -> usize
    requires header { 4 ≤ length bytes.now }
    requires within { packet_size bytes.now ≤ length bytes.now }
    ensures { result ≡ rtcp_padding bytes.now }
{
    if bytes[0] / 32 % 2 == 1 {
        usize::from(bytes[size(bytes) - 1])
    } else {
        0
    }
}

// The fewest bytes of a body: a BYE names its sources (RFC 3550, 6.6), feedback has two (RFC 4585,
// 6.1).
fn least_body(kind: u8, count: u8) -> usize
    ensures { result ≡ least_body kind count }
{
    match kind {
        BYE => 4 * usize::from(count),
        RTPFB | PSFB => 8,
        _ => 0,
    }
}

// What is wrong with the packet in front.
pub(crate) fn fault(bytes: &[u8]) -> Option<FrameFault>
    ensures { result ≡ packet_fault bytes.now }
{
    if bytes.len() < 4 {
        return Some(FrameFault::Short);
    }
    if bytes[0] / 64 != 2 {
        return Some(FrameFault::Version);
    }
    let size = size(bytes);
    if bytes.len() < size {
        return Some(FrameFault::Length);
    }
    let padding = padding(bytes);
    let is_padded = bytes[0] / 32 % 2 == 1;
    if is_padded && (padding == 0 || padding % 4 != 0 || padding > size - 4) {
        return Some(FrameFault::Padding);
    }
    if size - padding - 4 < least_body(bytes[1], bytes[0] % 32) {
        return Some(FrameFault::Body);
    }
    None
}

// The packet in front, in which nothing is wrong, and the bytes behind it.
pub(crate) fn cut(bytes: &[u8]) -> (Packet<'_>, &[u8])
    requires { packet_fault bytes.now ≡ None }
    ensures packet { shown_packet result.0 ≡ framed_first bytes.now }
    ensures rest { result.1.now ≡ drop (packet_size bytes.now) bytes.now }
{
    let size = size(bytes);
    let (_, rest) = bytes.split_at(size);
    let packet = Packet {
        kind: bytes[1],
        count: bytes[0] % 32,
        body: &bytes[4..size - padding(bytes)],
    };
    (packet, rest)
}
