//! The UDP datagram in an Ethernet frame (RFC 791, 3.1; RFC 768).
ghost use Rattle.std.specs.Prelude.{◌≡◌, ◌+◌, ◌<◌, ◌≤◌, ◌^◌, None, Some, true, IfSome, MatchOption, length, option_map};
ghost use Rattle.converters.specs.capture_loop.pcap_trace.{packet_in, header_size, total_length, is_fragment, is_udp, udp_length, datagram_of, datagram_at, shown_udp};
ghost use Rattle.converters.specs.capture_loop.pcap_trace.Frames.{type_place, behind_type, has_datagram, datagram_in};

use crate::capture_loop::pcap_trace::numbers::{short_at, word_at};

// The type of a tag (IEEE 802.1Q).
const TAG: u16 = 0x8100;

// The type of IPv4.
const IPV4: u16 = 0x0800;

// The protocol of UDP.
const UDP: u8 = 17;

/// A UDP datagram that lies in a frame.
#[derive(Clone, Copy, PartialEq, Eq)]
pub struct Udp<'a> {
    /// The sender: its IPv4 address times 65,536, plus its port.
    pub from: u64,
    /// The port that it goes to.
    pub port: u16,
    pub payload: &'a [u8],
}

/// The datagram that a frame carries, where that is one of IPv4 and no fragment. Checksums aren't
/// looked at, nor what stands behind the packet.
#[tactic(auto, unfolding(crate::specs::capture_loop::pcap_trace::Frames::datagram_at))]
pub fn datagram(frame: &[u8]) -> Option<Udp<'_>>
    ensures exact { option_map shown_udp result ≡ datagram_at frame.now }
    ensures sender { IfSome result (λ u. u.from < 2 ^ 48) }
{
    datagram_in(packet_in(frame)?)
}

// The packet that a frame of IPv4 carries.
fn packet_in(frame: &[u8]) -> Option<&[u8]>
    ensures { MatchOption result (packet_in frame.now ≡ None) (λ packet. packet_in frame.now ≡ Some packet.now) }
{
    behind_type(type_place(frame), frame)
}

// Where a frame's type stands: behind two addresses, and at most one tag.
fn type_place(frame: &[u8]) -> usize
    ensures { result ≡ type_place frame.now }
{
    if frame.len() >= 14 && short_at(12, frame) == TAG {
        16
    } else {
        12
    }
}

// What stands behind the type at this place, where that is IPv4's.
fn behind_type(at: usize, frame: &[u8]) -> Option<&[u8]>
    requires { at ≤ 16 }
    ensures { MatchOption result (behind_type at frame.now ≡ None) (λ packet. behind_type at frame.now ≡ Some packet.now) }
{
    if frame.len() >= at + 2 && short_at(at, frame) == IPV4 {
        return Some(frame.split_at(at + 2).1);
    }
    None
}

// The bytes of a packet's header.
fn header_size(packet: &[u8]) -> usize
    requires { 1 ≤ length packet.now }
    ensures size { result ≡ header_size packet.now }
    ensures few { result ≤ 60 }
{
    4 * usize::from(packet[0] % 16)
}

// Whether a packet is a whole one with UDP behind its header.
fn is_udp(packet: &[u8]) -> bool
    ensures { result ≡ is_udp packet.now }
{
    packet.len() >= 20
        && packet[0] / 16 == 4
        && header_size(packet) >= 20
        && usize::from(short_at(2, packet)) <= packet.len()
        && packet[9] == UDP
        && !is_fragment(packet)
}

// Whether more fragments follow, or this is not the first.
fn is_fragment(packet: &[u8]) -> bool
    requires { 8 ≤ length packet.now }
    ensures { result ≡ is_fragment packet.now }
{
    short_at(6, packet) % 0x4000 != 0
}

// The bytes of the datagram, its header included.
fn udp_length(packet: &[u8]) -> usize
    requires { header_size packet.now + 8 ≤ length packet.now }
    ensures { result ≡ udp_length packet.now }
{
    usize::from(short_at(header_size(packet) + 4, packet))
}

// Whether the datagram has its bytes within the packet.
fn has_datagram(packet: &[u8]) -> bool
    requires { is_udp packet.now ≡ true }
    ensures { result ≡ has_datagram packet.now }
{
    let size = header_size(packet);
    let total = usize::from(short_at(2, packet));
    size + 8 <= total && udp_length(packet) >= 8 && size + udp_length(packet) <= total
}

// The datagram of a packet that has one.
fn datagram_of(packet: &[u8]) -> Udp<'_>
    requires udp { is_udp packet.now ≡ true }
    requires whole { has_datagram packet.now ≡ true }
    ensures datagram { shown_udp result ≡ datagram_of packet.now }
    ensures sender { result.from < 2 ^ 48 }
{
    let size = header_size(packet);
    let address = u64::from(word_at(12, packet));
    Udp {
        from: address * 65536 + u64::from(short_at(size, packet)),
        port: short_at(size + 2, packet),
        payload: &packet[size + 8..size + udp_length(packet)],
    }
}

// The datagram of a packet, where it has one.
fn datagram_in(packet: &[u8]) -> Option<Udp<'_>>
    ensures exact { option_map shown_udp result ≡ datagram_in packet.now }
    ensures sender { IfSome result (λ u. u.from < 2 ^ 48) }
{
    if is_udp(packet) && has_datagram(packet) {
        return Some(datagram_of(packet));
    }
    None
}
