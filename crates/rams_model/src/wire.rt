//! Sizes of packets on the wire, in bytes.

/// The largest IPv4 datagram, with its headers.
pub const MOST_ON_WIRE: u32 = 1500;

// The headers of IPv4 (20, without options) and UDP (8).
const IP_UDP_HEADERS: u32 = 28;

/// What the retransmission of a packet has beside the packet: the headers of IPv4 and UDP, and two
/// bytes for the packet's own sequence number (RFC 4588, 4).
pub const RTX_OVERHEAD: u32 = IP_UDP_HEADERS + 2;

/// The largest RTP packet whose retransmission fits the wire.
pub const MOST_PACKET: u32 = MOST_ON_WIRE - RTX_OVERHEAD;
