//! What is held of the packets that came.
ghost use Rattle.service_laws.specs.byte_laws.{EachPacketCame, EachHeldPacketCame};

/// Each packet of the source, and so each that is held, is a live packet that came: an RTP packet
/// (RFC 3550, 5.1) of at most 1,470 bytes with the channel's payload type and media source. Its number has
/// the sequence number, bytes 2 and 3, as low 16 bits, and is at least 65,536; its timestamp is bytes 4 to
/// 7; a burst may begin at it only where the marker is set, the top bit of byte 1, or a TS packet of it has
/// the random access flag, as the channel says; and what its retransmission takes on the wire is that
/// datagram's length and 28.
pub fn each_packet_came()
    ensures source { EachPacketCame }
    ensures held { EachHeldPacketCame }
{}
