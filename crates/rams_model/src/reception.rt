//! A receiver, and what becomes of the datagrams that come to it.

/// What a receiver is tuned to, and as whom. The payload types are below 128.
#[derive(Clone, Copy, PartialEq, Eq)]
pub struct Tuned {
    /// An IPv4 address times 65536, plus a port.
    pub client: u64,
    /// The receiver's own SSRC.
    pub ssrc: u32,
    /// The media source (RFC 3550, 5.1).
    pub media: u32,
    /// Payload type of the media.
    pub pt: u8,
    /// Payload type of its retransmissions (RFC 4588, 4).
    pub rtx: u8,
}

/// What became of a retransmission or a multicast packet.
#[derive(Clone, Copy, PartialEq, Eq)]
pub enum MediaCame {
    /// It arrived: it was presented since, or waits.
    Took,
    /// Its number is below the one that is presented next.
    Behind,
    /// Its number is 16,384 or more above that one.
    Beyond,
    /// A packet of its number had arrived and waits.
    Twice,
    /// Presenting has no first number yet.
    BeforeFirst,
    /// It is of another media source, or has another payload type.
    Foreign,
    /// It is no RTP packet, or a retransmission without an original number.
    Bad,
}

/// What became of a datagram of feedback with a RAMS-I (RFC 6285, 7.3). Codes are response codes.
#[derive(Clone, Copy, PartialEq, Eq)]
pub enum InfoCame {
    /// It is the first that tells of a burst.
    Taken,
    /// It tells of the burst again.
    Repeated,
    /// It tells of another rate of the burst.
    Updated,
    /// The burst ended.
    Ended(u16),
    /// No burst was taken, or this code says something else.
    Refused(u16),
    /// It is about another media source.
    Foreign,
    /// No RAMS-I is read of it, or one of a burst without its first sequence number.
    Bad,
}
