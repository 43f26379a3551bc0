//! The settings of one channel.

/// What lets a decoder start: the packet's marker, or the random access flag of a TS packet in it.
#[derive(Clone, Copy, PartialEq, Eq)]
pub enum Access {
    Marker,
    Ts,
}

/// A channel's settings, as its line in a trace gives them. Amounts are bytes per tick on the wire.
#[derive(Clone, Copy, PartialEq, Eq)]
pub struct Channel {
    /// The channel's number in traces and books.
    pub id: u16,
    /// The media source (RFC 3550, 5.1).
    pub ssrc: u32,
    /// Payload type of the media.
    pub pt: u8,
    /// Payload type of retransmissions (RFC 4588).
    pub rtx: u8,
    /// Sender of the server's RAMS-I messages (RFC 6285, 7.3).
    pub server: u32,
    /// First retransmission sequence number of each client.
    pub seq0: u16,
    /// Most packets held.
    pub ring: u32,
    /// Most places by which a packet may come late.
    pub window: u32,
    /// What an access point is.
    pub access: Access,
    /// What the channel may send.
    pub share: u64,
    /// What bursts leave for repairs.
    pub reserve: u64,
    /// The most that one client is sent.
    pub burst: u64,
    /// What the source declares to send.
    pub declared: u64,
    /// The least wire size that the source declares, in bytes a packet.
    pub minwire: u64,
    /// Most ticks of a burst.
    pub limit: u32,
    /// Ticks after which an idle client is forgotten.
    pub idle: u32,
    /// Most known clients.
    pub clients: u32,
    /// Most bytes that a burst keeps from tick to tick.
    pub depth: u64,
    /// Most bytes that the channel keeps from tick to tick.
    pub swell: u64,
}
