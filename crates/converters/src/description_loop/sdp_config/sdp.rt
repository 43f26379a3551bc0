//! What a session description tells of a channel, and why it is refused.

/// The settings of a channel that its session description gives.
#[derive(Clone, Copy, PartialEq, Eq)]
pub struct Sdp {
    /// Payload type of the media.
    pub pt: u8,
    /// Payload type of retransmissions (RFC 4588).
    pub rtx: u8,
    /// The media source (RFC 3550, 5.1).
    pub ssrc: u32,
}

/// Why a session description is refused.
#[derive(Clone, Copy, PartialEq, Eq)]
pub enum SdpFault {
    /// The line of this number, from 1, isn't a letter, `=` and any bytes, or has more than 4,096 bytes.
    Form(u32),
    /// The first line isn't `v=0`, or there is none.
    Version,
    /// There are more than 1,000 lines.
    Long,
    /// Rapid acquisition is offered for no format.
    NoChannel,
    /// The channel's section names no media source.
    NoSsrc,
    /// No format is that of the channel's retransmissions.
    NoRtx,
    /// The format of the channel's retransmissions is its own.
    Same,
}
