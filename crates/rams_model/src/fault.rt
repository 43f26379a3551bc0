//! Why settings and lines are refused.

/// Why settings are refused.
#[derive(Clone, Copy, PartialEq, Eq)]
pub enum ConfigFault {
    /// A field or the tick is out of its range.
    Range,
    /// All are in range, and this is the first rule that is broken: 1, 2 or 3.
    Rule(u8),
}

/// Why a trace's line is refused.
#[derive(Clone, Copy, PartialEq, Eq)]
pub enum LineFault {
    /// The line is longer than 4,096 bytes, or no line of a trace.
    Form,
    /// A line of this kind may not come here.
    Order,
    /// A number is out of its range.
    Range,
    /// A channel line before had this number.
    Twice,
    /// The first rule that is broken, 1 to 5.
    Rule(u8),
}

/// Why bytes are no RTP packet (RFC 3550, 5.1).
#[derive(Clone, Copy, PartialEq, Eq)]
pub enum RtpFault {
    /// They are fewer than the 12 of the fixed header.
    Short,
    /// The version isn't 2.
    Version,
    /// They end inside the contributing sources.
    Csrc,
    /// They end inside the header extension.
    Extension,
    /// The count of padding bytes is 0, missing, or goes beyond the payload.
    Padding,
}

/// Why a datagram is no compound RTCP packet (RFC 3550, 6.1).
#[derive(Clone, Copy, PartialEq, Eq)]
pub enum FrameFault {
    /// It has no bytes.
    Empty,
    /// Fewer than four bytes are left for a packet.
    Short,
    /// A packet's version isn't 2.
    Version,
    /// A packet is longer than what is left.
    Length,
    /// The count of padding bytes is 0, no multiple of four, or goes beyond the packet's body.
    Padding,
    /// The body is too short for a packet of its kind.
    Body,
}

/// Why the feedback control information of a generic NACK isn't read (RFC 4585, 6.2.1).
#[derive(Clone, Copy, PartialEq, Eq)]
pub enum NackFault {
    /// It has no bytes.
    Empty,
    /// Its length is no multiple of four.
    Length,
}

/// Why the feedback control information of a RAMS message isn't read (RFC 6285, 7).
#[derive(Clone, Copy, PartialEq, Eq)]
pub enum TlvFault {
    /// It has fewer than four bytes, or is another message.
    Form,
    /// It ends inside a TLV.
    Short,
    /// The value of a TLV of this type has another length than the type's.
    Length(u8),
}
