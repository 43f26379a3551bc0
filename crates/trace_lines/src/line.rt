//! What a line of a trace says.
use rams_model::Channel;

/// One line of a trace.
#[derive(Clone, Copy, PartialEq, Eq)]
pub enum Line<'a> {
    /// The version of the text, 1 or 2, the length of a tick in ms, and the bytes per tick of all
    /// channels together.
    Head {
        version: u8,
        tick_ms: u32,
        link: u64,
    },
    /// A channel's settings, and the version of the text that they are spelled in: 1 says nothing of
    /// what the channel keeps from tick to tick, which is nothing then.
    Channel {
        version: u8,
        channel: Channel,
    },
    /// A packet of this channel, in hexadecimal digits.
    Live {
        id: u16,
        hex: &'a [u8],
    },
    /// A feedback datagram from this client, in hexadecimal digits.
    Feedback {
        id: u16,
        client: u64,
        hex: &'a [u8],
    },
    Tick,
    End,
    /// The client gets a receiver with this SSRC.
    Tune {
        id: u16,
        client: u64,
        ssrc: u32,
    },
    /// The datagram with this number arrives.
    Give {
        number: u64,
    },
    /// Packet `n` of the multicast comes to the client.
    Mcast {
        id: u16,
        client: u64,
        n: u64,
    },
    /// The client's receiver asks for what it misses.
    Ask {
        id: u16,
        client: u64,
    },
    /// The client's receiver leaves.
    Drop {
        id: u16,
        client: u64,
    },
}
