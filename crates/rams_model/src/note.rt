//! What a channel notes of an event.
use crate::fault::{FrameFault, RtpFault};

/// What became of a live packet.
#[derive(Clone, Copy, PartialEq, Eq)]
pub enum LiveNote {
    /// It came in time, under this number.
    Took(u64),
    /// It came in time and begins a new start under this number (RFC 3550, A.1).
    Restart(u64),
    /// Its number is below the one that is waited for.
    Late,
    /// A packet of its number came in time before.
    Twice,
    /// Its number is too far from the ones before; the next in order begins a new start.
    Jump,
    /// It is of another media source.
    ForeignSsrc,
    /// It has another payload type.
    ForeignType,
    /// It has more than 1,470 bytes.
    TooBig,
    /// It is no RTP packet.
    Bad(RtpFault),
}

/// Why a burst ended.
#[derive(Clone, Copy, PartialEq, Eq)]
pub enum Cause {
    /// It has sent all up to the packet that the client named.
    Stopped,
    /// Its next packet is no longer held.
    Lost,
    /// It lasted as many ticks as a burst may.
    Limit,
    /// The client left.
    Bye,
}

/// One decision of a channel. `n` is a packet's extended number, `seq` a sequence number of the
/// client's retransmissions (RFC 4588).
#[derive(Clone, Copy, PartialEq, Eq)]
pub enum Note {
    Live(LiveNote),
    /// The client's RAMS-R begins a burst: its first packet, its bytes per tick, and after how many
    /// ticks the client may join the multicast.
    Accept {
        client: u64,
        first: u64,
        rate: u64,
        join: u64,
    },
    /// The client's RAMS-R changes the rate of its open burst.
    Update {
        client: u64,
        rate: u64,
        join: u64,
    },
    /// The client's RAMS-R asks for the burst that it has.
    Again {
        client: u64,
    },
    /// The client's RAMS-R or RAMS-T is refused with this response code.
    Refuse {
        client: u64,
        code: u16,
    },
    /// The client's RAMS-T stops its burst before packet `n`.
    StopAt {
        client: u64,
        n: u64,
    },
    /// The stop that was set before stays.
    StopKept {
        client: u64,
        n: u64,
    },
    /// The client has no open burst to stop.
    StopIdle {
        client: u64,
    },
    /// Packet `n` will be repaired.
    Queued {
        client: u64,
        n: u64,
    },
    /// A repair of packet `n` is pending already.
    Already {
        client: u64,
        n: u64,
    },
    /// No held packet has these low 16 bits.
    Unheld {
        client: u64,
        low: u16,
    },
    /// The client's burst will send packet `n`.
    Early {
        client: u64,
        n: u64,
    },
    /// No more clients can be known.
    TableFull {
        client: u64,
        n: u64,
    },
    /// No more repairs of the client can be pending.
    ClientFull {
        client: u64,
        n: u64,
    },
    /// No more repairs of the channel can be pending.
    QueueFull {
        client: u64,
        n: u64,
    },
    /// The NACK is about another media source.
    ForeignNack {
        client: u64,
    },
    /// The datagram is no compound RTCP packet.
    BadFeedback {
        client: u64,
        fault: FrameFault,
    },
    /// The client left.
    Bye {
        client: u64,
    },
    /// The BYE names no client that is known at this address.
    ByeIdle {
        client: u64,
    },
    /// Packet `n` of the burst is sent.
    Burst {
        client: u64,
        n: u64,
        seq: u16,
    },
    /// Packet `n` is sent again.
    Repair {
        client: u64,
        n: u64,
        seq: u16,
    },
    /// Packet `n`, whose repair was pending, is no longer held.
    Gone {
        client: u64,
        n: u64,
    },
    /// The burst ended.
    End {
        client: u64,
        cause: Cause,
    },
    /// The client was idle too long.
    Forgot {
        client: u64,
    },
}
