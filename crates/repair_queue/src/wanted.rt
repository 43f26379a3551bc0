//! A repair that a client waits for, and the answers to an ask.
use std::marker::Model;

/// Most repairs of a channel that are pending at once.
pub const MOST_PENDING: usize = 4096;

/// Most repairs of one client that are pending at once.
pub(crate) const MOST_OF_CLIENT: u32 = 256;

/// A repair that a client waits for.
#[derive(Clone, Copy, PartialEq, Eq)]
pub struct Wanted {
    /// The client: its IPv4 address times 65536, plus its port.
    pub client: u64,
    /// The extended sequence number of the packet.
    pub n: u64,
}

impl Model for Wanted {
    ghost use Rattle.rams_model.specs.Service.{Wanted as Repair, wanted};

    ghost Value = { Repair };

    ghost view = { λ w. wanted w.client w.n };

    ghost inverse = { λ r. record { client = r.client; n = r.n } };
}

/// The answer to an ask: the first of these that is true.
#[derive(Clone, Copy, PartialEq, Eq)]
pub enum Asked {
    /// None of the others: the repair is pending from here on.
    Queued,
    /// This repair is pending for this client already.
    Already,
    /// 256 repairs of this client are pending.
    ClientFull,
    /// 4,096 repairs of the channel are pending.
    QueueFull,
}
