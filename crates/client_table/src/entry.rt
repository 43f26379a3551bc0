//! What the server keeps of a client.
ghost use Rattle.std.specs.Prelude.{◌≡◌};
ghost use Rattle.client_table.specs.{new_entry};
ghost use Rattle.client_table.specs.declared.entry.AdmitFault.TheVariants as faults;

use rams_model::Info;
use std::alloc::{AllocError, AllocFailed};

/// An open burst (RFC 6285, 6.2): the packets that a client is sent ahead of the multicast.
#[derive(Clone, Copy, PartialEq, Eq)]
pub struct Burst {
    /// The extended sequence number of its first packet.
    pub first: u64,
    /// The extended sequence number of the packet that is sent next.
    pub next: u64,
    /// The extended sequence number before which it ends, where the client named one.
    pub stop: Option<u64>,
    /// Bytes that each tick gives it.
    pub rate: u64,
    /// The ticks since it was accepted.
    pub ticks: u32,
    /// Bytes that the last tick left for the next one.
    pub kept: u64,
    /// What its client was told by the last RAMS-I (RFC 6285, 7.3).
    pub last: Info,
}

/// What the server keeps of a client.
#[derive(Clone, Copy, PartialEq, Eq)]
pub struct Entry {
    /// The SSRC under which the client reports.
    pub ssrc: u32,
    /// The sequence number of the next packet of its retransmission stream (RFC 4588, 4).
    pub seq: u16,
    /// The ticks for which it has been idle; of one that is busy it says nothing.
    pub idle: u32,
    /// Its open burst.
    pub burst: Option<Burst>,
}

impl Entry {
    /// The entry of a client that just became known.
    pub fn new(ssrc: u32, seq0: u16) -> Entry
        ensures { result ≡ new_entry ssrc seq0 }
    {
        Entry {
            ssrc,
            seq: seq0,
            idle: 0,
            burst: None,
        }
    }
}

/// Why a client isn't admitted.
#[derive(Clone, Copy, PartialEq, Eq)]
pub enum AdmitFault {
    /// As many clients are known as the channel may have.
    Full,
    /// Memory ran out.
    NoMemory,
}

impl From<AllocError> for AdmitFault {
    ghost from_gives = { λ _ fault. fault ≡ faults.NoMemory };

    fn from(_e: AllocError) -> AdmitFault {
        AdmitFault::NoMemory
    }
}

impl<T: Drop> From<AllocFailed<T>> for AdmitFault {
    ghost from_gives = { λ _ fault. fault ≡ faults.NoMemory };

    fn from(_e: AllocFailed<T>) -> AdmitFault {
        AdmitFault::NoMemory
    }
}
