//! What the table keeps of a client.
ghost use Rattle.std.specs.Prelude.{◌≡◌};
ghost use Rattle.client_table.specs.{shown};

use crate::entry::{Burst, Entry};

/// An entry as the table keeps it: in place of the idle count, which each tick would change, it has the
/// tick from which that counts.
#[derive(Clone, Copy, PartialEq, Eq)]
pub(crate) struct Stored {
    pub ssrc: u32,
    pub seq: u16,
    /// The table's tick, modulo 2^32, in which the idle count was 0.
    pub since: u32,
    /// The tick at which its client stands in `Due`.
    pub due: u64,
    pub burst: Option<Burst>,
}

impl Stored {
    /// An entry as it is stored in this tick, of a client that stands at `due`.
    pub(crate) fn new(entry: Entry, tick: u32, due: u64) -> Stored
        ensures entry { shown tick result ≡ entry }
        ensures due { result.due ≡ due }
    {
        Stored {
            ssrc: entry.ssrc,
            seq: entry.seq,
            since: tick.wrapping_sub(entry.idle),
            due,
            burst: entry.burst,
        }
    }

    /// The entry as it is in this tick.
    pub(crate) fn entry(&self, tick: u32) -> Entry
        ensures { result ≡ shown tick self.now }
    {
        Entry {
            ssrc: self.ssrc,
            seq: self.seq,
            idle: tick.wrapping_sub(self.since),
            burst: self.burst,
        }
    }
}
