//! The client of a datagram, while its messages are answered.
ghost use Rattle.std.specs.Prelude.{◌≡◌, ◌&&◌, not, is_some};
ghost use Rattle.feedback_core.specs.{open_of, entry_under, is_sent_later, woken};

use channel_parts::is_before_stop;
use client_table::{Burst, Entry};
use reckoning::link_budget::Budget;

/// The client, and what the answers change of the channel beside the pending repairs.
#[derive(Drop)]
pub(crate) struct Visitor {
    pub client: u64,
    /// What is kept of it; none while it isn't known.
    pub entry: Option<Entry>,
    /// Whether the table has a place for it: fewer others are known than the channel may have.
    pub has_place: bool,
    /// The channel's budget.
    pub budget: Budget,
}

/// An open burst, with what is kept of its client.
#[derive(Clone, Copy)]
pub(crate) struct Open {
    pub entry: Entry,
    pub burst: Burst,
}

impl Visitor {
    /// The client of a datagram that frames: it is no longer idle.
    pub fn new(client: u64, entry: Option<Entry>, has_place: bool, budget: &Budget) -> Visitor
        ensures { result ≡ record { client = client; entry = woken entry; has_place = has_place; budget = budget.now } }
    {
        let entry = entry.map(|entry| Entry { idle: 0, ..entry });
        Visitor {
            client,
            entry,
            has_place,
            budget: *budget,
        }
    }

    /// The client's open burst.
    pub fn open(&self) -> Option<Open>
        ensures { result ≡ open_of self.now.entry }
    {
        let entry = self.entry?;
        let burst = entry.burst?;
        Some(Open { entry, burst })
    }

    /// What is kept of the client, which becomes known under this SSRC where it isn't, with this first
    /// sequence number of its retransmission stream (RFC 4588, 4).
    pub fn entry_under(&self, ssrc: u32, seq0: u16) -> Entry
        ensures { result ≡ entry_under self.now.entry ssrc seq0 }
    {
        match self.entry {
            Some(entry) => entry,
            None => Entry::new(ssrc, seq0),
        }
    }

    /// It is known from here on, under this SSRC where it wasn't.
    pub fn know(&mut self, ssrc: u32, seq0: u16)
        ensures { self.new ≡ record self.old { entry = Some (entry_under self.old.entry ssrc seq0) } }
    {
        if self.entry.is_none() {
            self.entry = Some(Entry::new(ssrc, seq0));
        }
    }

    /// Whether it isn't known and can't be.
    pub fn is_full(&self) -> bool
        ensures { result ≡ (not (is_some self.now.entry) && not self.now.has_place) }
    {
        self.entry.is_none() && !self.has_place
    }

    /// Whether its open burst will send packet `n`.
    pub fn is_early(&self, n: u64) -> bool
        ensures { result ≡ is_sent_later (open_of self.now.entry) n }
    {
        let Some(entry) = &self.entry else {
            return false;
        };
        let Some(burst) = &entry.burst else {
            return false;
        };
        burst.next <= n && is_before_stop(burst.stop, n)
    }
}
