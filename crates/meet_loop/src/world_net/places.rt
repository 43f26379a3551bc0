//! Where the receivers of a world are.
ghost use Rattle.std.specs.Prelude.{◌≡◌, ◌&&◌, ◌==◌, ℕ, None, Some, OnOk, is_some, if◌then◌else◌};
ghost use Rattle.meet_loop.specs.world_net.{at_pair};

use ram_io::NoMemory;
use std::alloc::Global;
use std::collections::BTreeMap;
use std::marker::Model;

/// A client's receiver of a channel, and where it is.
#[derive(Clone, Copy)]
struct Near {
    id: u16,
    client: u64,
    place: usize,
}

/// Places by their channel's number and their client. What is delivered mostly goes to one receiver
/// several times, whose place needn't be looked up again.
#[derive(Drop)]
pub(crate) struct Places {
    places: BTreeMap<(u16, u64), usize>,
    near: Option<Near>,
}

impl Model for Places {
    ghost use Rattle.std.specs.Prelude.{◌≡◌, ℕ, List, Some, IfSome};
    ghost use Rattle.meet_loop.specs.world_net.Pairs.{at_pair};

    ghost Value = { List ((ℕ × ℕ) × ℕ) };

    ghost view = { λ p. p.places.entries };

    ghost invariant = { λ p. IfSome p.near (λ x. at_pair p.places.entries x.id x.client ≡ Some x.place) };
}

impl Places {
    /// No places. It takes no memory.
    pub(crate) fn new(alloc: Global) -> Places
        ensures { (id client : ℕ) → at_pair result id client ≡ None }
    {
        Places {
            places: BTreeMap::new(alloc),
            near: None,
        }
    }

    /// Whether a client has a place in a channel.
    pub(crate) fn contains(&self, id: u16, client: u64) -> bool
        ensures { result ≡ is_some (at_pair self.now id client) }
    {
        self.places.contains_key(&(id, client))
    }

    /// One more place, in place of the client's own.
    pub(crate) fn add(&mut self, id: u16, client: u64, place: usize) -> Result<(), NoMemory>
        ensures { OnOk result ((i m : ℕ) → at_pair self.new i m ≡ (if id == i && client == m then Some place else at_pair self.old i m)) }
    {
        self.near = None;
        self.places.insert((id, client), place)?;
        Ok(())
    }

    /// A client's place in a channel.
    pub(crate) fn find(&self, id: u16, client: u64) -> Option<usize>
        ensures { result ≡ at_pair self.now id client }
    {
        if let Some(near) = self.near
            && near.id == id
            && near.client == client
        {
            return Some(near.place);
        }
        let place = self.places.get(&(id, client))?;
        Some(*place)
    }

    /// Keeps a place that was found at hand.
    pub(crate) fn keep(&mut self, id: u16, client: u64, place: usize)
        requires { at_pair self.old id client ≡ Some place }
        ensures { self.new ≡ self.old }
    {
        self.near = Some(Near { id, client, place });
    }
}
