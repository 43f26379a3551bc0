//! Going through the known clients.
ghost use Rattle.std.specs.Prelude.{◌≡◌, length};
ghost use Rattle.client_table.specs.Joined.{entry_at, joined};
ghost use Rattle.std.specs.Slice.Iter.{iter_rest};

use crate::entry::Entry;
use crate::stored::Stored;
use slab::Slab;
use std::collections::{btree_map, btree_set};
use std::slice;

/// The known clients by rising number, each with what is kept of it.
#[derive(Drop)]
pub struct KnownClients<'a> {
    pub(crate) index: btree_map::Iter<'a, u64, usize>,
    pub(crate) entries: &'a Slab<Stored>,
    pub(crate) tick: u32,
    ghost entries_of_all: { length (joined (entry_at tick entries.now.slots) index) ≡ length index },
}

impl<'a> Iterator for KnownClients<'a> {
    ghost use Rattle.std.specs.Iterator.{YieldsFirst, item_count};
    ghost use Rattle.client_table.specs.{clients_left};

    type Item = (u64, Entry);

    ghost next_gives = { YieldsFirst clients_left };

    ghost remaining = { item_count clients_left };

    fn next(&mut self) -> Option<(u64, Entry)> {
        let (client, key) = self.index.next()?;
        let stored = self.entries.get(*key)?;
        Some((*client, stored.entry(self.tick)))
    }
}

/// The clients with an open burst by rising number, each with what is kept of it.
#[derive(Drop)]
pub struct OpenBursts<'a> {
    pub(crate) left: slice::Iter<'a, (u64, usize)>,
    pub(crate) entries: &'a Slab<Stored>,
    pub(crate) tick: u32,
    ghost entries_of_all: { length (joined (entry_at tick entries.now.slots) (iter_rest left)) ≡ length (iter_rest left) },
}

impl<'a> Iterator for OpenBursts<'a> {
    ghost use Rattle.std.specs.Iterator.{YieldsFirst, item_count};
    ghost use Rattle.client_table.specs.{bursts_left};

    type Item = (u64, Entry);

    ghost next_gives = { YieldsFirst bursts_left };

    ghost remaining = { item_count bursts_left };

    fn next(&mut self) -> Option<(u64, Entry)> {
        let (client, key) = self.left.next()?;
        let stored = self.entries.get(*key)?;
        Some((*client, stored.entry(self.tick)))
    }
}

/// Known clients by rising number.
#[derive(Drop)]
pub struct DueClients<'a> {
    pub(crate) left: DueLeft<'a>,
}

/// Where they stand.
#[derive(Drop)]
pub(crate) enum DueLeft<'a> {
    /// In the index: all.
    All(btree_map::Iter<'a, u64, usize>),
    /// At one tick.
    At(btree_set::Range<'a, (u64, u64)>),
}

impl<'a> Iterator for DueClients<'a> {
    ghost use Rattle.std.specs.Iterator.{YieldsFirst, item_count};
    ghost use Rattle.client_table.specs.{due_left};

    type Item = u64;

    ghost next_gives = { YieldsFirst due_left };

    ghost remaining = { item_count due_left };

    fn next(&mut self) -> Option<u64> {
        match &mut self.left {
            DueLeft::All(left) => {
                let (client, _) = left.next()?;
                Some(*client)
            }
            DueLeft::At(left) => {
                let (_, client) = left.next()?;
                Some(*client)
            }
        }
    }
}
