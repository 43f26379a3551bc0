//! The table of the known clients.
use crate::bursts::{close_client, mark};
use crate::due::Due;
use crate::entry::{AdmitFault, Burst, Entry};
use crate::keys::Keys;
use crate::stored::Stored;
use crate::walk::{DueClients, DueLeft, KnownClients, OpenBursts};
use ram_io::NoMemory;
use slab::Slab;
use std::alloc::Global;
use std::collections::BTreeMap;
use std::marker::Model;

/// The known clients. The entries stand in a slab, and an index by rising client has each one's key;
/// a hash map has them too, another index has those with an open burst, and an ordered set has all by the
/// tick in which each can first have been idle for the limit. Idle counts aren't stored but told from the tick.
#[derive(Drop)]
pub struct Table {
    most: u32,
    /// The ticks so far, modulo 2^32.
    tick: u32,
    index: BTreeMap<u64, usize>,
    keys: Keys,
    due: Due,
    entries: Slab<Stored>,
    bursts: Vec<(u64, usize)>,
}

impl Model for Table {
    ghost use Rattle.std.specs.Prelude.{◌≡◌, ◌≤◌, ◌<◌, ◌^◌, length, filter, vec_capacity};
    ghost use Rattle.std.specs.Ordering.{nat_cmp};
    ghost use Rattle.client_table.specs.Clients.{Clients};

    ghost Value = { Clients };

    ghost use Rattle.std.specs.BTreeMap.{IsOrdered};
    ghost use Rattle.client_table.specs.Joined.{seen, entry_at, AreJoined, is_open_at};
    ghost use Rattle.client_table.specs.Hashed.{Tells};
    ghost use Rattle.client_table.specs.Timed.{times_at, AreInTime, AreLater};

    ghost view = { λ t. seen t.most (entry_at t.tick t.entries.slots) t.index.entries };

    ghost invariant = { λ t. record {
      rising : IsOrdered nat_cmp t.index;
      entries : AreJoined (entry_at t.tick t.entries.slots) t.index.entries;
      few : length t.index.entries ≤ t.most;
      small : t.most < 2 ^ 32;
      opened : t.bursts.items ≡ filter (is_open_at (entry_at t.tick t.entries.slots)) t.index.entries;
      room : t.most < vec_capacity t.bursts;
      told : Tells t.keys t.index;
      times : AreInTime t.due (times_at t.tick t.entries.slots) t.index.entries;
      later : AreLater t.due;
    } };
}

impl Table {
    ghost use Rattle.std.specs.Prelude.{◌≡◌, ◌≤◌, ◌↔◌, ◌+◌, ℕ, Some, None, Err, All, Contains, length, IfSome, IfOk, OnOk, OnErr, MatchOption};
    ghost use Rattle.std.specs.List.Sorted.{IsStrictlySortedBy};
    ghost use Rattle.std.specs.Ordering.{nat_cmp};
    ghost use Rattle.client_table.specs.Clients.{Clients, nobody, AreRising, entry_of, new_entry, with_client, with_entry, without, opened_of};
    ghost use Rattle.client_table.specs.Left.{clients_left, bursts_left, due_left};
    ghost use Rattle.client_table.specs.Changes.{AreAll, AreChanged, aged, awake, changed, IsBurstChanged};
    ghost use Rattle.client_table.specs.declared.{entry.Entry.Entry, entry.AdmitFault.TheVariants.Full};

    /// A table in which nobody is known, for at most so many clients. It takes the room of their entries.
    /// It looks out for those that have been idle for `idle` ticks.
    pub fn new(alloc: Global, clients: u32, idle: u32) -> Result<Table, NoMemory>
        ensures { IfOk result (λ table. table ≡ nobody clients) }
    {
        Ok(Table {
            most: clients,
            tick: 0,
            index: BTreeMap::new(alloc),
            keys: Keys::new(alloc, clients as usize)?,
            due: Due::new(alloc, idle),
            entries: Slab::with_capacity(alloc, clients as usize)?,
            bursts: Vec::with_capacity(alloc, clients as usize + 1)?,
        })
    }

    /// What is kept of a client; `None` exactly where it isn't known.
    pub fn find(&self, client: u64) -> Option<Entry>
        ensures { result ≡ entry_of self.now client }
    {
        let key = self.keys.find(&self.index, client)?;
        entry_in(&self.entries, self.tick, key)
    }

    /// Another entry for a client, where it is known; the others keep theirs. It takes memory only
    /// where it raises the idle count, and doesn't fail for want of it.
    pub fn set(&mut self, client: u64, entry: Entry)
        ensures { self.new ≡ with_entry self.old client entry }
    {
        self.change(client, |_| entry);
    }

    /// Changes what is kept of a client, where it is known; the others keep theirs. It takes memory
    /// only where it raises the idle count, and doesn't fail for want of it.
    pub fn change<F: Fn(Entry) -> Entry>(&mut self, client: u64, change: F)
        requires { IfSome (entry_of self.old client) (F.pre change) }
        ensures { MatchOption (entry_of self.old client) (self.new ≡ self.old) (λ e. (d : Entry) × F.post change e d × (self.new ≡ with_entry self.old client d)) }
    {
        let Some(key) = self.keys.find(&self.index, client) else {
            return;
        };
        let Some(stored) = stored_in(&self.entries, key) else {
            return;
        };
        let entry = stored.entry(self.tick);
        let changed = change(entry);
        let due = self.due.settle(client, stored.due, changed.idle);
        put(&mut self.entries, key, Stored::new(changed, self.tick, due));
        let was_open = entry.burst.is_some();
        let is_open = changed.burst.is_some();
        mark(&mut self.bursts, client, key, was_open, is_open);
    }

    /// A client is no longer idle, where it is known. It takes no memory.
    pub fn wake(&mut self, client: u64)
        ensures { self.new ≡ changed awake self.old client }
    {
        self.change(client, |entry| Entry { idle: 0, ..entry });
    }

    /// A client that isn't known becomes known, under this SSRC and with this first sequence number of its
    /// retransmission stream. `Full` exactly where as many are known as may be; after any error all is as
    /// before.
    pub fn admit(&mut self, client: u64, ssrc: u32, seq0: u16) -> Result<(), AdmitFault>
        requires unknown { entry_of self.old client ≡ None }
        ensures ok { OnOk result (self.new ≡ with_client self.old client (new_entry ssrc seq0)) }
        ensures full { (result ≡ Err Full) ↔ (length self.old.known ≡ self.old.most) }
        ensures err { OnErr result (self.new ≡ self.old) }
    {
        if self.index.len() >= self.most as usize {
            return Err(AdmitFault::Full);
        }
        self.entries.reserve(1)?;
        let key = self.entries.vacant_key();
        self.index.insert(client, key)?;
        self.keys.add(client, key);
        let entry = Entry::new(ssrc, seq0);
        let due = self.due.place(client, entry.idle);
        self.entries
            .insert_reserved(Stored::new(entry, self.tick, due));
        Ok(())
    }

    /// A client is no longer known: what was kept of it, where it was.
    pub fn remove(&mut self, client: u64) -> Option<Entry>
        ensures value { result ≡ entry_of self.old client }
        ensures table { self.new ≡ without self.old client }
    {
        let key = self.index.remove(&client)?;
        self.keys.remove(client);
        close_client(&mut self.bursts, client);
        let stored = take_out(&mut self.entries, key)?;
        self.due.remove(client, stored.due);
        Some(stored.entry(self.tick))
    }

    /// The known clients by rising number, each with what is kept of it.
    pub fn iter(&self) -> KnownClients<'_>
        ensures clients { clients_left result ≡ self.now.known }
        ensures found { All (λ e. entry_of self.now e.0 ≡ Some e.1) self.now.known }
    {
        KnownClients {
            index: self.index.iter(),
            entries: &self.entries,
            tick: self.tick,
        }
    }

    /// The clients with an open burst by rising number, each with what is kept of it. The others aren't
    /// looked at.
    pub fn open_bursts(&self) -> OpenBursts<'_>
        ensures clients { bursts_left result ≡ opened_of self.now }
        ensures found { All (λ e. entry_of self.now e.0 ≡ Some e.1) (opened_of self.now) }
    {
        OpenBursts {
            left: self.bursts.iter(),
            entries: &self.entries,
            tick: self.tick,
        }
    }

    /// Changes each open burst, by rising client. Clients without one aren't looked at.
    pub fn change_bursts<F: Fn(Burst) -> Burst>(&mut self, change: F)
        requires { AreAll (λ _ e. IfSome e.burst (F.pre change)) self.old }
        ensures { AreChanged (λ _. IsBurstChanged (F.post change)) self.old self.new }
    {
        change_each(&self.bursts, &mut self.entries, self.tick, change);
    }

    /// Each known client is idle for a tick more, modulo 2^32. Only those are looked at that could have
    /// been idle for the limit now.
    pub fn age(&mut self)
        ensures { AreChanged (λ _ e d. d ≡ aged e) self.old self.new }
    {
        self.tick = self.tick.wrapping_add(1);
        self.due.go_on();
        look_again(
            &mut self.due,
            &self.keys,
            &self.index,
            &mut self.entries,
            self.tick,
        );
    }

    /// The known clients, by rising number, that may have been idle for `idle` ticks in the next one: none
    /// that will have been is missing. Where `idle` isn't what the table looks out for it is all.
    pub fn due_next(&self, idle: u32) -> DueClients<'_>
        ensures rising { IsStrictlySortedBy nat_cmp (due_left result) }
        ensures all { (client : ℕ) (e : Entry) → entry_of self.now client ≡ Some e → e.idle + 1 ≡ idle → Contains (due_left result) client }
    {
        match self.due.next(idle) {
            Some(tick) => DueClients {
                left: DueLeft::At(self.due.at(tick)),
            },
            None => DueClients {
                left: DueLeft::All(self.index.iter()),
            },
        }
    }

    /// How many clients are known.
    pub fn count(&self) -> u32
        ensures value { result ≡ length self.now.known }
        ensures limit { result ≤ self.now.most }
        ensures rising { AreRising self.now }
    {
        self.index.len() as u32
    }
}

ghost use Rattle.std.specs.Prelude.{◌≡◌, ◌≢◌, ℕ, true, IsSome, IsSomeAnd, Some, None, slice_set};
ghost use Rattle.std.specs.Ordering.{nat_cmp};
ghost use Rattle.std.specs.Map.{lookup};
ghost use Rattle.std.specs.BTreeMap.{is_at};
ghost use Rattle.slab.specs.Slab.{Updates};
ghost use Rattle.client_table.specs.{slot_at, entry_at, IsFree, AreJoined, AreReady, AreSlotsChanged, IsBurstChanged, Tells, times_at, waiting, AreInTime, AreLater, IsInTime, MovesOnly};

// The entry of a key, as it is in this tick.
fn entry_in(entries: &Slab<Stored>, tick: u32, key: usize) -> Option<Entry>
    ensures { result ≡ entry_at tick entries.now.slots key }
{
    let stored = entries.get(key)?;
    Some(stored.entry(tick))
}

// What is stored under a key.
fn stored_in(entries: &Slab<Stored>, key: usize) -> Option<Stored>
    ensures { result ≡ slot_at entries.now.slots key }
{
    entries.get(key).copied()
}

// Another entry under a key that has one.
fn put(entries: &mut Slab<Stored>, key: usize, stored: Stored)
    requires { IsSome (slot_at entries.old.slots key) }
    ensures { entries.new.slots ≡ slice_set entries.old.slots key (Some stored) }
{
    if let Some(slot) = entries.get_mut(key) {
        *slot = stored;
    }
}

// The entry of a key goes: what was stored.
fn take_out(entries: &mut Slab<Stored>, key: usize) -> Option<Stored>
    ensures value { result ≡ slot_at entries.old.slots key }
    ensures updates { Updates entries.old entries.new key None }
{
    entries.try_remove(key)
}

// Each client whose tick has come stands where it can be due now.
fn look_again(
    due: &mut Due,
    keys: &Keys,
    index: &BTreeMap<u64, usize>,
    entries: &mut Slab<Stored>,
    tick: u32,
)
    requires told { Tells keys.now index.now }
    requires joins { AreJoined (entry_at tick entries.old.slots) index.now.entries }
    requires times { AreInTime due.old (times_at tick entries.old.slots) index.now.entries }
    ensures times { AreInTime due.new (times_at tick entries.new.slots) index.now.entries }
    ensures later { AreLater due.new }
    ensures shown { (key : ℕ) → entry_at tick entries.new.slots key ≡ entry_at tick entries.old.slots key }
{
    while let Some(client) = due.take() {
        place_anew(due, keys, index, entries, tick, client);
    }
}

// A client that stands nowhere stands where it can be due, where it is known.
fn place_anew(
    due: &mut Due,
    keys: &Keys,
    index: &BTreeMap<u64, usize>,
    entries: &mut Slab<Stored>,
    tick: u32,
    client: u64,
)
    requires told { Tells keys.now index.now }
    requires joins { AreJoined (entry_at tick entries.old.slots) index.now.entries }
    ensures moves { MovesOnly client due.old due.new }
    ensures there { due.new.whole ≡ true → (key : ℕ) → lookup (is_at (nat_cmp client)) index.now.entries ≡ Some key → IsSomeAnd (times_at tick entries.new.slots key) (λ t. IsInTime due.new client t.0 t.1) }
    ensures others { (key : ℕ) → lookup (is_at (nat_cmp client)) index.now.entries ≢ Some key → slot_at entries.new.slots key ≡ slot_at entries.old.slots key }
    ensures shown { (key : ℕ) → entry_at tick entries.new.slots key ≡ entry_at tick entries.old.slots key }
    ensures waiting { waiting due.new ≡ waiting due.old }
{
    let Some(key) = keys.find(index, client) else {
        return;
    };
    let Some(stored) = stored_in(entries, key) else {
        return;
    };
    let idle = stored.entry(tick).idle;
    let due = due.place(client, idle);
    put(entries, key, Stored { due, ..stored });
}

// Changes the bursts of these clients, each of which has one.
fn change_each<F: Fn(Burst) -> Burst>(
    bursts: &[(u64, usize)],
    entries: &mut Slab<Stored>,
    tick: u32,
    change: F,
)
    requires { AreReady (λ _ e. IsSomeAnd e.burst (F.pre change)) (entry_at tick entries.old.slots) bursts.now }
    ensures changed { AreSlotsChanged (λ _. IsBurstChanged (F.post change)) (entry_at tick entries.old.slots) (entry_at tick entries.new.slots) bursts.now }
    ensures others { (key : ℕ) → IsFree key bursts.now → slot_at entries.new.slots key ≡ slot_at entries.old.slots key }
    ensures times { (key : ℕ) → times_at tick entries.new.slots key ≡ times_at tick entries.old.slots key }
{
    for (_, key) in bursts {
        let Some(stored) = stored_in(entries, *key) else {
            continue;
        };
        let entry = stored.entry(tick);
        let Some(burst) = entry.burst else {
            continue;
        };
        let burst = Some(change(burst));
        put(
            entries,
            *key,
            Stored::new(Entry { burst, ..entry }, tick, stored.due),
        );
    }
}
