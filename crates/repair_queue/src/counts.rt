//! How many repairs of each client are pending.
ghost use Rattle.std.specs.Prelude.{◌≡◌, ℕ, ◌+◌, ◌-◌, ◌==◌, ◌&&◌, if◌then◌else◌, nat_lt, IfOk};
ghost use Rattle.repair_queue.specs.{counted, counted_in};

use crate::wanted::MOST_OF_CLIENT;
use ram_io::NoMemory;
use std::alloc::Global;
use std::collections::HashMap;

type Map = HashMap<u64, u32>;

/// How many repairs of each client are pending. The asks of a client mostly come side by side, so the
/// count of the client that asked last is had at hand: it stands apart and takes no look-up.
#[derive(Drop)]
pub(crate) struct Counts {
    others: Map,
    /// The client at hand.
    client: u64,
    /// How many it has, in place of what `others` has of it.
    count: u32,
}

impl Counts {
    /// None of any client, with room for so many clients.
    pub(crate) fn new(alloc: Global, room: usize) -> Result<Counts, NoMemory>
        ensures { IfOk result (λ counts. (client : ℕ) → counted counts client ≡ 0) }
    {
        Ok(Counts {
            others: HashMap::with_capacity(alloc, room)?,
            client: 0,
            count: 0,
        })
    }

    /// None of any client.
    pub(crate) fn clear(&mut self)
        ensures { (client : ℕ) → counted self.new client ≡ 0 }
    {
        self.others.clear();
        self.count = 0;
    }

    /// How many the client has.
    pub(crate) fn get(&self, client: u64) -> u32
        ensures { result ≡ counted self.now client }
    {
        if self.client == client {
            self.count
        } else {
            self.others.get(&client).copied().unwrap_or(0)
        }
    }

    /// One more of the client, where it has fewer than 256. Whether it had.
    pub(crate) fn add_one(&mut self, client: u64) -> Result<bool, NoMemory>
        ensures fewer { IfOk result (λ fewer. fewer ≡ nat_lt (counted self.old client) 256) }
        ensures counts { IfOk result (λ fewer. (other : ℕ) → counted self.new other ≡ counted self.old other + (if fewer && client == other then 1 else 0)) }
    {
        self.have_at_hand(client)?;
        Ok(add_to(&mut self.count))
    }

    // Has the client at hand. Mostly it is, and then this is to cost no call.
    #[inline(always)]
    fn have_at_hand(&mut self, client: u64) -> Result<(), NoMemory>
        ensures at_hand { IfOk result (λ _. self.new.client ≡ client) }
        ensures same { IfOk result (λ _. (other : ℕ) → counted self.new other ≡ counted self.old other) }
    {
        if self.client != client {
            self.turn_to(client)?;
        }
        Ok(())
    }

    // Has the client at hand, in place of another.
    fn turn_to(&mut self, client: u64) -> Result<(), NoMemory>
        ensures at_hand { IfOk result (λ _. self.new.client ≡ client) }
        ensures same { IfOk result (λ _. (other : ℕ) → counted self.new other ≡ counted self.old other) }
    {
        let count = self.get(client);
        store(&mut self.others, self.client, self.count)?;
        self.client = client;
        self.count = count;
        Ok(())
    }

    /// So many fewer of the client.
    pub(crate) fn take(&mut self, client: u64, fewer: u32)
        ensures { (other : ℕ) → counted self.new other ≡ counted self.old other - (if client == other then fewer else 0) }
    {
        if self.client == client {
            self.count = self.count.saturating_sub(fewer);
        } else if fewer > 0 {
            take_from(&mut self.others, client, fewer);
        }
    }
}

// One more, where there are fewer than 256. Whether there were.
fn add_to(count: &mut u32) -> bool
    ensures fewer { result ≡ nat_lt count.old 256 }
    ensures count { count.new ≡ count.old + (if result then 1 else 0) }
{
    if *count >= MOST_OF_CLIENT {
        return false;
    }
    *count += 1;
    true
}

// The map has this count of the client. Of a client that has none it has nothing.
fn store(counts: &mut Map, client: u64, count: u32) -> Result<(), NoMemory>
    ensures { IfOk result (λ _. (other : ℕ) → counted_in counts.new other ≡ (if client == other then count else counted_in counts.old other)) }
{
    if count == 0 {
        let _ = counts.remove(&client);
    } else {
        counts.insert(client, count)?;
    }
    Ok(())
}

// So many fewer of a client of the map.
fn take_from(counts: &mut Map, client: u64, fewer: u32)
    ensures { (other : ℕ) → counted_in counts.new other ≡ counted_in counts.old other - (if client == other then fewer else 0) }
{
    if let Some(count) = counts.get_mut(&client) {
        if *count > fewer {
            *count -= fewer;
            return;
        }
    }
    let _ = counts.remove(&client);
}
