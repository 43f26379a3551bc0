//! The keys of the known clients, found by a hash.
ghost use Rattle.std.specs.Prelude.{◌≡◌, ℕ, [], true, Option, Some, None, IfOk, cond, nat_eq};
ghost use Rattle.std.specs.HashMap.{get};
ghost use Rattle.std.specs.Ordering.{nat_cmp};
ghost use Rattle.std.specs.Map.{lookup};
ghost use Rattle.std.specs.BTreeMap.{BTreeMap as Tree, Updates, is_at};
ghost use Rattle.client_table.specs.{Tells};

use ram_io::NoMemory;
use std::alloc::Global;
use std::collections::{BTreeMap, HashMap};

/// What the index of the known clients says, by a hash of the client in place of a search. Where it was
/// refused memory it is no longer whole, and the index is searched.
#[derive(Drop)]
pub(crate) struct Keys {
    keys: HashMap<u64, usize>,
    whole: bool,
}

impl Keys {
    /// No keys, and room for so many.
    pub fn new(alloc: Global, room: usize) -> Result<Keys, NoMemory>
        ensures { (index : Tree ℕ ℕ) → index.entries ≡ [] → IfOk result (λ keys. Tells keys index) }
    {
        Ok(Keys {
            keys: HashMap::with_capacity(alloc, room)?,
            whole: true,
        })
    }

    /// The key of a client.
    pub fn find(&self, index: &BTreeMap<u64, usize>, client: u64) -> Option<usize>
        requires { Tells self.now index.now }
        ensures { result ≡ lookup (is_at (nat_cmp client)) index.now.entries }
    {
        if self.whole {
            self.keys.get(&client).copied()
        } else {
            index.get(&client).copied()
        }
    }

    /// The client has this key in the index now.
    pub fn add(&mut self, client: u64, key: usize)
        ensures { (old new : Tree ℕ ℕ) → Updates nat_cmp old new client (Some key) → Tells self.old old → Tells self.new new }
    {
        if self.whole {
            self.whole = add_key(&mut self.keys, client, key);
        }
    }

    /// The client has no key in the index any more.
    pub fn remove(&mut self, client: u64)
        ensures { (old new : Tree ℕ ℕ) → Updates nat_cmp old new client None → Tells self.old old → Tells self.new new }
    {
        take_key(&mut self.keys, client);
    }
}

// Puts the key of a client among the others. Whether there was memory for it.
fn add_key(keys: &mut HashMap<u64, usize>, client: u64, key: usize) -> bool
    ensures { result ≡ true → (other : ℕ) → get nat_eq keys.new other ≡ cond (nat_eq client other) (Some key) (get nat_eq keys.old other) }
{
    keys.insert(client, key).is_ok()
}

// Takes the key of a client out.
fn take_key(keys: &mut HashMap<u64, usize>, client: u64)
    ensures { (other : ℕ) → get nat_eq keys.new other ≡ cond (nat_eq client other) None (get nat_eq keys.old other) }
{
    let _ = keys.remove(&client);
}
