//! What the repairs of clients may still take.
ghost use Rattle.std.specs.Prelude.{◌≡◌, ℕ, cond, nat_eq, Some, None, IfOk, OnErr};
ghost use Rattle.std.specs.HashMap.{get};
ghost use Rattle.tick_core.specs.{told_by};

use crate::allowance::Allowance;
use ram_io::NoMemory;
use std::alloc::Global;
use std::collections::HashMap;

/// What the repairs of clients may still take that have a burst, or were sent one. A client's repairs
/// mostly stand side by side, so what is told of the last one stands apart and takes no look-up.
#[derive(Drop)]
pub struct Allowances {
    others: HashMap<u64, Allowance>,
    /// In place of what `others` has of the same client.
    last: Option<Allowance>,
}

impl Allowances {
    /// Nothing is told of any client. Takes no memory.
    pub fn new(alloc: Global) -> Allowances
        ensures { (client : ℕ) → told_by result client ≡ None }
    {
        Allowances {
            others: HashMap::new(alloc),
            last: None,
        }
    }

    /// What is told of a client.
    pub fn get(&self, client: u64) -> Option<Allowance>
        ensures { result ≡ told_by self.now client }
    {
        if let Some(last) = self.last {
            if last.client == client {
                return Some(last);
            }
        }
        self.others.get(&client).copied()
    }

    /// Another allowance for its client; the others keep theirs. After want of memory all is as before. Mostly it is
    /// that of the last client, and then this is to cost no call.
    #[inline(always)]
    pub fn put(&mut self, allowance: Allowance) -> Result<(), NoMemory>
        ensures same { OnErr result ((other : ℕ) → told_by self.new other ≡ told_by self.old other) }
        ensures put { IfOk result (λ _. (other : ℕ) → told_by self.new other ≡ cond (nat_eq allowance.client other) (Some allowance) (told_by self.old other)) }
    {
        if let Some(last) = self.last {
            if last.client != allowance.client {
                store(&mut self.others, last)?;
            }
        }
        self.last = Some(allowance);
        Ok(())
    }
}

// The map has this allowance for its client.
#[inline(never)]
fn store(others: &mut HashMap<u64, Allowance>, allowance: Allowance) -> Result<(), NoMemory>
    ensures same { OnErr result ((other : ℕ) → get nat_eq others.new other ≡ get nat_eq others.old other) }
    ensures stored { IfOk result (λ _. (other : ℕ) → get nat_eq others.new other ≡ cond (nat_eq allowance.client other) (Some allowance) (get nat_eq others.old other)) }
{
    others.insert(allowance.client, allowance)?;
    Ok(())
}
