//! Which calls of an object in memory fail.
ghost use Rattle.std.specs.Prelude.{◌≡◌, ◌≤◌, ◌↔◌, IsErr, OnErr, OnOk};
ghost use Rattle.ram_io.specs.{called, faulted, IsFailing, HasCause, new_counts};

use crate::failed::Failed;
use std::marker::Model;

// Counts the calls of an object and its faults.
#[derive(Drop)]
pub(crate) struct Calls {
    // The numbers, from 0, of the calls that fail.
    fails: Vec<u64>,
    // The number of the next call; no call from 2^64 on stands in the list.
    next: Option<u64>,
    faults: u64,
}

impl Model for Calls {
    ghost use Rattle.ram_io.specs.{Counts};

    ghost Value = { Counts };

    ghost view = { λ c. record { fails = c.fails.items; next = c.next; faults = c.faults } };
}

impl Calls {
    pub(crate) fn new(fails: Vec<u64>) -> Calls
        ensures { result ≡ new_counts fails.items }
    {
        Calls {
            fails,
            next: Some(0),
            faults: 0,
        }
    }

    // Counts a call, and a fault where it is one of those that fail.
    pub(crate) fn begin(&mut self) -> Result<(), Failed>
        ensures fails { IsErr result ↔ IsFailing self.old }
        ensures ok { OnOk result (self.new ≡ called self.old) }
        ensures err { OnErr result (self.new ≡ faulted (called self.old)) }
        ensures cause { HasCause self.old.faults self.new.faults result }
    {
        let Some(call) = self.next else {
            return Ok(());
        };
        self.next = call.checked_add(1);
        if self.fails.contains(&call) {
            return Err(self.fault());
        }
        Ok(())
    }

    // Counts a fault; the count stops at 2^64 - 1.
    pub(crate) fn fault(&mut self) -> Failed
        ensures counted { self.new ≡ faulted self.old }
        ensures later { self.old.faults ≤ self.new.faults }
    {
        self.faults = self.faults.saturating_add(1);
        Failed
    }
}
