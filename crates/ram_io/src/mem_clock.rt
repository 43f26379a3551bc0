//! A clock in memory.
ghost use Rattle.std.specs.Prelude.{◌≡◌, ◌^◌, ◌<◌, All, Some, slice_index};
ghost use Rattle.ram_io.specs.{GivesNext, later};

use crate::clock::Clock;
use std::marker::Model;

/// A clock of the moments that it was made with. It repeats the last one, and answers 0 where
/// there is none.
#[derive(Drop)]
pub struct MemClock {
    moments: Vec<u64>,
    // The place of the next moment; it stays at the last one.
    next: usize,
}

impl Model for MemClock {
    ghost use Rattle.std.specs.Prelude.{◌^◌, ◌<◌, ◌≤◌, All, List, drop, length, ℕ};

    ghost Value = { List ℕ };

    ghost view = { λ c. drop c.next c.moments.items };

    ghost invariant = { λ c. All (λ m. m < 2 ^ 62) c.moments.items };
}

impl MemClock {
    /// A clock of these moments, in ms.
    pub fn new(moments: Vec<u64>) -> MemClock
        requires { All (λ m. m < 2 ^ 62) moments.items }
        ensures value { result ≡ moments.items }
        ensures moments { ⟦<MemClock as Clock>⟧.moments result ≡ Some moments.items }
    {
        MemClock { moments, next: 0 }
    }
}

impl Clock for MemClock {
    ghost moments = { λ c. Some c };

    fn now_ms(&mut self) -> u64
        ensures below { result < 2 ^ 62 }
        ensures next { GivesNext (Some self.old) (Some self.new) result }
    {
        let Some(&moment) = self.moments.get(self.next) else {
            return 0;
        };
        if self.next + 1 < self.moments.len() {
            self.next += 1;
        }
        moment
    }
}
