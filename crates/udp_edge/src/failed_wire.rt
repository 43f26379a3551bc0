//! A wire that only fails.
ghost use Rattle.std.specs.Prelude.{◌≡◌, IsErr, None};
ghost use Rattle.ram_io.specs.{HasCause};

use crate::faults::Faults;
use ram_io::{Arrival, Failed, Wire};
use std::marker::Model;

/// The wire in place of one that couldn't be bound: each of its calls is a counted fault. Contracts
/// see it as its count of faults.
#[derive(Drop)]
pub struct FailedWire {
    faults: Faults,
}

impl Model for FailedWire {
    ghost use Rattle.std.specs.Prelude.{ℕ};

    ghost Value = { ℕ };

    ghost view = { λ w. w.faults.count };
}

impl FailedWire {
    /// A wire with no fault so far.
    pub fn new() -> FailedWire
        ensures value { result ≡ 0 }
        ensures faults { ⟦<FailedWire as Wire>⟧.faults result ≡ 0 }
    {
        FailedWire {
            faults: Faults::none(),
        }
    }
}

impl Wire for FailedWire {
    ghost arrivals = { λ _. None };

    ghost sent = { λ _. None };

    ghost faults = { λ w. w };

    ghost is_steady = { λ _ _ _. ⊥ };

    fn receive(&mut self, _buf: &mut [u8]) -> Result<Option<Arrival>, Failed>
        ensures fails { IsErr result }
        ensures cause { HasCause self.old self.new result }
    {
        Err(self.faults.rise())
    }

    fn send(&mut self, _to: u64, _port: u16, _bytes: &[u8]) -> Result<(), Failed>
        ensures fails { IsErr result }
        ensures cause { HasCause self.old self.new result }
    {
        Err(self.faults.rise())
    }
}
