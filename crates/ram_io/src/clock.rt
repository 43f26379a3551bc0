//! The time.
ghost use Rattle.std.specs.Prelude.{◌^◌, ◌<◌};
ghost use Rattle.ram_io.specs.{GivesNext};

/// A clock.
pub trait Clock {
    ghost use Rattle.std.specs.Prelude.{ℕ, List, Option};

    /// The moments to come, where the clock tells them; it repeats the last one.
    ghost moments: { Self → Option (List ℕ) };

    /// The moment, in ms.
    fn now_ms(&mut self) -> u64
        ensures below { result < 2 ^ 62 }
        ensures next { GivesNext (moments self.old) (moments self.new) result };
}
