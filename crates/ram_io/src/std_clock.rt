//! The clock of the machine.
ghost use Rattle.std.specs.Prelude.{◌≡◌, ◌^◌, ◌<◌, None};

use crate::clock::Clock;
use std::rt;

// The last moment that it gives.
const LAST_MOMENT: u128 = (1 << 62) - 1;

/// The time since some start, in ms, by the clock that never goes back. It tells no moments. Where
/// the clock can't be read it repeats its last moment, and answers 0 before there is one.
#[derive(Drop)]
pub struct StdClock<R> {
    rt: R,
    // The last moment that was given, in ms.
    last: u64,
    ghost below: { last < 2 ^ 62 },
}

impl<R: rt::Clock> StdClock<R> {
    /// A clock that was not read yet.
    pub fn new(rt: R) -> StdClock<R>
        ensures { ⟦<StdClock<R> as Clock>⟧.moments result ≡ None }
    {
        StdClock { rt, last: 0 }
    }
}

impl<R: rt::Clock> Clock for StdClock<R> {
    ghost moments = { λ _. None };

    fn now_ms(&mut self) -> u64 {
        if let Ok(since_start) = self.rt.monotonic() {
            self.last = since_start.as_millis().min(LAST_MOMENT) as u64;
        }
        self.last
    }
}
