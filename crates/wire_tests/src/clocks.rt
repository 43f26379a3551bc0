//! The clock of the machine, and one that can't be read.
use ram_io::{Clock as _, StdClock};
use std::cell::Cell;
use std::rt::Clock;
use std::time::Duration;
use std::{io, thread};

/// A clock that reads a moment, in ms, each second time, and else can't be read.
#[derive(Drop)]
struct Unsteady {
    readings: Cell<u64>,
}

impl Clock for Unsteady {
    fn monotonic(&self) -> io::Result<Duration> {
        let reading = self.readings.get();
        self.readings.set(reading.wrapping_add(1));
        if reading % 2 == 0 {
            return Err(io::ErrorKind::Other.into());
        }
        Ok(Duration::from_millis(reading % 1_000 * 10))
    }

    fn since_1970(&self) -> io::Result<Duration> {
        Err(io::ErrorKind::Other.into())
    }
}

/// A clock that can't be read repeats its last moment, and gives 0 before there is one.
#[test]
fn a_clock_repeats_its_last_moment(rt: HostRuntime) {
    let mut clock = StdClock::new(Unsteady {
        readings: Cell::new(0),
    });
    for moment in [0, 10, 10, 30, 30, 50] {
        assert!(rt; clock.now_ms() == moment);
    }
}

/// The clock of the machine goes on while a thread sleeps, and doesn't go back.
#[test]
fn the_machines_clock_goes_on(rt: HostRuntime) {
    let mut clock = StdClock::new(&rt);
    let before = clock.now_ms();
    thread::sleep(&rt, Duration::from_millis(20));
    let after = clock.now_ms();
    assert!(rt; before != 0);
    assert!(rt;
        after >= before.saturating_add(20),
        "from {before} to {after}"
    );
}
