//! A gate at which the threads of two lists, or of two lanes, wait for each other, for a while.

use ram_io::Gate;
use std::sync::atomic::{AtomicBool, Ordering};
use std::thread;

/// So many turns a thread waits at most.
const TURNS: u32 = 10_000_000;

/// Where in a call they wait.
#[derive(Clone, Copy, PartialEq, Eq)]
pub enum Point {
    /// Before the step.
    Enter,
    /// With the answer, before it is rendered.
    Drawing,
}

/// Numbers 0 and 1 wait for each other at this point of their call of this number.
#[derive(Drop)]
pub struct Meeting {
    point: Point,
    call: u64,
    first: AtomicBool,
    second: AtomicBool,
    ran_out: AtomicBool,
}

impl Meeting {
    pub fn new(point: Point, call: u64) -> Meeting {
        Meeting {
            point,
            call,
            first: AtomicBool::new(false),
            second: AtomicBool::new(false),
            ran_out: AtomicBool::new(false),
        }
    }

    /// Both came before the turns of either ran out.
    pub fn was_held(&self) -> bool {
        !self.ran_out.load(Ordering::SeqCst)
            && self.first.load(Ordering::SeqCst)
            && self.second.load(Ordering::SeqCst)
    }

    /// Tells that one is here, and waits for the other.
    fn meet(&self, mine: &AtomicBool, other: &AtomicBool) {
        mine.store(true, Ordering::SeqCst);
        for _ in 0..TURNS {
            if other.load(Ordering::SeqCst) {
                return;
            }
            thread::yield_now();
        }
        self.ran_out.store(true, Ordering::SeqCst);
    }

    fn pass(&self, point: Point, list: u16, call: u64) {
        if point != self.point || call != self.call {
            return;
        }
        match list {
            0 => self.meet(&self.first, &self.second),
            1 => self.meet(&self.second, &self.first),
            _ => {}
        }
    }
}

impl Gate for Meeting {
    fn enter(&self, list: u16, call: u64) {
        self.pass(Point::Enter, list, call);
    }

    fn drawing(&self, list: u16, call: u64) {
        self.pass(Point::Drawing, list, call);
    }
}
