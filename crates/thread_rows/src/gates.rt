//! A gate at which the calls of lists wait for each other, for a while.
use ram_io::Gate;
use rams_model::LineFault;
use rams_replay::{CaptureFault, CaptureWatch, FileKind, Watch};
use server_hub::{Heard, HubAnswer};
use std::sync::atomic::{AtomicBool, Ordering};
use std::thread;

/// So many turns a call waits at most.
const TURNS: u32 = 2_000_000;

/// Where in a call it waits.
#[derive(Clone, Copy, PartialEq, Eq)]
pub enum Point {
    /// Before the step.
    Enter,
    /// With the answer, before it is rendered.
    Drawing,
}

/// One of two things that a gate is told.
#[derive(Clone, Copy, PartialEq, Eq)]
pub enum Sign {
    One,
    Other,
}

/// What a call of a list does at a point: it gives a sign, and waits for one.
#[derive(Clone, Copy)]
pub struct Stop {
    pub point: Point,
    pub list: u16,
    pub call: u64,
    pub gives: Option<Sign>,
    pub awaits: Option<Sign>,
}

/// A gate with such stops.
#[derive(Drop)]
pub struct Stops {
    stops: &'static [Stop],
    one: AtomicBool,
    other: AtomicBool,
    ran_out: AtomicBool,
}

impl Stops {
    pub fn new(stops: &'static [Stop]) -> Stops {
        Stops {
            stops,
            one: AtomicBool::new(false),
            other: AtomicBool::new(false),
            ran_out: AtomicBool::new(false),
        }
    }

    /// Both signs were given before the turns of any call ran out.
    pub fn were_held(&self) -> bool {
        !self.ran_out.load(Ordering::SeqCst)
            && self.one.load(Ordering::SeqCst)
            && self.other.load(Ordering::SeqCst)
    }

    fn flag(&self, sign: Sign) -> &AtomicBool {
        match sign {
            Sign::One => &self.one,
            Sign::Other => &self.other,
        }
    }

    fn wait(&self, sign: Sign) {
        for _ in 0..TURNS {
            if self.flag(sign).load(Ordering::SeqCst) {
                return;
            }
            thread::yield_now();
        }
        self.ran_out.store(true, Ordering::SeqCst);
    }

    fn pass(&self, point: Point, list: u16, call: u64) {
        let is_here = |stop: &&Stop| -> bool {
            stop.point == point && stop.list == list && stop.call == call
        };
        let Some(stop) = self.stops.iter().find(is_here) else {
            return;
        };
        if let Some(sign) = stop.gives {
            self.flag(sign).store(true, Ordering::SeqCst);
        }
        if let Some(sign) = stop.awaits {
            self.wait(sign);
        }
    }
}

impl Gate for Stops {
    fn enter(&self, list: u16, call: u64) {
        self.pass(Point::Enter, list, call);
    }

    fn drawing(&self, list: u16, call: u64) {
        self.pass(Point::Drawing, list, call);
    }
}

impl Watch for Stops {
    fn opens(&self, _id: u16, _live: u16, _feedback: u16) {}

    fn refuses(&self, _line: u64, _fault: LineFault) {}

    fn hears(&self, _heard: Heard<'_>, _answer: &HubAnswer) {}

    fn lags(&self) {}
}

impl CaptureWatch for Stops {
    fn refuses_file(&self, _fault: CaptureFault, _kind: FileKind) {}

    fn refuses_record(&self, _number: u64, _fault: CaptureFault) {}
}
