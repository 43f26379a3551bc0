//! Why a standby doesn't go on.
ghost use Rattle.std.specs.Prelude.{◌≡◌};
ghost use Rattle.takeover.specs.declared.standby.fault.FeedFault.TheVariants as faults;
ghost use Rattle.takeover.specs.standby.{is_end, lasting};

use ram_io::NoMemory as OutOfMemory;
use rams_model::LineFault;
use std::alloc::AllocError;

/// Why a piece of a journal isn't followed.
#[derive(Clone, Copy, PartialEq, Eq)]
pub enum FeedFault {
    /// The line of this number, from 1, is refused.
    Line { line: u64, fault: LineFault },
    /// A line brings event 1,000,001.
    TooLong,
    /// Memory ran out.
    NoMemory,
}

impl From<OutOfMemory> for FeedFault {
    ghost from_gives = { λ _ fault. fault ≡ faults.NoMemory };

    fn from(_e: OutOfMemory) -> FeedFault {
        FeedFault::NoMemory
    }
}

/// The fault that is answered from then on. Want of memory isn't.
pub(crate) fn lasting(fault: FeedFault) -> Option<FeedFault>
    ensures { result ≡ lasting fault }
{
    match fault {
        FeedFault::Line { line, fault } => Some(FeedFault::Line { line, fault }),
        FeedFault::TooLong => Some(FeedFault::TooLong),
        FeedFault::NoMemory => None,
    }
}

/// What a line does that is followed.
#[derive(Clone, Copy, PartialEq, Eq)]
pub enum Step {
    GoesOn,
    /// It is `end`.
    Ends,
}

pub(crate) fn is_end(step: Step) -> bool
    ensures { result ≡ is_end step }
{
    match step {
        Step::GoesOn => false,
        Step::Ends => true,
    }
}
