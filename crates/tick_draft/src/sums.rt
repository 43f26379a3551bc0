//! What a tick sends, in numbers.
ghost use Rattle.std.specs.Prelude.{◌≡◌};
ghost use Rattle.tick_draft.specs.{step_sums, both_sums, sums_of, AreSmallSums};

use crate::step::Step;

/// What a tick sends, in numbers.
#[derive(Clone, Copy, PartialEq, Eq)]
pub struct Sums {
    /// How many packets are sent.
    pub packets: u64,
    /// How many of them are of bursts.
    pub of_bursts: u64,
    /// How many bursts end.
    pub ends: u64,
    /// The bytes that these packets take on the wire.
    pub bytes: u64,
}

impl Sums {
    /// Nothing is sent.
    const NONE: Sums = Sums {
        packets: 0,
        of_bursts: 0,
        ends: 0,
        bytes: 0,
    };

    /// One step more.
    fn with(self, step: &Step) -> Sums
        requires { AreSmallSums (both_sums self (step_sums step.now)) }
        ensures { result ≡ both_sums self (step_sums step.now) }
    {
        match *step {
            Step::Sent(sent) => Sums {
                packets: self.packets + u64::from(sent.packets),
                of_bursts: self.of_bursts + u64::from(sent.of_burst),
                bytes: self.bytes + sent.bytes,
                ..self
            },
            Step::End { .. } => Sums {
                ends: self.ends + 1,
                ..self
            },
            Step::Gone { .. } | Step::Forgot { .. } => self,
        }
    }
}

/// The sums of some steps.
pub fn sums_of(steps: &[Step]) -> Sums
    requires { AreSmallSums (sums_of steps.now) }
    ensures { result ≡ sums_of steps.now }
{
    let mut sums = Sums::NONE;
    for step in steps {
        sums = sums.with(step);
    }
    sums
}
