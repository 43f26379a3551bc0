//! The steps of a tick whose notes and orders nobody asks for.
ghost use Rattle.std.specs.Prelude.{◌≡◌, ◌++◌, IfOk, option_map};
ghost use Rattle.tick_draft.specs.declared.step.Step.TheVariants.{End};
ghost use Rattle.tick_draft.specs.{new_draft, IsCountOf};

use crate::drafting::Drafting;
use crate::step::{Step, sending_of};
use crate::steps::Steps;
use ram_io::NoMemory;
use rams_model::{Cause, Held, Info, Note, RTX_OVERHEAD};
use std::alloc::Global;
use std::marker::Model;

/// What the notes and orders of a tick's bursts come to: the steps so far, and the bytes that the channel's
/// budget has left.
#[derive(Drop)]
pub struct Count {
    steps: Steps,
    left: u64,
}

impl Model for Count {
    ghost use Rattle.tick_draft.specs.{Counted};

    ghost Value = { Counted };

    ghost view = { λ c. record { steps = c.steps; left = c.left } };
}

impl Count {
    /// Nothing is done yet. Takes no memory.
    pub fn new(alloc: Global, left: u64) -> Count
        ensures { IsCountOf result (new_draft left) }
    {
        Count {
            steps: Steps::new(alloc),
            left,
        }
    }

    /// What the channel's budget has left.
    pub fn left(&self) -> u64
        ensures { result ≡ self.now.left }
    {
        self.left
    }

    /// The steps, and the rest of the tick's steps behind them.
    pub fn finish(self, rest: &[Step]) -> Result<Vec<Step>, NoMemory>
        ensures { IfOk result (λ steps. steps.items ≡ self.steps ++ rest.now) }
    {
        let mut steps = self.steps.finish()?;
        steps.extend_from_slice(rest)?;
        Ok(steps)
    }
}

impl Drafting for Count {
    ghost shows = { IsCountOf };

    #[inline(always)]
    fn send_packet(
        &mut self,
        note: Note,
        client: u64,
        seq: u16,
        held: &Held,
    ) -> Result<(), NoMemory> {
        let bytes = held.packet.len() as u64 + u64::from(RTX_OVERHEAD);
        self.steps.send(sending_of(bytes, &note))?;
        self.left = self.left.saturating_sub(u64::from(held.wire));
        Ok(())
    }

    fn end_burst(
        &mut self,
        client: u64,
        _last: &Info,
        cause: Option<Cause>,
    ) -> Result<(), NoMemory> {
        self.steps.push(end_step(client, cause))?;
        Ok(())
    }
}

/// The step of a burst's end, where there is a cause.
fn end_step(client: u64, cause: Option<Cause>) -> Option<Step>
    ensures { result ≡ option_map (λ _. End client) cause }
{
    cause.map(|_| Step::End { client })
}
