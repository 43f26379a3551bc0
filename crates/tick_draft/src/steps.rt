//! The steps of a tick, as they are planned.
ghost use Rattle.std.specs.Prelude.{◌≡◌, [], ◌∷◌, ◌++◌, None, IfOk, OnOk, OnErr, option_to_list};
ghost use Rattle.tick_draft.specs.declared.step.Step.TheVariants.{Sent};
ghost use Rattle.tick_draft.specs.{with_last, AreBoth};

use crate::sendings::Sendings;
use crate::step::Step;
use ram_io::NoMemory;
use std::alloc::Global;
use std::marker::Model;

/// The steps of a tick so far. Packets to one client one after another are one step.
#[derive(Drop)]
pub struct Steps {
    steps: Vec<Step>,
    /// The packets that were sent last, where the next may still come to them.
    last: Option<Sendings>,
}

impl Model for Steps {
    ghost use Rattle.std.specs.Prelude.{List};
    ghost use Rattle.tick_draft.specs.declared.step.Step.{Step};

    ghost Value = { List Step };

    ghost use Rattle.tick_draft.specs.{with_last};

    ghost view = { λ s. with_last s.steps.items s.last };
}

impl Steps {
    /// Nothing is done yet. Takes no memory.
    pub fn new(alloc: Global) -> Steps
        ensures { result ≡ [] }
    {
        Steps {
            steps: Vec::new(alloc),
            last: None,
        }
    }

    /// Packets were sent to a client. Mostly it is the one that was sent the last ones, and then this is to cost no call.
    /// After want of memory all is as before.
    #[inline(always)]
    pub fn send(&mut self, next: Sendings) -> Result<(), NoMemory>
        ensures same { OnErr result (self.new ≡ self.old) }
        ensures sent { OnOk result (AreBoth self.old (Sent next ∷ []) self.new) }
    {
        if let Some(last) = self.last {
            if let Some(both) = last.and(&next) {
                self.last = Some(both);
                return Ok(());
            }
        }
        close_row(&mut self.steps, &mut self.last)?;
        self.last = Some(next);
        Ok(())
    }

    /// One step more, where there is one. After want of memory all is as before.
    pub fn push(&mut self, step: Option<Step>) -> Result<(), NoMemory>
        ensures same { OnErr result (self.new ≡ self.old) }
        ensures pushed { OnOk result (self.new ≡ self.old ++ option_to_list step) }
    {
        let Some(step) = step else {
            return Ok(());
        };
        close_row(&mut self.steps, &mut self.last)?;
        self.steps.push(step)?;
        Ok(())
    }

    /// All of them.
    pub fn finish(self) -> Result<Vec<Step>, NoMemory>
        ensures { IfOk result (λ steps. steps.items ≡ self) }
    {
        let Steps {
            mut steps,
            mut last,
        } = self;
        close_row(&mut steps, &mut last)?;
        Ok(steps)
    }
}

// No more packets come to those that were sent last.
#[inline(never)]
fn close_row(steps: &mut Vec<Step>, last: &mut Option<Sendings>) -> Result<(), NoMemory>
    ensures same { with_last steps.new.items last.new ≡ with_last steps.old.items last.old }
    ensures closed { OnOk result (last.new ≡ None) }
{
    if let Some(sent) = *last {
        steps.push(Step::Sent(sent))?;
        *last = None;
    }
    Ok(())
}
