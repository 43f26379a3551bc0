//! A planned tick is done.
ghost use Rattle.std.specs.Prelude.{◌≡◌, List, ◌∷◌};
ghost use Rattle.rams_model.specs.declared.{Event.Event, Event.TheVariants.Tick};
ghost use Rattle.channel_parts.specs.{StandsFor};
ghost use Rattle.tick_core.specs.{IsWorkFor};

use crate::plan::TickWork;
use channel_parts::Parts;
use tick_draft::{begin_entries, commit_steps, end_entries};

/// Does what was planned for a tick. It can't fail for want of memory.
pub fn commit_tick(parts: &mut Parts, work: &TickWork)
    // The parts stand for some events, and the work is that of the tick after them.
    requires work { (events : List Event) × StandsFor parts.old events × IsWorkFor parts.old events work.now }
    ensures stands { (events : List Event) → StandsFor parts.old events → IsWorkFor parts.old events work.now → StandsFor parts.new (Tick ∷ events) }
    ensures settings { parts.new.config ≡ parts.old.config }
{
    let depth = parts.config.channel().depth;
    parts.budget.open_tick();
    begin_entries(&mut parts.table);
    commit_steps(depth, &mut parts.table, &mut parts.budget, &work.steps);
    end_entries(&mut parts.table, depth);
    parts.queue.settle(&work.done);
}
