//! From a seed to the summary of its events.
ghost use Rattle.std.specs.Prelude.{◌≡◌, ◌≤◌, [], IfOk};
ghost use Rattle.server_hub.specs.session_core.{StandsFor};
ghost use Rattle.generated.specs.summary.{made_summary};
ghost use Rattle.generated.specs.trace_gen.{config};

use crate::generated_run::serving::count_answer;
use crate::summary::Tally;
use crate::trace_gen::{Made, config_of, next_event};
use bytes::Bytes;
use ram_io::NoMemory;
use server_hub::session_core::Core;
use std::alloc::Global;

/// Most blocks of a generated trace.
pub const MOST_BLOCKS: u32 = 50_000;

/// Most events of so many blocks: a block has at most 12.
const MOST_EVENTS: u64 = 600_000;

/// The summary of the generated trace of this seed and of so many blocks: what the channel answers
/// to its events, counted.
pub fn summary_of(alloc: Global, seed: u32, blocks: u32) -> Result<Vec<u8>, NoMemory>
    requires { blocks ≤ 50000 }
    ensures { IfOk result (λ text. text.items ≡ made_summary seed blocks) }
{
    let mut core = Core::new(alloc, &config_of())?;
    summary_by(alloc, &mut core, seed, blocks)
}

/// The same by a core to which nothing came yet.
fn summary_by(alloc: Global, core: &mut Core, seed: u32, blocks: u32) -> Result<Vec<u8>, NoMemory>
    requires settings { core.old.settings ≡ config }
    requires stands { StandsFor core.old [] }
    requires few { blocks ≤ 50000 }
    ensures { IfOk result (λ text. text.items ≡ made_summary seed blocks) }
{
    let mut at = Made::new(seed);
    let mut tally = Tally::new();
    let mut ready = Bytes::new();
    let mut page = Vec::new(alloc);
    for events in 0..=MOST_EVENTS {
        let Some(next) = next_event(alloc, blocks, &mut at, &mut ready, &mut page)? else {
            return tally.write(alloc, seed, blocks, events);
        };
        count_answer(alloc, core, &mut tally, next, &page)?;
    }
    unreachable!()
}
