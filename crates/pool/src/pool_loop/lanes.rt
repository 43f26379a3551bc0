//! The channels of a trace as lanes of a link.
ghost use Rattle.std.specs.Prelude.{IfOk};
ghost use Rattle.server_hub.specs.{Pairwise};
ghost use Rattle.pool.specs.pool_loop.{IsLaneOf};

use crate::pool_loop::dealing::Coming;
use crate::pool_run::Lane;
use ram_io::NoMemory;
use server_hub::session_core::Core;
use std::alloc::Global;

/// A lane for each channel, with its events.
pub(crate) fn lanes_of(alloc: Global, channels: Vec<Coming>) -> Result<Vec<Lane>, NoMemory>
    ensures { IfOk result (λ lanes. Pairwise IsLaneOf channels.items lanes.items) }
{
    let mut lanes = Vec::with_capacity(alloc, channels.len())?;
    for coming in channels {
        let Coming { config, events } = coming;
        let core = Core::new(alloc, &config)?;
        lanes.push(Lane { core, events })?;
    }
    Ok(lanes)
}
