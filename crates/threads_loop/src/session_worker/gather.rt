//! What the threads of the lists leave, put together by place.
ghost use Rattle.std.specs.Prelude.{◌≡◌, ◌<◌, [], ◌∷◌, ◌++◌, All, map, reverse, length, IsOk, IfOk};
ghost use Rattle.threads_loop.specs.session_worker.{AreQueues, answered_with, drawn_by, queue_of};

use crate::session_worker::live_writer::Placed;
use crate::session_worker::worker::Worker;
use channel_book::channel_lock::Pass;
use channel_book::{Config, Entry, NoMemory};
use rams_model::Octets;
use std::alloc::Global;

/// What the workers leave.
#[derive(Drop)]
pub(crate) struct Left {
    pub passes: Vec<Pass>,
    /// What each list's events became, the last one first.
    pub queues: Vec<Vec<Placed>>,
}

/// Takes apart what the workers leave, unless one of them lacked memory.
pub(crate) fn take_apart(alloc: Global, staff: Vec<Worker>) -> Result<Left, NoMemory>
    ensures passes { IfOk result (λ left. left.passes.items ≡ map (λ w. w.pass) staff.items) }
    ensures queues { IfOk result (λ left. map queue_of left.queues.items ≡ map (λ w. reverse (drawn_by w)) staff.items) }
    ensures wrote { IfOk result (λ _. All (λ w. IsOk w.wrote) staff.items) }
{
    let mut passes = Vec::with_capacity(alloc, staff.len())?;
    let mut queues = Vec::with_capacity(alloc, staff.len())?;
    for worker in staff {
        let Worker { pass, wrote, .. } = worker;
        let mut placed = wrote?;
        placed.reverse();
        passes.push(pass)?;
        queues.push(placed)?;
    }
    Ok(Left { passes, queues })
}

/// The datagrams of the last of some calls, which is taken out.
fn take_last(queue: &mut Vec<Placed>) -> Vec<Octets>
    requires { 0 < length queue.old.items }
    ensures { queue_of queue.old ≡ queue_of queue.new ++ result.items ∷ [] }
{
    let Some(placed) = queue.pop() else {
        unreachable!()
    };
    let Placed { datagrams, .. } = placed;
    datagrams
}

/// The datagrams of each entry's answer, by its place: each is the next one of its list.
pub(crate) fn draw(
    alloc: Global,
    _config: &Config,
    entries: &[Entry],
    mut queues: Vec<Vec<Placed>>,
) -> Result<Vec<Vec<Octets>>, NoMemory>
    requires { AreQueues _config.now entries.now (map queue_of queues.items) }
    ensures { IfOk result (λ drawn. map (λ d. d.items) drawn.items ≡ answered_with _config.now entries.now) }
{
    let mut drawn = Vec::with_capacity(alloc, entries.len())?;
    for entry in entries {
        let queue = &mut queues[usize::from(entry.list)];
        drawn.push(take_last(queue))?;
    }
    Ok(drawn)
}
