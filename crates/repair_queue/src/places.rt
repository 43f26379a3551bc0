//! Repairs that move within a vector.
ghost use Rattle.std.specs.Prelude.{◌≡◌, ◌+◌, ◌-◌, ◌≤◌, length, drop, vec_len, vec_capacity};
ghost use Rattle.std.specs.List.{copy_within};
ghost use Rattle.repair_queue.specs.{unmarked, without};

use crate::flags::{end_of_set, start_of_set};
use crate::wanted::Wanted;

/// Moves those of the first ones whose flag isn't set up to right before the first that has no flag.
/// How many places are free in front of them then.
pub(crate) fn move_unmarked(pending: &mut [Wanted], done: &[bool]) -> usize
    requires { length done.now ≤ length pending.old }
    ensures within { result ≤ length done.now }
    ensures pending { drop result pending.new ≡ unmarked pending.old done.now }
{
    let mut start = end_of_set(done);
    let mut end = start;
    while end > 0 {
        let behind = start_of_set(&done[..end]);
        let from = end_of_set(&done[..behind]);
        start -= behind - from;
        move_run(pending, from, behind, start);
        end = from.saturating_sub(1);
    }
    start
}

// Moves those of a run to a place. It stands apart, so that the walk over the flags that finds the run keeps
// few values.
#[inline(never)]
fn move_run(pending: &mut [Wanted], from: usize, behind: usize, to: usize)
    requires order { from ≤ behind }
    requires within { behind ≤ length pending.old }
    requires room { to + (behind - from) ≤ length pending.old }
    ensures { pending.new ≡ copy_within pending.old from behind to }
{
    pending.copy_within(from..behind, to);
}

/// Moves those behind the first places to the front.
pub(crate) fn move_down(places: &mut Vec<Wanted>, from: usize)
    requires { from ≤ vec_len places.old }
    ensures items { places.new.items ≡ drop from places.old.items }
    ensures capacity { vec_capacity places.new ≡ vec_capacity places.old }
{
    let len = places.len() - from;
    places.copy_within(from.., 0);
    places.truncate(len);
}

/// Moves the other clients' repairs to the front, and drops the rest.
pub(crate) fn drop_client(places: &mut Vec<Wanted>, client: u64)
    ensures items { places.new.items ≡ without client places.old.items }
    ensures capacity { vec_capacity places.new ≡ vec_capacity places.old }
{
    let mut kept = 0;
    for i in 0..places.len() {
        let w = places[i];
        if w.client == client {
            continue;
        }
        places[kept] = w;
        kept += 1;
    }
    places.truncate(kept);
}
