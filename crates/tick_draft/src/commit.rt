//! What is done for the clients of a tick, one step after another.
ghost use Rattle.std.specs.Prelude.{◌≡◌, ◌-◌, ◌<◌, ◌^◌};
ghost use Rattle.tick_draft.specs.{committing, amount_of, amount_for, with_sendings, MaySend, with_closed, MayEnd, with_step, with_all_steps, MayDo, MayDoAll};
ghost use Rattle.client_table.specs.{entry_of, without};

use crate::entries::{close_entry, send_to};
use crate::sendings::Sendings;
use crate::step::Step;
use channel_parts::Table;
use client_table::Burst;
use reckoning::link_budget::Budget;

/// Takes the size of a packet that was sent from what the channel has left.
fn spend(budget: &mut Budget, size: u64)
    ensures { budget.new ≡ record budget.old { left = budget.old.left - size } }
{
    // At most all that is left, so it always fits.
    let size = size.min(budget.left());
    let _ = budget.spend(size);
}

/// Packets that were sent to a client are written down.
fn commit_sendings(table: &mut Table, budget: &mut Budget, sent: &Sendings)
    requires { MaySend sent.now (committing table.old budget.old) }
    ensures { committing table.new budget.new ≡ with_sendings sent.now (committing table.old budget.old) }
{
    send_to(table, sent);
    spend(budget, sent.bytes);
}

/// What a burst has reserved: its rate, and what it may keep.
fn amount_of(depth: u64, burst: Option<Burst>) -> u64
    requires { amount_of depth burst < 2 ^ 64 }
    ensures { result ≡ amount_of depth burst }
{
    match burst {
        Some(burst) => burst.rate + depth,
        None => 0,
    }
}

/// What the burst of a client has reserved.
fn amount_for(depth: u64, table: &Table, client: u64) -> u64
    requires { amount_for depth (entry_of table.now client) < 2 ^ 64 }
    ensures { result ≡ amount_for depth (entry_of table.now client) }
{
    match table.find(client) {
        Some(entry) => amount_of(depth, entry.burst),
        None => 0,
    }
}

/// A client's burst ended: what it had reserved is given back.
fn commit_end(depth: u64, table: &mut Table, budget: &mut Budget, client: u64)
    requires { MayEnd depth (entry_of table.old client) budget.old }
    ensures { committing table.new budget.new ≡ with_closed depth client (committing table.old budget.old) }
{
    budget.release(amount_for(depth, table, client));
    close_entry(table, client);
}

/// A client is no longer known.
fn forget(table: &mut Table, client: u64)
    ensures { table.new ≡ without table.old client }
{
    let _ = table.remove(client);
}

/// What is done for one client.
fn commit_step(depth: u64, table: &mut Table, budget: &mut Budget, step: &Step)
    requires { MayDo depth step.now (committing table.old budget.old) }
    ensures { committing table.new budget.new ≡ with_step depth step.now (committing table.old budget.old) }
{
    match *step {
        Step::Sent(sent) => commit_sendings(table, budget, &sent),
        Step::End { client } => commit_end(depth, table, budget, client),
        Step::Gone { client } => table.wake(client),
        Step::Forgot { client } => forget(table, client),
    }
}

/// What is done for clients, in this order.
pub fn commit_steps(depth: u64, table: &mut Table, budget: &mut Budget, steps: &[Step])
    requires { MayDoAll depth steps.now (committing table.old budget.old) }
    ensures { committing table.new budget.new ≡ with_all_steps depth steps.now (committing table.old budget.old) }
{
    for step in steps {
        commit_step(depth, table, budget, step);
    }
}
