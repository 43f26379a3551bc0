//! What a tick does, planned before any of it is done.
ghost use Rattle.std.specs.Prelude.{◌≡◌, List, IfOk};
ghost use Rattle.rams_model.specs.declared.Event.{Event};
ghost use Rattle.channel_parts.specs.{StandsFor};
ghost use Rattle.client_table.specs.{AreRising};
ghost use Rattle.tick_core.specs.{AreInOrder, AreInTime, AreOfBursts, told_by, begun_left, IsPlanBehind, IsWorkOf, IsPlanOf, IsWorkFor, IsPlanFor};

use crate::allowances::Allowances;
use crate::forgetting::forget_clients;
use crate::repairs::Repairs;
use crate::runs::serve_clients;
use channel_parts::Parts;
use ram_io::NoMemory;
use rams_model::Answer;
use std::alloc::Global;
use tick_draft::{Count, Draft, Step};

/// What a tick does to its channel: a flag for each pending repair, set where it is over, and what is done for
/// its clients. Packets to one client one after another are one step.
#[derive(Drop)]
pub struct TickWork {
    pub done: Vec<bool>,
    pub steps: Vec<Step>,
}

/// What a tick answers, and what it does.
#[derive(Drop)]
pub struct TickPlan {
    pub answer: Answer,
    pub work: TickWork,
}

/// Plans a tick of a channel, and changes nothing.
///
/// First the open bursts, by rising client, are sent what their budgets have room for, and end where
/// they are lost, have come to their stop, or have lasted as long as they may (RFC 6285, 6.2). Then the
/// pending repairs, the oldest first, are sent where they fit into what their clients may take and into
/// what the channel has left (RFC 4588). Then the clients that were idle too long are forgotten.
pub fn plan_tick(alloc: Global, parts: &Parts) -> Result<TickPlan, NoMemory>
    // The parts stand for some events.
    requires stands { (events : List Event) × StandsFor parts.now events }
    ensures stands { (events : List Event) → StandsFor parts.now events → IfOk result (λ plan. IsPlanFor parts.now events plan) }
{
    plan_of(alloc, parts)
}

/// `plan_tick` without its answer: no note and no order is made of a burst.
pub fn plan_work(alloc: Global, parts: &Parts) -> Result<TickWork, NoMemory>
    // The parts stand for some events.
    requires stands { (events : List Event) × StandsFor parts.now events }
    ensures stands { (events : List Event) → StandsFor parts.now events → IfOk result (λ work. IsWorkFor parts.now events work) }
{
    work_of(alloc, parts)
}

/// What a tick may send at most, in bytes.
fn begun_left(parts: &Parts) -> u64
    ensures { result ≡ begun_left parts.now }
{
    let mut budget = parts.budget;
    budget.open_tick();
    budget.left()
}

/// The plan, by what the parts keep.
fn plan_of(alloc: Global, parts: &Parts) -> Result<TickPlan, NoMemory>
    requires held { AreInOrder parts.now.cache.held }
    requires small { AreInTime parts.now.config parts.now.table }
    requires rising { AreRising parts.now.table }
    ensures { IfOk result (λ plan. IsPlanOf parts.now plan) }
{
    let mut draft = Draft::new(alloc, begun_left(parts));
    let allowances = serve_clients(alloc, &parts.config, &parts.cache, &parts.table, &mut draft)?;
    let (draft, done) = plan_behind(alloc, parts, draft, allowances)?;
    let (answer, steps) = draft.finish()?;
    Ok(TickPlan {
        answer,
        work: TickWork { done, steps },
    })
}

/// What is done, by what the parts keep.
fn work_of(alloc: Global, parts: &Parts) -> Result<TickWork, NoMemory>
    requires held { AreInOrder parts.now.cache.held }
    requires small { AreInTime parts.now.config parts.now.table }
    requires rising { AreRising parts.now.table }
    ensures { IfOk result (λ work. IsWorkOf parts.now work) }
{
    let mut count = Count::new(alloc, begun_left(parts));
    let allowances = serve_clients(alloc, &parts.config, &parts.cache, &parts.table, &mut count)?;
    let draft = Draft::new(alloc, count.left());
    let (draft, done) = plan_behind(alloc, parts, draft, allowances)?;
    let (_, rest) = draft.finish()?;
    let steps = count.finish(&rest)?;
    Ok(TickWork { done, steps })
}

/// The pending repairs and the clients that are forgotten, behind the runs.
fn plan_behind(
    alloc: Global,
    parts: &Parts,
    draft: Draft,
    allowances: Allowances,
) -> Result<(Draft, Vec<bool>), NoMemory>
    requires rising { AreRising parts.now.table }
    requires allowances { AreOfBursts parts.now.config parts.now.cache.held parts.now.table (told_by allowances) }
    ensures { IfOk result (λ behind. IsPlanBehind parts.now draft behind.0 behind.1.items) }
{
    let Parts {
        config,
        cache,
        queue,
        table,
        ..
    } = parts;
    let mut repairs = Repairs::new(alloc, table, config.channel().burst, draft, allowances);
    repairs.repair_all(cache, queue)?;
    let (mut draft, done) = repairs.finish();
    forget_clients(config, queue, table, &mut draft)?;
    Ok((draft, done))
}
