//! A tick of all channels, planned for each before any of it is done.
ghost use Rattle.std.specs.Prelude.{◌≡◌, ◌≤◌, [], IfOk, OnErr, length};
ghost use Rattle.std.specs.Vec.{vec_capacity};
ghost use Rattle.server_hub.specs.session_core.{IsPlanOf};
ghost use Rattle.server_hub.specs.{Pairwise, Ticks, AllTick};

use crate::event::At;
use crate::session_core::{Core, TickPlan};
use ram_io::NoMemory;
use std::alloc::Global;

/// A tick of each core, in their order: all are planned before one is committed.
pub(crate) fn tick_all(alloc: Global, cores: &mut [Core]) -> Result<Vec<At>, NoMemory>
    ensures ticks { IfOk result (λ answers. AllTick cores.old cores.new answers.items) }
    ensures same { OnErr result (cores.new ≡ cores.old) }
{
    let mut answers = Vec::with_capacity(alloc, cores.len())?;
    let plans = plan_all(alloc, cores)?;
    commit_all(cores, plans, &mut answers);
    Ok(answers)
}

/// The plans of a tick, each for the core at its place.
fn plan_all(alloc: Global, cores: &[Core]) -> Result<Vec<TickPlan>, NoMemory>
    ensures { IfOk result (λ plans. Pairwise IsPlanOf cores.now plans.items) }
{
    let mut plans = Vec::with_capacity(alloc, cores.len())?;
    for core in cores {
        plans.push(core.plan_tick(alloc)?)?;
    }
    Ok(plans)
}

/// Does what was planned for each core, in their order. The answers have room for theirs.
fn commit_all(cores: &mut [Core], plans: Vec<TickPlan>, answers: &mut Vec<At>)
    requires plans { Pairwise IsPlanOf cores.old plans.items }
    requires none { answers.old.items ≡ [] }
    requires room { length cores.old ≤ vec_capacity answers.old }
    ensures { AllTick cores.old cores.new answers.new.items }
{
    let mut plans = plans.into_iter();
    for core in cores.iter_mut() {
        let plan = plans.next().unwrap();
        answers.push(commit(core, plan)).unwrap();
    }
}

/// Does what was planned for one core.
fn commit(core: &mut Core, plan: TickPlan) -> At
    requires plan { IsPlanOf core.old plan }
    ensures { Ticks core.old core.new result }
{
    let id = core.config().channel().id;
    let answer = core.commit_tick(plan);
    At { id, answer }
}
