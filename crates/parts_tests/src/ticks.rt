//! Ticks of a channel's parts.
ghost use Rattle.std.specs.Prelude.{List, [], ◌∷◌, IfOk, OnOk};
ghost use Rattle.rams_model.specs.declared.{Event.Event, Event.TheVariants.Tick};
ghost use Rattle.channel_parts.specs.{StandsFor};
ghost use Rattle.tick_core.specs.{IsPlanFor};

use crate::fixtures::same;
use channel_config::{Channel, Config};
use std::alloc::Global;
use std::process::Abort;
use std::test::Fail;
use test_fixtures::test_calls::let_go;
use test_fixtures::test_channel::CHANNEL;
use tick_core::{Parts, TickPlan, commit_tick, plan_tick};

const SWELLING: Channel = Channel {
    swell: 1400,
    ..CHANNEL
};

/// Parts to which nothing came.
fn parts(alloc: Global) -> Result<Parts, Fail>
    ensures { IfOk result (λ parts. StandsFor parts []) }
{
    let Ok(config) = Config::check(SWELLING, 10) else {
        return Err(Fail::new("lawful settings"));
    };
    let Ok(parts) = Parts::new(alloc, &config) else {
        return Err(Fail::new("no memory"));
    };
    Ok(parts)
}

/// Does what a plan says.
fn commit(parts: &mut Parts, plan: &TickPlan)
    requires { (events : List Event) × StandsFor parts.old events × IsPlanFor parts.old events plan.now }
    ensures { (events : List Event) → StandsFor parts.old events → IsPlanFor parts.old events plan.now → StandsFor parts.new (Tick ∷ events) }
{
    commit_tick(parts, &plan.work);
}

/// How much a tick's plan notes and settles, and what is left behind it.
fn tick(alloc: Global, parts: &mut Parts) -> Result<(usize, usize, u64), Fail>
    requires { (events : List Event) × StandsFor parts.old events }
    ensures { (events : List Event) → StandsFor parts.old events → OnOk result (StandsFor parts.new (Tick ∷ events)) }
{
    let Ok(plan) = plan_tick(alloc, parts) else {
        return Err(Fail::new("no memory"));
    };
    commit(parts, &plan);
    let noted = plan.answer.notes.as_slice().len();
    Ok((noted, plan.work.done.len(), parts.budget.left()))
}

/// Two ticks of parts to which nothing came keep up to the swell.
fn expect_ticks(rt: &impl Abort, alloc: Global, parts: &mut Parts) -> Result<(), Fail>
    requires { StandsFor parts.old [] }
{
    same(rt, &tick(alloc, parts)?, &(0, 0, 10000), &"the first tick");
    same(rt, &tick(alloc, parts)?, &(0, 0, 11400), &"the second tick");
    Ok(())
}

// Ticks of a channel to which nothing came: its budget keeps up to the swell.
#[test]
fn quiet_ticks(rt: HostRuntime) -> Result<(), Fail> {
    let mut parts = parts(rt.alloc())?;
    let done = expect_ticks(&rt, rt.alloc(), &mut parts);
    let_go(parts);
    done
}
