//! New parts, by what their own calls say of them.
use crate::fixtures::same;
use channel_config::{Channel, Config};
use channel_parts::{AdmitFault, Parts};
use std::alloc::Global;
use std::process::Abort;
use std::test::Fail;
use test_fixtures::test_calls::let_go;
use test_fixtures::test_channel::CHANNEL;

/// Settings in which no two amounts are the same.
const SETTINGS: Channel = Channel {
    window: 3,
    reserve: 1600,
    limit: 90,
    idle: 80,
    clients: 1,
    depth: 70,
    swell: 60,
    ..CHANNEL
};

fn parts(alloc: Global) -> Result<Parts, Fail> {
    let Ok(config) = Config::check(SETTINGS, 10) else {
        return Err(Fail::new("lawful settings"));
    };
    let Ok(parts) = Parts::new(alloc, &config) else {
        return Err(Fail::new("no memory"));
    };
    Ok(parts)
}

/// What parts hold, whom they know and what they may send.
#[derive(Clone, Copy, PartialEq)]
struct Amounts {
    cache: (u64, u64),
    clients: u32,
    repairs: usize,
    reserved: u64,
    left: u64,
}

fn amounts_of(parts: &Parts) -> Amounts {
    Amounts {
        cache: (parts.cache.lo(), parts.cache.hi()),
        clients: parts.table.count(),
        repairs: parts.queue.len(),
        reserved: parts.budget.reserved(),
        left: parts.budget.left(),
    }
}

/// Nothing is held, nobody is known, no repair is pending, nothing is reserved and nothing is left.
const EMPTY: Amounts = Amounts {
    cache: (0, 0),
    clients: 0,
    repairs: 0,
    reserved: 0,
    left: 0,
};

#[test]
fn new_parts_are_empty(rt: HostRuntime) -> Result<(), Fail> {
    let parts = parts(rt.alloc())?;
    same(&rt, parts.config.channel(), &SETTINGS, &"settings");
    same(&rt, &amounts_of(&parts), &EMPTY, &"new parts");
    let_go(parts);
    Ok(())
}

/// Whether 8,401 and then 8,400 bytes are reserved, and what is left in a tick and in the one after it.
fn budget(parts: &mut Parts) -> ([bool; 2], [u64; 2]) {
    let reserved = [parts.budget.reserve(8401), parts.budget.reserve(8400)];
    parts.budget.open_tick();
    let first = parts.budget.left();
    parts.budget.open_tick();
    (reserved, [first, parts.budget.left()])
}

// Bursts have the share but for the reserve, and a tick that sends nothing keeps the swell.
#[test]
fn new_parts_have_the_amounts_of_the_settings(rt: HostRuntime) -> Result<(), Fail> {
    let mut parts = parts(rt.alloc())?;
    let got = budget(&mut parts);
    let_go(parts);
    same(&rt, &got, &([false, true], [10000, 10060]), &"budget");
    Ok(())
}

/// How a second client is admitted behind a first.
fn second_client(rt: &impl Abort, parts: &mut Parts) -> Result<Option<AdmitFault>, Fail> {
    assert!(rt; parts.table.find(9).is_none());
    let Ok(()) = parts.table.admit(9, 9, 500) else {
        return Err(Fail::new("the first client"));
    };
    assert!(rt; parts.table.find(5).is_none());
    Ok(parts.table.admit(5, 5, 500).err())
}

/// The first client alone comes in.
fn expect_one_client(rt: &impl Abort, parts: &mut Parts) -> Result<(), Fail> {
    let second = second_client(rt, parts)?;
    same(rt, &second, &Some(AdmitFault::Full), &"the second client");
    Ok(())
}

// As many clients are known as the settings allow.
#[test]
fn one_client_is_known(rt: HostRuntime) -> Result<(), Fail> {
    let mut parts = parts(rt.alloc())?;
    let done = expect_one_client(&rt, &mut parts);
    let_go(parts);
    done
}
