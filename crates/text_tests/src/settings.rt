//! Settings of a channel that are lawful, and why others aren't.
use crate::fixtures::same;
use channel_config::{Channel, Config, ConfigFault, lawful_settings};
use std::process::Abort;
use std::test::Fail;
use test_fixtures::test_channel::CHANNEL;

/// Settings whose share is as much as one may be.
const LAWFUL: Channel = Channel {
    share: 1_000_000_000,
    ..CHANNEL
};

const RANGE: Option<ConfigFault> = Some(ConfigFault::Range);

/// Settings that are changed, at a tick of 10 ms where it isn't, and the fault.
type Row = (&'static [(&'static str, u32)], Option<ConfigFault>);

const ROWS: &[Row] = &[
    (&[], None),
    (&[("tick", 0)], RANGE),
    (&[("tick", 1)], None),
    (&[("tick", 1_000)], None),
    (&[("tick", 1_001)], RANGE),
    (&[("id", 0)], RANGE),
    (&[("id", 65_535)], None),
    (&[("pt", 127), ("rtx", 0)], None),
    (&[("pt", 128)], RANGE),
    (&[("rtx", 128)], RANGE),
    (&[("ring", 0)], RANGE),
    (&[("ring", 32_768)], None),
    (&[("ring", 32_769)], RANGE),
    (&[("window", 64)], None),
    (&[("window", 65)], RANGE),
    (&[("share", 1_499)], RANGE),
    (&[("share", 1_000_000_001)], RANGE),
    (&[("reserve", 1_499)], RANGE),
    (&[("reserve", 1_000_000_001)], RANGE),
    (&[("burst", 1_499), ("declared", 0)], RANGE),
    (&[("burst", 1_000_000_001)], RANGE),
    (&[("declared", 1_000_000_001)], RANGE),
    (&[("minwire", 41)], RANGE),
    (&[("minwire", 1_500)], None),
    (&[("minwire", 1_501)], RANGE),
    (&[("limit", 0)], RANGE),
    (&[("limit", 1_000_000)], None),
    (&[("limit", 1_000_001)], RANGE),
    (&[("idle", 0)], RANGE),
    (&[("idle", 1_000_001)], RANGE),
    (&[("clients", 0)], RANGE),
    (&[("clients", 1_024)], None),
    (&[("clients", 1_025)], RANGE),
    (&[("depth", 1_000_000_001)], RANGE),
    (&[("swell", 1_000_000_000)], None),
    (&[("swell", 1_000_000_001)], RANGE),
    // a range is looked at before the rules
    (&[("pt", 99), ("ring", 0)], RANGE),
    // the payload types differ
    (&[("pt", 99)], Some(ConfigFault::Rule(1))),
    (&[("pt", 99), ("burst", 1_599)], Some(ConfigFault::Rule(1))),
    // a burst has room for a packet of 1,500 bytes beside what the source declares
    (&[("burst", 1_600)], None),
    (&[("burst", 1_599)], Some(ConfigFault::Rule(2))),
    (
        &[("burst", 1_599), ("share", 1_500)],
        Some(ConfigFault::Rule(2)),
    ),
    // the share has room for the reserve, a burst and what a burst keeps
    (&[("share", 5_500)], None),
    (&[("share", 5_499)], Some(ConfigFault::Rule(3))),
    (&[("share", 5_600), ("depth", 100)], None),
    (
        &[("share", 5_599), ("depth", 100)],
        Some(ConfigFault::Rule(3)),
    ),
    (&[("reserve", 1_000_000_000)], Some(ConfigFault::Rule(3))),
];

/// Sets one of the settings, or the tick.
fn change(c: &mut Channel, tick_ms: &mut u32, setting: &str, n: u32) -> Result<(), Fail> {
    match setting {
        "tick" => *tick_ms = n,
        "id" => c.id = u16::try_from(n)?,
        "pt" => c.pt = u8::try_from(n)?,
        "rtx" => c.rtx = u8::try_from(n)?,
        "ring" => c.ring = n,
        "window" => c.window = n,
        "share" => c.share = u64::from(n),
        "reserve" => c.reserve = u64::from(n),
        "burst" => c.burst = u64::from(n),
        "declared" => c.declared = u64::from(n),
        "minwire" => c.minwire = u64::from(n),
        "limit" => c.limit = n,
        "idle" => c.idle = n,
        "clients" => c.clients = n,
        "depth" => c.depth = u64::from(n),
        "swell" => c.swell = u64::from(n),
        _ => return Err(Fail::from("no such setting")),
    }
    Ok(())
}

/// The lawful settings with these changes, and the tick in ms.
fn changed(changes: &[(&str, u32)]) -> Result<(Channel, u32), Fail> {
    let mut channel = LAWFUL;
    let mut tick_ms = 10;
    for &(setting, n) in changes {
        change(&mut channel, &mut tick_ms, setting, n)?;
    }
    Ok((channel, tick_ms))
}

/// The fault of these settings; where there is none, they are kept.
fn fault_of(changes: &[(&str, u32)]) -> Result<Option<ConfigFault>, Fail> {
    let (channel, tick_ms) = changed(changes)?;
    match Config::check(channel, tick_ms) {
        Err(fault) => Ok(Some(fault)),
        Ok(config) if *config.channel() == channel && config.tick_ms() == tick_ms => Ok(None),
        Ok(_) => Err(Fail::from("other settings")),
    }
}

fn expect(rt: &impl Abort, rows: &[Row]) -> Result<(), Fail> {
    for (place, (changes, fault)) in rows.iter().enumerate() {
        same(rt, &fault_of(changes)?, fault, &place);
    }
    Ok(())
}

#[test]
fn settings_are_checked(rt: HostRuntime) -> Result<(), Fail> {
    lawful_settings();
    expect(&rt, ROWS)
}
