//! Two channels, worked out by hand.
ghost use Rattle.std.specs.Prelude.{◌≡◌, ◌+◌, ◌<◌, OnOk, length};

use crate::fixtures::{holds, same};
use crate::row::Given::{Asks, Start, Tick};
use crate::row::{Given, event_of};
use channel_config::Config;
use rams_model::LiveNote::Took;
use rams_model::Note::{Accept, Burst, Live};
use rams_model::{Event, Note};
use server_hub::{AddFault, At, Hub, HubAnswer, HubEvent};
use std::alloc::Global;
use std::process::Abort;
use std::slice;
use std::test::Fail;
use test_fixtures::test_calls::let_go;
use test_fixtures::test_channel::CHANNEL;

/// The channel that an event names, the event, and what is answered.
type Step = (u16, Given, Said);

/// The notes of each channel that answers; or the number of no channel.
type Said = Result<&'static [(u16, &'static [Note])], u16>;

const STEPS: &[Step] = &[
    (7, Start(10, 0, 4), Ok(&[(7, &[Live(Took(65546))])])),
    (8, Start(20, 0, 4), Ok(&[(8, &[Live(Took(65556))])])),
    (9, Start(10, 0, 4), Err(9)),
    (
        7,
        Asks(5, &[]),
        Ok(&[(
            7,
            &[Accept {
                client: 5,
                first: 65546,
                rate: 4000,
                join: 1,
            }],
        )]),
    ),
    (9, Asks(5, &[]), Err(9)),
    (
        0,
        Tick,
        Ok(&[
            (
                7,
                &[Burst {
                    client: 5,
                    n: 65546,
                    seq: 500,
                }],
            ),
            (8, &[]),
        ]),
    ),
];

/// A channel of this number and share is added to the hub.
fn add(rt: &impl Abort, alloc: Global, hub: &mut Hub, id: u16, share: u64) -> Result<(), AddFault>
    ensures { hub.new.calls ≡ hub.old.calls }
{
    let mut settings = CHANNEL;
    settings.id = id;
    settings.share = share;
    let config = Config::check(settings, hub.tick_ms())
        .ok()
        .expect(rt, "lawful settings");
    assert!(rt; config.tick_ms() == hub.tick_ms());
    hub.add(alloc, config)
}

// A channel's number and share, and whether it is added.
type Added = (u16, u64, Result<(), AddFault>);

const TWO_CHANNELS: &[Added] = &[(7, 10_000, Ok(())), (8, 10_000, Ok(()))];

// Behind the channels 1 to 63, each of a 64th of the link.
const REFUSED: &[Added] = &[
    (63, 6_001, Err(AddFault::Twice)),
    (64, 6_001, Err(AddFault::Link)),
    (64, 6_000, Ok(())),
    (65, 6_000, Err(AddFault::Full)),
    (1, 6_000, Err(AddFault::Full)),
];

fn expect_added(rt: &impl Abort, alloc: Global, hub: &mut Hub, rows: &[Added])
    ensures { hub.new.calls ≡ hub.old.calls }
{
    for (id, share, want) in rows {
        same(rt, &add(rt, alloc, hub, *id, *share), want, id);
    }
}

fn event_at(alloc: Global, id: u16, given: Given) -> Result<HubEvent, Fail> {
    Ok(match event_of(alloc, given)? {
        Event::Live(bytes) => HubEvent::Live { id, bytes },
        Event::Feedback { client, bytes } => HubEvent::Feedback { id, client, bytes },
        Event::Tick => HubEvent::Tick,
    })
}

/// These channels answer, each with these notes.
fn are_noted(answers: &[At], want: &[(u16, &[Note])]) -> bool {
    answers.len() == want.len()
        && answers.iter().zip(want).all(|(at, (id, notes))| at.id == *id
            && at.answer.notes.as_slice() == *notes)
}

/// This is answered.
fn is_said(answer: &HubAnswer, want: &Said) -> bool {
    match (answer, want) {
        (HubAnswer::NoChannel(id), Err(want)) => id == want,
        (HubAnswer::Answer(at), Ok(want)) => are_noted(slice::from_ref(at), want),
        (HubAnswer::Answers(answers), Ok(want)) => are_noted(answers, want),
        _ => false,
    }
}

fn expect_steps(rt: &impl Abort, alloc: Global, hub: &mut Hub, steps: &[Step]) -> Result<(), Fail>
    requires { hub.old.calls + length steps.now < 100 }
{
    let mut place = 0usize;
    for (id, given, expected) in steps {
        let event = event_at(alloc, *id, *given)?;
        let answer = hub.hear(alloc, event.heard());
        let_go(event);
        let Ok(answer) = answer else {
            return Err(Fail::new("no memory"));
        };
        holds(rt, is_said(&answer, expected), &place);
        let_go(answer);
        place = place.wrapping_add(1);
    }
    Ok(())
}

// Each event goes to its channel alone, and a tick to both.
#[test]
fn events_go_to_their_channels(rt: HostRuntime) -> Result<(), Fail> {
    let Ok(mut hub) = Hub::new(rt.alloc(), 10, 100_000) else {
        return Err(Fail::new("no memory"));
    };
    same(&rt, &hub.tick_ms(), &10, &"tick");
    expect_added(&rt, rt.alloc(), &mut hub, TWO_CHANNELS);
    let stepped = expect_steps(&rt, rt.alloc(), &mut hub, STEPS);
    let hi = (hub.hi(7), hub.hi(9));
    let_go(hub);
    stepped?;
    same(&rt, &hi, &(Some(65547), None), &"hi");
    Ok(())
}

// A hub of 63 channels.
fn with_63_channels(rt: &impl Abort, alloc: Global) -> Result<Hub, Fail> {
    let Ok(mut hub) = Hub::new(alloc, 10, 64 * 6_000) else {
        return Err(Fail::new("no memory"));
    };
    for id in 1..=63 {
        same(rt, &add(rt, alloc, &mut hub, id, 6_000), &Ok(()), &id);
    }
    Ok(hub)
}

// The first of the faults is the one that is answered: 64 channels, then a number that is known, then
// the link.
#[test]
fn refused_channels(rt: HostRuntime) -> Result<(), Fail> {
    let mut hub = with_63_channels(&rt, rt.alloc())?;
    expect_added(&rt, rt.alloc(), &mut hub, REFUSED);
    let last = hub.config(64).map(|config| config.channel().id);
    same(&rt, &last, &Some(64), &"the last channel");
    holds(&rt, hub.config(65).is_none(), &"channel 65");
    let_go(hub);
    Ok(())
}
