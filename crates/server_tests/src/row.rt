//! What a row of a table is, and how it is run.
ghost use Rattle.std.specs.Prelude.{◌+◌, ◌<◌, ◌^◌, List, [], ◌∷◌, IfOk, OnOk, length};
ghost use Rattle.rams_model.specs.declared.Event.{Event};
ghost use Rattle.server_hub.specs.session_core.{StandsFor, StandsForFewer};

use crate::fixtures::REQUEST;
use channel_config::{Channel, Config};
use rams_model::{Answer, Event, Info, Note, Octets, Order};
use server_hub::session_core::{Core, NoMemory};
use std::alloc::{AllocError, Global};
use std::process::Abort;
use std::test::Fail;
use test_fixtures::test_calls::let_go;
use test_fixtures::test_channel::{SOURCE, bytes_of};

/// What comes to a channel.
#[derive(Clone, Copy)]
pub enum Given {
    /// A packet of its source with the marker (RFC 3550, 5.1): its sequence number, its timestamp, and
    /// the zeros behind its header. Its retransmission takes 42 bytes more than the zeros.
    Start(u16, u32, usize),
    /// One without the marker.
    Next(u16, u32, usize),
    /// A client's RTCP packets, in words, as one datagram.
    Heard(u64, &'static [&'static [u32]]),
    /// A client's RAMS-R with these TLVs (RFC 6285, 7.2), in words.
    Asks(u64, &'static [u32]),
    Tick,
}

/// What comes, what is noted of it, how many datagrams are sent, and what a client is told.
pub type Row = (Given, &'static [Note], usize, Option<Info>);

/// A packet's first word is the one given, but for its number.
fn packet(
    alloc: Global,
    first: u32,
    number: u16,
    timestamp: u32,
    zeros: usize,
) -> Result<Octets, AllocError> {
    let words = [first | u32::from(number), timestamp, SOURCE];
    Ok(Octets::of(bytes_of(alloc, &words, zeros)?))
}

/// Packets of a client as one datagram.
fn joined(alloc: Global, packets: &[&[u32]]) -> Result<Vec<u8>, AllocError> {
    let mut bytes = Vec::new(alloc);
    for words in packets {
        bytes.extend_from_slice(&bytes_of(alloc, words, 0)?)?;
    }
    Ok(bytes)
}

/// A RAMS-R with these TLVs.
fn request(alloc: Global, tlvs: &[u32]) -> Result<Vec<u8>, Fail> {
    let [first, sender, source, kind] = REQUEST;
    let length = u32::try_from(tlvs.len())?;
    let head = [first.saturating_add(length), sender, source, kind];
    let mut bytes = bytes_of(alloc, &head, 0)?;
    bytes.extend_from_slice(&bytes_of(alloc, tlvs, 0)?)?;
    Ok(bytes)
}

/// The event of a channel to which this comes.
pub fn event_of(alloc: Global, given: Given) -> Result<Event, Fail> {
    Ok(match given {
        // v=2, p=0, x=0, cc=0, marker or none, payload type 33.
        Given::Start(number, timestamp, zeros) => {
            Event::Live(packet(alloc, 0x80a1_0000, number, timestamp, zeros)?)
        }
        Given::Next(number, timestamp, zeros) => {
            Event::Live(packet(alloc, 0x8021_0000, number, timestamp, zeros)?)
        }
        Given::Heard(client, packets) => Event::Feedback {
            client,
            bytes: Octets::of(joined(alloc, packets)?),
        },
        Given::Asks(client, tlvs) => Event::Feedback {
            client,
            bytes: Octets::of(request(alloc, tlvs)?),
        },
        Given::Tick => Event::Tick,
    })
}

/// What a client is told, in the first order that tells something.
fn told(answer: &Answer) -> Option<Info> {
    answer.orders.iter().find_map(|order| match order {
        Order::Info { info, .. } => Some(*info),
        Order::Rtx { .. } => None,
    })
}

/// A channel to which nothing came.
fn new_core(alloc: Global, channel: Channel) -> Result<Core, Fail>
    ensures { IfOk result (λ core. StandsFor core []) }
{
    let Ok(config) = Config::check(channel, 10) else {
        return Err(Fail::new("lawful settings"));
    };
    let Ok(core) = Core::new(alloc, &config) else {
        return Err(Fail::new("no memory"));
    };
    Ok(core)
}

/// What a channel answers to the event.
fn answer_of(alloc: Global, core: &mut Core, event: &Event) -> Result<Answer, NoMemory>
    requires { StandsForFewer core.old (2 ^ 40) }
    ensures { (events : List Event) → StandsFor core.old events → OnOk result (StandsFor core.new (event.now ∷ events)) }
{
    match event {
        Event::Live(bytes) => core.live(alloc, bytes.bytes()),
        Event::Feedback { client, bytes } => core.feedback(alloc, *client, bytes.bytes()),
        Event::Tick => core.tick(alloc),
    }
}

/// Each row's event is answered as it says.
fn expect(
    rt: &impl Abort,
    alloc: Global,
    core: &mut Core,
    rows: &[Row],
    case: usize,
) -> Result<(), Fail>
    requires { (events : List Event) × StandsFor core.old events × (length events + length rows.now < 2 ^ 40) }
{
    let mut place = 0usize;
    for (given, notes, orders, info) in rows {
        let event = event_of(alloc, *given)?;
        let answer = answer_of(alloc, core, &event);
        let_go(event);
        let Ok(answer) = answer else {
            return Err(Fail::new("no memory"));
        };
        let got = (answer.notes.as_slice(), answer.orders.len(), told(&answer));
        assert!(rt;
            got == (*notes, *orders, *info),
            "row {place} of case {case}"
        );
        let_go(answer);
        place = place.wrapping_add(1);
    }
    Ok(())
}

/// A channel, and what comes to it from its first event on.
pub type Case = (Channel, &'static [Row]);

/// A new channel with these settings answers each row's event as it says.
fn expect_case(
    rt: &impl Abort,
    alloc: Global,
    channel: Channel,
    rows: &[Row],
    case: usize,
) -> Result<(), Fail>
    requires { length rows.now < 1000 }
{
    let mut core = new_core(alloc, channel)?;
    let expected = expect(rt, alloc, &mut core, rows, case);
    let_go(core);
    expected
}

/// Each case's events are answered as its rows say.
pub fn expect_all(rt: &impl Abort, alloc: Global, cases: &[Case]) -> Result<(), Fail> {
    for (case, (channel, rows)) in cases.iter().enumerate() {
        assert!(rt; rows.len() < 1000);
        expect_case(rt, alloc, *channel, rows, case)?;
    }
    Ok(())
}
