//! The channels of a journal, and what came to them.
ghost use Rattle.std.specs.Prelude.{◌≡◌, ◌+◌, List, ℕ, Some, IfOk, IsSomeAnd, OnErr, OnOk, is_some, is_ok, true};
ghost use Rattle.rams_model.specs.declared.Mode.TheVariants as modes;
ghost use Rattle.rams_model.specs.Texts.{may_come, line_in_range, accepted, head_line, channel_line, tick_of};
ghost use Rattle.server_hub.specs.{event_of};
ghost use Rattle.server_hub.specs.Served.{Served};
ghost use Rattle.trace_loop.specs.trace_book.trace_serving.{Stage, opening, brought};
ghost use Rattle.trace_loop.specs.trace_book.{run};
ghost use Rattle.trace_loop.specs.head_loop.{CanOpen, OpensIn};
ghost use Rattle.trace_text.specs.declared.Judged.TheVariants as judged;
ghost use Rattle.trace_lines.specs.{HasDigits, shown};
ghost use Rattle.trace_text.specs.{IsOther, IsSettled, told};
ghost use Rattle.takeover.specs.declared.standby.fault.Step.TheVariants as steps;
ghost use Rattle.takeover.specs.standby.{IsSame, Stands, StandsSomewhere, Took, count_of, turn_of};

use crate::standby::fault::{FeedFault, Step};
use arrayvec::ArrayVec;
use channel_config::{Config, MOST_CHANNELS};
use ram_io::NoMemory;
use rams_model::Mode;
use server_hub::{Heard, Hub};
use std::alloc::Global;
use trace_loop::MOST_EVENTS;
use trace_text::{Judged, Line, State};

/// What the lines so far lead to.
#[derive(Drop)]
pub struct Channels {
    /// There is one once a head line came.
    pub hub: Option<Hub>,
    /// The numbers of the channels, in the order of their lines.
    pub ids: ArrayVec<u16, MOST_CHANNELS>,
    /// How many events came.
    pub events: u64,
    pub state: State,
    /// Room for the bytes of a line's digits.
    pub bytes: Vec<u8>,
}

/// Before the first line.
pub fn new_channels(alloc: Global) -> Channels
    ensures stands { Stands result.hub result.ids.items result.events result.state (opening run) }
    ensures count { count_of result.hub result.ids.items result.events ≡ 0 }
{
    Channels {
        hub: None,
        ids: ArrayVec::new(),
        events: 0,
        state: State::new(Mode::Run),
        bytes: Vec::new(alloc),
    }
}

/// The number of the next line. Each line so far is the head line, the line of a channel or that of an
/// event.
pub fn next_number(channels: &Channels) -> u64
    requires { StandsSomewhere channels.now.hub channels.now.ids.items channels.now.events channels.now.state }
    ensures { result ≡ count_of channels.now.hub channels.now.ids.items channels.now.events + 1 }
{
    let heads = u64::from(channels.hub.is_some());
    heads + channels.ids.len() as u64 + channels.events + 1
}

/// The head line gives the hub.
pub fn begin(
    alloc: Global,
    hub: &mut Option<Hub>,
    state: &mut State,
    version: u8,
    tick_ms: u32,
    link: u64,
) -> Result<Step, FeedFault>
    requires may { may_come state.old (head_line version tick_ms link) ≡ true }
    requires range { line_in_range (head_line version tick_ms link) ≡ true }
    requires mode { state.old.mode ≡ modes.Run }
    ensures turn { (stage : Stage (List Served)) (ids : List ℕ) (events number : ℕ) → Stands hub.old ids events state.old stage
        → Took result (turn_of stage number (head_line version tick_ms link)) (Stands hub.new ids events state.new) number }
    ensures same { OnErr result ((hub.new ≡ hub.old) × (state.new ≡ state.old)) }
    ensures goes_on { OnOk result (is_some hub.new ≡ true) }
    ensures step { IfOk result (λ step. step ≡ steps.GoesOn) }
{
    *hub = Some(Hub::new(alloc, tick_ms, link)?);
    state.go_on(&Judged::Other(Line::Head {
        version,
        tick_ms,
        link,
    }));
    Ok(Step::GoesOn)
}

/// Adds a channel. The lines before it have shown that it may stand there, so that only memory can be
/// missing.
fn add(alloc: Global, hub: &mut Option<Hub>, config: Config) -> Result<(), NoMemory>
    requires { IsSomeAnd hub.old (λ v. CanOpen v config) }
    ensures opens { OnOk result (OpensIn config hub.old hub.new) }
    ensures same { OnErr result (hub.new ≡ hub.old) }
{
    let Some(hub) = hub else { unreachable!() };
    hub.add(alloc, config).or(Err(NoMemory))
}

/// The line of a channel opens it.
pub fn open(
    alloc: Global,
    channels: &mut Channels,
    line: &Judged<'_>,
    version: u8,
    config: Config,
) -> Result<Step, FeedFault>
    requires line { line.now ≡ judged.Channel version config }
    requires accepted { is_ok (accepted channels.old.state (told line.now)) ≡ true }
    requires settled { IsSettled (tick_of channels.old.state.head) line.now }
    requires stands { StandsSomewhere channels.old.hub channels.old.ids.items channels.old.events channels.old.state }
    ensures turn { (stage : Stage (List Served)) (number : ℕ) → Stands channels.old.hub channels.old.ids.items channels.old.events channels.old.state stage
        → number ≡ count_of channels.old.hub channels.old.ids.items channels.old.events + 1
        → Took result (turn_of stage number (told line.now)) (Stands channels.new.hub channels.new.ids.items channels.new.events channels.new.state) number }
    ensures same { OnErr result (IsSame channels.old.hub channels.new.hub channels.old.ids.items channels.new.ids.items channels.old.events channels.new.events channels.old.state channels.new.state) }
    ensures count { OnOk result (count_of channels.new.hub channels.new.ids.items channels.new.events ≡ count_of channels.old.hub channels.old.ids.items channels.old.events + 1) }
    ensures step { IfOk result (λ step. step ≡ steps.GoesOn) }
{
    add(alloc, &mut channels.hub, config)?;
    channels.state.go_on(line);
    channels.ids.push(config.channel().id);
    Ok(Step::GoesOn)
}

/// The event of a line, unless it is one too many. What the channels answer is let go.
pub fn serve(
    alloc: Global,
    hub: &mut Option<Hub>,
    events: &mut u64,
    state: &mut State,
    heard: Heard<'_>,
    line: &Line<'_>,
) -> Result<Step, FeedFault>
    requires may { may_come state.old (shown line.now) ≡ true }
    requires range { line_in_range (shown line.now) ≡ true }
    requires other { IsOther line.now }
    requires digits { HasDigits line.now }
    requires brings { brought run (shown line.now) ≡ Some (event_of heard) }
    requires stands { (ids : List ℕ) × StandsSomewhere hub.old ids events.old state.old }
    ensures turn { (stage : Stage (List Served)) (ids : List ℕ) (number : ℕ) → Stands hub.old ids events.old state.old stage
        → Took result (turn_of stage number (shown line.now)) (Stands hub.new ids events.new state.new) number }
    ensures same { OnErr result ((hub.new ≡ hub.old) × (events.new ≡ events.old) × (state.new ≡ state.old)) }
    ensures there { is_some hub.new ≡ is_some hub.old }
    ensures counts { OnOk result (events.new ≡ events.old + 1) }
    ensures step { IfOk result (λ step. step ≡ steps.GoesOn) }
{
    if *events >= MOST_EVENTS {
        return Err(FeedFault::TooLong);
    }
    let Some(hub) = hub else { unreachable!() };
    hub.hear(alloc, heard)?;
    *events += 1;
    state.go_on(&Judged::Other(*line));
    Ok(Step::GoesOn)
}
