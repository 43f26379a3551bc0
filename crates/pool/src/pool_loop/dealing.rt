//! The channels of a trace, and what comes to each.
ghost use Rattle.std.specs.Prelude.{◌≡◌, ◌≢◌, ◌<◌, ◌≤◌, ◌++◌, ◌∷◌, [], ℕ, List, All, AllPairs, IfNone, IfOk, IfSome, IsSomeAnd, OnOk, length, map, slice_get};
ghost use Rattle.rams_model.specs.Texts.{tick_of};
ghost use Rattle.rams_model.specs.declared.Event.TheVariants as event;
ghost use Rattle.server_hub.specs.declared.HubEvent.{HubEvent};
ghost use Rattle.server_hub.specs.{after_event_of, after_tick, id_of};
ghost use Rattle.server_hub.specs.Served.{Served};
ghost use Rattle.trace_lines.specs.{shown, HasDigits};
ghost use Rattle.trace_text.specs.{told, IsOther, IsSettled};
ghost use Rattle.trace_loop.specs.trace_book.trace_serving.{Stage, opening, turn, after_line, brought};
ghost use Rattle.trace_loop.specs.trace_book.{run, event_at};
ghost use Rattle.pool.specs.declared.pool_loop.routes.Route.TheVariants.{To, Everyone};
ghost use Rattle.pool.specs.pool_loop.{pool, all_served, Comes, HasDealtBy, HasDealtSome, IsDealt, Took};

use crate::pool_loop::routes::Route;
use channel_config::Config;
use ram_io::NoMemory;
use rams_model::{Event, LineFault, Octets};
use std::alloc::Global;
use trace_loop::whole_trace::{Does, MOST_DEALT_EVENTS};
use trace_text::{Judged, Line, Mode, State, decode};

/// A channel, and its events in order.
#[derive(Drop)]
pub struct Coming {
    pub config: Config,
    pub events: Vec<Event>,
}

/// What the lines so far gave.
#[derive(Drop)]
pub struct Dealt {
    /// The channels, in the order of their lines.
    pub channels: Vec<Coming>,
    /// Where each event went.
    pub routes: Vec<Route>,
    pub(crate) state: State,
}

/// Before the first line.
pub(crate) fn new_dealt(alloc: Global) -> Dealt
    ensures { HasDealtBy result [] (opening pool) }
{
    Dealt {
        channels: Vec::new(alloc),
        routes: Vec::new(alloc),
        state: State::new(Mode::Run),
    }
}

/// The place of the channel of this number; `None` exactly where there is none.
fn place_of(channels: &[Coming], id: u16) -> Option<usize>
    ensures there { IfSome result (λ place. IsSomeAnd (slice_get channels.now place) (λ c. c.config.channel.id ≡ id)) }
    ensures none { IfNone result (All (λ c. c.config.channel.id ≢ id) channels.now) }
{
    channels
        .iter()
        .position(|coming| coming.config.channel().id == id)
}

/// An event comes to the channel of this number, where there is one.
fn deal_one(channels: &mut Vec<Coming>, id: u16, event: Event) -> Result<(), NoMemory>
    requires once { AllPairs (λ x y. x ≢ y) (map id_of (all_served channels.old.items)) }
    ensures { OnOk result (all_served channels.new.items ≡ after_event_of id event (all_served channels.old.items)) }
{
    let Some(place) = place_of(channels, id) else {
        return Ok(());
    };
    channels[place].events.push(event)?;
    Ok(())
}

/// A tick comes to each channel.
fn deal_all(channels: &mut Vec<Coming>) -> Result<(), NoMemory>
    ensures { OnOk result (all_served channels.new.items ≡ after_tick (all_served channels.old.items)) }
{
    for place in 0..channels.len() {
        channels[place].events.push(Event::Tick)?;
    }
    Ok(())
}

/// An event of the channel of this number, unless it is one too many.
fn deal_to(dealt: &mut Dealt, id: u16, event: Event) -> Result<Does, NoMemory>
    requires once { AllPairs (λ x y. x ≢ y) (map id_of (all_served dealt.old.channels.items)) }
    ensures { IfOk result (IsDealt (after_event_of id event) (To id) dealt.old dealt.new) }
{
    if dealt.routes.len() as u64 >= MOST_DEALT_EVENTS {
        return Ok(Does::TooLong);
    }
    deal_one(&mut dealt.channels, id, event)?;
    dealt.routes.push(Route::To(id))?;
    Ok(Does::GoesOn)
}

/// A tick, unless it is one event too many.
fn deal_tick(dealt: &mut Dealt) -> Result<Does, NoMemory>
    ensures { IfOk result (IsDealt after_tick Everyone dealt.old dealt.new) }
{
    if dealt.routes.len() as u64 >= MOST_DEALT_EVENTS {
        return Ok(Does::TooLong);
    }
    deal_all(&mut dealt.channels)?;
    dealt.routes.push(Route::Everyone)?;
    Ok(Does::GoesOn)
}

/// What a line does that may come and opens no channel.
fn after_other(alloc: Global, dealt: &mut Dealt, line: Line<'_>) -> Result<Does, NoMemory>
    requires other { IsOther line }
    requires digits { HasDigits line }
    requires comes { (came : List HubEvent) × (bytes : List ℕ) × (stage : Stage (List Served)) × Comes dealt.old came bytes (shown line) stage }
    ensures { IfOk result (λ does. (came : List HubEvent) (bytes : List ℕ) (stage : Stage (List Served)) (number : ℕ) → Comes dealt.old came bytes (shown line.entry) stage
        → Took dealt.new came (brought run (shown line.entry)) stage (after_line pool stage dealt.old.state (shown line.entry) (brought pool (shown line.entry))) number does) }
{
    match line {
        Line::Head { .. } => Ok(Does::GoesOn),
        Line::Live { id, hex } => {
            let bytes = Octets::of(decode(alloc, hex)?);
            deal_to(dealt, id, Event::Live(bytes))
        }
        Line::Feedback { id, client, hex } => {
            let bytes = Octets::of(decode(alloc, hex)?);
            deal_to(dealt, id, Event::Feedback { client, bytes })
        }
        Line::Tick => deal_tick(dealt),
        Line::End => Ok(Does::Ends),
        // No trace of channels alone has another line, and a channel line is none of these.
        _ => Ok(Does::Refused(LineFault::Order)),
    }
}

/// What a line does that may come.
fn after_line(alloc: Global, dealt: &mut Dealt, line: &Judged<'_>) -> Result<Does, NoMemory>
    requires settled { IsSettled (tick_of dealt.old.state.head) line.now }
    requires comes { (came : List HubEvent) × (bytes : List ℕ) × (stage : Stage (List Served)) × Comes dealt.old came bytes (told line.now) stage }
    ensures { IfOk result (λ does. (came : List HubEvent) (bytes : List ℕ) (stage : Stage (List Served)) (number : ℕ) → Comes dealt.old came bytes (told line.now) stage
        → Took dealt.new came (brought run (told line.now)) stage (after_line pool stage dealt.old.state (told line.now) (brought pool (told line.now))) number does) }
{
    match line {
        Judged::Channel { config, .. } => {
            dealt.channels.push(Coming {
                config: *config,
                events: Vec::new(alloc),
            })?;
            Ok(Does::GoesOn)
        }
        Judged::Other(line) => after_other(alloc, dealt, *line),
    }
}

/// What the next line does.
pub(crate) fn take_line(alloc: Global, dealt: &mut Dealt, line: &[u8]) -> Result<Does, NoMemory>
    requires { HasDealtSome dealt.old }
    ensures { IfOk result (λ does. (came : List HubEvent) (stage : Stage (List Served)) (number : ℕ) → HasDealtBy dealt.old came stage
        → Took dealt.new came (event_at line.now) stage (turn pool stage number line.now) number does) }
{
    match dealt.state.judge(line) {
        Ok(read) => after_line(alloc, dealt, &read),
        Err(fault) => Ok(Does::Refused(fault)),
    }
}
