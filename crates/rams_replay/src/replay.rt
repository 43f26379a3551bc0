//! A trace, line by line.
ghost use Rattle.std.specs.Prelude.{◌≡◌, ◌<◌, ◌^◌, ℕ, true, IfOk, OnOk, IsSomeAnd, None, is_some, List};
ghost use Rattle.server_hub.specs.declared.HubEvent.{HubEvent};
ghost use Rattle.server_hub.specs.{StandsFor, event_of, told as said};
ghost use Rattle.server_hub.specs.Served.{Served};
ghost use Rattle.rams_model.specs.Texts.{tick_of};
ghost use Rattle.trace_lines.specs.{shown, HasDigits};
ghost use Rattle.trace_text.specs.{told, IsOther, IsSettled};
ghost use Rattle.trace_loop.specs.trace_book.trace_serving.{Stage, opening, turn, after_line, counted, brought};
ghost use Rattle.trace_loop.specs.{StandsSomewhere};
ghost use Rattle.trace_loop.specs.declared.Turn.TheVariants.{GoesOn};
ghost use Rattle.trace_loop.specs.trace_book.{run};
ghost use Rattle.trace_loop.specs.head_loop.{CanOpen, OpensIn};
ghost use Rattle.rams_replay.specs.{Stands, Comes, CountsOne, Tells, Took, told_text};

use crate::writer::write_said;
use channel_config::Config;
use ram_io::{NoMemory, Sink};
use rams_model::LineFault;
use server_hub::{Heard, Hub, HubAnswer};
use std::alloc::Global;
use trace_loop::{MOST_EVENTS, Stop, TraceServer, Writer};
use trace_text::{Judged, Line, Mode, State, decode_to};

/// What a line of a trace for `run` does.
type Turn = trace_loop::Turn<HubAnswer>;

/// What stands before a line: the channels, how many events there were, and the lines.
#[derive(Drop)]
pub struct Replay {
    hub: Option<Hub>,
    events: u64,
    state: State,
    bytes: Vec<u8>,
}

/// Before the first line.
pub fn new_replay(alloc: Global) -> Replay
    ensures { Stands result.hub result.events result.state (opening run) }
{
    Replay {
        hub: None,
        events: 0,
        state: State::new(Mode::Run),
        bytes: Vec::new(alloc),
    }
}

impl TraceServer for Replay {
    type Answer = HubAnswer;

    ghost state = { List Served };

    ghost event = { HubEvent };

    ghost serving = { run };

    ghost stands = { λ r stage. Stands r.hub r.events r.state stage };

    ghost lines = { λ r answer. told_text r.hub r.events (said answer) };

    fn take_line(&mut self, alloc: Global, line: &[u8]) -> Result<Turn, NoMemory> {
        take_line(alloc, self, line)
    }

    fn write_answer<K: Sink>(
        &self,
        writer: &mut Writer,
        sink: &mut K,
        answer: &HubAnswer,
    ) -> Result<(), Stop> {
        write_said(writer, sink, &self.hub, self.events, answer)
    }
}

/// What the next line does.
fn take_line(alloc: Global, replay: &mut Replay, line: &[u8]) -> Result<Turn, NoMemory>
    requires { StandsSomewhere (Stands replay.old.hub replay.old.events replay.old.state) }
    ensures { IfOk result (λ t. (stage : Stage (List Served)) (number : ℕ) → Stands replay.old.hub replay.old.events replay.old.state stage
        → Took (turn run stage number line.now) replay.new.hub replay.new.events replay.new.state number t) }
{
    match replay.state.judge(line) {
        Ok(read) => after_line(alloc, replay, &read),
        Err(fault) => Ok(Turn::Refused(fault)),
    }
}

/// What a line does that may come.
fn after_line(alloc: Global, replay: &mut Replay, line: &Judged<'_>) -> Result<Turn, NoMemory>
    requires settled { IsSettled (tick_of replay.old.state.head) line.now }
    requires comes { (stage : Stage (List Served)) × Comes replay.old.hub replay.old.events replay.old.state (told line.now) stage }
    ensures { IfOk result (λ t. (stage : Stage (List Served)) (number : ℕ) → Comes replay.old.hub replay.old.events replay.old.state (told line.now) stage
        → Took (after_line run stage replay.old.state (told line.now) (brought run (told line.now))) replay.new.hub replay.new.events replay.new.state number t) }
{
    match line {
        Judged::Channel { config, .. } => open(alloc, &mut replay.hub, *config),
        Judged::Other(line) => after_other(alloc, replay, *line),
    }
}

/// What a line does that opens no channel.
fn after_other(alloc: Global, replay: &mut Replay, line: Line<'_>) -> Result<Turn, NoMemory>
    requires other { IsOther line }
    requires digits { HasDigits line }
    requires comes { (stage : Stage (List Served)) × Comes replay.old.hub replay.old.events replay.old.state (shown line) stage }
    ensures { IfOk result (λ t. (stage : Stage (List Served)) (number : ℕ) → Comes replay.old.hub replay.old.events replay.old.state (shown line.entry) stage
        → Took (after_line run stage replay.old.state (shown line.entry) (brought run (shown line.entry))) replay.new.hub replay.new.events replay.new.state number t) }
{
    match line {
        Line::Head { tick_ms, link, .. } => {
            replay.hub = Some(Hub::new(alloc, tick_ms, link)?);
            Ok(Turn::GoesOn)
        }
        Line::Live { id, hex } => {
            decode_to(hex, &mut replay.bytes)?;
            let heard = Heard::Live {
                id,
                bytes: &replay.bytes,
            };
            serve(alloc, &mut replay.hub, &mut replay.events, heard)
        }
        Line::Feedback { id, client, hex } => {
            decode_to(hex, &mut replay.bytes)?;
            let heard = Heard::Feedback {
                id,
                client,
                bytes: &replay.bytes,
            };
            serve(alloc, &mut replay.hub, &mut replay.events, heard)
        }
        Line::Tick => serve(alloc, &mut replay.hub, &mut replay.events, Heard::Tick),
        Line::End => Ok(Turn::Done(replay.events)),
        // No trace of `run` has these, and a channel line is none of the others.
        Line::Tune { .. }
        | Line::Give { .. }
        | Line::Mcast { .. }
        | Line::Ask { .. }
        | Line::Drop { .. }
        | Line::Channel { .. } => Ok(Turn::GoesOn),
    }
}

/// A channel line opens its channel. The lines before it have shown that it may stand there, so that
/// only memory can be missing.
fn open(alloc: Global, hub: &mut Option<Hub>, config: Config) -> Result<Turn, NoMemory>
    requires { IsSomeAnd hub.old (λ v. CanOpen v config) }
    ensures { IfOk result (λ t. (t ≡ GoesOn) × OpensIn config hub.old hub.new) }
{
    let Some(hub) = hub else {
        return Ok(Turn::Refused(LineFault::Order));
    };
    hub.add(alloc, config).or(Err(NoMemory))?;
    Ok(Turn::GoesOn)
}

/// An event of the server, unless it is one too many.
fn serve(
    alloc: Global,
    hub: &mut Option<Hub>,
    events: &mut u64,
    heard: Heard<'_>,
) -> Result<Turn, NoMemory>
    requires stands { (stage : Stage (List Served)) × Stands hub.old events.old stage.reached stage }
    requires there { is_some hub.old ≡ true }
    ensures { IfOk result (λ t. (stage : Stage (List Served)) (number : ℕ) → Stands hub.old events.old stage.reached stage
        → Took (counted run stage stage.reached (event_of heard.entry)) hub.new events.new stage.reached number t) }
{
    if *events >= MOST_EVENTS {
        return Ok(Turn::TooLong);
    }
    let Some(hub) = hub else {
        return Ok(Turn::Refused(LineFault::Order));
    };
    let answer = answer(alloc, hub, heard)?;
    *events += 1;
    Ok(Turn::Said(answer))
}

/// What the channels answer.
fn answer(alloc: Global, hub: &mut Hub, heard: Heard<'_>) -> Result<HubAnswer, NoMemory>
    requires { hub.old.calls < 2 ^ 40 }
    ensures tells { IfOk result (λ a. (channels : List Served) → StandsFor hub.old channels → Tells (event_of heard.entry) channels hub.new a) }
    ensures counts { OnOk result (CountsOne hub.old hub.new) }
{
    Ok(hub.hear(alloc, heard)?)
}
