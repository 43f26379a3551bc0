//! The trace of a world, line by line.
ghost use Rattle.std.specs.Prelude.{◌≡◌, ◌≤◌, ◌+◌, ◌-◌, ◌^◌, ℕ, true, IfOk, IsSomeAnd, is_some, None};
ghost use Rattle.rams_model.specs.Texts.{tick_of};
ghost use Rattle.trace_lines.specs.{shown, HasDigits};
ghost use Rattle.trace_text.specs.{told, IsOther, IsSettled};
ghost use Rattle.trace_loop.specs.trace_book.trace_serving.{Stage, opening, turn, after_line, eventless, counted, brought};
ghost use Rattle.trace_loop.specs.{StandsSomewhere};
ghost use Rattle.trace_loop.specs.declared.Turn.TheVariants.{GoesOn};
ghost use Rattle.meet_loop.specs.world_laws.World.{World as Worlds};
ghost use Rattle.meet_loop.specs.declared.world_laws.world.WorldEvent.{WorldEvent};
ghost use Rattle.meet_loop.specs.world_net.{CameAtMost, StandsFor};
ghost use Rattle.meet_loop.specs.world_text.{notes_lines};
ghost use Rattle.meet_loop.specs.world_book.{meet};
ghost use Rattle.meet_loop.specs.{Stands, Comes, CanOpen, OpensIn, IsUnder, Happens, Took};

use crate::event::{event_of, give_back};
use crate::world_net::{Hub, World, WorldEvent, WorldNote};
use crate::writer::write_notes;
use channel_config::Config;
use ram_io::{NoMemory, Sink};
use rams_model::{LineFault, MOST_ON_WIRE};
use receiver_core::Bump;
use std::alloc::Global;
use trace_loop::{Stop, TraceServer, Writer};
use trace_text::{Judged, Line, Mode, State};

/// Most events of a trace of `meet`.
const MOST_WORLD_EVENTS: u64 = 100_000;

/// Most datagrams that are sent in a world, by the server and by receivers.
const MOST_DATAGRAMS: u64 = 400_000;

/// What a line of a trace for `meet` does.
type Turn = trace_loop::Turn<()>;

/// What stands before a line: the world, how many events there were, and the lines. What was said of the
/// last event is kept until the next.
#[derive(Drop)]
pub(crate) struct Meeting<'a> {
    /// The bytes of packets and datagrams stay here as long as the world does.
    arena: &'a Bump,
    /// `None` before the head line.
    world: Option<World<'a>>,
    events: u64,
    state: State,
    notes: Vec<WorldNote<'a>>,
    /// An event's bytes stand here.
    room: Vec<u8>,
}

/// Before the first line.
pub(crate) fn new_meeting(alloc: Global, arena: &Bump) -> Meeting<'_>
    ensures { Stands result.world result.events result.state (opening meet) }
{
    Meeting {
        arena,
        world: None,
        events: 0,
        state: State::new(Mode::Meet),
        notes: Vec::new(alloc),
        room: Vec::new(alloc),
    }
}

impl<'a> TraceServer for Meeting<'a> {
    type Answer = ();

    ghost state = { Worlds };

    ghost event = { WorldEvent };

    ghost serving = { meet };

    ghost stands = { λ m stage. Stands m.world m.events m.state stage };

    ghost lines = { λ m answer. notes_lines m.events m.notes.items };

    fn take_line(&mut self, alloc: Global, line: &[u8]) -> Result<Turn, NoMemory> {
        take_line(alloc, self, line)
    }

    fn write_answer<K: Sink>(
        &self,
        writer: &mut Writer,
        sink: &mut K,
        _answer: &(),
    ) -> Result<(), Stop> {
        write_notes(writer, sink, self.events, &self.notes)
    }
}

/// What the next line does.
fn take_line(alloc: Global, meeting: &mut Meeting<'_>, line: &[u8]) -> Result<Turn, NoMemory>
    requires { StandsSomewhere (Stands meeting.old.world meeting.old.events meeting.old.state) }
    ensures { IfOk result (λ t. (stage : Stage Worlds) (number : ℕ) → Stands meeting.old.world meeting.old.events meeting.old.state stage
        → Took (turn meet stage number line.now) meeting.new.world meeting.new.events meeting.new.state meeting.new.notes.items number t) }
{
    match meeting.state.judge(line) {
        Ok(read) => after_line(alloc, meeting, &read),
        Err(fault) => Ok(Turn::Refused(fault)),
    }
}

/// What a line does that may come.
fn after_line(alloc: Global, meeting: &mut Meeting<'_>, line: &Judged<'_>) -> Result<Turn, NoMemory>
    requires settled { IsSettled (tick_of meeting.old.state.head) line.now }
    requires comes { (stage : Stage Worlds) × Comes meeting.old.world meeting.old.events meeting.old.state (told line.now) stage }
    ensures { IfOk result (λ t. (stage : Stage Worlds) (number : ℕ) → Comes meeting.old.world meeting.old.events meeting.old.state (told line.now) stage
        → Took (after_line meet stage meeting.old.state (told line.now) (brought meet (told line.now))) meeting.new.world meeting.new.events meeting.new.state meeting.new.notes.items number t) }
{
    match line {
        Judged::Channel { config, .. } => open(alloc, &mut meeting.world, *config),
        Judged::Other(line) => after_other(alloc, meeting, *line),
    }
}

/// What a line does that opens no channel.
fn after_other(alloc: Global, meeting: &mut Meeting<'_>, line: Line<'_>) -> Result<Turn, NoMemory>
    requires other { IsOther line }
    requires digits { HasDigits line }
    requires comes { (stage : Stage Worlds) × Comes meeting.old.world meeting.old.events meeting.old.state (shown line) stage }
    ensures { IfOk result (λ t. (stage : Stage Worlds) (number : ℕ) → Comes meeting.old.world meeting.old.events meeting.old.state (shown line.entry) stage
        → Took (after_line meet stage meeting.old.state (shown line.entry) (brought meet (shown line.entry))) meeting.new.world meeting.new.events meeting.new.state meeting.new.notes.items number t) }
{
    match event_of(alloc, &mut meeting.room, line)? {
        Some(event) => {
            let turn = serve(
                alloc,
                &mut meeting.world,
                &mut meeting.events,
                &mut meeting.notes,
                &event,
            );
            give_back(event, &mut meeting.room);
            turn
        }
        None => begin_or_end(alloc, meeting, line),
    }
}

/// A head line begins the world, and `end` ends the trace; every other line opens a channel or brings
/// an event.
fn begin_or_end(alloc: Global, meeting: &mut Meeting<'_>, line: Line<'_>) -> Result<Turn, NoMemory>
    requires other { IsOther line }
    requires silent { brought meet (shown line) ≡ None }
    requires comes { (stage : Stage Worlds) × Comes meeting.old.world meeting.old.events meeting.old.state (shown line) stage }
    ensures { IfOk result (λ t. (stage : Stage Worlds) (number : ℕ) → Comes meeting.old.world meeting.old.events meeting.old.state (shown line.entry) stage
        → Took (eventless meet stage meeting.old.state (shown line.entry)) meeting.new.world meeting.new.events meeting.new.state meeting.new.notes.items number t) }
{
    match line {
        Line::Head { tick_ms, link, .. } => {
            meeting.world = Some(new_world(alloc, meeting.arena, tick_ms, link)?);
            Ok(Turn::GoesOn)
        }
        Line::End => Ok(Turn::Done(meeting.events)),
        _ => unreachable!(),
    }
}

/// A world without channels, for ticks of `tick_ms` ms and a link of so many bytes a tick.
fn new_world(alloc: Global, arena: &Bump, tick_ms: u32, link: u64) -> Result<World<'_>, NoMemory>
    requires tick_least { 1 ≤ tick_ms }
    requires tick_most { tick_ms ≤ 1000 }
    requires link_least { MOST_ON_WIRE ≤ link }
    requires link_most { link ≤ 1000000000 }
    ensures { IfOk result (IsUnder tick_ms link) }
{
    let hub = Hub::new(alloc, tick_ms, link)?;
    Ok(World::new(alloc, arena, hub))
}

/// A channel line opens its channel. The lines before it have shown that it may stand there, so that
/// only memory can be missing.
fn open(alloc: Global, world: &mut Option<World<'_>>, config: Config) -> Result<Turn, NoMemory>
    requires { IsSomeAnd world.old (λ v. CanOpen v config) }
    ensures { IfOk result (λ t. (t ≡ GoesOn) × OpensIn config world.old world.new) }
{
    let Some(world) = world else {
        return Ok(Turn::Refused(LineFault::Order));
    };
    world.add(alloc, config).or(Err(NoMemory))?;
    Ok(Turn::GoesOn)
}

/// An event of the world, unless it is one too many, or brings a datagram too many.
fn serve<'a>(
    alloc: Global,
    world: &mut Option<World<'a>>,
    events: &mut u64,
    notes: &mut Vec<WorldNote<'a>>,
    event: &WorldEvent,
) -> Result<Turn, NoMemory>
    requires stands { (stage : Stage Worlds) × Stands world.old events.old stage.reached stage }
    requires there { is_some world.old ≡ true }
    ensures { IfOk result (λ t. (stage : Stage Worlds) (number : ℕ) → Stands world.old events.old stage.reached stage → stage.reached.begun ≡ true
        → Took (counted meet stage stage.reached event.now) world.new events.new stage.reached notes.new.items number t) }
{
    if *events >= MOST_WORLD_EVENTS {
        return Ok(Turn::TooLong);
    }
    let Some(world) = world else {
        return Ok(Turn::Refused(LineFault::Order));
    };
    if !happen(alloc, world, event, notes)? {
        return Ok(Turn::TooLong);
    }
    *events += 1;
    Ok(Turn::Said(()))
}

/// What is said of an event stands in `notes` then. Whether it brings no datagram too many.
fn happen<'a>(
    alloc: Global,
    world: &mut World<'a>,
    event: &WorldEvent,
    notes: &mut Vec<WorldNote<'a>>,
) -> Result<bool, NoMemory>
    requires { CameAtMost (2 ^ 40 - 1) world.old.kept }
    ensures said { IfOk result (λ fits. (w : Worlds) → StandsFor world.old w → Happens event.now w world.new notes.new.items fits) }
    ensures few { (n : ℕ) → CameAtMost n world.old.kept → CameAtMost (n + 1) world.new.kept }
{
    world.step(alloc, event, notes)?;
    Ok(world.datagrams() <= MOST_DATAGRAMS)
}
