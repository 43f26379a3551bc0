//! The turns of a server that may have only so many more events.
ghost use Rattle.std.specs.Prelude.{◌≡◌, ◌+◌, ◌^◌, ◌<◌, ◌≤◌, Bool, ℕ, List, [], ◌∷◌, ◌++◌, IfErr, IfOk, IfSome, OnOk, Ok, Some, drop, length, option_map, take, true};
ghost use Rattle.ram_io.specs.declared.Incoming.{Incoming};
ghost use Rattle.ram_io.specs.{later};
ghost use Rattle.server_hub.specs.declared.HubEvent.{HubEvent};
ghost use Rattle.server_hub.specs.{event_of};
ghost use Rattle.trace_loop.specs.journal_book.{next_moment, tick_at, due_after, event_lines, events_of, sent_for, behind};
ghost use Rattle.serve_loop.specs.{AnswersFrom, Begun, Broken, HasRoom, IsBetween, IsServer, IsStoppedOutside, OnlyMemoryStops, Room, Serving, next_events};
ghost use Rattle.takeover.specs.takeover_loop.{DoesWithin, IsWithin};

use ram_io::{Clock, Sink, Wire};
use serve_loop::{MOST_DATAGRAM, Server, Watch, hear};
use server_hub::Heard;
use std::alloc::Global;
use trace_loop::head_loop::event_at;
use trace_loop::{Stop, flush};

/// When the next tick is due, in ms, and how many events may come still.
#[derive(Clone, Copy)]
pub struct Pace {
    pub due: u64,
    pub left: u64,
}

/// Hears an event, where one may come still. Answers how many may come then; `None` where it is one too
/// many, and isn't done.
fn hear_within<K: Sink, W: Wire, T: Watch>(
    alloc: Global,
    server: &mut Server,
    sink: &mut K,
    wire: &mut W,
    heard: Heard<'_>,
    first: u16,
    left: u64,
    watch: &T,
) -> Result<Option<u64>, Stop>
    requires server { IsServer server.old.live server.old.ids.items server.old.hub }
    requires calls { server.old.hub.calls + left ≤ 1000000 }
    requires ports { first + 128 < 2 ^ 16 }
    ensures within { IfOk result (DoesWithin (event_of heard.entry ∷ []) left) }
    ensures goes_on { (b : Begun) (events : List HubEvent)
        → IsBetween b events server.old.live server.old.ids.items server.old.hub (K.held sink.old) server.old.journal (W.sent wire.old)
        → AnswersFrom server.old.live server.old.ids.items (event_of heard.entry) first
        → OnOk result (IsBetween b (events ++ take left (event_of heard.entry ∷ [])) server.new.live server.new.ids.items server.new.hub (K.held sink.new) server.new.journal (W.sent wire.new)) }
    ensures breaks { (b : Begun) (events : List HubEvent)
        → IsBetween b events server.old.live server.old.ids.items server.old.hub (K.held sink.old) server.old.journal (W.sent wire.old)
        → AnswersFrom server.old.live server.old.ids.items (event_of heard.entry) first
        → IfErr result (Broken b (events ++ take left (event_of heard.entry ∷ [])) (K.held sink.new) server.new.journal (W.sent wire.new)) }
    ensures server { OnOk result (IsServer server.new.live server.new.ids.items server.new.hub) }
    ensures calls { IfOk result (λ o. IfSome o (λ after. server.new.hub.calls + after ≤ 1000000)) }
    ensures tick { server.new.hub.tick ≡ server.old.hub.tick }
    ensures untaken { W.arrivals wire.new ≡ W.arrivals wire.old }
    ensures cause { IsStoppedOutside (K.faults sink.old) (K.faults sink.new) (W.faults wire.old) (W.faults wire.new) result }
    ensures steady { (b : Begun) (events : List HubEvent) (more : Room)
        → IsBetween b events server.old.live server.old.ids.items server.old.hub (K.held sink.old) server.old.journal (W.sent wire.old)
        → AnswersFrom server.old.live server.old.ids.items (event_of heard.entry) first
        → HasRoom (K.is_steady sink.old) (W.is_steady wire.old) (server.old.journal ++ event_lines (take left (event_of heard.entry ∷ [])))
        (sent_for (b.live + 1) (behind events b.channels) (take left (event_of heard.entry ∷ []))) more
        → OnlyMemoryStops result (HasRoom (K.is_steady sink.new) (W.is_steady wire.new) server.new.journal [] more) }
{
    if left == 0 {
        return Ok(None);
    }
    hear(alloc, server, sink, wire, heard, first, watch)?;
    Ok(Some(left - 1))
}

/// Takes what comes next, and hears it where it is an event. Where nothing comes, what waits goes to the
/// sink. Answers how many events may come then; `None` where this one is one too many.
fn take_arrival<K: Sink, W: Wire, T: Watch>(
    alloc: Global,
    server: &mut Server,
    sink: &mut K,
    wire: &mut W,
    room: &mut [u8],
    left: u64,
    watch: &T,
) -> Result<Option<u64>, Stop>
    requires server { IsServer server.old.live server.old.ids.items server.old.hub }
    requires calls { server.old.hub.calls + left ≤ 1000000 }
    requires room { length room.old ≡ 2000 }
    ensures within { (b : Begun) (events : List HubEvent) (arrivals : List Incoming)
        → IsBetween b events server.old.live server.old.ids.items server.old.hub (K.held sink.old) server.old.journal (W.sent wire.old)
        → W.arrivals wire.old ≡ Some arrivals → IfOk result (DoesWithin (next_events b arrivals) left) }
    ensures goes_on { (b : Begun) (events : List HubEvent) (arrivals : List Incoming)
        → IsBetween b events server.old.live server.old.ids.items server.old.hub (K.held sink.old) server.old.journal (W.sent wire.old)
        → W.arrivals wire.old ≡ Some arrivals
        → OnOk result (IsBetween b (events ++ take left (next_events b arrivals)) server.new.live server.new.ids.items server.new.hub (K.held sink.new) server.new.journal (W.sent wire.new)) }
    ensures breaks { (b : Begun) (events : List HubEvent) (arrivals : List Incoming)
        → IsBetween b events server.old.live server.old.ids.items server.old.hub (K.held sink.old) server.old.journal (W.sent wire.old)
        → W.arrivals wire.old ≡ Some arrivals
        → IfErr result (Broken b (events ++ take left (next_events b arrivals)) (K.held sink.new) server.new.journal (W.sent wire.new)) }
    ensures left { (arrivals : List Incoming) → W.arrivals wire.old ≡ Some arrivals → OnOk result (W.arrivals wire.new ≡ Some (drop 1 arrivals)) }
    ensures server { OnOk result (IsServer server.new.live server.new.ids.items server.new.hub) }
    ensures calls { IfOk result (λ o. IfSome o (λ after. server.new.hub.calls + after ≤ 1000000)) }
    ensures tick { server.new.hub.tick ≡ server.old.hub.tick }
    ensures cause { IsStoppedOutside (K.faults sink.old) (K.faults sink.new) (W.faults wire.old) (W.faults wire.new) result }
    ensures steady { (b : Begun) (events : List HubEvent) (arrivals : List Incoming) (more : Room)
        → IsBetween b events server.old.live server.old.ids.items server.old.hub (K.held sink.old) server.old.journal (W.sent wire.old)
        → W.arrivals wire.old ≡ Some arrivals
        → HasRoom (K.is_steady sink.old) (W.is_steady wire.old) (server.old.journal ++ event_lines (take left (next_events b arrivals)))
        (sent_for (b.live + 1) (behind events b.channels) (take left (next_events b arrivals))) more
        → OnlyMemoryStops result (HasRoom (K.is_steady sink.new) (W.is_steady wire.new) server.new.journal [] more) }
{
    match wire.receive(room) {
        Err(_) => Err(Stop::Wire),
        Ok(None) => {
            flush(&mut server.journal, sink)?;
            Ok(Some(left))
        }
        Ok(Some(arrival)) => {
            match event_at(server.live, &server.ids, arrival, &room[..arrival.len]) {
                Some(e) => {
                    hear_within(alloc, server, sink, wire, e.heard, e.feedback, left, watch)
                }
                None => Ok(Some(left)),
            }
        }
    }
}

/// A tick, where the moment has reached the due one. Answers when the next is due, and how many events
/// may come then; `None` where the tick is one too many.
fn hear_tick<K: Sink, W: Wire, T: Watch>(
    alloc: Global,
    server: &mut Server,
    sink: &mut K,
    wire: &mut W,
    pace: Pace,
    moment: u64,
    watch: &T,
) -> Result<Option<Pace>, Stop>
    requires server { IsServer server.old.live server.old.ids.items server.old.hub }
    requires calls { server.old.hub.calls + pace.left ≤ 1000000 }
    requires moment { moment < 2 ^ 62 }
    ensures within { IfOk result (λ o. DoesWithin (tick_at pace.due moment) pace.left (option_map (λ p. p.left) o)) }
    ensures due { IfOk result (λ o. IfSome o (λ next. next.due ≡ due_after server.old.hub.tick pace.due moment)) }
    ensures goes_on { (b : Begun) (events : List HubEvent)
        → IsBetween b events server.old.live server.old.ids.items server.old.hub (K.held sink.old) server.old.journal (W.sent wire.old)
        → OnOk result (IsBetween b (events ++ take pace.left (tick_at pace.due moment)) server.new.live server.new.ids.items server.new.hub (K.held sink.new) server.new.journal (W.sent wire.new)) }
    ensures breaks { (b : Begun) (events : List HubEvent)
        → IsBetween b events server.old.live server.old.ids.items server.old.hub (K.held sink.old) server.old.journal (W.sent wire.old)
        → IfErr result (Broken b (events ++ take pace.left (tick_at pace.due moment)) (K.held sink.new) server.new.journal (W.sent wire.new)) }
    ensures server { OnOk result (IsServer server.new.live server.new.ids.items server.new.hub) }
    ensures calls { IfOk result (λ o. IfSome o (λ next. server.new.hub.calls + next.left ≤ 1000000)) }
    ensures tick { server.new.hub.tick ≡ server.old.hub.tick }
    ensures untaken { W.arrivals wire.new ≡ W.arrivals wire.old }
    ensures cause { IsStoppedOutside (K.faults sink.old) (K.faults sink.new) (W.faults wire.old) (W.faults wire.new) result }
    ensures steady { (b : Begun) (events : List HubEvent) (more : Room)
        → IsBetween b events server.old.live server.old.ids.items server.old.hub (K.held sink.old) server.old.journal (W.sent wire.old)
        → HasRoom (K.is_steady sink.old) (W.is_steady wire.old) (server.old.journal ++ event_lines (take pace.left (tick_at pace.due moment)))
        (sent_for (b.live + 1) (behind events b.channels) (take pace.left (tick_at pace.due moment))) more
        → OnlyMemoryStops result (HasRoom (K.is_steady sink.new) (W.is_steady wire.new) server.new.journal [] more) }
{
    if moment < pace.due {
        return Ok(Some(pace));
    }
    let first = server.live + 1;
    let tick_ms = u64::from(server.hub.tick_ms());
    if pace.left > 0 && moment - pace.due >= tick_ms {
        watch.lags();
    }
    let left = hear_within(
        alloc,
        server,
        sink,
        wire,
        Heard::Tick,
        first,
        pace.left,
        watch,
    )?;
    Ok(paced(moment + tick_ms, left))
}

/// The pace with so many events that may come still.
fn paced(due: u64, left: Option<u64>) -> Option<Pace>
    ensures left { option_map (λ p. p.left) result ≡ left }
    ensures due { IfSome result (λ next. next.due ≡ due) }
{
    let left = left?;
    Some(Pace { due, left })
}

/// A turn: what comes, and then the clock. Answers when the next tick is due, and how many events may
/// come then; `None` where one was one too many.
fn take_turn<K: Sink, W: Wire, C: Clock, T: Watch>(
    alloc: Global,
    server: &mut Server,
    sink: &mut K,
    wire: &mut W,
    clock: &mut C,
    room: &mut [u8],
    pace: Pace,
    watch: &T,
) -> Result<Option<Pace>, Stop>
    requires server { IsServer server.old.live server.old.ids.items server.old.hub }
    requires calls { server.old.hub.calls + pace.left ≤ 1000000 }
    requires room { length room.old ≡ 2000 }
    ensures within { (b : Begun) (events : List HubEvent) (arrivals : List Incoming) (moments : List ℕ)
        → IsBetween b events server.old.live server.old.ids.items server.old.hub (K.held sink.old) server.old.journal (W.sent wire.old)
        → W.arrivals wire.old ≡ Some arrivals → C.moments clock.old ≡ Some moments
        → IfOk result (λ o. DoesWithin (next_events b arrivals ++ tick_at pace.due (next_moment moments)) pace.left (option_map (λ p. p.left) o)) }
    ensures due { (moments : List ℕ) → C.moments clock.old ≡ Some moments → IfOk result (λ o. IfSome o (λ next. next.due ≡ due_after server.old.hub.tick pace.due (next_moment moments))) }
    ensures goes_on { (b : Begun) (events : List HubEvent) (arrivals : List Incoming) (moments : List ℕ)
        → IsBetween b events server.old.live server.old.ids.items server.old.hub (K.held sink.old) server.old.journal (W.sent wire.old)
        → W.arrivals wire.old ≡ Some arrivals → C.moments clock.old ≡ Some moments
        → OnOk result (IsBetween b (events ++ take pace.left (next_events b arrivals ++ tick_at pace.due (next_moment moments))) server.new.live server.new.ids.items server.new.hub (K.held sink.new) server.new.journal (W.sent wire.new)) }
    ensures breaks { (b : Begun) (events : List HubEvent) (arrivals : List Incoming) (moments : List ℕ)
        → IsBetween b events server.old.live server.old.ids.items server.old.hub (K.held sink.old) server.old.journal (W.sent wire.old)
        → W.arrivals wire.old ≡ Some arrivals → C.moments clock.old ≡ Some moments
        → IfErr result (Broken b (events ++ take pace.left (next_events b arrivals ++ tick_at pace.due (next_moment moments))) (K.held sink.new) server.new.journal (W.sent wire.new)) }
    ensures left { (arrivals : List Incoming) → W.arrivals wire.old ≡ Some arrivals → OnOk result (W.arrivals wire.new ≡ Some (drop 1 arrivals)) }
    ensures later { (moments : List ℕ) → C.moments clock.old ≡ Some moments → IfOk result (λ o. IfSome o (λ next. C.moments clock.new ≡ Some (later moments))) }
    ensures server { OnOk result (IsServer server.new.live server.new.ids.items server.new.hub) }
    ensures calls { IfOk result (λ o. IfSome o (λ next. server.new.hub.calls + next.left ≤ 1000000)) }
    ensures tick { server.new.hub.tick ≡ server.old.hub.tick }
    ensures cause { IsStoppedOutside (K.faults sink.old) (K.faults sink.new) (W.faults wire.old) (W.faults wire.new) result }
    ensures steady { (b : Begun) (events : List HubEvent) (arrivals : List Incoming) (moments : List ℕ) (more : Room)
        → IsBetween b events server.old.live server.old.ids.items server.old.hub (K.held sink.old) server.old.journal (W.sent wire.old)
        → W.arrivals wire.old ≡ Some arrivals → C.moments clock.old ≡ Some moments
        → HasRoom (K.is_steady sink.old) (W.is_steady wire.old) (server.old.journal ++ event_lines (take pace.left (next_events b arrivals ++ tick_at pace.due (next_moment moments))))
        (sent_for (b.live + 1) (behind events b.channels) (take pace.left (next_events b arrivals ++ tick_at pace.due (next_moment moments)))) more
        → OnlyMemoryStops result (HasRoom (K.is_steady sink.new) (W.is_steady wire.new) server.new.journal [] more) }
{
    let Some(left) = take_arrival(alloc, server, sink, wire, room, pace.left, watch)? else {
        return Ok(None);
    };
    let moment = clock.now_ms();
    let due = pace.due;
    hear_tick(alloc, server, sink, wire, Pace { due, left }, moment, watch)
}

/// Serves so many turns, in which at most `left` events may come, and says whether no more came. The
/// first tick is due one tick after the moment of the start. An event that is one too many isn't done, and
/// ends the turns. Whatever stops a server, the sink got the lines of the first events whole and a part
/// of those behind, what waits goes on from there unless the sink itself failed, and the wire sent a
/// front of the datagrams of the first.
pub fn take_turns<K: Sink, W: Wire, C: Clock, T: Watch>(
    alloc: Global,
    server: &mut Server,
    sink: &mut K,
    wire: &mut W,
    clock: &mut C,
    turns: u32,
    left: u64,
    watch: &T,
) -> Result<bool, Stop>
    requires server { IsServer server.old.live server.old.ids.items server.old.hub }
    requires calls { server.old.hub.calls + left ≤ 1000000 }
    ensures within { (b : Begun) (arrivals : List Incoming) (moments : List ℕ)
        → IsBetween b [] server.old.live server.old.ids.items server.old.hub (K.held sink.old) server.old.journal (W.sent wire.old)
        → W.arrivals wire.old ≡ Some arrivals → C.moments clock.old ≡ Some moments
        → IfOk result (IsWithin (events_of b.live server.old.hub.tick b.channels turns arrivals moments) left) }
    ensures goes_on { (b : Begun) (arrivals : List Incoming) (moments : List ℕ)
        → IsBetween b [] server.old.live server.old.ids.items server.old.hub (K.held sink.old) server.old.journal (W.sent wire.old)
        → W.arrivals wire.old ≡ Some arrivals → C.moments clock.old ≡ Some moments
        → OnOk result (Serving b (take left (events_of b.live server.old.hub.tick b.channels turns arrivals moments)) (K.held sink.new) server.new.journal (W.sent wire.new)) }
    ensures breaks { (b : Begun) (arrivals : List Incoming) (moments : List ℕ)
        → IsBetween b [] server.old.live server.old.ids.items server.old.hub (K.held sink.old) server.old.journal (W.sent wire.old)
        → W.arrivals wire.old ≡ Some arrivals → C.moments clock.old ≡ Some moments
        → IfErr result (Broken b (take left (events_of b.live server.old.hub.tick b.channels turns arrivals moments)) (K.held sink.new) server.new.journal (W.sent wire.new)) }
    ensures left { (b : Begun) (arrivals : List Incoming) (moments : List ℕ)
        → IsBetween b [] server.old.live server.old.ids.items server.old.hub (K.held sink.old) server.old.journal (W.sent wire.old)
        → W.arrivals wire.old ≡ Some arrivals → C.moments clock.old ≡ Some moments
        → result ≡ Ok true → W.arrivals wire.new ≡ Some (drop turns arrivals) }
    ensures cause { IsStoppedOutside (K.faults sink.old) (K.faults sink.new) (W.faults wire.old) (W.faults wire.new) result }
    ensures steady { (b : Begun) (arrivals : List Incoming) (moments : List ℕ) (more : Room)
        → IsBetween b [] server.old.live server.old.ids.items server.old.hub (K.held sink.old) server.old.journal (W.sent wire.old)
        → W.arrivals wire.old ≡ Some arrivals → C.moments clock.old ≡ Some moments
        → HasRoom (K.is_steady sink.old) (W.is_steady wire.old) (server.old.journal ++ event_lines (take left (events_of b.live server.old.hub.tick b.channels turns arrivals moments)))
        (sent_for (b.live + 1) b.channels (take left (events_of b.live server.old.hub.tick b.channels turns arrivals moments))) more
        → OnlyMemoryStops result (HasRoom (K.is_steady sink.new) (W.is_steady wire.new) server.new.journal [] more) }
{
    let mut room = [0; MOST_DATAGRAM];
    let due = clock.now_ms() + u64::from(server.hub.tick_ms());
    let mut pace = Pace { due, left };
    for _ in 0..turns {
        match take_turn(alloc, server, sink, wire, clock, &mut room, pace, watch)? {
            Some(next) => pace = next,
            None => return Ok(false),
        }
    }
    Ok(true)
}
