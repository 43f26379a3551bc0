//! The turns of a server.
ghost use Rattle.std.specs.Prelude.{◌≡◌, ◌+◌, ◌^◌, ◌<◌, ◌≤◌, ℕ, List, [], ◌++◌, IfErr, IfOk, OnOk, Some, drop, length};
ghost use Rattle.ram_io.specs.declared.Incoming.{Incoming};
ghost use Rattle.ram_io.specs.{later};
ghost use Rattle.server_hub.specs.declared.HubEvent.{HubEvent};
ghost use Rattle.trace_loop.specs.journal_book.{next_moment, tick_at, due_after, event_lines, events_of, sent_for, behind};
ghost use Rattle.serve_loop.specs.{Begun, Broken, HasRoom, IsBetween, IsServer, IsStoppedOutside, OnlyMemoryStops, Room, Serving, next_events};

use crate::hearing::{Server, hear};
use crate::watch::Watch;
use ram_io::{Clock, Sink, Wire};
use server_hub::Heard;
use std::alloc::Global;
use trace_loop::head_loop::event_at;
use trace_loop::{Stop, flush};

/// Most bytes of a datagram.
pub const MOST_DATAGRAM: usize = 2_000;

/// Takes what comes next, and hears it where it is an event. Where nothing comes, what waits goes to the
/// sink.
fn take_arrival<K: Sink, W: Wire, T: Watch>(
    alloc: Global,
    server: &mut Server,
    sink: &mut K,
    wire: &mut W,
    room: &mut [u8],
    watch: &T,
) -> Result<(), Stop>
    requires server { IsServer server.old.live server.old.ids.items server.old.hub }
    requires calls { server.old.hub.calls < 2 ^ 40 }
    requires room { length room.old ≡ 2000 }
    ensures goes_on { (b : Begun) (events : List HubEvent) (arrivals : List Incoming)
        → IsBetween b events server.old.live server.old.ids.items server.old.hub (K.held sink.old) server.old.journal (W.sent wire.old)
        → W.arrivals wire.old ≡ Some arrivals
        → OnOk result (IsBetween b (events ++ next_events b arrivals) server.new.live server.new.ids.items server.new.hub (K.held sink.new) server.new.journal (W.sent wire.new)) }
    ensures breaks { (b : Begun) (events : List HubEvent) (arrivals : List Incoming)
        → IsBetween b events server.old.live server.old.ids.items server.old.hub (K.held sink.old) server.old.journal (W.sent wire.old)
        → W.arrivals wire.old ≡ Some arrivals
        → IfErr result (Broken b (events ++ next_events b arrivals) (K.held sink.new) server.new.journal (W.sent wire.new)) }
    ensures left { (arrivals : List Incoming) → W.arrivals wire.old ≡ Some arrivals → OnOk result (W.arrivals wire.new ≡ Some (drop 1 arrivals)) }
    ensures server { OnOk result (IsServer server.new.live server.new.ids.items server.new.hub) }
    ensures calls { server.new.hub.calls ≤ server.old.hub.calls + 1 }
    ensures tick { server.new.hub.tick ≡ server.old.hub.tick }
    ensures cause { IsStoppedOutside (K.faults sink.old) (K.faults sink.new) (W.faults wire.old) (W.faults wire.new) result }
    ensures steady { (b : Begun) (events : List HubEvent) (arrivals : List Incoming) (more : Room)
        → IsBetween b events server.old.live server.old.ids.items server.old.hub (K.held sink.old) server.old.journal (W.sent wire.old)
        → W.arrivals wire.old ≡ Some arrivals
        → HasRoom (K.is_steady sink.old) (W.is_steady wire.old) (server.old.journal ++ event_lines (next_events b arrivals))
        (sent_for (b.live + 1) (behind events b.channels) (next_events b arrivals)) more
        → OnlyMemoryStops result (HasRoom (K.is_steady sink.new) (W.is_steady wire.new) server.new.journal [] more) }
{
    match wire.receive(room) {
        Err(_) => Err(Stop::Wire),
        Ok(None) => flush(&mut server.journal, sink),
        Ok(Some(arrival)) => {
            match event_at(server.live, &server.ids, arrival, &room[..arrival.len]) {
                Some(e) => hear(alloc, server, sink, wire, e.heard, e.feedback, watch),
                None => Ok(()),
            }
        }
    }
}

/// A tick, where the moment has reached the due one. Answers when the next is due.
fn hear_tick<K: Sink, W: Wire, T: Watch>(
    alloc: Global,
    server: &mut Server,
    sink: &mut K,
    wire: &mut W,
    due: u64,
    moment: u64,
    watch: &T,
) -> Result<u64, Stop>
    requires server { IsServer server.old.live server.old.ids.items server.old.hub }
    requires calls { server.old.hub.calls < 2 ^ 40 }
    requires moment { moment < 2 ^ 62 }
    ensures due { IfOk result (λ next. next ≡ due_after server.old.hub.tick due moment) }
    ensures goes_on { (b : Begun) (events : List HubEvent)
        → IsBetween b events server.old.live server.old.ids.items server.old.hub (K.held sink.old) server.old.journal (W.sent wire.old)
        → OnOk result (IsBetween b (events ++ tick_at due moment) server.new.live server.new.ids.items server.new.hub (K.held sink.new) server.new.journal (W.sent wire.new)) }
    ensures breaks { (b : Begun) (events : List HubEvent)
        → IsBetween b events server.old.live server.old.ids.items server.old.hub (K.held sink.old) server.old.journal (W.sent wire.old)
        → IfErr result (Broken b (events ++ tick_at due moment) (K.held sink.new) server.new.journal (W.sent wire.new)) }
    ensures server { OnOk result (IsServer server.new.live server.new.ids.items server.new.hub) }
    ensures calls { server.new.hub.calls ≤ server.old.hub.calls + 1 }
    ensures tick { server.new.hub.tick ≡ server.old.hub.tick }
    ensures untaken { W.arrivals wire.new ≡ W.arrivals wire.old }
    ensures cause { IsStoppedOutside (K.faults sink.old) (K.faults sink.new) (W.faults wire.old) (W.faults wire.new) result }
    ensures steady { (b : Begun) (events : List HubEvent) (more : Room)
        → IsBetween b events server.old.live server.old.ids.items server.old.hub (K.held sink.old) server.old.journal (W.sent wire.old)
        → HasRoom (K.is_steady sink.old) (W.is_steady wire.old) (server.old.journal ++ event_lines (tick_at due moment))
        (sent_for (b.live + 1) (behind events b.channels) (tick_at due moment)) more
        → OnlyMemoryStops result (HasRoom (K.is_steady sink.new) (W.is_steady wire.new) server.new.journal [] more) }
{
    if moment < due {
        return Ok(due);
    }
    let first = server.live + 1;
    if moment - due >= u64::from(server.hub.tick_ms()) {
        watch.lags();
    }
    hear(alloc, server, sink, wire, Heard::Tick, first, watch)?;
    Ok(moment + u64::from(server.hub.tick_ms()))
}

/// A turn: what comes, and then the clock. Answers when the next tick is due.
fn take_turn<K: Sink, W: Wire, C: Clock, T: Watch>(
    alloc: Global,
    server: &mut Server,
    sink: &mut K,
    wire: &mut W,
    clock: &mut C,
    room: &mut [u8],
    due: u64,
    watch: &T,
) -> Result<u64, Stop>
    requires server { IsServer server.old.live server.old.ids.items server.old.hub }
    requires calls { server.old.hub.calls + 1 < 2 ^ 40 }
    requires room { length room.old ≡ 2000 }
    ensures due { (moments : List ℕ) → C.moments clock.old ≡ Some moments → IfOk result (λ next. next ≡ due_after server.old.hub.tick due (next_moment moments)) }
    ensures goes_on { (b : Begun) (events : List HubEvent) (arrivals : List Incoming) (moments : List ℕ)
        → IsBetween b events server.old.live server.old.ids.items server.old.hub (K.held sink.old) server.old.journal (W.sent wire.old)
        → W.arrivals wire.old ≡ Some arrivals → C.moments clock.old ≡ Some moments
        → OnOk result (IsBetween b ((events ++ next_events b arrivals) ++ tick_at due (next_moment moments)) server.new.live server.new.ids.items server.new.hub (K.held sink.new) server.new.journal (W.sent wire.new)) }
    ensures breaks { (b : Begun) (events : List HubEvent) (arrivals : List Incoming) (moments : List ℕ)
        → IsBetween b events server.old.live server.old.ids.items server.old.hub (K.held sink.old) server.old.journal (W.sent wire.old)
        → W.arrivals wire.old ≡ Some arrivals → C.moments clock.old ≡ Some moments
        → IfErr result (Broken b ((events ++ next_events b arrivals) ++ tick_at due (next_moment moments)) (K.held sink.new) server.new.journal (W.sent wire.new)) }
    ensures left { (arrivals : List Incoming) → W.arrivals wire.old ≡ Some arrivals → OnOk result (W.arrivals wire.new ≡ Some (drop 1 arrivals)) }
    ensures later { (moments : List ℕ) → C.moments clock.old ≡ Some moments → OnOk result (C.moments clock.new ≡ Some (later moments)) }
    ensures server { OnOk result (IsServer server.new.live server.new.ids.items server.new.hub) }
    ensures calls { server.new.hub.calls ≤ server.old.hub.calls + 2 }
    ensures tick { server.new.hub.tick ≡ server.old.hub.tick }
    ensures cause { IsStoppedOutside (K.faults sink.old) (K.faults sink.new) (W.faults wire.old) (W.faults wire.new) result }
    ensures steady { (b : Begun) (events : List HubEvent) (arrivals : List Incoming) (moments : List ℕ) (more : Room)
        → IsBetween b events server.old.live server.old.ids.items server.old.hub (K.held sink.old) server.old.journal (W.sent wire.old)
        → W.arrivals wire.old ≡ Some arrivals → C.moments clock.old ≡ Some moments
        → HasRoom (K.is_steady sink.old) (W.is_steady wire.old) (server.old.journal ++ event_lines (next_events b arrivals ++ tick_at due (next_moment moments)))
        (sent_for (b.live + 1) (behind events b.channels) (next_events b arrivals ++ tick_at due (next_moment moments))) more
        → OnlyMemoryStops result (HasRoom (K.is_steady sink.new) (W.is_steady wire.new) server.new.journal [] more) }
{
    take_arrival(alloc, server, sink, wire, room, watch)?;
    let moment = clock.now_ms();
    hear_tick(alloc, server, sink, wire, due, moment, watch)
}

/// Serves so many turns. The first tick is due one tick after the moment of the start. Whatever stops a
/// server, the sink got the lines of the first events whole and a part of those behind, what waits goes
/// on from there unless the sink itself failed, and the wire sent a front of the datagrams of the first.
pub fn take_turns<K: Sink, W: Wire, C: Clock, T: Watch>(
    alloc: Global,
    server: &mut Server,
    sink: &mut K,
    wire: &mut W,
    clock: &mut C,
    turns: u32,
    watch: &T,
) -> Result<(), Stop>
    requires server { IsServer server.old.live server.old.ids.items server.old.hub }
    requires calls { server.old.hub.calls ≡ 0 }
    ensures goes_on { (b : Begun) (arrivals : List Incoming) (moments : List ℕ)
        → IsBetween b [] server.old.live server.old.ids.items server.old.hub (K.held sink.old) server.old.journal (W.sent wire.old)
        → W.arrivals wire.old ≡ Some arrivals → C.moments clock.old ≡ Some moments
        → OnOk result (Serving b (events_of b.live server.old.hub.tick b.channels turns arrivals moments) (K.held sink.new) server.new.journal (W.sent wire.new)
        × (W.arrivals wire.new ≡ Some (drop turns arrivals))) }
    ensures breaks { (b : Begun) (arrivals : List Incoming) (moments : List ℕ)
        → IsBetween b [] server.old.live server.old.ids.items server.old.hub (K.held sink.old) server.old.journal (W.sent wire.old)
        → W.arrivals wire.old ≡ Some arrivals → C.moments clock.old ≡ Some moments
        → IfErr result (Broken b (events_of b.live server.old.hub.tick b.channels turns arrivals moments) (K.held sink.new) server.new.journal (W.sent wire.new)) }
    ensures cause { IsStoppedOutside (K.faults sink.old) (K.faults sink.new) (W.faults wire.old) (W.faults wire.new) result }
    ensures steady { (b : Begun) (arrivals : List Incoming) (moments : List ℕ) (more : Room)
        → IsBetween b [] server.old.live server.old.ids.items server.old.hub (K.held sink.old) server.old.journal (W.sent wire.old)
        → W.arrivals wire.old ≡ Some arrivals → C.moments clock.old ≡ Some moments
        → HasRoom (K.is_steady sink.old) (W.is_steady wire.old) (server.old.journal ++ event_lines (events_of b.live server.old.hub.tick b.channels turns arrivals moments))
        (sent_for (b.live + 1) b.channels (events_of b.live server.old.hub.tick b.channels turns arrivals moments)) more
        → OnlyMemoryStops result (HasRoom (K.is_steady sink.new) (W.is_steady wire.new) server.new.journal [] more) }
{
    let mut room = [0; MOST_DATAGRAM];
    let mut due = clock.now_ms() + u64::from(server.hub.tick_ms());
    for _ in 0..turns {
        due = take_turn(alloc, server, sink, wire, clock, &mut room, due, watch)?;
    }
    Ok(())
}
