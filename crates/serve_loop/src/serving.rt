//! A server from its head to its last turn.
ghost use Rattle.std.specs.Prelude.{◌≡◌, ◌+◌, ◌≤◌, ℕ, List, [], ◌++◌, Err, Ok, IfErr, IfOk, OnOk, Some, drop, length, codes};
ghost use Rattle.std.specs.Io.KnownBytes.{Appends};
ghost use Rattle.line_io.specs.Passes.{Passes};
ghost use Rattle.rams_model.specs.declared.Status.TheVariants.{BadTrace, Done};
ghost use Rattle.rams_model.specs.Texts.{refused_line};
ghost use Rattle.ram_io.specs.declared.Incoming.{Incoming};
ghost use Rattle.trace_loop.specs.journal_book.{event_lines, events_of, sent_for};
ghost use Rattle.trace_loop.specs.declared.Stop.TheVariants.{Read, Write};
ghost use Rattle.serve_loop.specs.{Begun, Ending, EndsAs, Given, HasEnded, HasRoom, HasStopped, IsBetween, IsGiven, IsHeadOf, IsServeEnd, IsServer, IsStopped, IsStoppedByWrite, IsStoppedOutside, OnlyMemoryStops, Room, StandsSomewhere, Stopping, served_datagrams, served_text};

use crate::head::read_head;
use crate::hearing::{Server, new_server};
use crate::journal::write_refused;
use crate::turns::take_turns;
use crate::watch::{Watch, tell_ports};
use line_io::Gather;
use ram_io::{Clock, Sink, Source, Wire};
use rams_model::{LineFault, Status};
use std::alloc::Global;
use trace_loop::head_loop::{Head, Opened};
use trace_loop::journal_book::laws::{
    heads_open_new_channels, journals_replay, runs_of_journals, turns_make_journals,
};
use trace_loop::{Stop, flush, put};

/// Writes that a line of the head is refused.
fn refuse<K: Sink>(alloc: Global, sink: &mut K, line: u64, fault: LineFault) -> Result<Status, Stop>
    ensures status { IfOk result (λ status. status ≡ BadTrace) }
    ensures text { OnOk result (Appends (K.held sink.old) (K.held sink.new) (refused_line line fault)) }
    ensures front { (rest : List ℕ) × Passes (K.held sink.old) (K.held sink.new) (refused_line line fault) rest }
    ensures cause { IsStoppedByWrite (K.faults sink.old) (K.faults sink.new) result }
    ensures steady { (room : ℕ) → K.is_steady sink.old (length (refused_line line fault) + room) → OnlyMemoryStops result (K.is_steady sink.new room) }
{
    let mut journal = Gather::new(alloc)?;
    write_refused(&mut journal, sink, line, fault)?;
    flush(&mut journal, sink)?;
    Ok(Status::BadTrace)
}

/// Puts what waits when a server ends, whatever ended it but the sink's own failure.
fn close<K: Sink>(
    gather: &mut Gather,
    sink: &mut K,
    ended: Result<(), Stop>,
) -> Result<Status, Stop>
    ensures ends { EndsAs (K.faults sink.old) (K.faults sink.new) ended result }
    ensures later { K.faults sink.old ≤ K.faults sink.new }
    ensures all { OnOk result (Passes (K.held sink.old) (K.held sink.new) gather.old []) }
    ensures untouched { ended ≡ Err Write → sink.new ≡ sink.old }
    ensures prefix { (rest : List ℕ) × Passes (K.held sink.old) (K.held sink.new) gather.old rest }
    ensures steady { (room : ℕ) → OnlyMemoryStops ended (K.is_steady sink.old (length gather.old + room)) → OnlyMemoryStops result (K.is_steady sink.new room) }
{
    match ended {
        Ok(()) => {
            flush(gather, sink)?;
            Ok(Status::Done)
        }
        Err(Stop::Write) => Err(Stop::Write),
        Err(stop) => {
            let _ = flush(gather, sink);
            Err(stop)
        }
    }
}

/// The turns, and then `end`.
fn take_all<K: Sink, W: Wire, C: Clock, T: Watch>(
    alloc: Global,
    server: &mut Server,
    sink: &mut K,
    wire: &mut W,
    clock: &mut C,
    turns: u32,
    watch: &T,
) -> Result<(), Stop>
    requires server { IsServer server.old.live server.old.ids.items server.old.hub }
    requires calls { server.old.hub.calls ≡ 0 }
    ensures ending { (b : Begun) (arrivals : List Incoming) (moments : List ℕ)
        → IsBetween b [] server.old.live server.old.ids.items server.old.hub (K.held sink.old) server.old.journal (W.sent wire.old)
        → W.arrivals wire.old ≡ Some arrivals → C.moments clock.old ≡ Some moments
        → OnOk result (Ending b (events_of b.live server.old.hub.tick b.channels turns arrivals moments) (K.held sink.new) server.new.journal (W.sent wire.new)
        × (W.arrivals wire.new ≡ Some (drop turns arrivals))) }
    ensures stopping { (b : Begun) (arrivals : List Incoming) (moments : List ℕ)
        → IsBetween b [] server.old.live server.old.ids.items server.old.hub (K.held sink.old) server.old.journal (W.sent wire.old)
        → W.arrivals wire.old ≡ Some arrivals → C.moments clock.old ≡ Some moments
        → IfErr result (Stopping b (events_of b.live server.old.hub.tick b.channels turns arrivals moments) (K.held sink.new) server.new.journal (W.sent wire.new)) }
    ensures cause { IsStoppedOutside (K.faults sink.old) (K.faults sink.new) (W.faults wire.old) (W.faults wire.new) result }
    ensures steady { (b : Begun) (arrivals : List Incoming) (moments : List ℕ) (more : Room)
        → IsBetween b [] server.old.live server.old.ids.items server.old.hub (K.held sink.old) server.old.journal (W.sent wire.old)
        → W.arrivals wire.old ≡ Some arrivals → C.moments clock.old ≡ Some moments
        → HasRoom (K.is_steady sink.old) (W.is_steady wire.old) (server.old.journal ++ (event_lines (events_of b.live server.old.hub.tick b.channels turns arrivals moments) ++ codes "end\n"))
        (sent_for (b.live + 1) b.channels (events_of b.live server.old.hub.tick b.channels turns arrivals moments)) more
        → OnlyMemoryStops result (HasRoom (K.is_steady sink.new) (W.is_steady wire.new) server.new.journal [] more) }
{
    take_turns(alloc, server, sink, wire, clock, turns, watch)?;
    put(&mut server.journal, sink, b"end\n")
}

/// Serves the turns behind a head: puts its text, and then the lines of the events as they come.
fn serve_turns<K: Sink, W: Wire, C: Clock, T: Watch>(
    alloc: Global,
    opened: Opened,
    sink: &mut K,
    wire: &mut W,
    clock: &mut C,
    port: u16,
    turns: u32,
    watch: &T,
) -> Result<Status, Stop>
    requires stands { StandsSomewhere opened.hub }
    requires few { length opened.ids.items ≤ 64 }
    requires calls { opened.hub.calls ≡ 0 }
    requires port { port ≤ 65000 }
    requires turns { turns ≤ 500000 }
    ensures ended { (g : Given) → IsGiven g port turns (Some g.source) (W.arrivals wire.old) (C.moments clock.old) → IsHeadOf g.source opened.hub opened.ids.items opened.text.items
        → IfOk result (HasEnded g (K.held sink.old) (K.held sink.new) (W.sent wire.old) (W.sent wire.new) (W.arrivals wire.new)) }
    ensures stopped { (g : Given) → IsGiven g port turns (Some g.source) (W.arrivals wire.old) (C.moments clock.old) → IsHeadOf g.source opened.hub opened.ids.items opened.text.items
        → IfErr result (λ _. HasStopped g (K.held sink.old) (K.held sink.new) (W.sent wire.old) (W.sent wire.new)) }
    ensures status { IfOk result (λ status. status ≡ Done) }
    ensures cause { IsStoppedOutside (K.faults sink.old) (K.faults sink.new) (W.faults wire.old) (W.faults wire.new) result }
    ensures steady { (g : Given) (more : Room) → IsGiven g port turns (Some g.source) (W.arrivals wire.old) (C.moments clock.old) → IsHeadOf g.source opened.hub opened.ids.items opened.text.items
        → HasRoom (K.is_steady sink.old) (W.is_steady wire.old) (served_text g).text (served_datagrams g) more → OnlyMemoryStops result (HasRoom (K.is_steady sink.new) (W.is_steady wire.new) [] [] more) }
{
    heads_open_new_channels();
    turns_make_journals();
    journals_replay();
    runs_of_journals();
    let mut journal = Gather::new(alloc)?;
    put(&mut journal, sink, &opened.text)?;
    flush(&mut journal, sink)?;
    tell_ports(watch, &opened.ids, port);
    let mut server = new_server(alloc, opened.hub, opened.ids, port, journal);
    let ended = take_all(alloc, &mut server, sink, wire, clock, turns, watch);
    close(&mut server.journal, sink, ended)
}

/// Serves so many turns to the channels that a head opens, which is read from the source up to `end`, and
/// writes their journal. The first channel has the live port `port` and the feedback port above it, each
/// of the others the two above those of the channel in front of it.
///
/// Before the head is read whole nothing is written, and nothing comes or is sent; where a line of it is
/// refused, one line says so. Each event's line goes to the sink before the first datagram that follows
/// from it. Whatever stops a server, what waits is put still, unless the sink failed. `watch` is told
/// of the ports, of each event and of late ticks.
pub fn serve<S: Source, K: Sink, W: Wire, C: Clock, T: Watch>(
    alloc: Global,
    source: &mut S,
    sink: &mut K,
    wire: &mut W,
    clock: &mut C,
    port: u16,
    turns: u32,
    watch: &T,
) -> Result<Status, Stop>
    requires port { port ≤ 65000 }
    requires turns { turns ≤ 500000 }
    ensures ended { (g : Given) → IsGiven g port turns (S.left source.old) (W.arrivals wire.old) (C.moments clock.old)
        → IfOk result (HasEnded g (K.held sink.old) (K.held sink.new) (W.sent wire.old) (W.sent wire.new) (W.arrivals wire.new)) }
    ensures stopped { (g : Given) → IsGiven g port turns (S.left source.old) (W.arrivals wire.old) (C.moments clock.old)
        → IfErr result (λ _. HasStopped g (K.held sink.old) (K.held sink.new) (W.sent wire.old) (W.sent wire.new)) }
    ensures status { IfOk result IsServeEnd }
    ensures unserved { result ≡ Ok BadTrace → (wire.new ≡ wire.old) × (clock.new ≡ clock.old) }
    ensures unread { result ≡ Err Read → (sink.new ≡ sink.old) × (wire.new ≡ wire.old) × (clock.new ≡ clock.old) }
    ensures cause { IsStopped (S.faults source.old) (S.faults source.new) (K.faults sink.old) (K.faults sink.new) (W.faults wire.old) (W.faults wire.new) result }
    ensures steady { (g : Given) (more : Room) → IsGiven g port turns (S.left source.old) (W.arrivals wire.old) (C.moments clock.old) → S.is_steady source.old
        → HasRoom (K.is_steady sink.old) (W.is_steady wire.old) (served_text g).text (served_datagrams g) more → OnlyMemoryStops result (HasRoom (K.is_steady sink.new) (W.is_steady wire.new) [] [] more) }
{
    match read_head(alloc, source)? {
        Head::Unlawful { line, fault } => {
            watch.refuses(line, fault);
            refuse(alloc, sink, line, fault)
        }
        Head::Lawful(opened) => {
            serve_turns(alloc, opened, sink, wire, clock, port, turns, watch)
        }
    }
}
