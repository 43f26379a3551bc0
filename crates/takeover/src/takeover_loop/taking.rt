//! A takeover from the first line of a journal to the last turn.
ghost use Rattle.std.specs.Prelude.{◌≡◌, ◌+◌, ◌≤◌, Bool, ℕ, List, [], ◌++◌, Option, None, Err, Ok, IfErr, IfOk, MatchResult, OnOk, Some, drop, length, nat_lt, not, take};
ghost use Rattle.std.specs.Io.KnownBytes.{Appends};
ghost use Rattle.line_io.specs.Passes.{Passes};
ghost use Rattle.rams_model.specs.declared.Status.TheVariants.{BadTrace, Done};
ghost use Rattle.ram_io.specs.declared.Incoming.{Incoming};
ghost use Rattle.trace_loop.specs.journal_book.{event_lines, events_of, sent_for};
ghost use Rattle.server_hub.specs.{IsHub};
ghost use Rattle.trace_loop.specs.declared.Stop.TheVariants.{Read};
ghost use Rattle.serve_loop.specs.{Begun, Given, HasRoom, IfBothTold, IsBetween, IsGiven, IsServer, IsStopped, IsStoppedByWrite, IsStoppedOutside, OnlyMemoryStops, Room, StandsSomewhere, StopsIn};
ghost use Rattle.takeover.specs.standby.{HasRead, HasReadSome, end_of};
ghost use Rattle.takeover.specs.standby.standby_book.{followed_text};
ghost use Rattle.takeover.specs.takeover_loop.{Ending, HasEnded, HasStopped, HoldsItsLines, IsOver, IsServedEnd, IsTaken, IsTakeoverEnd, Stopping, behind_journal, done_events, has_lines, last_line, outcome_of, reading_end, taken_datagrams, taken_text, turns_end};

use crate::standby::standby_book::laws::journals_are_taken_over;
use crate::standby::{FeedFault, Hub, Standby};
use crate::takeover_loop::following::follow;
use crate::takeover_loop::reading::{Reading, new_reading, next_number};
use crate::takeover_loop::turns::take_turns;
use line_io::Gather;
use ram_io::{Clock, NoMemory, Sink, Source, Wire};
use rams_model::{LineFault, Status};
use serve_loop::{Server, Watch, new_server, tell_ports, write_refused};
use std::alloc::Global;
use trace_loop::journal_book::laws::heads_open_new_channels;
use trace_loop::{MOST_EVENTS, Stop, close, flush, put};

/// What is taken over of a journal.
#[derive(Drop)]
struct Taken {
    hub: Hub,
    /// The numbers of the channels, in the order of their lines.
    ids: Vec<u16>,
    /// How many events may come still.
    left: u64,
}

/// The channels that a standby takes over, or else why there are none: a line that is refused or brings
/// an event too many, or the line of a channel that is missing.
fn taken_of(
    alloc: Global,
    standby: Standby,
    begun: bool,
) -> Result<Result<Taken, FeedFault>, NoMemory>
    requires { HasReadSome standby }
    ensures taken { (bytes : List ℕ) → HasRead standby bytes → (end_of bytes ≡ None → begun ≡ has_lines bytes)
        → IfOk result (λ r. MatchResult r (λ t. IsTaken bytes t.hub t.ids.items t.left) (λ fault. reading_end bytes ≡ outcome_of fault)) }
    ensures lawful { IfOk result (λ r. IfOk r (λ t. StandsSomewhere t.hub × (length t.ids.items ≤ 64) × (t.hub.calls + t.left ≤ 1000000))) }
{
    journals_are_taken_over();
    if let Some(fault) = standby.fault() {
        return Ok(Err(fault));
    }
    let mut ids = Vec::new(alloc);
    ids.extend_from_slice(standby.ids())?;
    let left = MOST_EVENTS - standby.events();
    let line = next_number(&standby, begun);
    let fault = LineFault::Order;
    match standby.take_over() {
        Ok(hub) => {
            know_lawful(&hub);
            Ok(Ok(Taken { hub, ids, left }))
        }
        Err(_) => Ok(Err(FeedFault::Line { line, fault })),
    }
}

/// A hub is lawful: it has no more channels than there may be.
fn know_lawful(hub: &Hub)
    ensures { IsHub hub.now }
{
    let _tick_ms = hub.tick_ms();
}

/// Tells of a line that is refused.
fn tell_fault<T: Watch>(watch: &T, fault: FeedFault) {
    if let FeedFault::Line { line, fault } = fault {
        watch.refuses(line, fault);
    }
}

/// Writes why nothing is taken over.
fn refuse<K: Sink, T: Watch>(
    mut journal: Gather,
    sink: &mut K,
    fault: FeedFault,
    watch: &T,
) -> Result<Status, Stop>
    requires { journal ≡ [] }
    ensures status { IfOk result (λ status. status ≡ (outcome_of fault).status) }
    ensures text { OnOk result (Appends (K.held sink.old) (K.held sink.new) (outcome_of fault).text) }
    ensures front { (rest : List ℕ) × Passes (K.held sink.old) (K.held sink.new) (outcome_of fault).text rest }
    ensures cause { IsStoppedByWrite (K.faults sink.old) (K.faults sink.new) result }
    ensures steady { (room : ℕ) → K.is_steady sink.old (length (outcome_of fault).text + room) → OnlyMemoryStops result (K.is_steady sink.new room) }
{
    tell_fault(watch, fault);
    let status = put_fault(&mut journal, sink, fault)?;
    flush(&mut journal, sink)?;
    Ok(status)
}

/// Adds the line that says so.
fn put_fault<K: Sink>(journal: &mut Gather, sink: &mut K, fault: FeedFault) -> Result<Status, Stop>
    ensures status { IfOk result (λ status. status ≡ (outcome_of fault).status) }
    ensures all { OnOk result (Passes (K.held sink.old) (K.held sink.new) (journal.old ++ (outcome_of fault).text) journal.new) }
    ensures front { IfErr result (StopsIn (K.held sink.old) (K.held sink.new) (journal.old ++ (outcome_of fault).text) journal.new) }
    ensures cause { IsStoppedByWrite (K.faults sink.old) (K.faults sink.new) result }
    ensures steady { (room : ℕ) → K.is_steady sink.old (length journal.old + length (outcome_of fault).text + room)
        → OnlyMemoryStops result (K.is_steady sink.new (length journal.new + room)) }
{
    match fault {
        FeedFault::Line { line, fault } => {
            write_refused(journal, sink, line, fault)?;
            Ok(Status::BadTrace)
        }
        FeedFault::TooLong => {
            put(journal, sink, b"too-long\n")?;
            Ok(Status::TooLong)
        }
        FeedFault::NoMemory => Err(Stop::Memory),
    }
}

/// Adds the last line, which says whether one event was too many.
fn put_last<K: Sink>(gather: &mut Gather, sink: &mut K, within: bool) -> Result<Status, Stop>
    ensures status { IfOk result (λ status. status ≡ (last_line (not within)).status) }
    ensures all { OnOk result (Passes (K.held sink.old) (K.held sink.new) (gather.old ++ (last_line (not within)).text) gather.new) }
    ensures front { IfErr result (StopsIn (K.held sink.old) (K.held sink.new) (gather.old ++ (last_line (not within)).text) gather.new) }
    ensures cause { IsStoppedByWrite (K.faults sink.old) (K.faults sink.new) result }
    ensures steady { (room : ℕ) → K.is_steady sink.old (length gather.old + length (last_line (not within)).text + room)
        → OnlyMemoryStops result (K.is_steady sink.new (length gather.new + room)) }
{
    if within {
        put(gather, sink, b"end\n")?;
        return Ok(Status::Done);
    }
    put(gather, sink, b"too-long\n")?;
    Ok(Status::TooLong)
}

/// The turns, and then the last line.
fn take_all<K: Sink, W: Wire, C: Clock, T: Watch>(
    alloc: Global,
    server: &mut Server,
    sink: &mut K,
    wire: &mut W,
    clock: &mut C,
    turns: u32,
    left: u64,
    watch: &T,
) -> Result<Status, Stop>
    requires server { IsServer server.old.live server.old.ids.items server.old.hub }
    requires calls { server.old.hub.calls + left ≤ 1000000 }
    ensures ends { (b : Begun) (arrivals : List Incoming) (moments : List ℕ)
        → IsBetween b [] server.old.live server.old.ids.items server.old.hub (K.held sink.old) server.old.journal (W.sent wire.old)
        → W.arrivals wire.old ≡ Some arrivals → C.moments clock.old ≡ Some moments
        → IfOk result (λ status. status ≡ (last_line (nat_lt left (length (events_of b.live server.old.hub.tick b.channels turns arrivals moments)))).status) }
    ensures ending { (b : Begun) (arrivals : List Incoming) (moments : List ℕ)
        → IsBetween b [] server.old.live server.old.ids.items server.old.hub (K.held sink.old) server.old.journal (W.sent wire.old)
        → W.arrivals wire.old ≡ Some arrivals → C.moments clock.old ≡ Some moments
        → OnOk result (Ending b (take left (events_of b.live server.old.hub.tick b.channels turns arrivals moments))
        (last_line (nat_lt left (length (events_of b.live server.old.hub.tick b.channels turns arrivals moments)))).text (K.held sink.new) server.new.journal (W.sent wire.new)) }
    ensures stopping { (b : Begun) (arrivals : List Incoming) (moments : List ℕ)
        → IsBetween b [] server.old.live server.old.ids.items server.old.hub (K.held sink.old) server.old.journal (W.sent wire.old)
        → W.arrivals wire.old ≡ Some arrivals → C.moments clock.old ≡ Some moments
        → IfErr result (Stopping b (take left (events_of b.live server.old.hub.tick b.channels turns arrivals moments))
        (last_line (nat_lt left (length (events_of b.live server.old.hub.tick b.channels turns arrivals moments)))).text (K.held sink.new) server.new.journal (W.sent wire.new)) }
    ensures left { (b : Begun) (arrivals : List Incoming) (moments : List ℕ)
        → IsBetween b [] server.old.live server.old.ids.items server.old.hub (K.held sink.old) server.old.journal (W.sent wire.old)
        → W.arrivals wire.old ≡ Some arrivals → C.moments clock.old ≡ Some moments
        → result ≡ Ok Done → W.arrivals wire.new ≡ Some (drop turns arrivals) }
    ensures status { IfOk result IsServedEnd }
    ensures cause { IsStoppedOutside (K.faults sink.old) (K.faults sink.new) (W.faults wire.old) (W.faults wire.new) result }
    ensures steady { (b : Begun) (arrivals : List Incoming) (moments : List ℕ) (more : Room)
        → IsBetween b [] server.old.live server.old.ids.items server.old.hub (K.held sink.old) server.old.journal (W.sent wire.old)
        → W.arrivals wire.old ≡ Some arrivals → C.moments clock.old ≡ Some moments
        → HasRoom (K.is_steady sink.old) (W.is_steady wire.old) (server.old.journal ++ (event_lines (take left (events_of b.live server.old.hub.tick b.channels turns arrivals moments))
        ++ (last_line (nat_lt left (length (events_of b.live server.old.hub.tick b.channels turns arrivals moments)))).text))
        (sent_for (b.live + 1) b.channels (take left (events_of b.live server.old.hub.tick b.channels turns arrivals moments))) more
        → OnlyMemoryStops result (HasRoom (K.is_steady sink.new) (W.is_steady wire.new) server.new.journal [] more) }
{
    let within = take_turns(alloc, server, sink, wire, clock, turns, left, watch)?;
    put_last(&mut server.journal, sink, within)
}

/// Serves the turns behind a journal whose lines the sink has: puts the lines of the events as they come,
/// and the last line.
fn serve_on<K: Sink, W: Wire, C: Clock, T: Watch>(
    alloc: Global,
    taken: Taken,
    journal: Gather,
    sink: &mut K,
    wire: &mut W,
    clock: &mut C,
    port: u16,
    turns: u32,
    watch: &T,
) -> Result<Status, Stop>
    requires stands { StandsSomewhere taken.hub }
    requires few { length taken.ids.items ≤ 64 }
    requires calls { taken.hub.calls + taken.left ≤ 1000000 }
    requires port { port ≤ 65000 }
    requires waits { journal ≡ [] }
    ensures ended { (g : Given) (held : Option (List ℕ)) → IsGiven g port turns (Some g.source) (W.arrivals wire.old) (C.moments clock.old) → IsTaken g.source taken.hub taken.ids.items taken.left
        → Appends held (K.held sink.old) (followed_text g.source)
        → IfOk result (HasEnded g held (K.held sink.new) (W.sent wire.old) (W.sent wire.new) (W.arrivals wire.new)) }
    ensures stopped { (g : Given) (held : Option (List ℕ)) → IsGiven g port turns (Some g.source) (W.arrivals wire.old) (C.moments clock.old) → IsTaken g.source taken.hub taken.ids.items taken.left
        → Appends held (K.held sink.old) (followed_text g.source)
        → IfErr result (λ _. HasStopped g held (K.held sink.new) (W.sent wire.old) (W.sent wire.new)) }
    ensures status { IfOk result IsServedEnd }
    ensures cause { IsStoppedOutside (K.faults sink.old) (K.faults sink.new) (W.faults wire.old) (W.faults wire.new) result }
    ensures steady { (g : Given) (held : Option (List ℕ)) (more : Room) → IsGiven g port turns (Some g.source) (W.arrivals wire.old) (C.moments clock.old) → IsTaken g.source taken.hub taken.ids.items taken.left
        → Appends held (K.held sink.old) (followed_text g.source)
        → HasRoom (K.is_steady sink.old) (W.is_steady wire.old) (event_lines (done_events g) ++ (turns_end g).text) (taken_datagrams g) more
        → OnlyMemoryStops result (HasRoom (K.is_steady sink.new) (W.is_steady wire.new) [] [] more) }
{
    heads_open_new_channels();
    journals_are_taken_over();
    tell_ports(watch, &taken.ids, port);
    let left = taken.left;
    let mut server = new_server(alloc, taken.hub, taken.ids, port, journal);
    let ended = take_all(alloc, &mut server, sink, wire, clock, turns, left, watch);
    close(&mut server.journal, sink, ended)
}

/// Serves on behind a journal that was read as far as it goes, or says why nothing is taken over.
fn go_on<K: Sink, W: Wire, C: Clock, T: Watch>(
    alloc: Global,
    reading: Reading,
    sink: &mut K,
    wire: &mut W,
    clock: &mut C,
    port: u16,
    turns: u32,
    watch: &T,
) -> Result<Status, Stop>
    requires port { port ≤ 65000 }
    requires read { HasReadSome reading.standby }
    requires waits { reading.journal ≡ [] }
    ensures ended { (g : Given) (held : Option (List ℕ)) → IsGiven g port turns (Some g.source) (W.arrivals wire.old) (C.moments clock.old) → IsOver held (K.held sink.old) reading.standby reading.journal reading.begun g.source
        → IfOk result (HasEnded g held (K.held sink.new) (W.sent wire.old) (W.sent wire.new) (W.arrivals wire.new)) }
    ensures stopped { (g : Given) (held : Option (List ℕ)) → IsGiven g port turns (Some g.source) (W.arrivals wire.old) (C.moments clock.old) → IsOver held (K.held sink.old) reading.standby reading.journal reading.begun g.source
        → IfErr result (λ _. HasStopped g held (K.held sink.new) (W.sent wire.old) (W.sent wire.new)) }
    ensures status { IfOk result IsTakeoverEnd }
    ensures unserved { result ≡ Ok BadTrace → (wire.new ≡ wire.old) × (clock.new ≡ clock.old) }
    ensures cause { IsStoppedOutside (K.faults sink.old) (K.faults sink.new) (W.faults wire.old) (W.faults wire.new) result }
    ensures steady { (g : Given) (held : Option (List ℕ)) (more : Room) → IsGiven g port turns (Some g.source) (W.arrivals wire.old) (C.moments clock.old) → IsOver held (K.held sink.old) reading.standby reading.journal reading.begun g.source
        → HasRoom (K.is_steady sink.old) (W.is_steady wire.old) (behind_journal g).text (taken_datagrams g) more
        → OnlyMemoryStops result (HasRoom (K.is_steady sink.new) (W.is_steady wire.new) [] [] more) }
{
    let Reading {
        standby,
        journal,
        begun,
        ..
    } = reading;
    match taken_of(alloc, standby, begun)? {
        Ok(taken) => serve_on(alloc, taken, journal, sink, wire, clock, port, turns, watch),
        Err(fault) => refuse(journal, sink, fault, watch),
    }
}

/// Reads the journal of another server from the source, as far as it goes, and serves so many turns from
/// there. The first channel has the live port `port` and the feedback port above it, each of the others
/// the two above those of the channel in front of it.
///
/// The journal goes up to `end`, behind which nothing is looked at, or to the end of the input, where the
/// last line isn't looked at if it isn't whole. Each line that is followed goes to the sink, and nothing
/// is sent for it. Then come the lines and datagrams of the turns, each event's line before the first
/// datagram that follows from it, and `end`. Where a line of the journal is refused, or the first line of
/// a channel is missing, a last line says so, and nothing comes or is sent. Where event 1,000,001 would
/// come, of the journal or of the turns, the last line is `too-long`, and that event isn't done. Whatever
/// stops a takeover, what waits is put still, unless the sink failed. `watch` is told of the ports, of
/// each event of the turns and of late ticks.
pub fn take_over<S: Source, K: Sink, W: Wire, C: Clock, T: Watch>(
    alloc: Global,
    source: &mut S,
    sink: &mut K,
    wire: &mut W,
    clock: &mut C,
    port: u16,
    turns: u32,
    watch: &T,
) -> Result<Status, Stop>
    requires port { port ≤ 65000 }
    ensures ended { (g : Given) → IsGiven g port turns (S.left source.old) (W.arrivals wire.old) (C.moments clock.old)
        → IfOk result (HasEnded g (K.held sink.old) (K.held sink.new) (W.sent wire.old) (W.sent wire.new) (W.arrivals wire.new)) }
    ensures stopped { (g : Given) → IsGiven g port turns (S.left source.old) (W.arrivals wire.old) (C.moments clock.old)
        → IfErr result (λ _. HasStopped g (K.held sink.old) (K.held sink.new) (W.sent wire.old) (W.sent wire.new)) }
    ensures status { IfOk result IsTakeoverEnd }
    ensures unserved { result ≡ Ok BadTrace → (wire.new ≡ wire.old) × (clock.new ≡ clock.old) }
    ensures unread { result ≡ Err Read → IfBothTold (S.left source.old) (S.left source.new) (HoldsItsLines (K.held sink.old) (K.held sink.new)) × (wire.new ≡ wire.old) × (clock.new ≡ clock.old) }
    ensures cause { IsStopped (S.faults source.old) (S.faults source.new) (K.faults sink.old) (K.faults sink.new) (W.faults wire.old) (W.faults wire.new) result }
    ensures steady { (g : Given) (more : Room) → IsGiven g port turns (S.left source.old) (W.arrivals wire.old) (C.moments clock.old) → S.is_steady source.old
        → HasRoom (K.is_steady sink.old) (W.is_steady wire.old) (taken_text g).text (taken_datagrams g) more → OnlyMemoryStops result (HasRoom (K.is_steady sink.new) (W.is_steady wire.new) [] [] more) }
{
    let mut reading = new_reading(alloc)?;
    match follow(alloc, &mut reading, source, sink) {
        Ok(()) => go_on(alloc, reading, sink, wire, clock, port, turns, watch),
        Err(stop) => close(&mut reading.journal, sink, Err(stop)),
    }
}
