//! The events of a record.
ghost use Rattle.std.specs.Prelude.{◌≡◌, ℕ, ◌+◌, ◌++◌, ◌^◌, ◌<◌, ◌≤◌, List, All, IfErr, IfOk, IfSome, OnOk, MatchBool, MatchOption, drop, length, option_map, take};
ghost use Rattle.line_io.specs.Passes.{Passes};
ghost use Rattle.server_hub.specs.{event_of};
ghost use Rattle.server_hub.specs.Served.{Served};
ghost use Rattle.trace_loop.specs.{IsStoppedByWrite, OnlyMemoryStops, StopsIn};
ghost use Rattle.trace_loop.specs.journal_book.{CanCome, HasLine, event_lines, heard_from};
ghost use Rattle.converters.specs.capture_loop.{Numbered, captured_in, clock_told, frame_heard, record_events, ticks_and};

use crate::capture_loop::intake::Intake;
use crate::capture_loop::pcap_trace::{Due, HEADER_SIZE, Record, datagram};
use crate::capture_loop::writer::{put_event, put_ticks};
use line_io::Gather;
use ram_io::{Arrival, Sink};
use server_hub::Heard;
use trace_loop::Stop;
use trace_loop::head_loop::{Opened, event_at};
use trace_loop::journal_book::laws::turns_make_journals;

/// Most bytes of an event's datagram.
const MOST_DATAGRAM: usize = 2_000;

/// What stands before a record: the ticks so far, and for how many more events there is room.
#[derive(Drop)]
pub(crate) struct Progress {
    pub(crate) due: Due,
    pub(crate) room: u64,
}

/// The event of a datagram, where it is one for the channels with these numbers, the first of which has
/// this live port.
fn arrival_heard<'a>(port: u16, ids: &[u16], arrival: Arrival, bytes: &'a [u8]) -> Option<Heard<'a>>
    requires port { port ≤ 65000 }
    requires few { length ids.now ≤ 64 }
    requires sender { arrival.from < 2 ^ 48 }
    requires short { length bytes.now ≤ 2000 }
    ensures heard { (channels : List Served) → Numbered ids.now channels → option_map (λ heard. event_of heard) result ≡ heard_from port channels arrival.from arrival.port bytes.now }
    ensures spelled { (channels : List Served) → Numbered ids.now channels → IfSome result (λ heard. CanCome (event_of heard)) }
{
    turns_make_journals();
    let addressed = event_at(port, ids, arrival, bytes)?;
    Some(addressed.heard)
}

/// The event of a frame, where it is one for these channels.
pub(crate) fn frame_heard<'a>(port: u16, ids: &[u16], frame: &'a [u8]) -> Option<Heard<'a>>
    requires port { port ≤ 65000 }
    requires few { length ids.now ≤ 64 }
    ensures heard { (channels : List Served) → Numbered ids.now channels → option_map (λ heard. event_of heard) result ≡ frame_heard port channels frame.now }
    ensures spelled { (channels : List Served) → Numbered ids.now channels → IfSome result (λ heard. CanCome (event_of heard)) }
{
    let udp = datagram(frame)?;
    if udp.payload.len() > MOST_DATAGRAM {
        return None;
    }
    let arrival = Arrival {
        from: udp.from,
        port: udp.port,
        len: udp.payload.len(),
    };
    arrival_heard(port, ids, arrival, udp.payload)
}

/// Adds the lines of so many ticks and then of this event, as far as there is room. Answers for how many
/// more there is room, and nothing where one was too many.
fn write_events<K: Sink>(
    gather: &mut Gather,
    sink: &mut K,
    room: u64,
    ticks: u64,
    heard: Option<Heard<'_>>,
) -> Result<Option<u64>, Stop>
    ensures left { IfOk result (λ left. MatchOption left (room < length (ticks_and ticks (option_map (λ h. event_of h) heard.entry)))
        (λ n. n + length (ticks_and ticks (option_map (λ h. event_of h) heard.entry)) ≡ room)) }
    ensures all { OnOk result (Passes (K.held sink.old) (K.held sink.new)
        (gather.old ++ event_lines (take room (ticks_and ticks (option_map (λ h. event_of h) heard.entry)))) gather.new) }
    ensures front { IfErr result (StopsIn (K.held sink.old) (K.held sink.new)
        (gather.old ++ event_lines (take room (ticks_and ticks (option_map (λ h. event_of h) heard.entry)))) gather.new) }
    ensures cause { IsStoppedByWrite (K.faults sink.old) (K.faults sink.new) result }
    ensures steady { (more : ℕ) → K.is_steady sink.old (length gather.old + length (event_lines (take room (ticks_and ticks (option_map (λ h. event_of h) heard.entry)))) + more)
        → OnlyMemoryStops result (K.is_steady sink.new (length gather.new + more)) }
{
    let count = ticks.min(room);
    put_ticks(gather, sink, count)?;
    if count < ticks {
        return Ok(None);
    }
    let Some(heard) = heard else {
        return Ok(Some(room - count));
    };
    if count == room {
        return Ok(None);
    }
    put_event(gather, sink, heard)?;
    Ok(Some(room - count - 1))
}

/// Adds the lines of the events of the record that stands in front, and drops it. Says whether there was
/// room for all of them.
pub(crate) fn write_record<K: Sink>(
    opened: &Opened,
    port: u16,
    header: Record,
    progress: &mut Progress,
    intake: &mut Intake,
    gather: &mut Gather,
    sink: &mut K,
) -> Result<bool, Stop>
    requires there { 16 + header.len ≤ length intake.old }
    requires moment { header.ms < 2 ^ 43 }
    requires port { port ≤ 65000 }
    requires few { length opened.now.ids.items ≤ 64 }
    ensures fits { (channels : List Served) → Numbered opened.now.ids.items channels → IfOk result (λ fits. MatchBool fits
        (progress.new.room + length (record_events port channels progress.old.due (captured_in intake.old header)) ≡ progress.old.room)
        (progress.old.room < length (record_events port channels progress.old.due (captured_in intake.old header)))) }
    ensures clock { progress.new.due ≡ clock_told header.ms progress.old.due }
    ensures left { OnOk result (intake.new ≡ drop (16 + header.len) intake.old) }
    ensures spelled { (channels : List Served) → Numbered opened.now.ids.items channels → All HasLine (record_events port channels progress.old.due (captured_in intake.old header)) }
    ensures all { (channels : List Served) → Numbered opened.now.ids.items channels → OnOk result (Passes (K.held sink.old) (K.held sink.new)
        (gather.old ++ event_lines (take progress.old.room (record_events port channels progress.old.due (captured_in intake.old header)))) gather.new) }
    ensures front { (channels : List Served) → Numbered opened.now.ids.items channels → IfErr result (StopsIn (K.held sink.old) (K.held sink.new)
        (gather.old ++ event_lines (take progress.old.room (record_events port channels progress.old.due (captured_in intake.old header)))) gather.new) }
    ensures cause { IsStoppedByWrite (K.faults sink.old) (K.faults sink.new) result }
    ensures steady { (channels : List Served) (more : ℕ) → Numbered opened.now.ids.items channels
        → K.is_steady sink.old (length gather.old + length (event_lines (take progress.old.room (record_events port channels progress.old.due (captured_in intake.old header)))) + more)
        → OnlyMemoryStops result (K.is_steady sink.new (length gather.new + more)) }
{
    turns_make_journals();
    let end = HEADER_SIZE + header.len as usize;
    let ticks = progress.due.ticks_before(header.ms);
    let heard = frame_heard(port, &opened.ids, &intake.bytes()[HEADER_SIZE..end]);
    let left = write_events(gather, sink, progress.room, ticks, heard)?;
    intake.skip(end);
    match left {
        Some(room) => {
            progress.room = room;
            Ok(true)
        }
        None => Ok(false),
    }
}
