//! A capture file, from its head to its last record.
ghost use Rattle.std.specs.Prelude.{◌≡◌, ℕ, ◌+◌, ◌++◌, ◌≤◌, List, Err, Ok, IfErr, IfOk, MatchResult, length};
ghost use Rattle.std.specs.Io.KnownBytes.{IsAtEnd, prepend_known};
ghost use Rattle.rams_model.specs.declared.Status.TheVariants.{Done};
ghost use Rattle.server_hub.specs.Served.{Served};
ghost use Rattle.trace_loop.specs.declared.Stop.TheVariants.{Memory, Read};
ghost use Rattle.trace_loop.specs.{Ends, IfBothTold, IfTold, IsStopped, OnlyMemoryStops, StopsIn};
ghost use Rattle.converters.specs.declared.capture_loop.last.End.TheVariants.{Whole};
ghost use Rattle.converters.specs.capture_loop.{AreWritten, ComesTo, HasLinesOf, IsCaptureEnd, Numbered, file_events, file_text, last, new_clock, records_events, records_outcome};

use crate::capture_loop::events::{Progress, write_record};
use crate::capture_loop::intake::Intake;
use crate::capture_loop::last::{End, write_last};
use crate::capture_loop::pcap_trace::{Due, Endian};
use crate::capture_loop::records::{Next, next_within, read_order};
use crate::capture_loop::watch::CaptureWatch;
use line_io::Gather;
use ram_io::{Sink, Source};
use rams_model::Status;
use trace_loop::head_loop::Opened;
use trace_loop::{MOST_EVENTS, Stop};

/// Adds the lines of the events of the records that are left, and says how these end.
fn write_records<S: Source, K: Sink, T: CaptureWatch>(
    opened: &Opened,
    port: u16,
    endian: Endian,
    intake: &mut Intake,
    source: &mut S,
    gather: &mut Gather,
    sink: &mut K,
    watch: &T,
) -> Result<End, Stop>
    requires port { port ≤ 65000 }
    requires few { length opened.now.ids.items ≤ 64 }
    ensures text { IfOk result (λ end. (channels : List Served) → Numbered opened.now.ids.items channels → IfTold (prepend_known intake.old (S.left source.old))
        (λ xs. ComesTo (K.held sink.old) (K.held sink.new) gather.old gather.new (records_outcome port channels opened.now.hub.tick endian xs) end)) }
    ensures journal { result ≡ Ok Whole → (channels : List Served) → Numbered opened.now.ids.items channels → IfTold (prepend_known intake.old (S.left source.old))
        (λ xs. AreWritten (records_events port channels opened.now.hub.tick endian xs) (records_outcome port channels opened.now.hub.tick endian xs)) }
    ensures ended { result ≡ Ok Whole → IsAtEnd (S.left source.new) }
    ensures front { IfErr result (λ stop. (channels : List Served) → Numbered opened.now.ids.items channels → IfTold (prepend_known intake.old (S.left source.old))
        (λ xs. StopsIn (K.held sink.old) (K.held sink.new) (gather.old ++ (records_outcome port channels opened.now.hub.tick endian xs).text) gather.new stop)) }
    ensures read { result ≡ Err Read → (channels : List Served) → Numbered opened.now.ids.items channels → IfBothTold (prepend_known intake.old (S.left source.old)) (S.left source.new)
        (HasLinesOf (records_events port channels opened.now.hub.tick endian) (K.held sink.old) (K.held sink.new) gather.old gather.new) }
    ensures cause { IsStopped (S.faults source.old) (S.faults source.new) (K.faults sink.old) (K.faults sink.new) result }
    ensures steady { S.is_steady source.old → (channels : List Served) → Numbered opened.now.ids.items channels → IfTold (prepend_known intake.old (S.left source.old))
        (λ xs. (room : ℕ) → K.is_steady sink.old (length (gather.old ++ (records_outcome port channels opened.now.hub.tick endian xs).text) + room)
        → MatchResult result (λ end. K.is_steady sink.new (length gather.new + length (last end).text + room)) (λ stop. stop ≡ Memory)) }
{
    let mut progress = Progress {
        due: Due::new(opened.hub.tick_ms()),
        room: MOST_EVENTS,
    };
    for count in 0..u64::MAX {
        match next_within(intake, source, endian, count) {
            Err(_) => return Err(Stop::Read),
            Ok(Next::Ended) => return Ok(End::Whole),
            Ok(Next::TooMany) => return Ok(End::TooLong),
            Ok(Next::Broken(fault)) => {
                let number = count + 1;
                watch.refuses_record(number, fault);
                return Ok(End::Refused { number, fault });
            }
            Ok(Next::Whole(header)) => {
                if !write_record(opened, port, header, &mut progress, intake, gather, sink)? {
                    return Ok(End::TooLong);
                }
            }
        }
    }
    Err(Stop::Memory)
}

/// Adds the lines of the events of a file, and says how it ends.
fn write_events<S: Source, K: Sink, T: CaptureWatch>(
    opened: &Opened,
    port: u16,
    intake: &mut Intake,
    source: &mut S,
    gather: &mut Gather,
    sink: &mut K,
    watch: &T,
) -> Result<End, Stop>
    requires port { port ≤ 65000 }
    requires few { length opened.now.ids.items ≤ 64 }
    ensures text { IfOk result (λ end. (channels : List Served) → Numbered opened.now.ids.items channels → IfTold (prepend_known intake.old (S.left source.old))
        (λ xs. ComesTo (K.held sink.old) (K.held sink.new) gather.old gather.new (file_text port channels (new_clock opened.now.hub.tick) xs) end)) }
    ensures journal { result ≡ Ok Whole → (channels : List Served) → Numbered opened.now.ids.items channels → IfTold (prepend_known intake.old (S.left source.old))
        (λ xs. AreWritten (file_events port channels (new_clock opened.now.hub.tick) xs) (file_text port channels (new_clock opened.now.hub.tick) xs)) }
    ensures ended { result ≡ Ok Whole → IsAtEnd (S.left source.new) }
    ensures front { IfErr result (λ stop. (channels : List Served) → Numbered opened.now.ids.items channels → IfTold (prepend_known intake.old (S.left source.old))
        (λ xs. StopsIn (K.held sink.old) (K.held sink.new) (gather.old ++ (file_text port channels (new_clock opened.now.hub.tick) xs).text) gather.new stop)) }
    ensures read { result ≡ Err Read → (channels : List Served) → Numbered opened.now.ids.items channels → IfBothTold (prepend_known intake.old (S.left source.old)) (S.left source.new)
        (HasLinesOf (file_events port channels (new_clock opened.now.hub.tick)) (K.held sink.old) (K.held sink.new) gather.old gather.new) }
    ensures cause { IsStopped (S.faults source.old) (S.faults source.new) (K.faults sink.old) (K.faults sink.new) result }
    ensures steady { S.is_steady source.old → (channels : List Served) → Numbered opened.now.ids.items channels → IfTold (prepend_known intake.old (S.left source.old))
        (λ xs. (room : ℕ) → K.is_steady sink.old (length (gather.old ++ (file_text port channels (new_clock opened.now.hub.tick) xs).text) + room)
        → MatchResult result (λ end. K.is_steady sink.new (length gather.new + length (last end).text + room)) (λ stop. stop ≡ Memory)) }
{
    match read_order(intake, source, watch) {
        Err(_) => Err(Stop::Read),
        Ok(Err(fault)) => Ok(End::Refused { number: 0, fault }),
        Ok(Ok(endian)) => write_records(opened, port, endian, intake, source, gather, sink, watch),
    }
}

/// Adds the text of a file, and says with which status it ends.
pub(crate) fn write_file<S: Source, K: Sink, T: CaptureWatch>(
    opened: &Opened,
    port: u16,
    intake: &mut Intake,
    source: &mut S,
    gather: &mut Gather,
    sink: &mut K,
    watch: &T,
) -> Result<Status, Stop>
    requires port { port ≤ 65000 }
    requires few { length opened.now.ids.items ≤ 64 }
    ensures status { IfOk result IsCaptureEnd }
    ensures text { IfOk result (λ status. (channels : List Served) → Numbered opened.now.ids.items channels → IfTold (prepend_known intake.old (S.left source.old))
        (λ xs. Ends (K.held sink.old) (K.held sink.new) gather.old gather.new (file_text port channels (new_clock opened.now.hub.tick) xs) status)) }
    ensures journal { result ≡ Ok Done → (channels : List Served) → Numbered opened.now.ids.items channels → IfTold (prepend_known intake.old (S.left source.old))
        (λ xs. AreWritten (file_events port channels (new_clock opened.now.hub.tick) xs) (file_text port channels (new_clock opened.now.hub.tick) xs)) }
    ensures ended { result ≡ Ok Done → IsAtEnd (S.left source.new) }
    ensures front { IfErr result (λ stop. (channels : List Served) → Numbered opened.now.ids.items channels → IfTold (prepend_known intake.old (S.left source.old))
        (λ xs. StopsIn (K.held sink.old) (K.held sink.new) (gather.old ++ (file_text port channels (new_clock opened.now.hub.tick) xs).text) gather.new stop)) }
    ensures read { result ≡ Err Read → (channels : List Served) → Numbered opened.now.ids.items channels → IfBothTold (prepend_known intake.old (S.left source.old)) (S.left source.new)
        (HasLinesOf (file_events port channels (new_clock opened.now.hub.tick)) (K.held sink.old) (K.held sink.new) gather.old gather.new) }
    ensures cause { IsStopped (S.faults source.old) (S.faults source.new) (K.faults sink.old) (K.faults sink.new) result }
    ensures steady { S.is_steady source.old → (channels : List Served) → Numbered opened.now.ids.items channels → IfTold (prepend_known intake.old (S.left source.old))
        (λ xs. (room : ℕ) → K.is_steady sink.old (length (gather.old ++ (file_text port channels (new_clock opened.now.hub.tick) xs).text) + room)
        → OnlyMemoryStops result (K.is_steady sink.new (length gather.new + room))) }
{
    let end = write_events(opened, port, intake, source, gather, sink, watch)?;
    write_last(gather, sink, end)
}
