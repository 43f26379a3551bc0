//! The text of a capture, from the source's bytes to the sink's.
ghost use Rattle.std.specs.Prelude.{◌≡◌, ◌⊎◌, ℕ, ◌+◌, ◌++◌, ◌≤◌, List, [], Err, Ok, IfErr, IfOk, OnOk, length};
ghost use Rattle.std.specs.Io.KnownBytes.{Appends, IsAtEnd, prepend_known};
ghost use Rattle.line_io.specs.Passes.{Passes};
ghost use Rattle.rams_model.specs.declared.Status.TheVariants.{BadTrace, Done};
ghost use Rattle.rams_model.specs.Texts.{refused_line};
ghost use Rattle.ram_io.specs.{Rose};
ghost use Rattle.server_hub.specs.Served.{Served};
ghost use Rattle.trace_loop.specs.trace_book.trace_serving.{after_text};
ghost use Rattle.trace_loop.specs.declared.Stop.TheVariants.{Read};
ghost use Rattle.trace_loop.specs.{Ends, IfBothTold, IfTold, IsStopped, IsStoppedByWrite, OnlyMemoryStops, StopsIn};
ghost use Rattle.converters.specs.capture_loop.{AreWritten, HasLinesOf, HasReadCapture, IsCaptureEnd, IsTrace, Numbered, capture_text, file_events, file_text, new_clock};

use crate::capture_loop::capture::write_file;
use crate::capture_loop::intake::Intake;
use crate::capture_loop::watch::CaptureWatch;
use book_text::append_refused;
use line_io::{Gather, LineReader};
use ram_io::{Sink, Source};
use rams_model::{LineFault, Status};
use std::alloc::Global;
use trace_loop::head_loop::{Head, Opened, read_head};
use trace_loop::journal_book::laws::{heads_open_new_channels, runs_of_journals};
use trace_loop::{Stop, close, flush, put};

/// Writes that a line of the head is refused.
fn refuse<K: Sink>(alloc: Global, sink: &mut K, line: u64, fault: LineFault) -> Result<Status, Stop>
    ensures status { IfOk result (λ status. status ≡ BadTrace) }
    ensures text { OnOk result (Appends (K.held sink.old) (K.held sink.new) (refused_line line fault)) }
    ensures front { (rest : List ℕ) × Passes (K.held sink.old) (K.held sink.new) (refused_line line fault) rest }
    ensures cause { IsStoppedByWrite (K.faults sink.old) (K.faults sink.new) result }
    ensures steady { K.is_steady sink.old (length (refused_line line fault)) → OnlyMemoryStops result (Unit {0}) }
{
    let mut gather = Gather::new(alloc)?;
    append_refused(gather.text(), line, fault)?;
    flush(&mut gather, sink)?;
    Ok(Status::BadTrace)
}

/// Adds the text of a head and of the file behind it.
fn write_all<S: Source, K: Sink, T: CaptureWatch>(
    opened: &Opened,
    port: u16,
    intake: &mut Intake,
    source: &mut S,
    gather: &mut Gather,
    sink: &mut K,
    watch: &T,
) -> Result<Status, Stop>
    requires port { port ≤ 65000 }
    requires few { length opened.now.ids.items ≤ 64 }
    ensures status { IfOk result IsCaptureEnd }
    ensures text { IfOk result (λ status. (channels : List Served) → Numbered opened.now.ids.items channels → IfTold (prepend_known intake.old (S.left source.old))
        (λ xs. Ends (K.held sink.old) (K.held sink.new) gather.old gather.new (after_text opened.now.text.items (file_text port channels (new_clock opened.now.hub.tick) xs)) status)) }
    ensures journal { result ≡ Ok Done → (channels : List Served) → Numbered opened.now.ids.items channels → IfTold (prepend_known intake.old (S.left source.old))
        (λ xs. AreWritten (file_events port channels (new_clock opened.now.hub.tick) xs) (file_text port channels (new_clock opened.now.hub.tick) xs)) }
    ensures ended { result ≡ Ok Done → IsAtEnd (S.left source.new) }
    ensures front { IfErr result (λ stop. (channels : List Served) → Numbered opened.now.ids.items channels → IfTold (prepend_known intake.old (S.left source.old))
        (λ xs. StopsIn (K.held sink.old) (K.held sink.new) (gather.old ++ (after_text opened.now.text.items (file_text port channels (new_clock opened.now.hub.tick) xs)).text) gather.new stop)) }
    ensures read { result ≡ Err Read → (channels : List Served) → Numbered opened.now.ids.items channels → IfBothTold (prepend_known intake.old (S.left source.old)) (S.left source.new)
        (HasLinesOf (file_events port channels (new_clock opened.now.hub.tick)) (K.held sink.old) (K.held sink.new) (gather.old ++ opened.now.text.items) gather.new) }
    ensures cause { IsStopped (S.faults source.old) (S.faults source.new) (K.faults sink.old) (K.faults sink.new) result }
    ensures steady { S.is_steady source.old → (channels : List Served) → Numbered opened.now.ids.items channels → IfTold (prepend_known intake.old (S.left source.old))
        (λ xs. (room : ℕ) → K.is_steady sink.old (length (gather.old ++ (after_text opened.now.text.items (file_text port channels (new_clock opened.now.hub.tick) xs)).text) + room)
        → OnlyMemoryStops result (K.is_steady sink.new (length gather.new + room))) }
{
    put(gather, sink, &opened.text)?;
    write_file(opened, port, intake, source, gather, sink, watch)
}

/// Writes the text of a head that was read whole, and of what stands behind it: these bytes, and what the
/// source has left.
fn write_behind<S: Source, K: Sink, T: CaptureWatch>(
    alloc: Global,
    opened: &Opened,
    bytes: &[u8],
    port: u16,
    source: &mut S,
    sink: &mut K,
    watch: &T,
) -> Result<Status, Stop>
    requires port { port ≤ 65000 }
    requires few { length opened.now.ids.items ≤ 64 }
    requires bytes { length bytes.now ≤ 65536 }
    ensures status { IfOk result IsCaptureEnd }
    ensures text { IfOk result (λ status. (channels : List Served) → Numbered opened.now.ids.items channels → IfTold (prepend_known bytes.now (S.left source.old))
        (λ xs. (status ≡ (file_text port channels (new_clock opened.now.hub.tick) xs).status)
        × Appends (K.held sink.old) (K.held sink.new) (after_text opened.now.text.items (file_text port channels (new_clock opened.now.hub.tick) xs)).text)) }
    ensures journal { result ≡ Ok Done → (channels : List Served) → Numbered opened.now.ids.items channels → IfTold (prepend_known bytes.now (S.left source.old))
        (λ xs. AreWritten (file_events port channels (new_clock opened.now.hub.tick) xs) (file_text port channels (new_clock opened.now.hub.tick) xs)) }
    ensures ended { result ≡ Ok Done → IsAtEnd (S.left source.new) }
    ensures front { (channels : List Served) → Numbered opened.now.ids.items channels → IfTold (prepend_known bytes.now (S.left source.old))
        (λ xs. (rest : List ℕ) × Passes (K.held sink.old) (K.held sink.new) (after_text opened.now.text.items (file_text port channels (new_clock opened.now.hub.tick) xs)).text rest) }
    ensures read { result ≡ Err Read → (channels : List Served) → Numbered opened.now.ids.items channels
        → IfBothTold (prepend_known bytes.now (S.left source.old)) (S.left source.new) (HasLinesOf (file_events port channels (new_clock opened.now.hub.tick)) (K.held sink.old) (K.held sink.new) opened.now.text.items [])
        ⊎ Rose (K.faults sink.old) (K.faults sink.new) }
    ensures cause { IsStopped (S.faults source.old) (S.faults source.new) (K.faults sink.old) (K.faults sink.new) result }
    ensures steady { S.is_steady source.old → (channels : List Served) → Numbered opened.now.ids.items channels → IfTold (prepend_known bytes.now (S.left source.old))
        (λ xs. K.is_steady sink.old (length (after_text opened.now.text.items (file_text port channels (new_clock opened.now.hub.tick) xs)).text) → OnlyMemoryStops result (Unit {0})) }
{
    let mut gather = Gather::new(alloc)?;
    let mut intake = Intake::new(alloc, bytes)?;
    let ended = write_all(opened, port, &mut intake, source, &mut gather, sink, watch);
    close(&mut gather, sink, ended)
}

/// Reads a head and a capture file behind it, and writes a trace: the head's lines; for each record in
/// order as many lines `tick` as are due by its moment, then the line of its datagram where that has at
/// most 2,000 bytes and goes to a port of one of the channels; and `end`. The first channel has the live
/// port `port` and the feedback port above it, each of the others the two above those of the channel in
/// front of it.
///
/// Where a line of the head is refused, one line says so, and nothing else is written. Where the file's
/// head or a record has a fault, a last line says so in place of `end`, and where an event or a record is
/// one too many, `too-long` does. Whatever stops the writing, what waits is put still, unless the sink
/// failed. `watch` is told which file or record was refused.
pub fn write_capture<S: Source, K: Sink, T: CaptureWatch>(
    alloc: Global,
    port: u16,
    source: &mut S,
    sink: &mut K,
    watch: &T,
) -> Result<Status, Stop>
    requires { port ≤ 65000 }
    ensures status { IfOk result IsCaptureEnd }
    ensures text { IfOk result (λ status. IfTold (S.left source.old)
        (λ xs. (status ≡ (capture_text port xs).status) × Appends (K.held sink.old) (K.held sink.new) (capture_text port xs).text)) }
    ensures journal { result ≡ Ok Done → IfTold (S.left source.old) (IsTrace port) }
    ensures ended { result ≡ Ok Done → IsAtEnd (S.left source.new) }
    ensures front { IfTold (S.left source.old)
        (λ xs. (rest : List ℕ) × Passes (K.held sink.old) (K.held sink.new) (capture_text port xs).text rest) }
    ensures read { result ≡ Err Read → IfBothTold (S.left source.old) (S.left source.new) (HasReadCapture port (K.held sink.old) (K.held sink.new)) ⊎ Rose (K.faults sink.old) (K.faults sink.new) }
    ensures cause { IsStopped (S.faults source.old) (S.faults source.new) (K.faults sink.old) (K.faults sink.new) result }
    ensures steady { S.is_steady source.old → IfTold (S.left source.old)
        (λ xs. K.is_steady sink.old (length (capture_text port xs).text) → OnlyMemoryStops result (Unit {0})) }
{
    heads_open_new_channels();
    runs_of_journals();
    let mut reader = LineReader::new(alloc)?;
    match read_head(alloc, &mut reader, source)? {
        Head::Unlawful { line, fault } => refuse(alloc, sink, line, fault),
        Head::Lawful(opened) => write_behind(
            alloc,
            &opened,
            reader.kept(),
            port,
            source,
            sink,
            watch,
        ),
    }
}
