//! How the text of a capture ends.
ghost use Rattle.std.specs.Prelude.{◌≡◌, ℕ, ◌+◌, ◌++◌, ◌≤◌, IfErr, IfOk, OnErr, OnOk, length};
ghost use Rattle.line_io.specs.Passes.{Passes};
ghost use Rattle.trace_loop.specs.{IsStoppedByWrite, OnlyMemoryStops, StopsIn};
ghost use Rattle.converters.specs.capture_loop.{fault_word, last, refused_record};

use crate::capture_loop::pcap_trace::CaptureFault;
use book_text::Tail;
use line_io::Gather;
use ram_io::{NoMemory, Sink};
use rams_model::Status;
use trace_loop::{Stop, settle};

/// How a capture file ends the text of its records.
#[derive(Clone, Copy, PartialEq, Eq)]
pub(crate) enum End {
    /// Behind a whole record, or its head.
    Whole,
    /// At the record of this number, counted from 1; its head has the number 0.
    Refused { number: u64, fault: CaptureFault },
    /// At an event or a record too many.
    TooLong,
}

fn fault_word(fault: CaptureFault) -> &'static [u8]
    ensures word { result.now ≡ fault_word fault }
    ensures short { length result.now ≤ 7 }
{
    match fault {
        CaptureFault::Short => b"short",
        CaptureFault::Magic => b"magic",
        CaptureFault::Version => b"version",
        CaptureFault::Link => b"link",
        CaptureFault::Cut => b"cut",
        CaptureFault::Long => b"long",
    }
}

/// Appends the line that says of a record, by its number, why it is refused.
fn append_refused_record(
    text: &mut Vec<u8>,
    number: u64,
    fault: CaptureFault,
) -> Result<(), NoMemory>
    ensures text { OnOk result (text.new.items ≡ text.old.items ++ refused_record number fault) }
    ensures err { OnErr result (text.new.items ≡ text.old.items) }
{
    let mut line = Tail::new();
    line.byte(b'\n');
    line.word(fault_word(fault));
    line.byte(b' ');
    line.named(b"refused-capture", number);
    line.append_to(text)
}

/// Appends the line with which the text ends; nothing where memory runs out.
fn append_last(text: &mut Vec<u8>, end: End) -> Result<(), NoMemory>
    ensures text { OnOk result (text.new.items ≡ text.old.items ++ (last end).text) }
    ensures err { OnErr result (text.new.items ≡ text.old.items) }
{
    match end {
        End::Whole => Ok(text.extend_from_slice(b"end\n")?),
        End::Refused { number, fault } => append_refused_record(text, number, fault),
        End::TooLong => Ok(text.extend_from_slice(b"too-long\n")?),
    }
}

fn status_of(end: End) -> Status
    ensures { result ≡ (last end).status }
{
    match end {
        End::Whole => Status::Done,
        End::Refused { .. } => Status::BadCapture,
        End::TooLong => Status::TooLong,
    }
}

/// Adds the line with which the text ends, and says with which status.
pub(crate) fn write_last<K: Sink>(
    gather: &mut Gather,
    sink: &mut K,
    end: End,
) -> Result<Status, Stop>
    ensures status { IfOk result (λ status. status ≡ (last end).status) }
    ensures all { OnOk result (Passes (K.held sink.old) (K.held sink.new) (gather.old ++ (last end).text) gather.new) }
    ensures front { IfErr result (StopsIn (K.held sink.old) (K.held sink.new) (gather.old ++ (last end).text) gather.new) }
    ensures cause { IsStoppedByWrite (K.faults sink.old) (K.faults sink.new) result }
    ensures steady { (room : ℕ) → K.is_steady sink.old (length gather.old + length (last end).text + room)
        → OnlyMemoryStops result (K.is_steady sink.new (length gather.new + room)) }
{
    append_last(gather.text(), end)?;
    settle(gather, sink)?;
    Ok(status_of(end))
}
