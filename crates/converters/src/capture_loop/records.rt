//! The records of a capture file, one after another.
ghost use Rattle.std.specs.Prelude.{◌≡◌, ◌^◌, ◌<◌, ◌≤◌, IfOk, OnErr, Err, Ok, IsOkAnd, length, take};
ghost use Rattle.std.specs.Io.KnownBytes.{Keeps, prepend_known};
ghost use Rattle.converters.specs.declared.capture_loop.pcap_trace.head.CaptureFault.TheVariants.{Cut, Short};
ghost use Rattle.converters.specs.capture_loop.pcap_trace.{record_at};
ghost use Rattle.ram_io.specs.{HasCause};
ghost use Rattle.converters.specs.capture_loop.{HasOrder, IsNext, IsNextWithin, order_in, record_in};

use crate::capture_loop::intake::Intake;
use crate::capture_loop::pcap_trace::{
    CaptureFault, Endian, FileKind, HEAD_SIZE, HEADER_SIZE, Record, read_head, read_record,
};
use crate::capture_loop::watch::{CaptureWatch, tell_file};
use ram_io::{Failed, Source};

/// Most records of a file.
const MOST_RECORDS: u64 = 10_000_000;

/// What stands where a record may.
#[derive(Clone, Copy, PartialEq, Eq)]
pub(crate) enum Next {
    /// A whole record: the intake has its header and its bytes in front.
    Whole(Record),
    /// The file has ended.
    Ended,
    /// A record with this fault.
    Broken(CaptureFault),
    /// A record too many.
    TooMany,
}

/// Takes the head of a file, and says its byte order or its first fault. What stands behind a head
/// without fault is left.
pub(crate) fn read_order<S: Source, T: CaptureWatch>(
    intake: &mut Intake,
    source: &mut S,
    watch: &T,
) -> Result<Result<Endian, CaptureFault>, Failed>
    ensures order { IfOk result (HasOrder (prepend_known intake.old (S.left source.old)) (prepend_known intake.new (S.left source.new))) }
    ensures same { OnErr result (Keeps
        (prepend_known intake.old (S.left source.old))
        (prepend_known intake.new (S.left source.new))) }
    ensures unread { OnErr result (order_in intake.new ≡ Err Short) }
    ensures cause { HasCause (S.faults source.old) (S.faults source.new) result }
    ensures steady { S.is_steady source.old → IsOkAnd result (λ _. S.is_steady source.new) }
{
    if !intake.fill(source, HEAD_SIZE)? {
        watch.refuses_file(CaptureFault::Short, FileKind::Unknown);
        return Ok(Err(CaptureFault::Short));
    }
    let head = &intake.bytes()[..HEAD_SIZE];
    let order = read_head(head);
    tell_file(watch, head, order);
    intake.skip(HEAD_SIZE);
    Ok(order)
}

// Takes the bytes of a record whose header is in front.
fn next_whole<S: Source>(
    intake: &mut Intake,
    source: &mut S,
    endian: Endian,
    header: Record,
) -> Result<Next, Failed>
    requires reads { record_at endian (take 16 intake.old) ≡ Ok header }
    requires there { 16 ≤ length intake.old }
    requires short { header.len ≤ 262144 }
    requires moment { header.ms < 2 ^ 43 }
    ensures next { IfOk result (IsNext endian intake.new (S.left source.new)) }
    ensures same { Keeps
        (prepend_known intake.old (S.left source.old))
        (prepend_known intake.new (S.left source.new)) }
    ensures unread { OnErr result (record_in endian intake.new ≡ Err Cut) }
    ensures cause { HasCause (S.faults source.old) (S.faults source.new) result }
    ensures steady { S.is_steady source.old → IsOkAnd result (λ _. S.is_steady source.new) }
{
    if intake.fill(source, HEADER_SIZE + header.len as usize)? {
        Ok(Next::Whole(header))
    } else {
        Ok(Next::Broken(CaptureFault::Cut))
    }
}

// Takes the bytes of the next record.
fn next_record<S: Source>(
    intake: &mut Intake,
    source: &mut S,
    endian: Endian,
) -> Result<Next, Failed>
    ensures next { IfOk result (IsNext endian intake.new (S.left source.new)) }
    ensures same { Keeps
        (prepend_known intake.old (S.left source.old))
        (prepend_known intake.new (S.left source.new)) }
    ensures unread { OnErr result (record_in endian intake.new ≡ Err Cut) }
    ensures cause { HasCause (S.faults source.old) (S.faults source.new) result }
    ensures steady { S.is_steady source.old → IsOkAnd result (λ _. S.is_steady source.new) }
{
    if !intake.fill(source, HEADER_SIZE)? {
        if intake.bytes().is_empty() {
            return Ok(Next::Ended);
        }
        return Ok(Next::Broken(CaptureFault::Cut));
    }
    match read_record(&intake.bytes()[..HEADER_SIZE], endian) {
        Ok(header) => next_whole(intake, source, endian, header),
        Err(fault) => Ok(Next::Broken(fault)),
    }
}

/// Takes the bytes of the next record, behind so many others.
pub(crate) fn next_within<S: Source>(
    intake: &mut Intake,
    source: &mut S,
    endian: Endian,
    count: u64,
) -> Result<Next, Failed>
    ensures next { IfOk result (IsNextWithin endian count intake.new (S.left source.new)) }
    ensures same { Keeps
        (prepend_known intake.old (S.left source.old))
        (prepend_known intake.new (S.left source.new)) }
    ensures unread { OnErr result (record_in endian intake.new ≡ Err Cut) }
    ensures cause { HasCause (S.faults source.old) (S.faults source.new) result }
    ensures steady { S.is_steady source.old → IsOkAnd result (λ _. S.is_steady source.new) }
{
    if count < MOST_RECORDS {
        return next_record(intake, source, endian);
    }
    if intake.fill(source, 1)? {
        Ok(Next::TooMany)
    } else {
        Ok(Next::Ended)
    }
}
