//! A piece of a journal, and the whole lines that it makes.
ghost use Rattle.std.specs.Prelude.{◌≡◌, ◌+◌, ◌<◌, ◌≤◌, ◌++◌, ◌-◌, Bool, ℕ, List, [], Ok, None, Some, Option, IfErr, IfOk, IfSome, MatchBool, MatchOption, OnOk, false, if◌then◌else◌, length};
ghost use Rattle.std.specs.Io.KnownBytes.{Keeps};
ghost use Rattle.trace_loop.specs.trace_book.trace_serving.{Outcome};
ghost use Rattle.serve_loop.specs.{IsStoppedByWrite, OnlyMemoryStops, StopsIn};
ghost use Rattle.takeover.specs.standby.{HasRead, HasReadSome, end_of, first_part, whole_text};
ghost use Rattle.takeover.specs.standby.standby_book.{followed_text};
ghost use Rattle.takeover.specs.takeover_loop.{IsFresh, IsOver, IsReading, KeepsLines, is_fed, left_text};

use crate::standby::{FeedFault, Standby};
use line_io::Gather;
use ram_io::{NoMemory, Sink};
use std::alloc::Global;
use trace_loop::{Stop, put};

/// What has been read of a journal.
#[derive(Drop)]
pub struct Reading {
    pub standby: Standby,
    /// The lines that wait for the sink.
    pub journal: Gather,
    /// The bytes of a line that isn't whole yet.
    pub line: Vec<u8>,
    /// Whether some line was whole.
    pub begun: bool,
}

/// Nothing has been read.
pub fn new_reading(alloc: Global) -> Result<Reading, NoMemory>
    ensures { IfOk result (λ reading. IsFresh reading.standby reading.journal reading.line.items reading.begun) }
{
    Ok(Reading {
        standby: Standby::new(alloc)?,
        journal: Gather::new(alloc)?,
        line: Vec::new(alloc),
        begun: false,
    })
}

/// The number of the next line. Each line so far is the head line, the line of a channel or that of an
/// event.
pub fn next_number(standby: &Standby, begun: bool) -> u64
    requires { HasReadSome standby.now }
    ensures { result ≡ (if begun then 1 else 0) + length standby.now.ids + standby.now.events + 1 }
{
    let heads = u64::from(begun);
    heads + standby.ids().len() as u64 + standby.events() + 1
}

/// Whether the last byte is a line feed.
fn is_fed(part: &[u8]) -> bool
    requires { 0 < length part.now }
    ensures { result ≡ is_fed part.now }
{
    part[part.len() - 1] == b'\n'
}

fn append(line: &mut Vec<u8>, part: &[u8]) -> Result<(), NoMemory>
    ensures { OnOk result (line.new.items ≡ line.old.items ++ part.now) }
{
    line.extend_from_slice(part)?;
    Ok(())
}

/// Keeps a part of a line, or puts the line that is whole with it.
fn keep<K: Sink>(reading: &mut Reading, sink: &mut K, part: &[u8]) -> Result<(), Stop>
    requires some { 0 < length part.now }
    ensures standby { reading.new.standby ≡ reading.old.standby }
    ensures kept { (piece bytes : List ℕ) (held : Option (List ℕ)) → part.now ≡ first_part piece → KeepsLines held (K.held sink.old) reading.old.journal reading.old.line.items reading.old.begun bytes
        → OnOk result (KeepsLines held (K.held sink.new) reading.new.journal reading.new.line.items reading.new.begun (bytes ++ part.now)) }
    ensures stops { (piece bytes : List ℕ) (held : Option (List ℕ)) → part.now ≡ first_part piece → KeepsLines held (K.held sink.old) reading.old.journal reading.old.line.items reading.old.begun bytes
        → IfErr result (StopsIn held (K.held sink.new) (whole_text (bytes ++ part.now)) reading.new.journal) }
    ensures cause { IsStoppedByWrite (K.faults sink.old) (K.faults sink.new) result }
    ensures steady { (piece bytes : List ℕ) (held : Option (List ℕ)) (room : ℕ) → part.now ≡ first_part piece → KeepsLines held (K.held sink.old) reading.old.journal reading.old.line.items reading.old.begun bytes
        → K.is_steady sink.old (length reading.old.journal + (length (whole_text (bytes ++ part.now)) - length (whole_text bytes)) + room)
        → OnlyMemoryStops result (K.is_steady sink.new (length reading.new.journal + room)) }
{
    append(&mut reading.line, part)?;
    if !is_fed(part) {
        return Ok(());
    }
    put(&mut reading.journal, sink, &reading.line)?;
    reading.line.clear();
    reading.begun = true;
    Ok(())
}

/// Reads a piece up to its first line feed, or all of it, and answers how many bytes these are; `None`
/// where they end the journal.
fn read_part(alloc: Global, standby: &mut Standby, piece: &[u8]) -> Result<Option<usize>, NoMemory>
    requires some { 0 < length piece.now }
    requires unended { standby.old.ended ≡ false }
    requires read { HasReadSome standby.old }
    ensures count { IfOk result (λ o. IfSome o (λ count. (count ≡ length (first_part piece.now)) × (standby.new.ended ≡ false))) }
    ensures read { HasReadSome standby.new }
    ensures part { (bytes : List ℕ) → HasRead standby.old bytes → standby.old.fault ≡ None
        → IfOk result (λ o. HasRead standby.new (bytes ++ first_part piece.now) × MatchOption o ((o : Outcome) × (end_of (bytes ++ first_part piece.now) ≡ Some o)) (λ count. standby.new.fault ≡ None)) }
{
    match standby.feed(alloc, piece) {
        Ok(count) => Ok(unless(standby.ended(), count)),
        Err(FeedFault::NoMemory) => Err(NoMemory),
        Err(FeedFault::Line { .. }) | Err(FeedFault::TooLong) => Ok(None),
    }
}

/// The count, unless the journal has ended.
fn unless(ended: bool, count: usize) -> Option<usize>
    ensures { MatchBool ended (result ≡ None) (result ≡ Some count) }
{
    if ended {
        return None;
    }
    Some(count)
}

/// The same, and keeps these bytes, or puts the line that is whole with them.
pub fn take_part<K: Sink>(
    alloc: Global,
    reading: &mut Reading,
    sink: &mut K,
    piece: &[u8],
) -> Result<Option<usize>, Stop>
    requires some { 0 < length piece.now }
    requires unended { reading.old.standby.ended ≡ false }
    requires read { HasReadSome reading.old.standby }
    ensures count { IfOk result (λ o. IfSome o (λ count. (count ≡ length (first_part piece.now)) × (reading.new.standby.ended ≡ false))) }
    ensures read { OnOk result (HasReadSome reading.new.standby) }
    ensures part { (bytes : List ℕ) (held : Option (List ℕ)) → IsReading held (K.held sink.old) reading.old.standby reading.old.journal reading.old.line.items reading.old.begun bytes
        → IfOk result (λ o. MatchOption o
        (IsOver held (K.held sink.new) reading.new.standby reading.new.journal reading.new.begun (bytes ++ first_part piece.now) × (end_of (bytes ++ first_part piece.now) ≡ None → ⊥))
        (λ count. IsReading held (K.held sink.new) reading.new.standby reading.new.journal reading.new.line.items reading.new.begun (bytes ++ first_part piece.now))) }
    ensures stops { (bytes : List ℕ) (held : Option (List ℕ)) → IsReading held (K.held sink.old) reading.old.standby reading.old.journal reading.old.line.items reading.old.begun bytes
        → IfErr result (StopsIn held (K.held sink.new) (followed_text (bytes ++ first_part piece.now)) reading.new.journal) }
    ensures cause { IsStoppedByWrite (K.faults sink.old) (K.faults sink.new) result }
    ensures steady { (bytes : List ℕ) (held : Option (List ℕ)) (room : ℕ) → IsReading held (K.held sink.old) reading.old.standby reading.old.journal reading.old.line.items reading.old.begun bytes
        → K.is_steady sink.old (length reading.old.journal + left_text (bytes ++ first_part piece.now) bytes + room)
        → OnlyMemoryStops result (K.is_steady sink.new (length reading.new.journal + room)) }
{
    let Some(count) = read_part(alloc, &mut reading.standby, piece)? else {
        return Ok(None);
    };
    keep(reading, sink, &piece[..count])?;
    Ok(Some(count))
}
