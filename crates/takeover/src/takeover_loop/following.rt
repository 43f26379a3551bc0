//! A journal that a source has, read as far as it goes.
ghost use Rattle.std.specs.Prelude.{◌≡◌, ◌+◌, ◌<◌, ◌≤◌, ◌++◌, Bool, ℕ, List, [], Option, Ok, Err, None, Some, IfErr, IfOk, MatchBool, MatchResult, OnErr, OnOk, false, take, true, length};
ghost use Rattle.std.specs.Io.KnownBytes.{Consumes, IsAtEnd, Keeps};
ghost use Rattle.trace_loop.specs.declared.Stop.TheVariants.{Memory, Read};
ghost use Rattle.trace_loop.specs.{IsStopped};
ghost use Rattle.serve_loop.specs.{IfBothTold, IsStoppedByRead, IsStoppedByWrite, OnlyMemoryStops, StopsIn};
ghost use Rattle.takeover.specs.standby.{HasReadSome, end_of};
ghost use Rattle.takeover.specs.standby.standby_book.{followed_text};
ghost use Rattle.takeover.specs.takeover_loop.{FollowsWithin, HasFollowed, HoldsItsLines, IsFollowing, IsFresh, IsOver, IsReading, left_text};

use crate::takeover_loop::reading::{Reading, take_part};
use ram_io::{Sink, Source};
use std::alloc::Global;
use trace_loop::{Stop, flush};

/// Most bytes that one call asks of the source.
const PIECE: usize = 8_192;

/// Reads a piece of the journal, and says whether the journal goes on behind it.
fn take_piece<K: Sink>(
    alloc: Global,
    reading: &mut Reading,
    sink: &mut K,
    piece: &[u8],
) -> Result<bool, Stop>
    requires unended { reading.old.standby.ended ≡ false }
    requires read { HasReadSome reading.old.standby }
    ensures unended { result ≡ Ok true → reading.new.standby.ended ≡ false }
    ensures read { OnOk result (HasReadSome reading.new.standby) }
    ensures piece { (bytes : List ℕ) (held : Option (List ℕ)) → IsReading held (K.held sink.old) reading.old.standby reading.old.journal reading.old.line.items reading.old.begun bytes
        → IfOk result (λ goes_on. MatchBool goes_on
        (IsReading held (K.held sink.new) reading.new.standby reading.new.journal reading.new.line.items reading.new.begun (bytes ++ piece.now))
        (IsOver held (K.held sink.new) reading.new.standby reading.new.journal reading.new.begun (bytes ++ piece.now) × (end_of (bytes ++ piece.now) ≡ None → ⊥))) }
    ensures stops { (bytes : List ℕ) (held : Option (List ℕ)) → IsReading held (K.held sink.old) reading.old.standby reading.old.journal reading.old.line.items reading.old.begun bytes
        → IfErr result (StopsIn held (K.held sink.new) (followed_text (bytes ++ piece.now)) reading.new.journal) }
    ensures cause { IsStoppedByWrite (K.faults sink.old) (K.faults sink.new) result }
    ensures steady { (bytes : List ℕ) (held : Option (List ℕ)) (room : ℕ) → IsReading held (K.held sink.old) reading.old.standby reading.old.journal reading.old.line.items reading.old.begun bytes
        → K.is_steady sink.old (length reading.old.journal + left_text (bytes ++ piece.now) bytes + room)
        → OnlyMemoryStops result (K.is_steady sink.new (length reading.new.journal + room)) }
{
    let mut at = 0;
    'parts: while at < piece.len() {
        let (_, rest) = piece.split_at(at);
        match take_part(alloc, reading, sink, rest)? {
            Some(count) => at += count,
            None => return Ok(false),
        }
    }
    Ok(true)
}

/// Takes the next bytes of the source, and says how many; 0 is the end of input.
fn take<S: Source>(source: &mut S, room: &mut [u8]) -> Result<usize, Stop>
    requires { 0 < length room.old }
    ensures bytes { IfOk result (λ n. Consumes (S.left source.old) (S.left source.new) (take n room.new)) }
    ensures end { IfOk result (λ n. n ≡ 0 → IsAtEnd (S.left source.new)) }
    ensures bound { IfOk result (λ n. n ≤ length room.new) }
    ensures same { OnErr result (Keeps (S.left source.old) (S.left source.new)) }
    ensures room { length room.new ≡ length room.old }
    ensures cause { IsStoppedByRead (S.faults source.old) (S.faults source.new) result }
    ensures steady { S.is_steady source.old → OnlyMemoryStops result (S.is_steady source.new) }
{
    match source.take(room) {
        Ok(count) => Ok(count),
        Err(_) => Err(Stop::Read),
    }
}

/// Reads what the source gives next, and says whether the journal goes on behind it. Its whole lines go
/// to the sink before more is read.
fn next_piece<S: Source, K: Sink>(
    alloc: Global,
    reading: &mut Reading,
    source: &mut S,
    sink: &mut K,
    room: &mut [u8],
) -> Result<bool, Stop>
    requires unended { reading.old.standby.ended ≡ false }
    requires read { HasReadSome reading.old.standby }
    requires room { 0 < length room.old }
    ensures unended { result ≡ Ok true → reading.new.standby.ended ≡ false }
    ensures read { OnOk result (HasReadSome reading.new.standby) }
    ensures room { length room.new ≡ length room.old }
    ensures goes_on { (left held : Option (List ℕ))
        → IsFollowing left held (S.left source.old) (K.held sink.old) reading.old.standby reading.old.journal reading.old.line.items reading.old.begun
        → IfOk result (λ goes_on. MatchBool goes_on
        (IsFollowing left held (S.left source.new) (K.held sink.new) reading.new.standby reading.new.journal reading.new.line.items reading.new.begun)
        (HasFollowed left held (K.held sink.new) reading.new.standby reading.new.journal reading.new.begun)) }
    ensures stops { (left held : Option (List ℕ))
        → IsFollowing left held (S.left source.old) (K.held sink.old) reading.old.standby reading.old.journal reading.old.line.items reading.old.begun
        → IfErr result (λ stop. (all : List ℕ) → left ≡ Some all → StopsIn held (K.held sink.new) (followed_text all) reading.new.journal stop) }
    ensures cut { (left held : Option (List ℕ))
        → IsFollowing left held (S.left source.old) (K.held sink.old) reading.old.standby reading.old.journal reading.old.line.items reading.old.begun
        → result ≡ Err Read → IfBothTold left (S.left source.new) (HoldsItsLines held (K.held sink.new)) × (reading.new.journal ≡ []) }
    ensures cause { IsStopped (S.faults source.old) (S.faults source.new) (K.faults sink.old) (K.faults sink.new) result }
    ensures steady { (left held : Option (List ℕ)) (all : List ℕ) (more : ℕ)
        → FollowsWithin left held all more (S.left source.old) (K.is_steady sink.old) (K.held sink.old) reading.old.standby reading.old.journal reading.old.line.items reading.old.begun
        → S.is_steady source.old → MatchResult result (λ goes_on. S.is_steady source.new × MatchBool goes_on
        (FollowsWithin left held all more (S.left source.new) (K.is_steady sink.new) (K.held sink.new) reading.new.standby reading.new.journal reading.new.line.items reading.new.begun)
        (K.is_steady sink.new more)) (λ stop. stop ≡ Memory) }
{
    let count = take(source, room)?;
    if count == 0 {
        return Ok(false);
    }
    let goes_on = take_piece(alloc, reading, sink, &room[..count])?;
    flush(&mut reading.journal, sink)?;
    Ok(goes_on)
}

/// Reads the journal that the source has as far as it goes: up to `end`, to a line that is refused or
/// brings an event too many, or to the end of the input. Of a line that isn't whole then nothing is
/// looked at. The lines that are followed go to the sink.
pub fn follow<S: Source, K: Sink>(
    alloc: Global,
    reading: &mut Reading,
    source: &mut S,
    sink: &mut K,
) -> Result<(), Stop>
    requires { IsFresh reading.old.standby reading.old.journal reading.old.line.items reading.old.begun }
    ensures followed { OnOk result (HasFollowed (S.left source.old) (K.held sink.old) (K.held sink.new) reading.new.standby reading.new.journal reading.new.begun) }
    ensures stops { IfErr result (λ stop. (all : List ℕ) → S.left source.old ≡ Some all → StopsIn (K.held sink.old) (K.held sink.new) (followed_text all) reading.new.journal stop) }
    ensures cut { result ≡ Err Read → IfBothTold (S.left source.old) (S.left source.new) (HoldsItsLines (K.held sink.old) (K.held sink.new)) × (reading.new.journal ≡ []) }
    ensures cause { IsStopped (S.faults source.old) (S.faults source.new) (K.faults sink.old) (K.faults sink.new) result }
    ensures steady { (all : List ℕ) (more : ℕ) → S.left source.old ≡ Some all → S.is_steady source.old → K.is_steady sink.old (length (followed_text all) + more) → OnlyMemoryStops result (K.is_steady sink.new more) }
{
    let mut room = [0; PIECE];
    for _ in 0..u64::MAX {
        let goes_on = next_piece(alloc, reading, source, sink, &mut room)?;
        if !goes_on {
            return Ok(());
        }
    }
    Err(Stop::Memory)
}
