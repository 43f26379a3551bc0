//! The commands `sdp` and `describe`, over any source and sink.
ghost use Rattle.std.specs.Prelude.{◌≡◌, ◌≤◌, ℕ, List, Err, IfOk, OnOk, length};
ghost use Rattle.std.specs.Io.KnownBytes.{Appends};
ghost use Rattle.line_io.specs.Passes.{Passes};
ghost use Rattle.trace_loop.specs.declared.Stop.TheVariants.{Read};
ghost use Rattle.trace_loop.specs.{IfTold, IsStopped, IsStoppedByRead, IsStoppedByWrite, OnlyMemoryStops};
ghost use Rattle.converters.specs.description_loop.{answered, description_outcome, settings_outcome, HasWritten, IsReplyEnd};

use crate::description_loop::head::read_head;
use crate::description_loop::reply::{Reply, description_reply, refused_reply, settings_reply};
use crate::description_loop::rest::read_rest;
use crate::description_loop::said::Head;
use line_io::{LineReader, put_all};
use ram_io::{Sink, Source};
use rams_model::Status;
use std::alloc::Global;
use trace_loop::Stop;

/// Reads a head of one channel and then a description, and writes the head with the channel's payload
/// types and media source as the description gives them.
///
/// Nothing is written before all is read. `BadTrace` where a line of the head is refused: the one line
/// that is written names it. `BadSdp` where the description is refused: the one line says why. Of a
/// description 4,098,001 bytes are looked at, which tell its fault where it is longer.
pub fn write_settings<S: Source, K: Sink>(
    alloc: Global,
    source: &mut S,
    sink: &mut K,
) -> Result<Status, Stop>
    ensures ends { IfOk result IsReplyEnd }
    ensures text { IfOk result (λ status. IfTold (S.left source.old) (λ xs. HasWritten (K.held sink.old) (K.held sink.new) (settings_outcome xs) status)) }
    ensures front { IfTold (S.left source.old) (λ xs. (rest : List ℕ) × Passes (K.held sink.old) (K.held sink.new) (settings_outcome xs).text rest) }
    ensures unread { result ≡ Err Read → sink.new ≡ sink.old }
    ensures cause { IsStopped (S.faults source.old) (S.faults source.new) (K.faults sink.old) (K.faults sink.new) result }
    ensures steady { S.is_steady source.old → IfTold (S.left source.old)
        (λ xs. K.is_steady sink.old (length (settings_outcome xs).text) → OnlyMemoryStops result (Unit {0})) }
{
    let reply = answer_settings(alloc, source)?;
    write_reply(sink, &reply)
}

/// Reads a head of one channel, and writes a description of it, its media on this UDP port. What follows
/// the head isn't looked at.
///
/// Nothing is written before the head is read. `BadTrace` where a line of the head is refused: the one
/// line that is written names it.
pub fn write_description<S: Source, K: Sink>(
    alloc: Global,
    port: u16,
    source: &mut S,
    sink: &mut K,
) -> Result<Status, Stop>
    requires low { 1 ≤ port }
    requires high { port ≤ 65000 }
    ensures ends { IfOk result IsReplyEnd }
    ensures text { IfOk result (λ status. IfTold (S.left source.old) (λ xs. HasWritten (K.held sink.old) (K.held sink.new) (description_outcome port xs) status)) }
    ensures front { IfTold (S.left source.old) (λ xs. (rest : List ℕ) × Passes (K.held sink.old) (K.held sink.new) (description_outcome port xs).text rest) }
    ensures unread { result ≡ Err Read → sink.new ≡ sink.old }
    ensures cause { IsStopped (S.faults source.old) (S.faults source.new) (K.faults sink.old) (K.faults sink.new) result }
    ensures steady { S.is_steady source.old → IfTold (S.left source.old)
        (λ xs. K.is_steady sink.old (length (description_outcome port xs).text) → OnlyMemoryStops result (Unit {0})) }
{
    let reply = answer_description(alloc, port, source)?;
    write_reply(sink, &reply)
}

/// What `sdp` answers to what is left of the source.
fn answer_settings<S: Source>(alloc: Global, source: &mut S) -> Result<Reply, Stop>
    ensures answers { IfOk result (λ reply. IfTold (S.left source.old) (λ xs. answered reply ≡ settings_outcome xs)) }
    ensures ends { IfOk result (λ reply. IsReplyEnd reply.status) }
    ensures cause { IsStoppedByRead (S.faults source.old) (S.faults source.new) result }
    ensures steady { S.is_steady source.old → OnlyMemoryStops result (Unit {0}) }
{
    let mut reader = LineReader::new(alloc)?;
    match read_head(&mut reader, source)? {
        Head::Lawful(heading) => {
            let text = read_rest(alloc, &reader, source)?;
            Ok(settings_reply(alloc, &heading, &text)?)
        }
        Head::Unlawful { line, fault } => Ok(refused_reply(alloc, line, fault)?),
    }
}

/// What `describe` answers to what is left of the source.
fn answer_description<S: Source>(alloc: Global, port: u16, source: &mut S) -> Result<Reply, Stop>
    requires low { 1 ≤ port }
    requires high { port ≤ 65000 }
    ensures answers { IfOk result (λ reply. IfTold (S.left source.old) (λ xs. answered reply ≡ description_outcome port xs)) }
    ensures ends { IfOk result (λ reply. IsReplyEnd reply.status) }
    ensures cause { IsStoppedByRead (S.faults source.old) (S.faults source.new) result }
    ensures steady { S.is_steady source.old → OnlyMemoryStops result (Unit {0}) }
{
    let mut reader = LineReader::new(alloc)?;
    match read_head(&mut reader, source)? {
        Head::Lawful(heading) => Ok(description_reply(alloc, &heading, port)?),
        Head::Unlawful { line, fault } => Ok(refused_reply(alloc, line, fault)?),
    }
}

/// Writes the whole text of a reply.
fn write_reply<K: Sink>(sink: &mut K, reply: &Reply) -> Result<Status, Stop>
    ensures status { IfOk result (λ status. status ≡ reply.now.status) }
    ensures all { OnOk result (Appends (K.held sink.old) (K.held sink.new) reply.now.text.items) }
    ensures front { (rest : List ℕ) × Passes (K.held sink.old) (K.held sink.new) reply.now.text.items rest }
    ensures cause { IsStoppedByWrite (K.faults sink.old) (K.faults sink.new) result }
    ensures steady { K.is_steady sink.old (length reply.now.text.items) → OnlyMemoryStops result (Unit {0}) }
{
    match put_all(sink, &reply.text) {
        Ok(()) => Ok(reply.status),
        Err(_) => Err(Stop::Write),
    }
}
