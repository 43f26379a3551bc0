//! What is said of an event on its way to the sink, note by note.
ghost use Rattle.std.specs.Prelude.{◌≡◌, ℕ, ◌+◌, ◌<◌, ◌≤◌, ◌++◌, IfErr, OnOk, length, take, drop};
ghost use Rattle.line_io.specs.Passes.{Passes};
ghost use Rattle.trace_loop.specs.{IsStoppedByWrite, OnlyMemoryStops, StopsIn};
ghost use Rattle.meet_loop.specs.world_text.{notes_lines};

use crate::world_net::{WorldItem, WorldNote};
use crate::world_text::append_world_part;
use ram_io::Sink;
use trace_loop::{Stop, Writer, settle};

/// Adds the lines of what is said of an event.
pub(crate) fn write_notes<K: Sink>(
    writer: &mut Writer,
    sink: &mut K,
    event: u64,
    notes: &[WorldNote<'_>],
) -> Result<(), Stop>
    ensures all { OnOk result (Passes (K.held sink.old) (K.held sink.new) (writer.old.gather ++ notes_lines event notes.now) writer.new.gather) }
    ensures front { IfErr result (StopsIn (K.held sink.old) (K.held sink.new) (writer.old.gather ++ notes_lines event notes.now) writer.new.gather) }
    ensures cause { IsStoppedByWrite (K.faults sink.old) (K.faults sink.new) result }
    ensures steady { (room : ℕ) → K.is_steady sink.old (length writer.old.gather + length (notes_lines event notes.now) + room)
        → OnlyMemoryStops result (K.is_steady sink.new (length writer.new.gather + room)) }
{
    let mut written = 0;
    while written < notes.len() {
        let part = next_part(notes, written);
        write_part(writer, sink, event, part)?;
        written += part.len();
    }
    Ok(())
}

/// The notes that are written at once, behind those that were.
fn next_part<'s, 'a>(notes: &'s [WorldNote<'a>], written: usize) -> &'s [WorldNote<'a>]
    requires { written < length notes.now }
    ensures some { 0 < length result.now }
    ensures few { length result.now ≤ 2 }
    ensures within { written + length result.now ≤ length notes.now }
    ensures those { result.now ≡ take (length result.now) (drop written notes.now) }
{
    let left = &notes[written..];
    &left[..part_len(left)]
}

/// How many of some notes are written at once: a channel's note with its datagram behind it, or one.
fn part_len(notes: &[WorldNote<'_>]) -> usize
    requires { 0 < length notes.now }
    ensures some { 0 < result }
    ensures few { result ≤ 2 }
    ensures there { result ≤ length notes.now }
{
    match notes {
        [first, second, ..] if is_told(first, second) => 2,
        _ => 1,
    }
}

/// Whether the first is a channel's note, and the second a datagram.
fn is_told(first: &WorldNote<'_>, second: &WorldNote<'_>) -> bool {
    match (&first.item, &second.item) {
        (WorldItem::Note(_), WorldItem::Send { .. }) => true,
        _ => false,
    }
}

/// Adds the lines of one note or two.
fn write_part<K: Sink>(
    writer: &mut Writer,
    sink: &mut K,
    event: u64,
    part: &[WorldNote<'_>],
) -> Result<(), Stop>
    requires some { 0 < length part.now }
    requires few { length part.now ≤ 2 }
    ensures all { OnOk result (Passes (K.held sink.old) (K.held sink.new) (writer.old.gather ++ notes_lines event part.now) writer.new.gather) }
    ensures front { IfErr result (StopsIn (K.held sink.old) (K.held sink.new) (writer.old.gather ++ notes_lines event part.now) writer.new.gather) }
    ensures cause { IsStoppedByWrite (K.faults sink.old) (K.faults sink.new) result }
    ensures steady { (room : ℕ) → K.is_steady sink.old (length writer.old.gather + length (notes_lines event part.now) + room)
        → OnlyMemoryStops result (K.is_steady sink.new (length writer.new.gather + room)) }
{
    append_world_part(
        &mut writer.pen,
        writer.gather.text(),
        &mut writer.datagram,
        event,
        part,
    )?;
    settle(&mut writer.gather, sink)
}
