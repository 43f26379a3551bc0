//! Reads a line of a trace.
ghost use Rattle.std.specs.Prelude.{◌∷◌, IfOk};
ghost use Rattle.rams_model.specs.Texts.{line_at, line_of, line_in, receiver_in, whole, words_of};
ghost use Rattle.trace_lines.specs.{Gives, Narrows, HasDigits, shown};

use crate::channel_line::channel;
use crate::fields::ends;
use crate::kinds::{feedback, head, live};
use crate::line::Line;
use crate::ranges::is_in_range;
use crate::receivers::{ask, drop, give, mcast, tune};
use crate::words::Words;
use rams_model::LineFault;

/// Most bytes of a line: room for the digits of a datagram of 2,000 bytes, and for the words in front
/// of them. What reads lines needs no more, whatever comes.
pub const LONGEST_LINE: usize = 4096;

/// The line that the bytes are, without their line feed. `Form` where they are no line of a trace,
/// else `Range` where a number is out of its range.
#[tactic(auto, unfolding(rams_model::specs::Texts::TraceLines::line_at))]
pub fn read_line(line: &[u8]) -> Result<Line<'_>, LineFault>
    ensures line { Gives result (line_at line.now) }
    ensures digits { IfOk result HasDigits }
{
    let read = read_unranged(line)?;
    if is_in_range(&read) {
        Ok(read)
    } else {
        Err(LineFault::Range)
    }
}

/// The same, but that only a number that doesn't fit its type is out of range.
pub fn read_unranged(line: &[u8]) -> Result<Line<'_>, LineFault>
    ensures line { Narrows result (line_of line.now) }
    ensures digits { IfOk result HasDigits }
{
    if line.len() > LONGEST_LINE {
        return Err(LineFault::Form);
    }
    read_front(line)
}

// The kinds that come most often are told by the bytes in front, so their first word isn't looked for.
fn read_front(line: &[u8]) -> Result<Line<'_>, LineFault>
    ensures line { Narrows result (line_in (words_of line.now)) }
    ensures digits { IfOk result HasDigits }
{
    if let Some(rest) = line.strip_prefix(b"live ".as_slice()) {
        return live(&mut Words::of(rest));
    }
    if let Some(rest) = line.strip_prefix(b"fb ".as_slice()) {
        return feedback(&mut Words::of(rest));
    }
    if let Some(rest) = line.strip_prefix(b"give ".as_slice()) {
        return give(&mut Words::of(rest));
    }
    read_words(Words::of(line))
}

fn read_words<'a>(mut words: Words<'a>) -> Result<Line<'a>, LineFault>
    ensures line { Narrows result (line_in words.entry) }
    ensures digits { IfOk result HasDigits }
{
    let Some(kind) = words.next() else {
        return Err(LineFault::Form);
    };
    read_kind(kind, &mut words)
}

fn read_kind<'a>(kind: &[u8], words: &mut Words<'a>) -> Result<Line<'a>, LineFault>
    ensures line { Narrows result (line_in (kind.now ∷ words.old)) }
    ensures digits { IfOk result HasDigits }
{
    if kind == b"live".as_slice() {
        return live(words);
    }
    if kind == b"fb".as_slice() {
        return feedback(words);
    }
    if kind == b"tick".as_slice() {
        return alone(Line::Tick, words);
    }
    if kind == b"end".as_slice() {
        return alone(Line::End, words);
    }
    if kind == b"channel".as_slice() {
        return channel(words);
    }
    if kind == b"rams-trace".as_slice() {
        return head(words);
    }
    read_receiver(kind, words)
}

// The events of receivers.
fn read_receiver<'a>(kind: &[u8], words: &mut Words<'a>) -> Result<Line<'a>, LineFault>
    ensures line { Narrows result (receiver_in (kind.now ∷ words.old)) }
    ensures digits { IfOk result HasDigits }
{
    if kind == b"tune".as_slice() {
        return tune(words);
    }
    if kind == b"give".as_slice() {
        return give(words);
    }
    if kind == b"mcast".as_slice() {
        return mcast(words);
    }
    if kind == b"ask".as_slice() {
        return ask(words);
    }
    if kind == b"drop".as_slice() {
        return drop(words);
    }
    Err(LineFault::Form)
}

// A line of one word.
fn alone<'a>(line: Line<'a>, words: &mut Words<'a>) -> Result<Line<'a>, LineFault>
    requires { HasDigits line }
    ensures line { Narrows result (whole (shown line.entry) words.old) }
    ensures digits { IfOk result HasDigits }
{
    if ends(words) {
        Ok(line)
    } else {
        Err(LineFault::Form)
    }
}
