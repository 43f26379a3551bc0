//! What a row of a table of traces is, its texts, two rows that several crates run, and runs of the commands
//! that wait for nobody over sources and sinks in memory.
#![tactic(auto)]

mod rows;

use ram_io::{MemSink, MemSource, Open};
use rams_replay::{Octets, Status, plain};
pub use rows::{ONE_PACKET_PER_TICK, STOP_ACROSS_THE_WRAP};
use std::alloc::{AllocError, Global};
use std::test::Fail;
pub use test_fixtures::test_calls::let_go;

/// The first two lines of a trace: its head, and channel 7.
pub const OPENING: &str = "rams-trace 1 tick 10 link 100000
channel 7 ssrc 11223344 pt 33 rtx 99 server aabbccdd seq0 500 ring 64 window 0 access marker share 10000 reserve 1500 burst 4000 declared 100 minwire 42 limit 100 idle 100 clients 4
";

/// The first line of a book.
pub const BOOK: &str = "rams-book 1\n";

/// A command that reads a trace.
#[derive(Clone, Copy)]
pub struct Command {
    pub word: &'static str,
    /// The first line that it writes.
    pub first: &'static str,
}

pub const RUN: Command = Command {
    word: "run",
    first: BOOK,
};

pub const MEET: Command = Command {
    word: "meet",
    first: "rams-world 1\n",
};

/// Packet 10 of the source, with the marker, timestamp 0 and four bytes of payload. Its number is
/// 65,546, and its retransmission has 46 bytes on the wire.
pub const ACCESS_POINT: &str = "live 7 80a1000a000000001122334400000000";

/// A request of client 5 for a burst, which wishes for nothing.
pub const REQUEST: &str = "fb 7 5 86cd00030000c0011122334401000000";

/// The same request of client 6.
pub const REQUEST_OF_6: &str = "fb 7 6 86cd00030000c0011122334401000000";

/// A trace and its book.
#[derive(Clone, Copy)]
pub struct Row {
    pub name: &'static str,
    /// Words of the opening, and those that stand in their place here.
    pub changes: &'static [(&'static str, &'static str)],
    /// The lines behind the opening. `<COUNT>` stands for so many bytes of 0.
    pub lines: &'static [&'static str],
    /// The lines of the book behind its first, without the datagrams that the row doesn't speak of.
    pub book: &'static [&'static str],
}

/// The digits of so many bytes of 0.
pub fn zeros(alloc: Global, count: usize) -> Result<String, AllocError> {
    let mut digits = String::new(alloc);
    for _ in 0..count {
        digits.push_str("00")?;
    }
    Ok(digits)
}

/// The text with bytes of 0 in place of each `<COUNT>`.
fn spelled(alloc: Global, text: &str) -> Result<String, AllocError> {
    let mut spelled = String::from_str(alloc, text)?;
    for (mark, count) in [
        ("<100>", 100),
        ("<1458>", 1_458),
        ("<1459>", 1_459),
        ("<2044>", 2_044),
    ] {
        spelled = spelled.replace(alloc, mark, &zeros(alloc, count)?)?;
    }
    Ok(spelled)
}

/// The text of lines, each of which ends with a line feed.
fn text_of(alloc: Global, lines: &[&str]) -> Result<String, AllocError> {
    let mut text = String::new(alloc);
    for line in lines {
        text.push_str(line)?;
        text.push_str("\n")?;
    }
    Ok(text)
}

/// The opening with these changes.
pub fn opening_with(alloc: Global, changes: &[(&str, &str)]) -> Result<String, AllocError> {
    let mut opening = String::from_str(alloc, OPENING)?;
    for (from, to) in changes {
        opening = opening.replace(alloc, from, to)?;
    }
    Ok(opening)
}

/// The text of a row's trace.
pub fn trace_of(alloc: Global, row: &Row) -> Result<String, AllocError> {
    let opening = opening_with(alloc, row.changes)?;
    let lines = text_of(alloc, row.lines)?;
    spelled(alloc, &format!(in alloc; "{opening}{lines}")?)
}

/// The text of a row's book, as far as the row speaks of it.
pub fn book_of(alloc: Global, command: Command, row: &Row) -> Result<String, AllocError> {
    let lines = text_of(alloc, row.book)?;
    let first = command.first;
    spelled(alloc, &format!(in alloc; "{first}{lines}")?)
}

/// How many bytes a call moves at most, and which calls fail.
#[derive(Clone, Copy)]
pub struct Calls<'a> {
    pub most: usize,
    pub fails: &'a [u64],
}

/// Calls that move all they can, and don't fail.
pub const WHOLE: Calls<'static> = Calls {
    most: 10_000_000,
    fails: &[],
};

/// Calls that move 100 bytes at most, and don't fail.
pub const PIECES: Calls<'static> = Calls {
    most: 100,
    fails: &[],
};

/// The words of a command line.
pub fn octets_of(alloc: Global, words: &[&str]) -> Result<Vec<Octets>, AllocError> {
    let mut octets = Vec::new(alloc);
    for word in words {
        octets.push(Octets::of(word.as_bytes().to_vec(alloc)?))?;
    }
    Ok(octets)
}

/// The call of the commands that wait for nobody. It stands alone, as its contract is long.
fn status_of(
    alloc: Global,
    words: &[Octets],
    source: &mut MemSource,
    sink: &mut MemSink,
) -> Status {
    plain(alloc, words, source, sink, &Open)
}

/// How these words end over this source and this sink.
fn ended(
    alloc: Global,
    words: &[&str],
    source: &mut MemSource,
    sink: &mut MemSink,
) -> Result<Status, AllocError> {
    let words = octets_of(alloc, words)?;
    let status = status_of(alloc, &words, source, sink);
    let_go(words);
    Ok(status)
}

/// The same, and what the sink then holds.
fn ended_with(
    alloc: Global,
    words: &[&str],
    source: &mut MemSource,
    sink: &mut MemSink,
) -> Result<(Status, Vec<u8>), Fail> {
    let status = ended(alloc, words, source, sink)?;
    Ok((status, sink.held().to_vec(alloc)?))
}

/// How these words end over this source, and what is written to a sink with so much room.
fn written_from(
    alloc: Global,
    words: &[&str],
    source: &mut MemSource,
    puts: Calls<'_>,
    room: usize,
) -> Result<(Status, Vec<u8>), Fail> {
    let fails = puts.fails.to_vec(alloc)?;
    let Ok(mut sink) = MemSink::new(alloc, room, puts.most.max(1), fails) else {
        return Err(Fail::new("no memory"));
    };
    let ended = ended_with(alloc, words, source, &mut sink);
    let_go(sink);
    ended
}

/// How these words end over a source of this input, and what is written to a sink with so much room.
pub fn written(
    alloc: Global,
    words: &[&str],
    input: Vec<u8>,
    takes: Calls<'_>,
    puts: Calls<'_>,
    room: usize,
) -> Result<(Status, Vec<u8>), Fail> {
    let mut source = MemSource::new(input, takes.most.max(1), takes.fails.to_vec(alloc)?);
    let ended = written_from(alloc, words, &mut source, puts, room);
    let_go(source);
    ended
}

/// How the command ends over a source of this trace, and what it writes.
pub fn ran(
    alloc: Global,
    command: Command,
    trace: &[u8],
    takes: Calls<'_>,
    puts: Calls<'_>,
) -> Result<(Status, Vec<u8>), Fail> {
    let input = trace.to_vec(alloc)?;
    written(alloc, &[command.word], input, takes, puts, 10_000_000)
}
