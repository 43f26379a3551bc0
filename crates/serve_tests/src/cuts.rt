//! A journal that is cut at each byte.
use crate::memory::{ASKS, HEAD, LIVE, SEVEN, sink_of, wire_of};
use crate::takeover_row::{Row, journal, take};
use crate::takeovers::TAKEN;
use ram_io::{MemSink, MemWire};
use std::alloc::{AllocError, Global};
use std::process::Abort;
use std::rt::HostRuntime;
use std::test::Fail;
use test_fixtures::test_calls::let_go;

/// The lines of a journal, but `end`, and the last line of a takeover that has read up to each.
const LINES: &[(&str, &str)] = &[
    (HEAD, "refused 2 order\n"),
    (SEVEN, "end\n"),
    (LIVE, "end\n"),
    (ASKS, "end\n"),
    ("tick", "end\n"),
];

/// The whole journal.
const WHOLE: Row = Row {
    name: "a journal that is cut",
    source: &[HEAD, SEVEN, LIVE, ASKS, "tick", "end"],
    rest: "",
    turns: 0,
    ..TAKEN
};

/// What the sink gets where the first so many bytes are taken over: their whole lines, and then the last
/// line, once. Where the head line or that of the channel is cut, that line is missing.
fn text_of(alloc: Global, count: usize) -> Result<Vec<u8>, AllocError> {
    let mut text = Vec::new(alloc);
    let mut last = "refused 1 order\n";
    for (line, next) in LINES.iter() {
        if text.len().saturating_add(line.len()) >= count {
            break;
        }
        text.extend_from_slice(line.as_bytes())?;
        text.extend_from_slice(b"\n")?;
        last = next;
    }
    text.extend_from_slice(last.as_bytes())?;
    Ok(text)
}

/// This is what the sink gets where the first so many bytes are taken over.
fn is_text(alloc: Global, count: usize, held: &[u8]) -> Result<bool, AllocError> {
    let want = text_of(alloc, count)?;
    let is_so = held == want.as_slice();
    let_go(want);
    Ok(is_so)
}

/// The first so many bytes are taken over with this sink and this wire.
fn check_ends(
    rt: &impl Abort,
    alloc: Global,
    text: &[u8],
    sink: &mut MemSink,
    wire: &mut MemWire,
) -> Result<(), Fail> {
    let _ = take(alloc, &WHOLE, text, 64, sink, wire)?;
    let is_so = is_text(alloc, text.len(), sink.held())?;
    assert!(rt; is_so, "{} bytes", text.len());
    assert!(rt; wire.sent().len() == 0, "{} bytes", text.len());
    Ok(())
}

/// They are taken over with this sink.
fn check_sink(rt: &impl Abort, alloc: Global, text: &[u8], sink: &mut MemSink) -> Result<(), Fail> {
    let mut wire = wire_of(alloc, WHOLE.arrivals, &[])?;
    let checked = check_ends(rt, alloc, text, sink, &mut wire);
    let_go(wire);
    checked
}

/// The first so many bytes are taken over.
fn check_cut(rt: &impl Abort, alloc: Global, text: &[u8]) -> Result<(), Fail> {
    let mut sink = sink_of(alloc, &[])?;
    let checked = check_sink(rt, alloc, text, &mut sink);
    let_go(sink);
    checked
}

/// Each front of the text is taken over, and the whole.
fn check_cuts(rt: &impl Abort, alloc: Global, text: &[u8]) -> Result<(), Fail> {
    for count in 0..text.len() {
        check_cut(rt, alloc, &text[..count])?;
    }
    check_cut(rt, alloc, text)
}

/// However many bytes of it are taken over. Whether a takeover was refused its last line tells.
#[test]
fn a_journal_is_taken_over_wherever_it_is_cut(rt: HostRuntime) -> Result<(), Fail> {
    let text = journal(rt.alloc(), &WHOLE)?;
    let checked = check_cuts(&rt, rt.alloc(), &text);
    let_go(text);
    checked
}
