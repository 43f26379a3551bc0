//! What a row of a table is, and how it is run.
use crate::memory::{Arrival, Sending, check_sent, is_text, moments_of, sink_of, wire_of};
use ram_io::{MemClock, MemSink, MemSource, MemWire, Open};
use rams_model::Status;
use serve_loop::{Stop, Watch, serve};
use std::alloc::{AllocError, Global};
use std::process::Abort;
use std::test::Fail;
use test_fixtures::test_calls::let_go;
use test_fixtures::test_words::joined;

/// What comes in three turns of a server, and what it writes and sends.
#[derive(Clone, Copy)]
pub struct Row {
    pub name: &'static str,
    /// The lines that the source has.
    pub source: &'static [&'static str],
    /// Nothing comes behind these.
    pub arrivals: &'static [Arrival],
    /// The moments of the clock, in ms.
    pub moments: &'static [u32],
    /// The calls of the source, of the sink and of the wire that fail, by their numbers from 0.
    pub source_fails: &'static [u64],
    pub sink_fails: &'static [u64],
    pub wire_fails: &'static [u64],
    pub ended: Result<Status, Stop>,
    /// The lines that the sink gets.
    pub text: &'static [&'static str],
    pub sent: &'static [Sending],
}

/// The source of the row.
fn source_of(alloc: Global, row: &Row) -> Result<MemSource, AllocError> {
    let fails = row.source_fails.to_vec(alloc)?;
    Ok(MemSource::new(joined(alloc, row.source, "\n")?, 1_000, fails))
}

/// Three turns at the ports from 5000 on, while this looks on.
pub fn serve_row<T: Watch>(
    alloc: Global,
    row: &Row,
    sink: &mut MemSink,
    wire: &mut MemWire,
    watch: &T,
) -> Result<Result<Status, Stop>, AllocError> {
    let moments = moments_of(alloc, row.moments)?;
    let mut source = source_of(alloc, row)?;
    let mut clock = MemClock::new(moments);
    let ended = serve(alloc, &mut source, sink, wire, &mut clock, 5000, 3, watch);
    let_go(source);
    let_go(clock);
    Ok(ended)
}

/// Three turns with this sink and this wire end, write and send what the row says.
fn check_ends(
    rt: &impl Abort,
    alloc: Global,
    row: &Row,
    sink: &mut MemSink,
    wire: &mut MemWire,
) -> Result<(), Fail> {
    let ended = serve_row(alloc, row, sink, wire, &Open)?;
    assert!(rt; ended == row.ended, "{}", row.name);
    assert!(rt; is_text(alloc, row.text, sink.held())?, "{}", row.name);
    check_sent(rt, row.name, row.sent, wire);
    Ok(())
}

/// Three turns with this sink do.
fn check_sink(rt: &impl Abort, alloc: Global, row: &Row, sink: &mut MemSink) -> Result<(), Fail> {
    let mut wire = wire_of(alloc, row.arrivals, row.wire_fails)?;
    let checked = check_ends(rt, alloc, row, sink, &mut wire);
    let_go(wire);
    checked
}

/// Three turns at the ports from 5000 on end, write and send what the row says.
pub fn check_row(rt: &impl Abort, alloc: Global, row: &Row) -> Result<(), Fail> {
    let mut sink = sink_of(alloc, row.sink_fails)?;
    let checked = check_sink(rt, alloc, row, &mut sink);
    let_go(sink);
    checked
}
