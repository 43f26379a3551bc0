//! What a row of a table is, and how it is run.
ghost use Rattle.std.specs.Prelude.{◌<◌};

use crate::memory::{Arrival, Sending, check_sent, is_text, moments_of, sink_of, wire_of};
use ram_io::{MemClock, MemSink, MemSource, MemWire, Open};
use rams_model::Status;
use std::alloc::{AllocError, Global};
use std::process::Abort;
use std::test::Fail;
use takeover::takeover_loop::{Stop, take_over};
use test_fixtures::test_calls::let_go;
use test_fixtures::test_words::joined;

/// A journal that is taken over for some turns, what comes in them, and what is written and sent.
#[derive(Clone, Copy)]
pub struct Row {
    pub name: &'static str,
    /// The lines of the journal.
    pub source: &'static [&'static str],
    /// What stands behind them.
    pub rest: &'static str,
    pub turns: u32,
    /// Nothing comes behind these.
    pub arrivals: &'static [Arrival],
    /// The moments of the clock, in ms.
    pub moments: &'static [u32],
    /// The calls of the source, of the sink and of the wire that fail, by their numbers from 0.
    pub source_fails: &'static [u64],
    pub sink_fails: &'static [u64],
    pub wire_fails: &'static [u64],
    pub ended: Result<Status, Stop>,
    /// The lines that the sink gets.
    pub text: &'static [&'static str],
    pub sent: &'static [Sending],
}

/// The bytes of the journal.
pub fn journal(alloc: Global, row: &Row) -> Result<Vec<u8>, AllocError> {
    let mut text = joined(alloc, row.source, "\n")?;
    text.extend_from_slice(row.rest.as_bytes())?;
    Ok(text)
}

/// The source of these bytes, of which a call gives so many.
fn source_of(alloc: Global, row: &Row, text: &[u8], most: usize) -> Result<MemSource, AllocError>
    requires { 0 < most }
{
    let fails = row.source_fails.to_vec(alloc)?;
    Ok(MemSource::new(text.to_vec(alloc)?, most, fails))
}

/// Takes over from a source, at the ports from 5000 on.
fn take_from(
    alloc: Global,
    row: &Row,
    source: &mut MemSource,
    sink: &mut MemSink,
    wire: &mut MemWire,
) -> Result<Result<Status, Stop>, AllocError> {
    let mut clock = MemClock::new(moments_of(alloc, row.moments)?);
    let turns = row.turns;
    let ended = take_over(alloc, source, sink, wire, &mut clock, 5000, turns, &Open);
    let_go(clock);
    Ok(ended)
}

/// Takes over these bytes, of which a call gives so many.
pub fn take(
    alloc: Global,
    row: &Row,
    text: &[u8],
    most: usize,
    sink: &mut MemSink,
    wire: &mut MemWire,
) -> Result<Result<Status, Stop>, AllocError>
    requires { 0 < most }
{
    let mut source = source_of(alloc, row, text, most)?;
    let ended = take_from(alloc, row, &mut source, sink, wire);
    let_go(source);
    ended
}

/// How a takeover of the row's journal ends.
fn take_journal(
    alloc: Global,
    row: &Row,
    most: usize,
    sink: &mut MemSink,
    wire: &mut MemWire,
) -> Result<Result<Status, Stop>, AllocError>
    requires { 0 < most }
{
    let text = journal(alloc, row)?;
    let ended = take(alloc, row, &text, most, sink, wire);
    let_go(text);
    ended
}

/// A takeover with this sink and this wire ends, writes and sends what the row says.
fn check_ends(
    rt: &impl Abort,
    alloc: Global,
    row: &Row,
    most: usize,
    sink: &mut MemSink,
    wire: &mut MemWire,
) -> Result<(), Fail>
    requires { 0 < most }
{
    let ended = take_journal(alloc, row, most, sink, wire)?;
    assert!(rt; ended == row.ended, "{}", row.name);
    assert!(rt; is_text(alloc, row.text, sink.held())?, "{}", row.name);
    check_sent(rt, row.name, row.sent, wire);
    Ok(())
}

/// A takeover with this sink does.
fn check_sink(
    rt: &impl Abort,
    alloc: Global,
    row: &Row,
    most: usize,
    sink: &mut MemSink,
) -> Result<(), Fail>
    requires { 0 < most }
{
    let mut wire = wire_of(alloc, row.arrivals, row.wire_fails)?;
    let checked = check_ends(rt, alloc, row, most, sink, &mut wire);
    let_go(wire);
    checked
}

/// A takeover ends, writes and sends what the row says, where a call of the source gives so many bytes.
pub fn check_row(rt: &impl Abort, alloc: Global, row: &Row, most: usize) -> Result<(), Fail>
    requires { 0 < most }
{
    let mut sink = sink_of(alloc, row.sink_fails)?;
    let checked = check_sink(rt, alloc, row, most, &mut sink);
    let_go(sink);
    checked
}
