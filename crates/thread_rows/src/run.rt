//! The top call over a source and a sink in memory.
use ram_io::{Gate, MemClock, MemSink, MemSource, MemWire};
use rams_replay::{CaptureWatch, Octets, Status, Watch, run};
use std::alloc::{AllocError, Global};
use std::str;
use std::sync::Wait;
use std::test::Fail;
use std::thread::Threads;
use trace_rows::{OPENING, let_go, octets_of};

/// A source of the opening and of what stands behind it, whose calls of these numbers fail.
fn source_of(alloc: Global, rest: &str, fails: &[u64]) -> Result<MemSource, AllocError> {
    let fails = fails.to_vec(alloc)?;
    let trace = format!(in alloc; "{OPENING}{rest}")?;
    Ok(MemSource::new(trace.into_bytes(), 4_096, fails))
}

/// A sink of ten megabytes, whose calls of these numbers fail.
pub fn sink_of(alloc: Global, fails: &[u64]) -> Result<MemSink, Fail> {
    let Ok(sink) = MemSink::new(alloc, 10_000_000, 100_000, fails.to_vec(alloc)?) else {
        return Err(Fail::new("no memory"));
    };
    Ok(sink)
}

/// A wire to which nothing comes.
fn quiet_wire(alloc: Global) -> Result<MemWire, Fail> {
    let Ok(wire) = MemWire::new(alloc, Vec::new(alloc), 0, 0, Vec::new(alloc)) else {
        return Err(Fail::new("no memory"));
    };
    Ok(wire)
}

/// The top call. It stands alone, as its contract is long.
fn ends<G: Gate + Watch + CaptureWatch + Sync>(
    rt: &(impl Threads + Wait + Sync),
    alloc: Global,
    words: &[Octets],
    source: &mut MemSource,
    sink: &mut MemSink,
    wire: &mut MemWire,
    clock: &mut MemClock,
    gate: &G,
) -> Status {
    run(rt, alloc, words, source, sink, wire, clock, gate)
}

/// The same, with no wire and no clock.
fn status_at<G: Gate + Watch + CaptureWatch + Sync>(
    rt: &(impl Threads + Wait + Sync),
    alloc: Global,
    words: &[Octets],
    source: &mut MemSource,
    sink: &mut MemSink,
    gate: &G,
) -> Result<Status, Fail> {
    let mut wire = quiet_wire(alloc)?;
    let mut clock = MemClock::new(Vec::new(alloc));
    let status = ends(rt, alloc, words, source, sink, &mut wire, &mut clock, gate);
    let_go(wire);
    let_go(clock);
    Ok(status)
}

/// How these words end over this source and this sink.
pub fn status_of<G: Gate + Watch + CaptureWatch + Sync>(
    rt: &(impl Threads + Wait + Sync),
    alloc: Global,
    words: &[&str],
    source: &mut MemSource,
    sink: &mut MemSink,
    gate: &G,
) -> Result<Status, Fail> {
    let words = octets_of(alloc, words)?;
    let status = status_at(rt, alloc, &words, source, sink, gate);
    let_go(words);
    status
}

/// The same, with this sink.
fn ran_into<G: Gate + Watch + CaptureWatch + Sync>(
    rt: &(impl Threads + Wait + Sync),
    alloc: Global,
    words: &[&str],
    rest: &str,
    fails: &[u64],
    sink: &mut MemSink,
    gate: &G,
) -> Result<(Status, String), Fail> {
    let mut source = source_of(alloc, rest, fails)?;
    let status = status_of(rt, alloc, words, &mut source, sink, gate);
    let_go(source);
    let status = status?;
    let text = String::from_str(alloc, str::from_utf8(sink.held())?)?;
    Ok((status, text))
}

/// How these words end over the opening and these lines, where such calls of the source and of the sink
/// fail, and what is written.
pub fn ran<G: Gate + Watch + CaptureWatch + Sync>(
    rt: &(impl Threads + Wait + Sync),
    alloc: Global,
    words: &[&str],
    rest: &str,
    fails: (&[u64], &[u64]),
    gate: &G,
) -> Result<(Status, String), Fail> {
    let mut sink = sink_of(alloc, fails.1)?;
    let ran = ran_into(rt, alloc, words, rest, fails.0, &mut sink, gate);
    let_go(sink);
    ran
}
