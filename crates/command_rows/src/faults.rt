//! Sources and sinks of `run` that fail, or that move few bytes a call, and traces that are cut.
use crate::fixtures::same;
use rams_replay::Status;
use std::alloc::Global;
use std::process::Abort;
use std::test::Fail;
use trace_rows::{
    BOOK, Calls, ONE_PACKET_PER_TICK, OPENING, RUN, Row, STOP_ACROSS_THE_WRAP, WHOLE, book_of,
    let_go, ran, trace_of,
};

/// How the run of a row's trace ends over such a source and such a sink, and what is written.
fn ran_over(
    alloc: Global,
    row: &Row,
    takes: Calls<'_>,
    puts: Calls<'_>,
) -> Result<(Status, Vec<u8>), Fail> {
    let trace = trace_of(alloc, row)?;
    let ran = ran(alloc, RUN, trace.as_bytes(), takes, puts);
    let_go(trace);
    ran
}

/// The row's book begins so.
fn is_front(alloc: Global, row: &Row, text: &[u8]) -> Result<bool, Fail> {
    let book = book_of(alloc, RUN, row)?;
    let is_so = book.as_bytes().starts_with(text);
    let_go(book);
    Ok(is_so)
}

/// How many bytes the row's trace has, and its book.
fn lengths(alloc: Global, row: &Row) -> Result<(usize, usize), Fail> {
    let trace = trace_of(alloc, row)?.len();
    Ok((trace, book_of(alloc, RUN, row)?.len()))
}

/// How the run of a row's trace ends over such a source and such a sink, and how many bytes of the
/// row's book the sink then holds. It holds no others.
fn front(
    rt: &impl Abort,
    alloc: Global,
    row: &Row,
    takes: Calls<'_>,
    puts: Calls<'_>,
) -> Result<(Status, usize), Fail> {
    let (status, text) = ran_over(alloc, row, takes, puts)?;
    let length = text.len();
    let is_so = is_front(alloc, row, &text);
    let_go(text);
    assert!(rt; is_so?);
    Ok((status, length))
}

/// A source gives a byte a call, and fails at each of its calls in turn. Until the opening is read
/// the book has its first line at most.
#[test]
fn a_source_fails_at_each_byte(rt: HostRuntime) -> Result<(), Fail> {
    let (calls, _) = lengths(rt.alloc(), &STOP_ACROSS_THE_WRAP)?;
    for call in 0..calls {
        let fails = &[call as u64];
        let takes = Calls { most: 1, fails };
        let got = front(&rt, rt.alloc(), &STOP_ACROSS_THE_WRAP, takes, WHOLE)?;
        same(&rt, &got.0, &Status::ReadFault, &call);
        let is_short = OPENING.len() <= call || got.1 <= BOOK.len();
        same(&rt, &is_short, &true, &call);
    }
    Ok(())
}

/// The first call of a source gives the whole trace. The second would fail, and isn't made.
#[test]
fn no_more_is_taken_than_needed(rt: HostRuntime) -> Result<(), Fail> {
    let (_, whole) = lengths(rt.alloc(), &STOP_ACROSS_THE_WRAP)?;
    let takes = Calls {
        most: 4_096,
        fails: &[1],
    };
    let got = front(&rt, rt.alloc(), &STOP_ACROSS_THE_WRAP, takes, WHOLE)?;
    same(&rt, &got, &(Status::Done, whole), &"the second call");
    Ok(())
}

/// A sink takes a byte a call, and fails at each of its calls in turn.
#[test]
fn a_sink_fails_at_each_byte(rt: HostRuntime) -> Result<(), Fail> {
    let (_, whole) = lengths(rt.alloc(), &STOP_ACROSS_THE_WRAP)?;
    for call in 0..whole {
        let fails = &[call as u64];
        let puts = Calls { most: 1, fails };
        let got = front(&rt, rt.alloc(), &STOP_ACROSS_THE_WRAP, WHOLE, puts)?;
        same(&rt, &got, &(Status::WriteFault, call), &call);
    }
    Ok(())
}

/// A sink takes what it is given, and fails at each of its calls in turn, until one isn't reached.
/// The second is.
#[test]
fn a_sink_fails_at_each_call(rt: HostRuntime) -> Result<(), Fail> {
    for call in 0..100 {
        let fails = &[call];
        let puts = Calls {
            most: 100_000,
            fails,
        };
        let (status, _) = front(&rt, rt.alloc(), &ONE_PACKET_PER_TICK, WHOLE, puts)?;
        if 1 < call && status == Status::Done {
            break;
        }
        same(&rt, &status, &Status::WriteFault, &call);
    }
    Ok(())
}

/// The book doesn't depend on how many bytes a call of the source gives, or one of the sink takes.
#[test]
fn pieces_of_any_size(rt: HostRuntime) -> Result<(), Fail> {
    let (_, whole) = lengths(rt.alloc(), &ONE_PACKET_PER_TICK)?;
    for most in [1, 2, 3, 7, 4_096] {
        let pieces = Calls { most, fails: &[] };
        let got = front(&rt, rt.alloc(), &ONE_PACKET_PER_TICK, pieces, pieces)?;
        same(&rt, &got, &(Status::Done, whole), &most);
    }
    Ok(())
}

/// How the run of a front of a trace ends. It may lack its last line feed, and nothing else.
fn expect_cut(rt: &impl Abort, alloc: Global, front: &[u8]) -> Result<(), Fail> {
    let (status, text) = ran(alloc, RUN, front, WHOLE, WHOLE)?;
    let_go(text);
    let wanted = if front.ends_with(b"end") {
        Status::Done
    } else {
        Status::BadTrace
    };
    same(rt, &status, &wanted, &front.len());
    Ok(())
}

fn expect_cuts(rt: &impl Abort, alloc: Global, trace: &[u8]) -> Result<(), Fail> {
    for length in 0..trace.len() {
        expect_cut(rt, alloc, &trace[..length])?;
    }
    Ok(())
}

/// A trace is cut behind each of its bytes.
#[test]
fn cut_traces(rt: HostRuntime) -> Result<(), Fail> {
    let trace = trace_of(rt.alloc(), &STOP_ACROSS_THE_WRAP)?;
    let expected = expect_cuts(&rt, rt.alloc(), trace.as_bytes());
    let_go(trace);
    expected
}
