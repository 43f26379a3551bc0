//! What is written of whole traces.
use crate::fixtures::same;
use crate::run::ran;
use ram_io::Open;
use rams_replay::Status;
use std::alloc::Global;
use std::process::Abort;
use std::sync::Wait;
use std::test::Fail;
use std::thread::Threads;
use trace_rows::{OPENING, let_go};

/// Packets 65,534, with the marker, and 65,535; the second is asked for twice; a request for a burst; the
/// first is asked for; and a tick.
pub const EARLY_AND_ALREADY: &str = "live 7 80a1fffe000000001122334400000000
live 7 8021ffff000003841122334400000000
fb 7 5 81cd00030000c00111223344ffff0000
fb 7 5 81cd00030000c00111223344ffff0000
fb 7 5 86cd00030000c0011122334401000000
fb 7 5 81cd00030000c00111223344fffe0000
tick
end
";

/// Two live packets alone: they are one list.
const ONE_LIST: &str = "live 7 80a1000a000000001122334400000000
live 7 8021000b000003841122334400000000
end
";

/// The lines of a text that begin so, in order.
fn lines_of(alloc: Global, text: &str, begin: &str) -> Result<String, Fail> {
    let mut found = String::new(alloc);
    for line in text.lines() {
        if line.starts_with(begin) {
            found.push_str(line)?;
            found.push_str("\n")?;
        }
    }
    Ok(found)
}

/// The text that a command writes of the trace whose lines behind the opening are these.
fn written(
    rt: &(impl Threads + Wait + Abort + Sync),
    alloc: Global,
    words: &[&str],
    rest: &str,
) -> Result<String, Fail> {
    let (status, text) = ran(rt, alloc, words, rest, (&[], &[]), &Open)?;
    let of = words.last().unwrap_or(&"");
    same(rt, &status, &Status::Done, of);
    Ok(text)
}

/// Lines that begin so are the same in both texts.
fn are_alike(alloc: Global, came: &str, rest: &str, begin: &str) -> Result<bool, Fail> {
    let got = lines_of(alloc, came, begin)?;
    let wanted = lines_of(alloc, rest, begin)?;
    let is_so = got.as_str() == wanted.as_str();
    let_go(got);
    let_go(wanted);
    Ok(is_so)
}

/// Lines that came are these, each kind in its order.
fn expect_lines(rt: &impl Abort, alloc: Global, came: &str, rest: &str) -> Result<(), Fail> {
    for begin in ["live", "fb", "tick", "end"] {
        same(rt, &are_alike(alloc, came, rest, begin)?, &true, &begin);
    }
    same(rt, &came.len(), &rest.len(), &"no other line");
    Ok(())
}

/// The book that `run` writes of a trace, whose lines behind the opening are these.
fn expect_book(
    rt: &(impl Threads + Wait + Abort + Sync),
    alloc: Global,
    came: &str,
    book: &str,
    workers: &str,
) -> Result<(), Fail> {
    let wanted = written(rt, alloc, &["run"], came)?;
    same(rt, &book, &wanted.as_str(), &workers);
    let_go(wanted);
    Ok(())
}

/// A text is a trace with the same lines, each list's in their order, and the book that `run` writes of it.
fn expect_trace_and_book(
    rt: &(impl Threads + Wait + Abort + Sync),
    alloc: Global,
    text: &str,
    rest: &str,
    workers: &str,
) -> Result<(), Fail> {
    let (trace, _) = text.split_once("rams-book 1\n").ok_or("a book")?;
    let came = trace.strip_prefix(OPENING).ok_or("the same opening")?;
    expect_lines(rt, alloc, came, rest)?;
    let book = text.strip_prefix(trace).ok_or("a book")?;
    expect_book(rt, alloc, came, book, workers)
}

/// What so many workers write of a trace is so.
fn expect_its_book(
    rt: &(impl Threads + Wait + Abort + Sync),
    alloc: Global,
    workers: &str,
    rest: &str,
) -> Result<(), Fail> {
    let text = written(rt, alloc, &["threads", workers], rest)?;
    let expected = expect_trace_and_book(rt, alloc, &text, rest, workers);
    let_go(text);
    expected
}

/// What so many workers write of each trace is so.
fn expect_books(
    rt: &(impl Threads + Wait + Abort + Sync),
    alloc: Global,
    workers: &str,
) -> Result<(), Fail> {
    for rest in [EARLY_AND_ALREADY, ONE_LIST, "end\n"] {
        expect_its_book(rt, alloc, workers, rest)?;
    }
    Ok(())
}

#[test]
fn threads_write_the_same_book(rt: HostRuntime) -> Result<(), Fail> {
    for workers in ["1", "4", "16"] {
        expect_books(&rt, rt.alloc(), workers)?;
    }
    Ok(())
}

/// One list comes in its order.
#[test]
fn one_list_is_its_trace(rt: HostRuntime) -> Result<(), Fail> {
    let book = "rams-book 1\n1 7 took 65546\n2 7 took 65547\ndone 2\n";
    let wanted = format!(in rt.alloc(); "{OPENING}{ONE_LIST}{book}")?;
    let text = written(&rt, rt.alloc(), &["threads", "2"], ONE_LIST)?;
    same(&rt, &text.as_str(), &wanted.as_str(), &"one list");
    let_go(text);
    let_go(wanted);
    Ok(())
}
