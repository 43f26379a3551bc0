//! Traces of channels that share a link: their books, and the ledgers behind.
use pool::pool_loop::{Open, Status, Stop, write_pool};
use ram_io::{MemSink, MemSource};
use std::alloc::{AllocError, Global};
use std::process::Abort;
use std::str;
use std::test::Fail;
use std::thread::Threads;
use test_fixtures::test_calls::let_go;

const HEAD: &str = "rams-trace 1 tick 10 link 100000\n";

/// A channel that sends at most one packet of 1,500 bytes in a tick.
const CHANNEL: &str =
    "channel <ID> ssrc 11223344 pt 33 rtx 99 server aabbccdd seq0 500 ring 64 window 0 access marker share 10000 reserve 1500 burst 1500 declared 0 minwire 1500 limit 100 idle 100 clients 4\n";

/// Three packets of 1,500 bytes on the wire, the second of them an access point, and a request (RFC 6285,
/// 7.2): RTP 10 at 0, 11 with the marker at 900, 12 at 1,800, each with 1,458 bytes of 0; RAMS-R.
const ASKS: &str = "live <ID> 8021000a0000000011223344<1458>
live <ID> 80a1000b0000038411223344<1458>
live <ID> 8021000c0000070811223344<1458>
fb <ID> 5 86cd00030000c0011122334401000000
";

const TICKS: &str = "tick\ntick\nend\n";

/// The answers to the packets and to the request, where there is one channel. The RAMS-I says 200, message 0; first
/// packet 500 (TLV 32), join after 30,000 ms (33), lasts 1,000 ms (34), at most 1,200,000 bit/s (35).
const ACCEPTS: &str = "1 7 took 65546
2 7 took 65547
3 7 took 65548
4 7 accept 5 first 65547 rate 1500 join 3000
4 7 send 5 86cd000caabbccdd11223344020000c82000000201f40000210000040000753022000004000003e8230000080000000000124f80
";

/// The same of channel 8 behind channel 7.
const ACCEPTS_OF_8: &str = "5 8 took 65546
6 8 took 65547
7 8 took 65548
8 8 accept 5 first 65547 rate 1500 join 3000
8 8 send 5 86cd000caabbccdd11223344020000c82000000201f40000210000040000753022000004000003e8230000080000000000124f80
";

/// The two packets of a burst, in the ticks of these numbers: RTX 500 of 11 with the marker at 900, and RTX 501 of 12
/// at 1,800 (RFC 4588, 4), each with 1,458 bytes of 0.
const SENDS: [&str; 2] = [
    "<TICK> <ID> burst 5 65547 500
<TICK> <ID> send 5 80e301f40000038411223344000b<1458>
",
    "<TICK> <ID> burst 5 65548 501
<TICK> <ID> send 5 806301f50000070811223344000c<1458>
",
];

/// The text with bytes of 0 in place of `<1458>`, and these words in place of `<ID>` and `<TICK>`.
fn spelled(alloc: Global, text: &str, id: &str, tick: &str) -> Result<String, AllocError> {
    let mut zeros = String::new(alloc);
    for _ in 0..1458 {
        zeros.push_str("00")?;
    }
    let named = text.replace(alloc, "<ID>", id)?;
    let timed = named.replace(alloc, "<TICK>", tick)?;
    let_go(named);
    let text = timed.replace(alloc, "<1458>", &zeros);
    let_go(timed);
    let_go(zeros);
    text
}

/// Appends such a text.
fn add(
    text: &mut String,
    alloc: Global,
    more: &str,
    id: &str,
    tick: &str,
) -> Result<(), AllocError> {
    let spelled = spelled(alloc, more, id, tick)?;
    let pushed = text.push_str(&spelled);
    let_go(spelled);
    pushed
}

/// The call of a pool. It stands alone, as its contract is long.
fn ends(
    rt: &(impl Threads + Sync),
    alloc: Global,
    rate: u64,
    source: &mut MemSource,
    sink: &mut MemSink,
) -> Result<Status, Stop> {
    write_pool(rt, alloc, rate.clamp(1, 1_000_000_000), source, sink, &Open)
}

/// A source of this trace whose calls of these numbers fail.
fn source_of(alloc: Global, trace: &str, fails: &[u64]) -> Result<MemSource, AllocError> {
    let fails = fails.to_vec(alloc)?;
    Ok(MemSource::new(trace.as_bytes().to_vec(alloc)?, 1_000_000, fails))
}

fn sink_of(alloc: Global) -> Result<MemSink, Fail> {
    let Ok(sink) = MemSink::new(alloc, 1_000_000, 1_000_000, Vec::new(alloc)) else {
        return Err(Fail::new("no memory"));
    };
    Ok(sink)
}

fn text_of(alloc: Global, held: &[u8]) -> Result<String, Fail> {
    Ok(String::from_str(alloc, str::from_utf8(held)?)?)
}

/// How a pool of this rate ends over this source, and what it writes.
fn pooled_from(
    rt: &(impl Threads + Sync),
    alloc: Global,
    rate: u64,
    source: &mut MemSource,
) -> Result<(Result<Status, Stop>, String), Fail> {
    let mut sink = sink_of(alloc)?;
    let ended = ends(rt, alloc, rate, source, &mut sink);
    let text = text_of(alloc, sink.held());
    let_go(sink);
    Ok((ended, text?))
}

/// How a pool of this rate ends over a source of this trace whose calls of these numbers fail, and what
/// it writes.
fn pooled(
    rt: &(impl Threads + Sync),
    alloc: Global,
    rate: u64,
    trace: &str,
    fails: &[u64],
) -> Result<(Result<Status, Stop>, String), Fail> {
    let mut source = source_of(alloc, trace, fails)?;
    let pooled = pooled_from(rt, alloc, rate, &mut source);
    let_go(source);
    pooled
}

/// The value is the one that is wanted.
fn same<T: PartialEq>(rt: &impl Abort, got: &T, want: &T, of: &str) {
    assert!(rt; *got == *want, "{of}");
}

/// Appends the trace of one channel that asks for a burst, behind its head.
fn add_one_burst(trace: &mut String, alloc: Global) -> Result<(), AllocError> {
    add(trace, alloc, CHANNEL, "7", "")?;
    add(trace, alloc, ASKS, "7", "")?;
    trace.push_str(TICKS)
}

fn one_burst(alloc: Global) -> Result<String, AllocError> {
    let mut trace = String::from_str(alloc, HEAD)?;
    add_one_burst(&mut trace, alloc)?;
    Ok(trace)
}

/// Appends its book, and a ledger.
fn add_book_of_one(book: &mut String, alloc: Global, ledger: &str) -> Result<(), AllocError> {
    book.push_str(ACCEPTS)?;
    add(book, alloc, SENDS[0], "7", "5")?;
    add(book, alloc, SENDS[1], "7", "6")?;
    book.push_str("done 6\n")?;
    book.push_str(ledger)
}

fn book_of_one(alloc: Global, ledger: &str) -> Result<String, AllocError> {
    let mut book = String::from_str(alloc, "rams-book 1\n")?;
    add_book_of_one(&mut book, alloc, ledger)?;
    Ok(book)
}

/// A pool of this rate ends so, and writes exactly this.
fn expect(
    rt: &(impl Threads + Sync + Abort),
    alloc: Global,
    rate: u64,
    trace: &str,
    want: (Status, &str),
) -> Result<(), Fail> {
    let (ended, text) = pooled(rt, alloc, rate, trace, &[])?;
    same(rt, &ended, &Ok(want.0), "how it ends");
    same(rt, &text.as_str(), &want.1, "what it writes");
    let_go(text);
    Ok(())
}

/// Rates, and the ledgers of a burst of two packets: at 1,500 bytes in a tick both are paid, at 1,499 the
/// second is late.
const LEDGERS: &[(u64, &str)] = &[
    (
        1500,
        "claim 7 0 1500 paid\nclaim 7 1500 1500 paid\npool 3000 3000\n",
    ),
    (
        1499,
        "claim 7 0 1500 paid\nclaim 7 1500 1500 late\npool 3000 2998\n",
    ),
];

/// At each rate a pool writes the book of one channel and the ledger.
fn expect_ledgers(
    rt: &(impl Threads + Sync + Abort),
    alloc: Global,
    trace: &str,
) -> Result<(), Fail> {
    for (rate, ledger) in LEDGERS {
        let text = book_of_one(alloc, ledger)?;
        let expected = expect(rt, alloc, *rate, trace, (Status::Done, &text));
        let_go(text);
        expected?;
    }
    Ok(())
}

#[test]
fn a_burst_is_paid_or_late(rt: HostRuntime) -> Result<(), Fail> {
    let trace = one_burst(rt.alloc())?;
    let expected = expect_ledgers(&rt, rt.alloc(), &trace);
    let_go(trace);
    expected
}

/// Appends the trace of two channels that each ask for a burst, behind its head.
fn add_two_bursts(trace: &mut String, alloc: Global) -> Result<(), AllocError> {
    add(trace, alloc, CHANNEL, "7", "")?;
    add(trace, alloc, CHANNEL, "8", "")?;
    add(trace, alloc, ASKS, "7", "")?;
    add(trace, alloc, ASKS, "8", "")?;
    trace.push_str(TICKS)
}

fn two_bursts(alloc: Global) -> Result<String, AllocError> {
    let mut trace = String::from_str(alloc, HEAD)?;
    add_two_bursts(&mut trace, alloc)?;
    Ok(trace)
}

/// Appends their book: in each tick both send, in the order of their lines.
fn add_book_of_two(book: &mut String, alloc: Global) -> Result<(), AllocError> {
    book.push_str(ACCEPTS)?;
    book.push_str(ACCEPTS_OF_8)?;
    for (sends, tick) in [(SENDS[0], "9"), (SENDS[1], "10")] {
        add(book, alloc, sends, "7", tick)?;
        add(book, alloc, sends, "8", tick)?;
    }
    book.push_str("done 10\n")
}

fn book_of_two(alloc: Global) -> Result<String, AllocError> {
    let mut book = String::from_str(alloc, "rams-book 1\n")?;
    add_book_of_two(&mut book, alloc)?;
    Ok(book)
}

/// A pool of 1,500 bytes in a tick writes this.
fn done(rt: &(impl Threads + Sync + Abort), alloc: Global, trace: &str) -> Result<String, Fail> {
    let (ended, text) = pooled(rt, alloc, 1500, trace, &[])?;
    same(rt, &ended, &Ok(Status::Done), "the end");
    Ok(text)
}

/// What a pool writes of two channels.
fn text_of_two(rt: &(impl Threads + Sync + Abort), alloc: Global) -> Result<String, Fail> {
    let trace = two_bursts(alloc)?;
    let text = done(rt, alloc, &trace);
    let_go(trace);
    text
}

/// The ledger behind the book of two channels.
fn ledger_in<'a>(alloc: Global, text: &'a str) -> Result<&'a str, Fail> {
    let book = book_of_two(alloc)?;
    let ledger = text.strip_prefix(book.as_str());
    let_go(book);
    Ok(ledger.ok_or("the book")?)
}

/// Of four claims the first two are paid; two are of each channel.
fn expect_claims(rt: &impl Abort, alloc: Global, text: &str) -> Result<(), Fail> {
    let ledger = ledger_in(alloc, text)?;
    let of_8 = ledger.replace(alloc, "claim 8 ", "claim 7 ")?;
    let want =
        "claim 7 0 1500 paid\nclaim 7 1500 1500 paid\nclaim 7 3000 1500 late\nclaim 7 4500 1500 late\npool 6000 3000\n";
    same(rt, &of_8.as_str(), &want, "four claims");
    let_go(of_8);
    let claims_of_8 = ledger.lines().filter(|line| line.starts_with("claim 8 "));
    same(rt, &claims_of_8.count(), &2, "two of each");
    Ok(())
}

/// Two channels claim two packets each: whichever draws first, the first two claims are paid.
#[test]
fn two_bursts_share_a_link(rt: HostRuntime) -> Result<(), Fail> {
    let text = text_of_two(&rt, rt.alloc())?;
    let expected = expect_claims(&rt, rt.alloc(), &text);
    let_go(text);
    expected
}

/// The head of one channel, and these lines.
fn one_channel(alloc: Global, lines: &str) -> Result<String, AllocError> {
    let mut trace = String::from_str(alloc, HEAD)?;
    add(&mut trace, alloc, CHANNEL, "7", "")?;
    trace.push_str(lines)?;
    Ok(trace)
}

/// Lines behind a head of one channel, how the pool ends, and what it writes: an event that names the
/// number of no channel is counted, and one line says where a trace is refused.
const LINES: &[(&str, Status, &str)] = &[
    (
        "live 7 80\nlive 9 80\ntick\nlive 7 80\nend\n",
        Status::Done,
        "rams-book 1\n1 7 bad short\n2 9 no-channel\n4 7 bad short\ndone 4\npool 0 1500\n",
    ),
    ("", Status::BadTrace, "refused 3 order\n"),
    (
        "tick\nlive 7 0\nend\n",
        Status::BadTrace,
        "refused 4 form\n",
    ),
];

/// Traces that end before their channel, and the one line that is written.
const HEADS: &[(&str, &str)] = &[("", "refused 1 order\n"), (HEAD, "refused 2 order\n")];

#[test]
fn lines_are_counted_or_refused(rt: HostRuntime) -> Result<(), Fail> {
    for (lines, status, text) in LINES {
        let trace = one_channel(rt.alloc(), lines)?;
        let expected = expect(&rt, rt.alloc(), 1500, &trace, (*status, text));
        let_go(trace);
        expected?;
    }
    Ok(())
}

#[test]
fn heads_without_a_channel_are_refused(rt: HostRuntime) -> Result<(), Fail> {
    for (trace, text) in HEADS {
        expect(&rt, rt.alloc(), 1500, trace, (Status::BadTrace, text))?;
    }
    Ok(())
}

/// Appends 200,001 events.
fn add_events(trace: &mut String) -> Result<(), AllocError> {
    for _ in 0..200_001 {
        trace.push_str("live 9 -\n")?;
    }
    Ok(())
}

/// Event 200,001 ends the trace, whatever comes behind it.
#[test]
fn an_event_is_one_too_many(rt: HostRuntime) -> Result<(), Fail> {
    let mut trace = one_channel(rt.alloc(), "")?;
    add_events(&mut trace)?;
    let want = (Status::TooLong, "too-long\n");
    let expected = expect(&rt, rt.alloc(), 1500, &trace, want);
    let_go(trace);
    expected
}

/// A source that fails leaves the sink as it was.
#[test]
fn nothing_is_written_of_half_a_trace(rt: HostRuntime) -> Result<(), Fail> {
    let trace = one_burst(rt.alloc())?;
    let pooled = pooled(&rt, rt.alloc(), 1500, &trace, &[0]);
    let_go(trace);
    let (ended, text) = pooled?;
    same(&rt, &ended, &Err(Stop::Read), "the first take");
    same(&rt, &text.len(), &0, "nothing");
    let_go(text);
    Ok(())
}
