//! Traces and words that are refused, faults, and one event too many.
use crate::fixtures::same;
use crate::run::ran;
use ram_io::Open;
use rams_replay::Status;
use std::alloc::{AllocError, Global};
use std::test::Fail;
use trace_rows::let_go;

/// The line of another channel.
const CHANNEL_8: &str =
    "channel 8 ssrc 11223344 pt 33 rtx 99 server aabbccdd seq0 500 ring 64 window 0 access marker share 10000 reserve 1500 burst 4000 declared 100 minwire 42 limit 100 idle 100 clients 4\nend\n";

/// Words, the lines behind the opening, how that ends, and what is written.
const ROWS: &[(&[&str], &str, Status, &str)] = &[
    (&["threads"], "end\n", Status::Words, ""),
    (&["threads", "0"], "end\n", Status::Words, ""),
    (&["threads", "01"], "end\n", Status::Words, ""),
    (&["threads", "17"], "end\n", Status::Words, ""),
    (&["threads", "1", "1"], "end\n", Status::Words, ""),
    (
        &["threads", "1"],
        CHANNEL_8,
        Status::BadTrace,
        "refused 3 order\n",
    ),
    (
        &["threads", "1"],
        "tick\nlive 8 00\nend\n",
        Status::BadTrace,
        "refused 4 range\n",
    ),
    (
        &["threads", "16"],
        "tick\nfb 8 1 00\nend\n",
        Status::BadTrace,
        "refused 4 range\n",
    ),
    (
        &["threads", "2"],
        "live 7 0\nend\n",
        Status::BadTrace,
        "refused 3 form\n",
    ),
    (
        &["threads", "2"],
        "tick\n",
        Status::BadTrace,
        "refused 4 order\n",
    ),
];

#[test]
fn refused_words_and_lines(rt: HostRuntime) -> Result<(), Fail> {
    for (place, (words, rest, status, text)) in ROWS.iter().enumerate() {
        let (got, written) = ran(&rt, rt.alloc(), words, rest, (&[], &[]), &Open)?;
        same(&rt, &(got, written.as_str()), &(*status, *text), &place);
        let_go(written);
    }
    Ok(())
}

/// The calls of the source and of the sink that fail, and how that ends.
const FAULTS: &[(&[u64], &[u64], Status)] = &[
    (&[0], &[], Status::ReadFault),
    (&[], &[0], Status::WriteFault),
];

/// A source that fails leaves the sink without a byte, and a sink that fails gets none.
#[test]
fn faults_are_told(rt: HostRuntime) -> Result<(), Fail> {
    for (place, (takes, puts, status)) in FAULTS.iter().enumerate() {
        let words = &["threads", "2"];
        let (got, text) = ran(&rt, rt.alloc(), words, "tick\nend\n", (takes, puts), &Open)?;
        same(&rt, &(got, text.len()), &(*status, 0), &place);
        let_go(text);
    }
    Ok(())
}

/// The lines of 200,001 ticks, and one of no form.
fn ticks(alloc: Global) -> Result<String, AllocError> {
    let mut rest = String::new(alloc);
    for _ in 0..200_001 {
        rest.push_str("tick\n")?;
    }
    rest.push_str("x\n")?;
    Ok(rest)
}

/// A trace of 200,001 ticks has one too many; what follows isn't looked at.
#[test]
fn one_event_too_many(rt: HostRuntime) -> Result<(), Fail> {
    let rest = ticks(rt.alloc())?;
    let words = &["threads", "1"];
    let ran = ran(&rt, rt.alloc(), words, &rest, (&[], &[]), &Open);
    let_go(rest);
    let (got, text) = ran?;
    same(
        &rt,
        &(got, text.as_str()),
        &(Status::TooLong, "too-long\n"),
        &"too long",
    );
    let_go(text);
    Ok(())
}
