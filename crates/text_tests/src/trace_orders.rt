//! The order of a trace's lines in each mode, what a trace's channels may be together, and which of
//! several faults is named.
use crate::fixtures::same;
use crate::trace_words::{line_of, word};
use std::alloc::{AllocError, Global};
use std::process::Abort;
use std::test::Fail;
use trace_text::{Mode, State};

/// A trace in a mode. Each line has the word of its answer in front, and `@` stands for the channel
/// line with the edits behind it.
#[derive(Clone, Copy)]
struct Trace {
    mode: Mode,
    lines: &'static [&'static str],
}

const TRACES: &[Trace] = &[
    // the order of run
    Trace {
        mode: Mode::Run,
        lines: &[
            "order live 7 -",
            "order @",
            "order end",
            "order tick",
            "ok rams-trace 1 tick 10 link 20000",
            "order rams-trace 1 tick 10 link 20000",
            "order live 7 -",
            "order fb 7 5 -",
            "order tick",
            "order end",
            "ok @",
            "order rams-trace 1 tick 10 link 20000",
            "ok live 7 -",
            "ok fb 7 5 -",
            "ok tick",
            "order @channel 7>channel 8",
            "order rams-trace 2 tick 10 link 20000",
            "ok live 9 -",
            "form lives 7 -",
            "ok end",
            "order end",
            "order tick",
            "order live 7 -",
            "order @",
            "order rams-trace 1 tick 10 link 20000",
        ],
    },
    // lines of run
    Trace {
        mode: Mode::Run,
        lines: &[
            "ok rams-trace 1 tick 10 link 20000",
            "ok @",
            "ok @channel 7>channel 8",
            "ok live 9 -",
            "ok fb 9 5 -",
            "ok tick",
            "order tune 7 5 00000005",
            "order give 3",
            "order mcast 7 5 65546",
            "order ask 7 5",
            "order drop 7 5",
            "ok end",
        ],
    },
    // lines of meet
    Trace {
        mode: Mode::Meet,
        lines: &[
            "ok rams-trace 1 tick 10 link 20000",
            "ok @",
            "ok @channel 7>channel 8",
            "ok live 9 -",
            "ok fb 9 5 -",
            "ok tick",
            "ok tune 7 5 00000005",
            "ok give 3",
            "ok mcast 7 5 65546",
            "ok ask 7 5",
            "ok drop 9 5",
            "range ask 0 5",
            "ok end",
            "order give 3",
        ],
    },
    // lines of threads
    Trace {
        mode: Mode::Threads,
        lines: &[
            "ok rams-trace 1 tick 10 link 20000",
            "ok @",
            "order @channel 7>channel 8",
            "order @ring 64>ring 0",
            "ok live 7 -",
            "ok fb 7 5 -",
            "range live 9 -",
            "range fb 9 5 -",
            "range live 0 -",
            "ok tick",
            "order tune 7 5 00000005",
            "order give 3",
            "order mcast 7 5 65546",
            "order ask 0 5",
            "order drop 7 5",
            "ok end",
            "order live 9 -",
        ],
    },
    // lines of serve
    Trace {
        mode: Mode::Serve,
        lines: &[
            "ok rams-trace 1 tick 10 link 20000",
            "ok @",
            "ok @channel 7>channel 8",
            "order live 7 -",
            "order live 0 -",
            "order fb 7 5 -",
            "order tick",
            "order tune 7 5 00000005",
            "order give 3",
            "order mcast 7 5 65546",
            "order ask 7 5",
            "order drop 7 5",
            "ok end",
            "order @",
        ],
    },
    // the order comes before the range
    Trace {
        mode: Mode::Run,
        lines: &[
            "order live 0 -",
            "form live 0 0A",
            "order @ring 64>ring 0",
            "range rams-trace 1 tick 0 link 1500",
            "ok rams-trace 1 tick 10 link 20000",
            "order rams-trace 1 tick 0 link 1500",
            "order fb 0 5 -",
            "range @ring 64>ring 0",
            "ok @",
            "order tune 0 5 00000000",
            "range fb 7 281474976710656 -",
            "ok tick",
            "order @ring 64>ring 0",
            "ok end",
            "order live 0 -",
        ],
    },
    // channels are of the head's version
    Trace {
        mode: Mode::Run,
        lines: &[
            "order @clients 4>clients 4 depth 0 swell 0",
            "form rams-trace 3 tick 10 link 20000",
            "ok rams-trace 1 tick 10 link 20000",
            "order @clients 4>clients 4 depth 0 swell 0",
            "order @clients 4>clients 4 depth 1000000001 swell 0",
            "form @clients 4>clients 4 depth 0",
            "range @ring 64>ring 0",
            "ok @",
            "order @channel 7>channel 8;clients 4>clients 4 depth 0 swell 0",
            "ok @channel 7>channel 8",
            "ok tick",
            "ok end",
        ],
    },
    // the share is at least reserve, burst and depth together
    Trace {
        mode: Mode::Meet,
        lines: &[
            "ok rams-trace 2 tick 10 link 20000",
            "order @",
            "order @ring 64>ring 0",
            "range @clients 4>clients 4 depth 1000000001 swell 0",
            "range @clients 4>clients 4 depth 0 swell 1000000001",
            "rule-3 @clients 4>clients 4 depth 4501 swell 0",
            "rule-3 @clients 4>clients 4 depth 1000000000 swell 0",
            "ok @clients 4>clients 4 depth 4500 swell 1000000000",
            "order @channel 7>channel 8",
            "ok @channel 7>channel 8;clients 4>clients 4 depth 0 swell 0",
            "order @",
            "ok live 7 -",
            "ok end",
        ],
    },
    // the first broken rule is named
    Trace {
        mode: Mode::Run,
        lines: &[
            "ok rams-trace 1 tick 10 link 20000",
            "rule-1 @rtx 99>rtx 33",
            "rule-2 @burst 4000>burst 1599",
            "rule-3 @share 10000>share 5499",
            "rule-4 @share 10000>share 20001",
            "rule-1 @rtx 99>rtx 33;share 10000>share 1500;burst 4000>burst 1500",
            "rule-2 @share 10000>share 1500;burst 4000>burst 1500",
            "rule-3 @share 10000>share 20001;burst 4000>burst 20000",
            "range @rtx 99>rtx 33;ring 64>ring 0",
            "ok @share 10000>share 5500;burst 4000>burst 4000",
            "twice @pt 33>pt 99",
            "range @ring 64>ring 32769",
            "ok @channel 7>channel 8;burst 4000>burst 1600",
            "rule-4 @channel 7>channel 9",
            "rule-1 @channel 7>channel 9;pt 33>pt 99",
            "rule-4 @channel 7>channel 9;share 10000>share 5500",
            "twice @channel 7>channel 8;share 10000>share 1500",
            "ok @channel 7>channel 9;share 10000>share 4500;burst 4000>burst 3000",
        ],
    },
];

/// The word of a line's answer. Where its form is right, its words tell whether it is in order.
fn judged(state: &mut State, line: &[u8]) -> &'static str {
    let expected = state.expects(line);
    let answer = match state.judge(line) {
        Ok(_) => word(None),
        Err(fault) => word(Some(fault)),
    };
    if answer == "form" || expected == (answer != "order") {
        answer
    } else {
        "its words tell otherwise"
    }
}

/// Judges lines, each of which has the word of its answer in front.
fn expect(rt: &impl Abort, alloc: Global, state: &mut State, cases: &[&str]) -> Result<(), Fail> {
    for case in cases {
        let (want, text) = case.split_once(' ').unwrap_or((case, ""));
        let line = line_of(alloc, text)?;
        same(rt, &judged(state, line.as_bytes()), &want, case);
    }
    Ok(())
}

fn expect_traces(rt: &impl Abort, alloc: Global, traces: &[Trace]) -> Result<(), Fail> {
    for trace in traces {
        let mut state = State::new(trace.mode);
        expect(rt, alloc, &mut state, trace.lines)?;
    }
    Ok(())
}

#[test]
fn lines_come_in_their_order(rt: HostRuntime) -> Result<(), Fail> {
    expect_traces(&rt, rt.alloc(), TRACES)
}

/// Lines behind 64 channels.
const FULL: &[&str] = &[
    "rule-5 @channel 7>channel 65",
    "rule-4 @channel 7>channel 65;share 10000>share 360001",
    "rule-5 @channel 7>channel 65;share 10000>share 360000",
    "twice @channel 7>channel 64",
    "ok end",
];

/// The line of a channel.
fn channel_line(alloc: Global, id: u32) -> Result<String, AllocError> {
    let edits = format!(in alloc; "@channel 7>channel {id}")?;
    line_of(alloc, &edits)
}

/// What a trace of 64 channels has reached.
fn with_64_channels(alloc: Global) -> Result<State, Fail> {
    let mut state = State::new(Mode::Run);
    let head = b"rams-trace 1 tick 10 link 1000000";
    if judged(&mut state, head) != "ok" {
        return Err(Fail::from("the head"));
    }
    for id in 1..=64 {
        let line = channel_line(alloc, id)?;
        if judged(&mut state, line.as_bytes()) != "ok" {
            return Err(Fail::from("a channel"));
        }
    }
    Ok(state)
}

#[test]
fn there_are_at_most_64_channels(rt: HostRuntime) -> Result<(), Fail> {
    let mut state = with_64_channels(rt.alloc())?;
    expect(&rt, rt.alloc(), &mut state, FULL)
}
