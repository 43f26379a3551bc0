//! Rows of takeovers, of what stops them, and of journals that aren't taken over.
ghost use Rattle.std.specs.Prelude.{◌<◌};

use crate::memory::{ACCESS_POINT, AGAIN, ASKS, HEAD, INFO, LIVE, REQUEST, SEVEN};
use crate::takeover_row::{Row, check_row};
use rams_model::Status;
use std::alloc::Global;
use std::process::Abort;
use std::rt::HostRuntime;
use std::test::Fail;
use takeover::takeover_loop::Stop;

/// A journal up to a request, and a half of a tick: the tick of the turn brings the packet again, and
/// nothing is said to the client a second time.
pub const TAKEN: Row = Row {
    name: "takeover_journal",
    source: &[HEAD, SEVEN, LIVE, ASKS],
    rest: "ti",
    turns: 1,
    arrivals: &[],
    moments: &[0, 10],
    source_fails: &[],
    sink_fails: &[],
    wire_fails: &[],
    ended: Ok(Status::Done),
    text: &[HEAD, SEVEN, LIVE, ASKS, "tick", "end"],
    sent: &[(5, 5001, AGAIN)],
};

const ROWS: &[Row] = &[
    TAKEN,
    Row {
        name: "the tick was done",
        source: &[HEAD, SEVEN, LIVE, ASKS, "tick"],
        rest: "",
        text: &[HEAD, SEVEN, LIVE, ASKS, "tick", "tick", "end"],
        sent: &[],
        ..TAKEN
    },
    Row {
        name: "`end`, and what isn't looked at behind it",
        source: &[HEAD, SEVEN, LIVE, ASKS, "end", "tick", "no line"],
        ..TAKEN
    },
    Row {
        name: "`end` that isn't whole",
        rest: "end",
        ..TAKEN
    },
    Row {
        name: "no event",
        source: &[HEAD, SEVEN],
        rest: "",
        turns: 2,
        arrivals: &[(9, 5000, ACCESS_POINT), (5, 5001, REQUEST)],
        moments: &[0, 3, 6, 10],
        text: &[HEAD, SEVEN, LIVE, ASKS, "end"],
        sent: &[(5, 5001, INFO)],
        ..TAKEN
    },
    Row {
        name: "no turn",
        turns: 0,
        text: &[HEAD, SEVEN, LIVE, ASKS, "end"],
        sent: &[],
        ..TAKEN
    },
    Row {
        name: "the first call of the wire fails",
        wire_fails: &[0],
        ended: Err(Stop::Wire),
        text: &[HEAD, SEVEN, LIVE, ASKS],
        sent: &[],
        ..TAKEN
    },
    Row {
        name: "the datagram can't be sent",
        wire_fails: &[1],
        ended: Err(Stop::Wire),
        text: &[HEAD, SEVEN, LIVE, ASKS, "tick"],
        sent: &[],
        ..TAKEN
    },
    Row {
        name: "the sink fails at once",
        sink_fails: &[0],
        ended: Err(Stop::Write),
        text: &[],
        sent: &[],
        ..TAKEN
    },
    Row {
        name: "the source fails at once",
        source_fails: &[0],
        ended: Err(Stop::Read),
        text: &[],
        sent: &[],
        ..TAKEN
    },
];

/// A journal of which nothing is served.
const UNSERVED: Row = Row {
    rest: "",
    sent: &[],
    ended: Ok(Status::BadTrace),
    ..TAKEN
};

const REFUSED: &[Row] = &[
    Row {
        name: "a packet that is no hexadecimal word",
        source: &[HEAD, SEVEN, "live 7 0"],
        text: &[HEAD, SEVEN, "refused 3 form"],
        ..UNSERVED
    },
    Row {
        name: "the head line alone",
        source: &[HEAD],
        text: &[HEAD, "refused 2 order"],
        ..UNSERVED
    },
    Row {
        name: "nothing at all",
        source: &[],
        text: &["refused 1 order"],
        ..UNSERVED
    },
    Row {
        name: "a channel line that isn't whole",
        source: &[HEAD],
        rest: SEVEN,
        text: &[HEAD, "refused 2 order"],
        ..UNSERVED
    },
    Row {
        name: "`end` before a channel",
        source: &[HEAD, "end"],
        text: &[HEAD, "refused 2 order"],
        ..UNSERVED
    },
    Row {
        name: "a channel twice",
        source: &[HEAD, SEVEN, SEVEN],
        text: &[HEAD, SEVEN, "refused 3 twice"],
        ..UNSERVED
    },
    Row {
        name: "no such line",
        source: &[HEAD, SEVEN, LIVE, "lives", "end"],
        text: &[HEAD, SEVEN, LIVE, "refused 4 form"],
        ..UNSERVED
    },
];

/// Each row, where a call of the source gives so many bytes.
fn check_rows(rt: &impl Abort, alloc: Global, rows: &[Row], most: usize) -> Result<(), Fail>
    requires { 0 < most }
{
    for row in rows {
        check_row(rt, alloc, row, most)?;
    }
    Ok(())
}

/// Each row, whether the source gives byte by byte or all at once.
#[test]
fn takeovers_write_and_send(rt: HostRuntime) -> Result<(), Fail> {
    check_rows(&rt, rt.alloc(), ROWS, 10_000)?;
    check_rows(&rt, rt.alloc(), REFUSED, 10_000)?;
    check_rows(&rt, rt.alloc(), REFUSED, 1)?;
    check_row(&rt, rt.alloc(), &TAKEN, 1)
}
