//! Rows of three turns of a server, of what stops it, and of its head.
use crate::memory::{ACCESS_POINT, AGAIN, ASKS, EIGHT, HEAD, INFO, LIVE, REQUEST, SEVEN};
use crate::turn_row::{Row, check_row};
use rams_model::Status;
use serve_loop::Stop;
use std::rt::HostRuntime;
use std::test::Fail;

/// Of the other channel, whose numbers begin at 700.
const AGAIN_OF_EIGHT: &[u8] = &[
    0x80, 0xe3, 0x02, 0xbc, 0x00, 0x00, 0x00, 0x00, 0x11, 0x22, 0x33, 0x44, 0x00, 0x0a, 0x00, 0x00,
    0x00, 0x00,
];

/// A generic NACK for packet 10 (RFC 4585, 6.2.1).
pub const LOSS: &[u8] = &[
    0x81, 0xcd, 0x00, 0x03, 0x00, 0x00, 0xc0, 0x01, 0x11, 0x22, 0x33, 0x44, 0x00, 0x0a, 0x00, 0x00,
];

/// A packet, a request, and then nothing while the tick comes.
pub const JOURNAL: Row = Row {
    name: "serve_journal",
    source: &[HEAD, SEVEN, "end"],
    arrivals: &[(9, 5000, ACCESS_POINT), (5, 5001, REQUEST)],
    moments: &[0, 3, 6, 10],
    source_fails: &[],
    sink_fails: &[],
    wire_fails: &[],
    ended: Ok(Status::Done),
    text: &[HEAD, SEVEN, LIVE, ASKS, "tick", "end"],
    sent: &[(5, 5001, INFO), (5, 5001, AGAIN)],
};

const TURNS: &[Row] = &[
    JOURNAL,
    Row {
        name: "what follows `end` isn't looked at",
        source: &[HEAD, SEVEN, "end", "tick", "end"],
        ..JOURNAL
    },
    Row {
        name: "each channel answers from its own feedback port",
        source: &[HEAD, EIGHT, SEVEN, "end"],
        arrivals: &[
            (9, 5000, ACCESS_POINT),
            (6, 5001, LOSS),
            (9, 5002, ACCESS_POINT),
        ],
        text: &[
            HEAD,
            EIGHT,
            SEVEN,
            // RTP 10 with the marker; timestamp 0; 4 bytes of 0
            "live 8 80a1000a000000001122334400000000",
            // NACK of 10
            "fb 8 6 81cd00030000c00111223344000a0000",
            LIVE,
            "tick",
            "end",
        ],
        sent: &[(6, 5001, AGAIN_OF_EIGHT)],
        ..JOURNAL
    },
    Row {
        name: "ports of no channel",
        arrivals: &[(9, 4999, ACCESS_POINT), (9, 5002, ACCESS_POINT)],
        text: &[HEAD, SEVEN, "tick", "end"],
        sent: &[],
        ..JOURNAL
    },
    Row {
        name: "a tick that comes late is one tick, and the next is due a tick after it",
        arrivals: &[],
        moments: &[0, 35, 44, 45],
        text: &[HEAD, SEVEN, "tick", "tick", "end"],
        sent: &[],
        ..JOURNAL
    },
    Row {
        name: "the first call of the wire fails",
        wire_fails: &[0],
        ended: Err(Stop::Wire),
        text: &[HEAD, SEVEN],
        sent: &[],
        ..JOURNAL
    },
    Row {
        name: "the first datagram can't be sent",
        wire_fails: &[2],
        ended: Err(Stop::Wire),
        text: &[HEAD, SEVEN, LIVE, ASKS],
        sent: &[],
        ..JOURNAL
    },
    Row {
        name: "the tick's datagram can't be sent",
        wire_fails: &[4],
        ended: Err(Stop::Wire),
        text: &[HEAD, SEVEN, LIVE, ASKS, "tick"],
        sent: &[(5, 5001, INFO)],
        ..JOURNAL
    },
    Row {
        name: "the sink fails where the head would go",
        sink_fails: &[0],
        ended: Err(Stop::Write),
        text: &[],
        sent: &[],
        ..JOURNAL
    },
    Row {
        name: "the sink fails where the request's line would go",
        sink_fails: &[1],
        ended: Err(Stop::Write),
        text: &[HEAD, SEVEN],
        sent: &[],
        ..JOURNAL
    },
];

/// A head of which nothing is served.
pub const UNSERVED: Row = Row {
    sent: &[],
    ended: Ok(Status::BadTrace),
    ..JOURNAL
};

const HEADS: &[Row] = &[
    Row {
        name: "no `end`",
        source: &[HEAD, SEVEN],
        text: &["refused 3 order"],
        ..UNSERVED
    },
    Row {
        name: "nothing at all",
        source: &[],
        text: &["refused 1 order"],
        ..UNSERVED
    },
    Row {
        name: "no channel",
        source: &[HEAD, "end"],
        text: &["refused 2 order"],
        ..UNSERVED
    },
    Row {
        name: "a tick",
        source: &[HEAD, SEVEN, "tick", "end"],
        text: &["refused 3 order"],
        ..UNSERVED
    },
    Row {
        name: "a channel twice",
        source: &[HEAD, SEVEN, SEVEN, "end"],
        text: &["refused 3 twice"],
        ..UNSERVED
    },
    Row {
        name: "no such line",
        source: &[HEAD, "channels", SEVEN, "end"],
        text: &["refused 2 form"],
        ..UNSERVED
    },
    Row {
        name: "the source fails",
        source_fails: &[0],
        ended: Err(Stop::Read),
        text: &[],
        ..UNSERVED
    },
];

#[test]
fn servers_write_and_send(rt: HostRuntime) -> Result<(), Fail> {
    for row in TURNS {
        check_row(&rt, rt.alloc(), row)?;
    }
    Ok(())
}

#[test]
fn heads_are_served_or_refused(rt: HostRuntime) -> Result<(), Fail> {
    for row in HEADS {
        check_row(&rt, rt.alloc(), row)?;
    }
    Ok(())
}
