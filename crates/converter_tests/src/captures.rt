//! Captures, written as traces.
use crate::fixtures::same;
use converters::capture_loop::{Status, Stop, write_capture};
use ram_io::{MemSink, MemSource, Open};
use std::alloc::Global;
use std::process::Abort;
use std::test::Fail;
use test_fixtures::test_calls::let_go;
use test_fixtures::test_words::{Words, bytes_of, joined};

const HEAD: &str = "rams-trace 1 tick 10 link 100000";

const SEVEN: &str =
    "channel 7 ssrc 11223344 pt 33 rtx 99 server aabbccdd seq0 500 ring 64 window 0 access marker share 10000 reserve 1500 burst 4000 declared 100 minwire 42 limit 100 idle 100 clients 4";

const EIGHT: &str =
    "channel 8 ssrc 11223344 pt 33 rtx 99 server aabbccdd seq0 500 ring 64 window 0 access marker share 10000 reserve 1500 burst 4000 declared 100 minwire 42 limit 100 idle 100 clients 4";

// The head of a file.
const FILE: &str = concat!(
    "d4c3b2a1", // little-endian, microseconds
    "02000400", // version 2.4
    "00000000", // time zone
    "00000000", // accuracy
    "ffff0000", // at most 65,535 bytes of a frame
    "01000000", // link type 1, Ethernet
);

// A record of second 1, and its frame: packet 10 of the source, with the marker and four bytes of payload,
// to port 5000, and two bytes of padding.
const PACKET: &str = concat!(
    // second 1, microsecond 0, 60 bytes of 60
    "01000000",
    "00000000",
    "3c000000",
    "3c000000",
    // Ethernet (IEEE 802.3): to 01:00:5e:00:00:01, from 02:00:00:00:00:01; IPv4
    "01005e000001",
    "020000000001",
    "0800",
    // IPv4 (RFC 791): 44 bytes, 64 hops, UDP, from 10.0.0.1 to 239.0.0.1
    "4500002c",
    "00000000",
    "40110000",
    "0a000001",
    "ef000001",
    // UDP (RFC 768): port 5000 to port 5000, 24 bytes, no checksum
    "13881388",
    "00180000",
    // RTP 10 with the marker; timestamp 0; SSRC 11223344; 4 bytes of 0
    "80a1000a",
    "00000000",
    "11223344",
    "00000000",
    // padding of the frame
    "0000",
);

// A request (RFC 6285, 7.2) from 10.0.0.9, port 4001, to port 5001, 25 ms after that.
const REQUEST: &str = concat!(
    // second 1, microsecond 25,000, 58 bytes of 58
    "01000000",
    "a8610000",
    "3a000000",
    "3a000000",
    // Ethernet (IEEE 802.3): to 01:00:5e:00:00:01, from 02:00:00:00:00:01; IPv4
    "01005e000001",
    "020000000001",
    "0800",
    // IPv4 (RFC 791): 44 bytes, 64 hops, UDP, from 10.0.0.9 to 239.0.0.1
    "4500002c",
    "00000000",
    "40110000",
    "0a000009",
    "ef000001",
    // UDP (RFC 768): port 4001 to port 5001, 24 bytes, no checksum
    "0fa11389",
    "00180000",
    // RAMS-R of c001 for media source 11223344
    "86cd0003",
    "0000c001",
    "11223344",
    "01000000",
);

// Its bytes to port 5003, with a moment that is earlier, and two bytes of padding.
const TO_EIGHT: &str = concat!(
    // second 1, microsecond 13,960, 60 bytes of 64
    "01000000",
    "88360000",
    "3c000000",
    "40000000",
    // Ethernet (IEEE 802.3): to 01:00:5e:00:00:01, from 02:00:00:00:00:01; IPv4
    "01005e000001",
    "020000000001",
    "0800",
    // IPv4 (RFC 791): 44 bytes, 64 hops, UDP, from 10.0.0.9 to 239.0.0.1
    "4500002c",
    "00000000",
    "40110000",
    "0a000009",
    "ef000001",
    // UDP (RFC 768): port 4001 to port 5003, 24 bytes, no checksum
    "0fa1138b",
    "00180000",
    // RAMS-R of c001 for media source 11223344
    "86cd0003",
    "0000c001",
    "11223344",
    "01000000",
    // padding of the frame
    "0000",
);

// The first file's head and record in the order of big numbers.
const BIG_FILE: &str = concat!(
    "a1b2c3d4", // big-endian, microseconds
    "00020004", // version 2.4
    "00000000", // time zone
    "00000000", // accuracy
    "00ffff00", // at most 16,776,960 bytes of a frame
    "00000001", // link type 1, Ethernet
);

const BIG_PACKET: &str = concat!(
    // second 1, microsecond 0, 60 bytes of 60
    "00000001",
    "00000000",
    "0000003c",
    "0000003c",
    // Ethernet (IEEE 802.3): to 01:00:5e:00:00:01, from 02:00:00:00:00:01; IPv4
    "01005e000001",
    "020000000001",
    "0800",
    // IPv4 (RFC 791): 44 bytes, 64 hops, UDP, from 10.0.0.1 to 239.0.0.1
    "4500002c",
    "00000000",
    "40110000",
    "0a000001",
    "ef000001",
    // UDP (RFC 768): port 5000 to port 5000, 24 bytes, no checksum
    "13881388",
    "00180000",
    // RTP 10 with the marker; timestamp 0; SSRC 11223344; 4 bytes of 0
    "80a1000a",
    "00000000",
    "11223344",
    "00000000",
    // padding of the frame
    "0000",
);

// A record of an empty frame, of second 1 and 9.999 ms, and one of second 1 and 10 ms.
const EMPTY: &str = concat!(
    "01000000", // second 1
    "0f270000", // microsecond 9,999
    "00000000", // no byte
    "00000000", // of none
);

const EMPTY_TICK: &str = concat!(
    "01000000", // second 1
    "10270000", // microsecond 10,000
    "00000000", // no byte
    "00000000", // of none
);

// The lines of the first two records: RTP 10 with the marker, and a RAMS-R of the client 10.0.0.9, port 4001.
const LIVE: &str = "live 7 80a1000a000000001122334400000000";

const ASKS: &str = "fb 7 10995116871585 86cd00030000c0011122334401000000";

/// A head and a file, and what is written.
#[derive(Clone, Copy)]
struct Row {
    name: &'static str,
    head: &'static [&'static str],
    file: Words,
    /// How many bytes are missing at the end.
    cut: usize,
    text: &'static [&'static str],
    status: Status,
}

const PLAIN: Row = Row {
    name: "a packet and a request",
    head: &[HEAD, SEVEN, "end"],
    file: &[FILE, PACKET, REQUEST],
    cut: 0,
    text: &[HEAD, SEVEN, LIVE, "tick", "tick", ASKS, "end"],
    status: Status::Done,
};

const ROWS: &[Row] = &[
    PLAIN,
    Row {
        name: "a byte is missing",
        cut: 1,
        text: &[HEAD, SEVEN, LIVE, "refused-capture 2 cut"],
        status: Status::BadCapture,
        ..PLAIN
    },
    Row {
        name: "the record's header is cut",
        cut: 59,
        text: &[HEAD, SEVEN, LIVE, "refused-capture 2 cut"],
        status: Status::BadCapture,
        ..PLAIN
    },
    Row {
        name: "no byte after the head",
        file: &[],
        text: &[HEAD, SEVEN, "refused-capture 0 short"],
        status: Status::BadCapture,
        ..PLAIN
    },
    Row {
        name: "the file's head is cut",
        file: &[FILE],
        cut: 1,
        text: &[HEAD, SEVEN, "refused-capture 0 short"],
        status: Status::BadCapture,
        ..PLAIN
    },
    Row {
        name: "no record",
        file: &[FILE],
        text: &[HEAD, SEVEN, "end"],
        ..PLAIN
    },
    Row {
        name: "nanoseconds",
        // the head of FILE with the magic of nanoseconds
        file: &[
            "4d3cb2a1", "02000400", "00000000", "00000000", "ffff0000", "01000000", PACKET,
        ],
        text: &[HEAD, SEVEN, "refused-capture 0 magic"],
        status: Status::BadCapture,
        ..PLAIN
    },
    Row {
        name: "another version",
        // the head of FILE with version 2.3
        file: &[
            "d4c3b2a1", "02000300", "00000000", "00000000", "ffff0000", "01000000", PACKET,
        ],
        text: &[HEAD, SEVEN, "refused-capture 0 version"],
        status: Status::BadCapture,
        ..PLAIN
    },
    Row {
        name: "another link type",
        // the head of FILE with link type 113, Linux cooked
        file: &[
            "d4c3b2a1", "02000400", "00000000", "00000000", "ffff0000", "71000000", PACKET,
        ],
        text: &[HEAD, SEVEN, "refused-capture 0 link"],
        status: Status::BadCapture,
        ..PLAIN
    },
    Row {
        name: "a record that is too long, with a tick that isn't written",
        // second 5, microsecond 0, 262,145 bytes of 262,145
        file: &[FILE, PACKET, "05000000", "00000000", "01000400", "01000400"],
        text: &[HEAD, SEVEN, LIVE, "refused-capture 2 long"],
        status: Status::BadCapture,
        ..PLAIN
    },
    Row {
        name: "big numbers",
        file: &[BIG_FILE, BIG_PACKET],
        text: &[HEAD, SEVEN, LIVE, "end"],
        ..PLAIN
    },
    Row {
        name: "two channels, and a moment that goes back",
        head: &[HEAD, EIGHT, SEVEN, "end"],
        file: &[FILE, PACKET, REQUEST, TO_EIGHT],
        text: &[
            HEAD,
            EIGHT,
            SEVEN,
            // RTP 10 with the marker; timestamp 0; 4 bytes of 0
            "live 8 80a1000a000000001122334400000000",
            "tick",
            "tick",
            // two RAMS-R
            "fb 8 10995116871585 86cd00030000c0011122334401000000",
            "fb 7 10995116871585 86cd00030000c0011122334401000000",
            "end",
        ],
        ..PLAIN
    },
    Row {
        name: "a tick is due 10 ms after the first moment",
        file: &[FILE, PACKET, EMPTY, EMPTY_TICK, EMPTY, EMPTY_TICK],
        text: &[HEAD, SEVEN, LIVE, "tick", "end"],
        ..PLAIN
    },
    Row {
        name: "a head that is refused",
        head: &[HEAD, SEVEN, SEVEN, "end"],
        text: &["refused 3 twice"],
        status: Status::BadTrace,
        ..PLAIN
    },
    Row {
        name: "a head without its end",
        head: &[HEAD, SEVEN],
        file: &[],
        text: &["refused 3 order"],
        status: Status::BadTrace,
        ..PLAIN
    },
];

// Appends the bytes of a file, but for those that are missing.
fn add_file(alloc: Global, row: &Row, bytes: &mut Vec<u8>) -> Result<(), Fail> {
    let file = bytes_of(alloc, row.file)?;
    let left = file.len().saturating_sub(row.cut);
    let added = bytes.extend_from_slice(&file[..left]);
    let_go(file);
    added?;
    Ok(())
}

// The bytes of a head and a file.
fn source_of(alloc: Global, row: &Row) -> Result<Vec<u8>, Fail> {
    let mut bytes = joined(alloc, row.head, "\n")?;
    add_file(alloc, row, &mut bytes)?;
    Ok(bytes)
}

// What is written of some bytes in pieces of this size, where these calls of the source and the sink fail.
fn written(
    alloc: Global,
    bytes: Vec<u8>,
    piece: usize,
    source_fails: &[u64],
    sink_fails: &[u64],
) -> Result<(Result<Status, Stop>, Vec<u8>), Fail> {
    let mut source = MemSource::new(bytes, piece.max(1), source_fails.to_vec(alloc)?);
    let written = written_from(alloc, &mut source, sink_fails);
    let_go(source);
    written
}

// What is written of a source, where these calls of the sink fail.
fn written_from(
    alloc: Global,
    source: &mut MemSource,
    fails: &[u64],
) -> Result<(Result<Status, Stop>, Vec<u8>), Fail> {
    let Ok(mut sink) = MemSink::new(alloc, 6_000_000, 1_000, fails.to_vec(alloc)?) else {
        return Err(Fail::new("no memory"));
    };
    let ended = ended(alloc, source, &mut sink);
    let text = sink.held().to_vec(alloc);
    let_go(sink);
    Ok((ended, text?))
}

fn ended(alloc: Global, source: &mut MemSource, sink: &mut MemSink) -> Result<Status, Stop> {
    write_capture(alloc, 5000, source, sink, &Open)
}

// The text has these lines.
fn is_text(alloc: Global, lines: &[&str], text: &[u8]) -> Result<bool, Fail> {
    let want = joined(alloc, lines, "\n")?;
    let is_so = text == want.as_slice();
    let_go(want);
    Ok(is_so)
}

// What is written in pieces of this size ends so.
fn expect_pieces(rt: &impl Abort, alloc: Global, row: &Row, piece: usize) -> Result<(), Fail> {
    let (ended, text) = written(alloc, source_of(alloc, row)?, piece, &[], &[])?;
    let is_so = is_text(alloc, row.text, &text);
    let_go(text);
    same(rt, &ended, &Ok(row.status), row.name);
    same(rt, &is_so?, &true, row.name);
    Ok(())
}

// The capture is written so, whatever the size of the pieces.
fn expect_row(rt: &impl Abort, alloc: Global, row: &Row) -> Result<(), Fail> {
    for piece in [1, 2, 3, 7, 4_096] {
        expect_pieces(rt, alloc, row, piece)?;
    }
    Ok(())
}

#[test]
fn captures_are_written(rt: HostRuntime) -> Result<(), Fail> {
    for row in ROWS {
        expect_row(&rt, rt.alloc(), row)?;
    }
    Ok(())
}

/// Of a packet and a request in pieces of 100 bytes: the calls that fail, how that ends, and how many of
/// the lines of the text are there.
type Fault = (&'static str, &'static [u64], &'static [u64], Stop, usize);

const FAULTS: &[Fault] = &[
    ("in the head", &[1], &[], Stop::Read, 0),
    ("behind the head", &[3], &[], Stop::Read, 2),
    ("behind all", &[4], &[], Stop::Read, 6),
    ("the first piece of the text", &[], &[0], Stop::Write, 0),
    ("both", &[3], &[0], Stop::Read, 0),
];

fn expect_fault(rt: &impl Abort, alloc: Global, fault: &Fault) -> Result<(), Fail> {
    let (name, source_fails, sink_fails, stop, lines) = *fault;
    let front = PLAIN.text.get(..lines).ok_or("lines")?;
    let bytes = source_of(alloc, &PLAIN)?;
    let (ended, text) = written(alloc, bytes, 100, source_fails, sink_fails)?;
    let is_so = is_text(alloc, front, &text);
    let_go(text);
    same(rt, &ended, &Err(stop), name);
    same(rt, &is_so?, &true, name);
    Ok(())
}

#[test]
fn faults_leave_what_was_read(rt: HostRuntime) -> Result<(), Fail> {
    for fault in FAULTS {
        expect_fault(&rt, rt.alloc(), fault)?;
    }
    Ok(())
}

// A record of so many seconds with an empty frame.
fn empty_at(seconds: u32, file: &mut Vec<u8>) -> Result<(), Fail> {
    file.extend_from_slice(&seconds.to_le_bytes())?;
    file.extend_from_slice(&[0; 12])?;
    Ok(())
}

/// The seconds of two records, of which each has 100 ticks, and the lines that are written.
const LENGTHS: &[(u32, usize, Status)] = &[
    (10_000, 1_000_003, Status::Done),
    (10_001, 1_000_003, Status::TooLong),
];

// A head, and two records with so many seconds between them.
fn two_records(alloc: Global, seconds: u32) -> Result<Vec<u8>, Fail> {
    let mut bytes = joined(alloc, &[HEAD, SEVEN, "end"], "\n")?;
    add_two_records(alloc, seconds, &mut bytes)?;
    Ok(bytes)
}

fn add_two_records(alloc: Global, seconds: u32, bytes: &mut Vec<u8>) -> Result<(), Fail> {
    bytes.extend_from_slice(&bytes_of(alloc, &[FILE])?)?;
    empty_at(0, bytes)?;
    empty_at(seconds, bytes)
}

#[test]
fn a_trace_has_room_for_a_million_events(rt: HostRuntime) -> Result<(), Fail> {
    for (seconds, lines, status) in LENGTHS {
        let bytes = two_records(rt.alloc(), *seconds)?;
        let (ended, text) = written(rt.alloc(), bytes, 4_096, &[], &[])?;
        same(&rt, &ended, &Ok(*status), "a million events");
        let count = text.iter().filter(|b| **b == b'\n').count();
        same(&rt, &count, lines, "a million events");
        let_go(text);
    }
    Ok(())
}
