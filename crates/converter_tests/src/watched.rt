//! What is told of a capture that is refused.
use converters::capture_loop::{CaptureFault, CaptureWatch, FileKind, write_capture};
use ram_io::{MemSink, MemSource};
use std::alloc::Global;
use std::cell::Cell;
use std::test::Fail;
use test_fixtures::test_calls::let_go;
use test_fixtures::test_words::{Words, bytes_of, joined};

const HEAD: Words = &[
    "rams-trace 1 tick 10 link 100000",
    "channel 7 ssrc 11223344 pt 33 rtx 99 server aabbccdd seq0 500 ring 64 window 0 access marker share 10000 reserve 1500 burst 4000 declared 100 minwire 42 limit 100 idle 100 clients 4",
    "end",
];

// A record of second 1 without a byte.
const EMPTY: &str = concat!(
    "01000000", // second 1
    "00000000", // microsecond 0
    "00000000", // no byte
    "00000000", // of none
);

#[derive(Clone, Copy, PartialEq, Eq)]
enum Told {
    Nothing,
    File(CaptureFault, FileKind),
    Record(u64, CaptureFault),
    /// More than one thing.
    Much,
}

/// Notes what it is told.
#[derive(Drop)]
struct Notes(Cell<Told>);

impl Notes {
    fn note(&self, told: Told) {
        match self.0.get() {
            Told::Nothing => self.0.set(told),
            _ => self.0.set(Told::Much),
        }
    }
}

impl CaptureWatch for Notes {
    fn refuses_file(&self, fault: CaptureFault, kind: FileKind) {
        self.note(Told::File(fault, kind));
    }

    fn refuses_record(&self, number: u64, fault: CaptureFault) {
        self.note(Told::Record(number, fault));
    }
}

/// A file, and what is told of it.
const FILES: &[(&str, Words, Told)] = &[
    (
        "a whole file",
        // little-endian, microseconds; version 2.4; at most 65,535 bytes of a frame;
        // link type 1, Ethernet
        &[
            "d4c3b2a1", "02000400", "00000000", "00000000", "ffff0000", "01000000", EMPTY,
        ],
        Told::Nothing,
    ),
    (
        "no file",
        &[],
        Told::File(CaptureFault::Short, FileKind::Unknown),
    ),
    (
        "a byte is missing of a head",
        // little-endian, microseconds; version 2.4; at most 65,535 bytes of a frame; a byte is missing
        &[
            "d4c3b2a1", "02000400", "00000000", "00000000", "ffff0000", "010000",
        ],
        Told::File(CaptureFault::Short, FileKind::Unknown),
    ),
    (
        "pcapng, as tshark writes it",
        // a section: its type, 192 bytes, little-endian, version 1.0, of unknown length
        &[
            "0a0d0d0a", "c0000000", "4d3c2b1a", "01000000", "ffffffff", "ffffffff",
        ],
        Told::File(CaptureFault::Magic, FileKind::Pcapng),
    ),
    (
        "nanoseconds",
        // little-endian, nanoseconds; version 2.4; at most 65,535 bytes of a frame;
        // link type 1, Ethernet
        &[
            "4d3cb2a1", "02000400", "00000000", "00000000", "ffff0000", "01000000", EMPTY,
        ],
        Told::File(CaptureFault::Magic, FileKind::Nanoseconds),
    ),
    (
        "nanoseconds in the order of big numbers",
        // big-endian, nanoseconds; version 2.4; at most 16,776,960 bytes of a frame;
        // link type 1, Ethernet
        &[
            "a1b23c4d", "00020004", "00000000", "00000000", "00ffff00", "00000001",
        ],
        Told::File(CaptureFault::Magic, FileKind::Nanoseconds),
    ),
    (
        "a line end in front of the file",
        // a line feed, and the head of the whole file
        &[
            "0a", "d4c3b2a1", "02000400", "00000000", "00000000", "ffff0000", "01000000",
        ],
        Told::File(CaptureFault::Magic, FileKind::Unknown),
    ),
    (
        "another version",
        // little-endian, microseconds; version 2.3; at most 65,535 bytes of a frame;
        // link type 101, raw IP
        &[
            "d4c3b2a1", "02000300", "00000000", "00000000", "ffff0000", "65000000",
        ],
        Told::File(CaptureFault::Version, FileKind::RawIp),
    ),
    (
        "raw IP",
        // little-endian, microseconds; version 2.4; at most 65,535 bytes of a frame;
        // link type 101, raw IP
        &[
            "d4c3b2a1", "02000400", "00000000", "00000000", "ffff0000", "65000000", EMPTY,
        ],
        Told::File(CaptureFault::Link, FileKind::RawIp),
    ),
    (
        "the device any",
        // little-endian, microseconds; version 2.4; at most 262,144 bytes of a frame;
        // link type 113, Linux cooked
        &[
            "d4c3b2a1", "02000400", "00000000", "00000000", "00000400", "71000000", EMPTY,
        ],
        Told::File(CaptureFault::Link, FileKind::LinuxCooked),
    ),
    (
        "the device any, in the second version",
        // little-endian, microseconds; version 2.4; at most 262,144 bytes of a frame;
        // link type 276, Linux cooked, second version
        &[
            "d4c3b2a1", "02000400", "00000000", "00000000", "00000400", "14010000", EMPTY,
        ],
        Told::File(CaptureFault::Link, FileKind::LinuxCooked2),
    ),
    (
        "wireless",
        // little-endian, microseconds; version 2.4; at most 65,535 bytes of a frame;
        // link type 105, wireless
        &[
            "d4c3b2a1", "02000400", "00000000", "00000000", "ffff0000", "69000000",
        ],
        Told::File(CaptureFault::Link, FileKind::OtherLink(105)),
    ),
    (
        "a record that is cut",
        &[
            // little-endian, microseconds; version 2.4; at most 65,535 bytes of a frame;
            // link type 1, Ethernet
            "d4c3b2a1", "02000400", "00000000", "00000000", "ffff0000", "01000000", EMPTY, "01",
        ],
        Told::Record(2, CaptureFault::Cut),
    ),
    (
        "a record that is too long",
        &[
            // little-endian, microseconds; version 2.4; at most 65,535 bytes of a frame;
            // link type 1, Ethernet
            "d4c3b2a1", "02000400", "00000000", "00000000", "ffff0000", "01000000",
            // second 1, microsecond 0, 262,145 bytes of 4,294,967,295
            "01000000", "00000000", "01000400", "ffffffff",
        ],
        Told::Record(1, CaptureFault::Long),
    ),
];

// What is told of a file behind a head with these lines.
fn what_is_told(alloc: Global, head: Words, file: Words) -> Result<Told, Fail> {
    let mut bytes = joined(alloc, head, "\n")?;
    bytes.extend_from_slice(&bytes_of(alloc, file)?)?;
    let mut source = MemSource::new(bytes, 7, Vec::new(alloc));
    let said = said_of(alloc, &mut source);
    let_go(source);
    said
}

// What is told of a source.
fn said_of(alloc: Global, source: &mut MemSource) -> Result<Told, Fail> {
    let Ok(mut sink) = MemSink::new(alloc, 1_000_000, 1_000, Vec::new(alloc)) else {
        return Err(Fail::new("no memory"));
    };
    let notes = Notes(Cell::new(Told::Nothing));
    let _ = write_capture(alloc, 5000, source, &mut sink, &notes);
    let_go(sink);
    Ok(notes.0.get())
}

#[test]
fn a_refused_file_is_told(rt: HostRuntime) -> Result<(), Fail> {
    let alloc = rt.alloc();
    for (name, file, want) in FILES {
        assert!(rt; what_is_told(alloc, HEAD, file)? == *want, "{name}");
    }
    Ok(())
}

#[test]
fn a_refused_head_is_none_of_a_file(rt: HostRuntime) -> Result<(), Fail> {
    let alloc = rt.alloc();
    // a section: its type, 192 bytes, little-endian, version 1.0
    let found = what_is_told(
        alloc,
        &HEAD[..2],
        &["0a0d0d0a", "c0000000", "4d3c2b1a", "01000000"],
    )?;
    assert!(rt; found == Told::Nothing);
    Ok(())
}
