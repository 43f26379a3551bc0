//! Heads and records of capture files.
use crate::fixtures::same;
use converters::capture_loop::pcap_trace::{
    CaptureFault, Endian, FileKind, Record, file_kind, read_head, read_record,
};
use std::test::Fail;
use test_fixtures::test_words::{Words, bytes_of};

/// A name, the bytes of a head, what it is, and what the file is.
type Head = (&'static str, Words, Result<Endian, CaptureFault>, FileKind);

const HEADS: &[Head] = &[
    (
        // As tcpdump writes it on the loopback device of an x86.
        "little",
        &[
            "d4c3b2a1", "02000400", "00000000", "00000000", "00000400", "01000000",
        ],
        Ok(Endian::Little),
        FileKind::Ethernet,
    ),
    (
        "big, and more",
        &[
            "a1b2c3d4", "00020004", "00000000", "00000000", "00040000", "00000001", "ff",
        ],
        Ok(Endian::Big),
        FileKind::Ethernet,
    ),
    (
        "a byte too few",
        &[
            "d4c3b2a1", "02000400", "00000000", "00000000", "00000400", "010000",
        ],
        Err(CaptureFault::Short),
        FileKind::Unknown,
    ),
    ("nothing", &[], Err(CaptureFault::Short), FileKind::Unknown),
    (
        "another magic and version",
        &[
            "d4c3b2a2", "02000300", "00000000", "00000000", "00000400", "01000000",
        ],
        Err(CaptureFault::Magic),
        FileKind::Unknown,
    ),
    (
        "version 2.3 of raw IP",
        &[
            "d4c3b2a1", "02000300", "00000000", "00000000", "00000400", "65000000",
        ],
        Err(CaptureFault::Version),
        FileKind::RawIp,
    ),
    (
        "version 3.4",
        &[
            "a1b2c3d4", "00030004", "00000000", "00000000", "00040000", "00000001",
        ],
        Err(CaptureFault::Version),
        FileKind::Ethernet,
    ),
    (
        "Linux cooked",
        &[
            "d4c3b2a1", "02000400", "00000000", "00000000", "00000400", "71000000",
        ],
        Err(CaptureFault::Link),
        FileKind::LinuxCooked,
    ),
    (
        "Linux cooked, second version",
        &[
            "a1b2c3d4", "00020004", "00000000", "00000000", "00040000", "00000114",
        ],
        Err(CaptureFault::Link),
        FileKind::LinuxCooked2,
    ),
    (
        "raw IP",
        &[
            "d4c3b2a1", "02000400", "00000000", "00000000", "00000400", "65000000",
        ],
        Err(CaptureFault::Link),
        FileKind::RawIp,
    ),
    (
        "another link type",
        &[
            "d4c3b2a1", "02000400", "00000000", "00000000", "00000400", "69000000",
        ],
        Err(CaptureFault::Link),
        FileKind::OtherLink(105),
    ),
    (
        "nanoseconds",
        &[
            "4d3cb2a1", "02000400", "00000000", "00000000", "00000400", "01000000",
        ],
        Err(CaptureFault::Magic),
        FileKind::Nanoseconds,
    ),
    (
        "pcapng",
        &[
            "0a0d0d0a", "1c000000", "4d3c2b1a", "01000000", "ffffffff", "ffffffff",
        ],
        Err(CaptureFault::Magic),
        FileKind::Pcapng,
    ),
];

#[test]
fn heads_are_read(rt: HostRuntime) -> Result<(), Fail> {
    for (name, words, want, kind) in HEADS {
        let bytes = bytes_of(rt.alloc(), words)?;
        same(&rt, &read_head(&bytes), want, name);
        same(&rt, &file_kind(&bytes), kind, name);
    }
    Ok(())
}

/// A name, the byte order, the bytes of a record's header, and what it is.
type Header = (&'static str, Endian, Words, Result<Record, CaptureFault>);

const HEADERS: &[Header] = &[
    (
        // As tcpdump wrote it: 1795847714.202017 s, 70 of 70 bytes.
        "little",
        Endian::Little,
        &["22760a6b", "21150300", "46000000", "46000000"],
        Ok(Record {
            ms: 1795847714202,
            len: 70,
        }),
    ),
    (
        "big",
        Endian::Big,
        &["00000001", "000061a8", "0000003c", "00000000", "ff"],
        Ok(Record { ms: 1025, len: 60 }),
    ),
    (
        "rounded down",
        Endian::Big,
        &["00000000", "000003e7", "00000000", "00000000"],
        Ok(Record { ms: 0, len: 0 }),
    ),
    (
        "more than a second of microseconds",
        Endian::Big,
        &["00000001", "001e8480", "00000000", "00000000"],
        Ok(Record { ms: 3000, len: 0 }),
    ),
    (
        "the latest moment",
        Endian::Big,
        &["ffffffff", "ffffffff", "00000000", "00000000"],
        Ok(Record {
            ms: 4294971589967,
            len: 0,
        }),
    ),
    (
        "the longest",
        Endian::Little,
        &["00000000", "00000000", "00000400", "00000000"],
        Ok(Record { ms: 0, len: 262144 }),
    ),
    (
        "a byte too long",
        Endian::Little,
        &["00000000", "00000000", "01000400", "00000000"],
        Err(CaptureFault::Long),
    ),
    (
        "a byte too few",
        Endian::Little,
        &["00000000", "00000000", "ffffffff", "000000"],
        Err(CaptureFault::Cut),
    ),
];

#[test]
fn records_are_read(rt: HostRuntime) -> Result<(), Fail> {
    for (name, e, words, want) in HEADERS {
        let bytes = bytes_of(rt.alloc(), words)?;
        same(&rt, &read_record(&bytes, *e), want, name);
    }
    Ok(())
}
