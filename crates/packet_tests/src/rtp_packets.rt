//! A packet with every part, and each fault at its edge (RFC 3550, 5.1).
use crate::fixtures::{Row, Wanted, expect_rows, holds, is_twice};
use std::alloc::Global;
use std::process::Abort;
use std::test::Fail;
use test_fixtures::test_calls::{done, let_go};
use test_fixtures::test_words::{Words, bytes_of};
use wire_packets::rtp_record::{
    Rtp, RtpFault, RtpFields, append_rtp, append_rtp_behind, write_rtp,
};

const PADDED: Words = &[
    "b2a1000a", // v=2, p=1, x=1, count=2, m=1, type 33, sequence number 10
    "00000384", // timestamp 900
    "11223344", // SSRC
    "00000001", // CSRC
    "00000002", // CSRC
    "bede0001", // extension: profile, one word
    "10ff0000", // its word
    "aabb0002", // payload of two bytes, padding of two
];

const STRIPPED: Words = &[
    "92a1000a", // p=0
    "00000384", // timestamp
    "11223344", // SSRC
    "00000001", // CSRC
    "00000002", // CSRC
    "bede0001", // extension
    "10ff0000", // its word
    "aabb", // payload
];

/// Marker, payload type, sequence number, timestamp and SSRC of a packet.
type Header = (bool, u8, u16, u32, u32);

fn header(packet: &Rtp<'_>) -> Header {
    (
        packet.marker(),
        packet.payload_type(),
        packet.sequence(),
        packet.timestamp(),
        packet.ssrc(),
    )
}

/// The contributing sources, the extension and the payload of `PADDED`.
const SOURCES: &[u8] = &[0, 0, 0, 1, 0, 0, 0, 2];

const EXTENSION: &[u8] = &[0xbe, 0xde, 0x00, 0x01, 0x10, 0xff, 0x00, 0x00];

const PAYLOAD: &[u8] = &[0xaa, 0xbb];

/// What is behind the header is that of `PADDED`.
fn has_rest(packet: &Rtp<'_>) -> bool {
    packet.csrc() == SOURCES
        && packet.extension() == EXTENSION
        && packet.payload() == PAYLOAD
        && packet.stripped_len() == 30
}

/// What the calls of a packet with every part say.
struct Parts;

impl Wanted for Parts {
    fn is_met(&self, _alloc: Global, bytes: &[u8]) -> Result<bool, Fail> {
        let packet = done(Rtp::read(bytes))?;
        Ok(header(&packet) == (true, 33, 10, 900, 287_454_020) && has_rest(&packet))
    }
}

/// The calls of a packet with every part say what its bytes are.
pub fn expect_parts(rt: &impl Abort, alloc: Global) -> Result<(), Fail> {
    expect_rows(rt, alloc, &[("every part", PADDED, Parts)])
}

/// The packet without its padding is these bytes, twice.
fn is_stripped(alloc: Global, packet: &Rtp<'_>, want: &[u8]) -> Result<bool, Fail> {
    let mut text = done(packet.strip(alloc))?;
    let is_so = packet.append_stripped(&mut text).is_ok() && is_twice(&text, want);
    let_go(text);
    Ok(is_so)
}

/// The packet's fields are written as these bytes.
fn are_fields(alloc: Global, packet: &Rtp<'_>, want: &[u8]) -> Result<bool, Fail> {
    let text = done(write_rtp(alloc, &packet.fields()))?;
    let is_so = text.as_slice() == want;
    let_go(text);
    Ok(is_so)
}

/// The packet without its padding is these bytes.
fn expect_stripped(rt: &impl Abort, alloc: Global, padded: &[u8], want: &[u8]) -> Result<(), Fail> {
    let packet = done(Rtp::read(padded))?;
    holds(rt, is_stripped(alloc, &packet, want)?, "strip");
    holds(rt, are_fields(alloc, &packet, want)?, "fields");
    Ok(())
}

/// `PADDED` without its padding is these bytes.
fn expect_without_padding(rt: &impl Abort, alloc: Global, want: &[u8]) -> Result<(), Fail> {
    let padded = bytes_of(alloc, PADDED)?;
    let expected = expect_stripped(rt, alloc, &padded, want);
    let_go(padded);
    expected
}

#[test]
fn padding_is_left_out(rt: HostRuntime) -> Result<(), Fail> {
    let want = bytes_of(rt.alloc(), STRIPPED)?;
    let expected = expect_without_padding(&rt, rt.alloc(), &want);
    let_go(want);
    expected
}

const PLAIN: RtpFields<'static> = RtpFields {
    marker: false,
    payload_type: 127,
    sequence: 0xfffe,
    timestamp: 0x0102_0304,
    ssrc: 5,
    csrc: &[],
    extension: &[],
    payload: &[7],
};

/// `PLAIN` without its payload.
const BARE: RtpFields<'static> = RtpFields {
    payload: &[],
    ..PLAIN
};

const SPELLED: Words = &[
    "807ffffe", // v=2, p=0, x=0, count=0, m=0, type 127, sequence number 65,534
    "01020304", // timestamp
    "00000005", // SSRC
    "07", // payload
];

/// Appends two packets, of which the second has the first's payload.
fn add_two(text: &mut Vec<u8>) -> bool {
    append_rtp(text, &PLAIN).is_ok() && append_rtp_behind(text, &BARE, PLAIN.payload).is_ok()
}

/// Behind the front these bytes stand twice.
fn is_behind(text: &[u8], want: &[u8]) -> bool {
    match text.strip_prefix(b"front") {
        None => false,
        Some(written) => is_twice(written, want),
    }
}

/// The two packets behind a front.
struct Behind;

impl Wanted for Behind {
    fn is_met(&self, alloc: Global, bytes: &[u8]) -> Result<bool, Fail> {
        let mut text = b"front".to_vec(alloc)?;
        let is_so = add_two(&mut text) && is_behind(&text, bytes);
        let_go(text);
        Ok(is_so)
    }
}

#[test]
fn packets_are_written_behind_what_is_there(rt: HostRuntime) -> Result<(), Fail> {
    expect_rows(&rt, rt.alloc(), &[("behind", SPELLED, Behind)])
}

/// Packets whose header is of zeros but for its first byte, and the fault.
const PACKETS: &[Row<Option<RtpFault>>] = &[
    ("no bytes", &[], Some(RtpFault::Short)),
    (
        "eleven bytes",
        &["00000000", "00000000", "000000"],
        Some(RtpFault::Short),
    ),
    (
        "a header alone",
        &["80000000", "00000000", "00000000"],
        None,
    ),
    (
        "version 1",
        &["40000000", "00000000", "00000000"],
        Some(RtpFault::Version),
    ),
    (
        "version 3",
        &["c0000000", "00000000", "00000000"],
        Some(RtpFault::Version),
    ),
    (
        "one contributing source in three bytes",
        &["81000000", "00000000", "00000000", "000000"],
        Some(RtpFault::Csrc),
    ),
    (
        "one contributing source",
        &["81000000", "00000000", "00000000", "00000000"],
        None,
    ),
    (
        "an extension in three bytes",
        &["90000000", "00000000", "00000000", "000000"],
        Some(RtpFault::Extension),
    ),
    (
        "an extension of no words",
        &["90000000", "00000000", "00000000", "00000000"],
        None,
    ),
    (
        "an extension of a word, in three bytes",
        &["90000000", "00000000", "00000000", "00000001", "000000"],
        Some(RtpFault::Extension),
    ),
    (
        "an extension of a word",
        &["90000000", "00000000", "00000000", "00000001", "00000000"],
        None,
    ),
    (
        "padding of no bytes",
        &["a0000000", "00000000", "00000000", "00"],
        Some(RtpFault::Padding),
    ),
    (
        "padding of one byte",
        &["a0000000", "00000000", "00000000", "01"],
        None,
    ),
    (
        "padding of two bytes, in one",
        &["a0000000", "00000000", "00000000", "02"],
        Some(RtpFault::Padding),
    ),
    (
        "padding of two bytes",
        &["a0000000", "00000000", "00000000", "0902"],
        None,
    ),
    (
        "padding into the extension",
        &["b0000000", "00000000", "00000000", "00000000", "0903"],
        Some(RtpFault::Padding),
    ),
    // the first fault that is true
    (
        "version 1, and no contributing sources",
        &["4f000000", "00000000", "00000000"],
        Some(RtpFault::Version),
    ),
    (
        "neither contributing sources nor an extension",
        &["bf000000", "00000000", "00000000"],
        Some(RtpFault::Csrc),
    ),
    (
        "an extension and padding in three bytes",
        &["b0000000", "00000000", "00000000", "000000"],
        Some(RtpFault::Extension),
    ),
];

/// Bytes are no packet, for this reason.
impl Wanted for Option<RtpFault> {
    fn is_met(&self, _alloc: Global, bytes: &[u8]) -> Result<bool, Fail> {
        Ok(Rtp::read(bytes).err() == *self)
    }
}

/// Why bytes are no packet.
pub fn expect_faults(rt: &impl Abort, alloc: Global) -> Result<(), Fail> {
    expect_rows(rt, alloc, PACKETS)
}
