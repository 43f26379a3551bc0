//! Worked retransmissions, and what is restored of them (RFC 4588, 4).
use crate::fixtures::{Row, Wanted, expect_rows, is_twice};
use std::alloc::Global;
use std::process::Abort;
use std::test::Fail;
use test_fixtures::test_calls::{done, let_go};
use test_fixtures::test_words::{Words, bytes_of};
use wire_packets::rtx_payload::{
    Rtp, RtxFault, append_rtx, restore, restoring_gives_the_original, write_rtx,
};

/// Packets, and their retransmissions under payload type 99 and sequence number 500.
const ROWS: &[Row<Words>] = &[
    (
        "every part",
        &[
            "b2a1000a", // v=2, p=1, x=1, count=2, m=1, type 33, sequence number 10
            "00000000", // timestamp
            "11223344", // SSRC
            "00000001", // CSRC
            "00000002", // CSRC
            "bede0001", // extension: profile, one word
            "10ff0000", // its word
            "aabb0002", // payload of two bytes, padding of two
        ],
        &[
            "92e301f4", // v=2, p=0, x=1, count=2, m=1, type 99, sequence number 500
            "00000000", // timestamp
            "11223344", // SSRC
            "00000001", // CSRC
            "00000002", // CSRC
            "bede0001", // extension
            "10ff0000", // its word
            "000aaabb", // original sequence number 10, payload
        ],
    ),
    (
        "a header alone",
        &[
            "8021ffff", // v=2, p=0, x=0, count=0, m=0, type 33, sequence number 65,535
            "00000384", // timestamp 900
            "11223344", // SSRC
        ],
        &[
            "806301f4", // v=2, p=0, x=0, count=0, m=0, type 99, sequence number 500
            "00000384", // timestamp
            "11223344", // SSRC
            "ffff", // original sequence number 65,535, no payload
        ],
    ),
];

/// The packet of these bytes.
fn packet_of<'a>(bytes: &'a [u8]) -> Result<Rtp<'a>, Fail> {
    done(Rtp::read(bytes))
}

/// The packet is sent again as these bytes, alone and behind others.
fn goes_again(alloc: Global, packet: &[u8], again: &[u8]) -> Result<bool, Fail> {
    let original = packet_of(packet)?;
    let mut text = done(write_rtx(alloc, &original, 99, 500))?;
    let is_so = append_rtx(&mut text, &original, 99, 500).is_ok() && is_twice(&text, again);
    let_go(text);
    Ok(is_so)
}

/// The bytes are the packet without its padding.
fn is_bare(alloc: Global, packet: &Rtp<'_>, bytes: &[u8]) -> Result<bool, Fail> {
    let bare = done(packet.strip(alloc))?;
    let is_so = bytes == bare.as_slice();
    let_go(bare);
    Ok(is_so)
}

/// The bytes bring the packet's number, and the packet without its padding.
fn comes_back(alloc: Global, packet: &[u8], again: &[u8]) -> Result<bool, Fail> {
    let original = packet_of(packet)?;
    let again = packet_of(again)?;
    let (number, restored) = done(restore(alloc, &again, 33))?;
    let is_so = is_bare(alloc, &original, &restored);
    let_go(restored);
    Ok(is_so? && number == original.sequence())
}

/// The packet is sent again as these bytes, and they bring it back.
fn goes_and_comes(alloc: Global, packet: &[u8], again: &[u8]) -> Result<bool, Fail> {
    Ok(goes_again(alloc, packet, again)? && comes_back(alloc, packet, again)?)
}

/// The same of the bytes of these words.
impl Wanted for Words {
    fn is_met(&self, alloc: Global, packet: &[u8]) -> Result<bool, Fail> {
        let again = bytes_of(alloc, self)?;
        let is_so = goes_and_comes(alloc, packet, &again);
        let_go(again);
        is_so
    }
}

#[test]
fn packets_go_there_and_back(rt: HostRuntime) -> Result<(), Fail> {
    restoring_gives_the_original();
    expect_rows(&rt, rt.alloc(), ROWS)
}

/// Retransmissions, and why nothing is restored.
const PAYLOADS: &[Row<Option<RtxFault>>] = &[
    (
        "one byte",
        &["806301f4", "00000000", "00000001", "07"],
        Some(RtxFault::Short),
    ),
    (
        "two bytes",
        &["806301f4", "00000000", "00000001", "0708"],
        None,
    ),
    (
        "one byte, and padding of one",
        &["a06301f4", "00000000", "00000001", "0701"],
        Some(RtxFault::Short),
    ),
    (
        "two bytes, and padding of one",
        &["a06301f4", "00000000", "00000001", "070801"],
        None,
    ),
    (
        "one byte behind an extension",
        &["906301f4", "00000000", "00000001", "00000000", "07"],
        Some(RtxFault::Short),
    ),
];

/// Nothing is restored of a retransmission, for this reason.
impl Wanted for Option<RtxFault> {
    fn is_met(&self, alloc: Global, bytes: &[u8]) -> Result<bool, Fail> {
        let packet = packet_of(bytes)?;
        Ok(restore(alloc, &packet, 33).err() == *self)
    }
}

/// Each row's retransmission has its fault, or none.
pub fn expect_faults(rt: &impl Abort, alloc: Global) -> Result<(), Fail> {
    expect_rows(rt, alloc, PAYLOADS)
}
