//! Datagrams of RTCP packets, byte for byte, and each fault at its edge (RFC 3550, 6).
use crate::fixtures::{CLIENT, Row, Wanted, expect_rows};
use rams_model::FrameFault;
use std::alloc::Global;
use std::process::Abort;
use std::test::Fail;
use test_fixtures::test_calls::{done, let_go};
use test_fixtures::test_words::Words;
use wire_packets::rtcp_frame::{
    Packet, Packets, append_bye, append_rr, append_sdes, bye_names, packets, write_bye, write_rr,
    write_sdes,
};

/// What a receiver writes in front of its feedback, and its goodbye.
const COMPOUND: Words = &[
    "80c90001", // v=2, p=0, count=0, RR, length 1
    "0000c001", // SSRC
    "81ca0003", // v=2, p=0, count=1, SDES, length 3
    "0000c001", // SSRC
    "01037374", // CNAME, 3 bytes
    "62000000", // end of the items
    "81cb0001", // v=2, p=0, count=1, BYE, length 1
    "0000c001", // SSRC
];

/// Type, count and length of the body of each packet, or the fault.
type Framed = Result<&'static [(u8, u8, usize)], FrameFault>;

/// Datagrams, and their packets.
const DATAGRAMS: &[Row<Framed>] = &[
    ("nothing", &[], Err(FrameFault::Empty)),
    ("three bytes", &["80c900"], Err(FrameFault::Short)),
    (
        "a packet, then two bytes",
        &[
            "80c90000", // v=2, p=0, count=0, RR, length 0
            "80c9",
        ],
        Err(FrameFault::Short),
    ),
    ("version 1", &["40c90000"], Err(FrameFault::Version)),
    (
        "version before length",
        &["c0c90001"],
        Err(FrameFault::Version),
    ),
    ("a word is missing", &["80c90001"], Err(FrameFault::Length)),
    ("a header alone", &["80c90000"], Ok(&[(201, 0, 0)])),
    (
        "two packets",
        &[
            "9fca0001", // v=2, p=0, count=31, SDES, length 1
            "0000c001", // its body
            "80cc0000", // v=2, p=0, subtype=0, APP, length 0
        ],
        Ok(&[(202, 31, 4), (204, 0, 0)]),
    ),
    (
        "padding",
        &[
            "a0c90002", // v=2, p=1, count=0, RR, length 2
            "0000c001", // SSRC
            "00000004", // padding of four bytes
        ],
        Ok(&[(201, 0, 4)]),
    ),
    (
        "padding of no bytes",
        &[
            "a0c90001", // v=2, p=1, count=0, RR, length 1
            "00000000",
        ],
        Err(FrameFault::Padding),
    ),
    (
        "padding of six bytes",
        &[
            "a0c90002", // v=2, p=1, count=0, RR, length 2
            "00000000", // SSRC
            "00000006",
        ],
        Err(FrameFault::Padding),
    ),
    (
        "padding beyond the body",
        &[
            "a0c90001", // v=2, p=1, count=0, RR, length 1
            "00000008",
        ],
        Err(FrameFault::Padding),
    ),
    (
        "padding in a header alone",
        &["a0c90000"],
        Err(FrameFault::Padding),
    ),
    (
        "feedback of its two sources",
        &[
            "80cd0002", // v=2, p=0, format 0, RTPFB, length 2
            "0000c001", // SSRC of the packet's sender
            "11223344", // SSRC of the media source
        ],
        Ok(&[(205, 0, 8)]),
    ),
    (
        "feedback of one source",
        &[
            "80cd0001", // v=2, p=0, format 0, RTPFB, length 1
            "0000c001", // SSRC of the packet's sender
        ],
        Err(FrameFault::Body),
    ),
    (
        "feedback of one source and padding",
        &[
            "a0ce0002", // v=2, p=1, format 0, PSFB, length 2
            "0000c001", // SSRC of the packet's sender
            "00000004", // padding of four bytes
        ],
        Err(FrameFault::Body),
    ),
    ("a BYE of none", &["80cb0000"], Ok(&[(203, 0, 0)])),
    (
        "a BYE of two",
        &[
            "82cb0002", // v=2, p=0, count=2, BYE, length 2
            "00000001", // SSRC
            "00000002", // SSRC
        ],
        Ok(&[(203, 2, 8)]),
    ),
    (
        "a BYE of two in one word",
        &[
            "82cb0001", // v=2, p=0, count=2, BYE, length 1
            "00000001", // SSRC
        ],
        Err(FrameFault::Body),
    ),
    (
        "a receiver's packets",
        COMPOUND,
        Ok(&[(201, 0, 4), (202, 1, 12), (203, 1, 4)]),
    ),
    (
        "a receiver's packets without their last byte",
        &[
            "80c90001", // v=2, p=0, count=0, RR, length 1
            "0000c001", // SSRC
            "81ca0003", // v=2, p=0, count=1, SDES, length 3
            "0000c001", // SSRC
            "01037374", // CNAME, 3 bytes
            "62000000", // end of the items
            "81cb0001", // v=2, p=0, count=1, BYE, length 1
            "0000c0", // three bytes of the SSRC
        ],
        Err(FrameFault::Length),
    ),
];

/// Type, count and length of the body of a packet.
fn shape(packet: &Packet<'_>) -> (u8, u8, usize) {
    (packet.kind, packet.count, packet.body.len())
}

/// The packets are of these shapes.
fn are_framed(all: Packets<'_>, want: &[(u8, u8, usize)]) -> bool {
    all.map(|packet| shape(&packet)).eq(want.iter().copied())
}

/// The datagram has these packets, or this fault.
impl Wanted for Framed {
    fn is_met(&self, _alloc: Global, datagram: &[u8]) -> Result<bool, Fail> {
        Ok(match (packets(datagram), self) {
            (Ok(all), Ok(want)) => are_framed(all, want),
            (Err(fault), Err(want)) => fault == *want,
            _ => false,
        })
    }
}

/// Each row's datagram has its packets, or its fault.
pub fn expect_framed(rt: &impl Abort, alloc: Global) -> Result<(), Fail> {
    expect_rows(rt, alloc, DATAGRAMS)
}

/// A receiver's packets, the first written alone, the others behind it.
struct Behind;

impl Wanted for Behind {
    fn is_met(&self, alloc: Global, bytes: &[u8]) -> Result<bool, Fail> {
        let mut text = done(write_rr(alloc, CLIENT))?;
        let is_so = append_sdes(&mut text, CLIENT).is_ok()
            && append_bye(&mut text, CLIENT).is_ok()
            && text.as_slice() == bytes;
        let_go(text);
        Ok(is_so)
    }
}

/// Appends a packet that was written alone.
fn add<E: Drop>(text: &mut Vec<u8>, packet: Result<Vec<u8>, E>) -> bool {
    let Ok(packet) = packet else {
        return false;
    };
    let is_added = text.extend_from_slice(&packet).is_ok();
    let_go(packet);
    is_added
}

/// Appends a receiver's packets, the first itself, the others as they are written alone.
fn add_packets(alloc: Global, text: &mut Vec<u8>) -> bool {
    append_rr(text, CLIENT).is_ok()
        && add(text, write_sdes(alloc, CLIENT))
        && add(text, write_bye(alloc, CLIENT))
}

/// The same, the other way round.
struct Alone;

impl Wanted for Alone {
    fn is_met(&self, alloc: Global, bytes: &[u8]) -> Result<bool, Fail> {
        let mut text = Vec::new(alloc);
        let is_so = add_packets(alloc, &mut text) && text.as_slice() == bytes;
        let_go(text);
        Ok(is_so)
    }
}

#[test]
fn receivers_packets_are_written(rt: HostRuntime) -> Result<(), Fail> {
    expect_rows(
        &rt,
        rt.alloc(),
        &[("write, append, append", COMPOUND, Behind)],
    )?;
    expect_rows(
        &rt,
        rt.alloc(),
        &[("append, write, write", COMPOUND, Alone)],
    )
}

/// Packets whose second and third word are 0xc001 and 0xc002, and whether they are BYEs of each.
const BYES: &[Row<(bool, bool)>] = &[
    (
        "a BYE of one, and a reason",
        &[
            "81cb0002", // v=2, p=0, count=1, BYE, length 2
            "0000c001", // SSRC
            "0000c002", // a reason
        ],
        (true, false),
    ),
    (
        "a BYE of two",
        &[
            "82cb0002", // v=2, p=0, count=2, BYE, length 2
            "0000c001", // SSRC
            "0000c002", // SSRC
        ],
        (true, true),
    ),
    (
        "a BYE of none",
        &[
            "80cb0002", // v=2, p=0, count=0, BYE, length 2
            "0000c001", // a reason
            "0000c002",
        ],
        (false, false),
    ),
    (
        "no BYE",
        &[
            "82cc0002", // v=2, p=0, subtype=2, APP, length 2
            "0000c001", // SSRC
            "0000c002", // its name
        ],
        (false, false),
    ),
];

/// Whether the packet says goodbye for 0xc001, and whether for 0xc002.
fn named(packet: &Packet<'_>) -> (bool, bool) {
    (bye_names(packet, 0xc001), bye_names(packet, 0xc002))
}

/// The first packet says goodbye so.
impl Wanted for (bool, bool) {
    fn is_met(&self, _alloc: Global, datagram: &[u8]) -> Result<bool, Fail> {
        let mut all = done(packets(datagram))?;
        Ok(match all.next() {
            None => false,
            Some(packet) => named(&packet) == *self,
        })
    }
}

/// Each row's packet says goodbye as it says.
pub fn expect_byes(rt: &impl Abort, alloc: Global) -> Result<(), Fail> {
    expect_rows(rt, alloc, BYES)
}
