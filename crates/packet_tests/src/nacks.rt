//! Feedback messages and generic NACKs, byte for byte (RFC 4585, 6.1 and 6.2.1).
use crate::fixtures::{CLIENT, MEDIA, Row, Wanted, expect_rows, is_twice};
use std::alloc::Global;
use std::process::Abort;
use std::test::Fail;
use test_fixtures::test_calls::{done, let_go};
use wire_packets::rtcp_feedback::{
    Feedback, NackFault, NackIter, append_nack, feedback, nack_numbers, write_nack,
};
use wire_packets::rtcp_frame::Packet;

/// The numbers of feedback control information, or the fault.
type Numbers = Result<&'static [u16], NackFault>;

/// Words of a sequence number and the bits of those behind it, and what they name.
const WORDS: &[Row<Numbers>] = &[
    ("no bytes", &[], Err(NackFault::Empty)),
    ("three bytes", &["000c00"], Err(NackFault::Length)),
    ("no bit", &["000c0000"], Ok(&[12])),
    ("the first behind it", &["000c0001"], Ok(&[12, 13])),
    ("the second behind it", &["000c0002"], Ok(&[12, 14])),
    (
        "the first and the sixteenth",
        &["000a8001"],
        Ok(&[10, 11, 26]),
    ),
    ("the wrap", &["ffff0001"], Ok(&[65535, 0])),
    (
        "the sixteenth behind the wrap",
        &["fff88000"],
        Ok(&[65528, 8]),
    ),
    (
        "three words",
        &[
            "000c0002", // 12, and the second behind it
            "00070000", // 7
            "00070001", // 7, and the first behind it
        ],
        Ok(&[12, 14, 7, 7, 8]),
    ),
];

/// The numbers are these.
fn are_numbers(all: NackIter<'_>, want: &[u16]) -> bool {
    all.eq(want.iter().copied())
}

/// The feedback control information has these numbers, or this fault.
impl Wanted for Numbers {
    fn is_met(&self, _alloc: Global, fci: &[u8]) -> Result<bool, Fail> {
        Ok(match (nack_numbers(fci), self) {
            (Ok(all), Ok(want)) => are_numbers(all, want),
            (Err(fault), Err(want)) => fault == *want,
            _ => false,
        })
    }
}

/// Each row's words have its numbers, or its fault.
pub fn expect_numbers(rt: &impl Abort, alloc: Global) -> Result<(), Fail> {
    expect_rows(rt, alloc, WORDS)
}

/// NACKs, and their numbers.
const NACKS: &[Row<&[u16]>] = &[
    (
        "the first and the sixteenth behind the first number",
        &[
            "81cd0003", // v=2, p=0, format 1, RTPFB, length 3
            "0000c001", // SSRC of the packet's sender
            "11223344", // SSRC of the media source
            "ffff8001", // 65,535, the first and the sixteenth behind it
        ],
        &[65_535, 0, 15],
    ),
    (
        "the seventeenth",
        &[
            "81cd0004", // v=2, p=0, format 1, RTPFB, length 4
            "0000c001", // SSRC of the packet's sender
            "11223344", // SSRC of the media source
            "000c0000", // 12
            "001d0000", // 29, the seventeenth behind it
        ],
        &[12, 29],
    ),
    (
        "numbers that fall, and one twice",
        &[
            "81cd0005", // v=2, p=0, format 1, RTPFB, length 5
            "0000c001", // SSRC of the packet's sender
            "11223344", // SSRC of the media source
            "000c0002", // 12, and the second behind it
            "000d0000", // 13
            "000d0000", // 13
        ],
        &[12, 14, 13, 13],
    ),
];

/// The packet is the NACK of these numbers, alone and behind others.
impl Wanted for &'static [u16] {
    fn is_met(&self, alloc: Global, packet: &[u8]) -> Result<bool, Fail> {
        let numbers = *self;
        if numbers.is_empty() || numbers.len() > 8_000 {
            return Err(Fail::from("numbers"));
        }
        let mut text = done(write_nack(alloc, CLIENT, MEDIA, numbers))?;
        let is_so = append_nack(&mut text, CLIENT, MEDIA, numbers).is_ok()
            && is_twice(&text, packet);
        let_go(text);
        Ok(is_so)
    }
}

#[test]
fn nacks_are_written(rt: HostRuntime) -> Result<(), Fail> {
    expect_rows(&rt, rt.alloc(), NACKS)
}

/// The sources, the format and the information of a packet.
type Message<'a> = (u32, u32, u8, &'a [u8]);

/// The packet type and the body of packets of format 6, and what is read of them.
const MESSAGES: &[Row<Option<Message<'static>>>] = &[
    (
        "RTPFB",
        &[
            "cd", // 205
            "0000c001", // SSRC of the packet's sender
            "11223344", // SSRC of the media source
            "01000000", // RAMS-R
        ],
        Some((CLIENT, MEDIA, 6, &[1, 0, 0, 0])),
    ),
    (
        "RTPFB without information",
        &["cd", "0000c001", "11223344"],
        Some((CLIENT, MEDIA, 6, &[])),
    ),
    ("RTPFB of seven bytes", &["cd", "0000c001", "112233"], None),
    ("PSFB", &["ce", "0000c001", "11223344", "01000000"], None),
    ("APP", &["cc", "0000c001", "11223344", "01000000"], None),
];

fn parts<'a>(f: &Feedback<'a>) -> Message<'a> {
    (f.sender, f.media, f.fmt, f.fci)
}

/// What is read of a packet of format 6.
fn message(kind: u8, body: &[u8]) -> Option<Message<'_>> {
    let packet = Packet {
        kind,
        count: 6,
        body,
    };
    match feedback(&packet) {
        None => None,
        Some(f) => Some(parts(&f)),
    }
}

/// This is read of a packet of format 6: its type, then its body.
impl Wanted for Option<Message<'static>> {
    fn is_met(&self, _alloc: Global, bytes: &[u8]) -> Result<bool, Fail> {
        Ok(match bytes.split_first() {
            None => false,
            Some((kind, body)) => message(*kind, body) == *self,
        })
    }
}

/// Of each row's packet is read what it says.
pub fn expect_messages(rt: &impl Abort, alloc: Global) -> Result<(), Fail> {
    expect_rows(rt, alloc, MESSAGES)
}
