//! RAMS messages, byte for byte, and each fault at its edge (RFC 6285, 7).
use crate::fixtures::{CLIENT, MEDIA, Row, Wanted, expect_rows, fci_of, holds, is_twice};
use std::alloc::Global;
use std::test::Fail;
use test_fixtures::test_calls::{done, let_go};
use wire_packets::rams_tlv::{
    Info, Request, Stop, TlvFault, append_info, append_request, append_stop, names, read_info,
    read_request, read_stop, write_info, write_request, write_stop,
};

const SENDER: u32 = 0xaabb_ccdd;

/// A request that wishes for nothing.
const ANY: Request<'static> = Request {
    ssrcs: None,
    min_ms: None,
    max_ms: None,
    bps: None,
    preamble: false,
};

/// Feedback control information of RAMS-R, reserved bits set, and what is read of it.
const REQUESTS: &[Row<Read>] = &[
    ("none", &["01ffffff"], Ok(ANY)),
    (
        "type 3, then type 2, then type 3 again",
        &[
            "01ffffff", // RAMS-R
            "03000004", // greatest buffer fill, length 4
            "00000100", // 256 ms
            "02000004", // least buffer fill, length 4
            "00000007", // 7 ms
            "03000004", // greatest buffer fill, length 4
            "00000008", // 8 ms
        ],
        Ok(Request {
            min_ms: Some(7),
            max_ms: Some(256),
            ..ANY
        }),
    ),
    (
        "an SSRC, a rate and a preamble, reserved bits set",
        &[
            "01ffffff", // RAMS-R
            "01ff0004", // media senders, length 4
            "99999999", // SSRC
            "04070008", // greatest bit rate, length 8
            "00000000", // 1,280,000
            "00138800", // bits per second
            "05000000", // preamble only, length 0
        ],
        Ok(Request {
            ssrcs: Some(&[0x99; 4]),
            bps: Some(1_280_000),
            preamble: true,
            ..ANY
        }),
    ),
    (
        "an empty list of SSRCs, then one of one",
        &[
            "01ffffff", // RAMS-R
            "01000000", // media senders, length 0
            "01000004", // media senders, length 4
            "99999999", // SSRC
        ],
        Ok(ANY),
    ),
    (
        "types of other messages, of any length",
        &[
            "01ffffff", // RAMS-R
            "3d000002", // first multicast packet, length 2
            "09090506", // value, filled up by any bytes
            "20000000", // first sequence number, length 0
        ],
        Ok(ANY),
    ),
    (
        "SSRCs in 5 bytes",
        &[
            "01ffffff", // RAMS-R
            "01000005", // media senders, length 5
            "99999999", "99000000",
        ],
        Err(TlvFault::Length(1)),
    ),
    (
        "a least fill in 3 bytes",
        &["01ffffff", "02000003", "00000000"],
        Err(TlvFault::Length(2)),
    ),
    (
        "a rate in 4 bytes",
        &["01ffffff", "04000004", "00138800"],
        Err(TlvFault::Length(4)),
    ),
    (
        "a preamble in 1 byte",
        &["01ffffff", "05000001", "00000000"],
        Err(TlvFault::Length(5)),
    ),
    ("three bytes", &["01ffffff", "090000"], Err(TlvFault::Short)),
    ("no value", &["01ffffff", "09000001"], Err(TlvFault::Short)),
    (
        "a value that isn't filled up",
        &["01ffffff", "09000001", "050000"],
        Err(TlvFault::Short),
    ),
    (
        "a wrong length, then three bytes",
        &[
            "01ffffff", // RAMS-R
            "05000004", // preamble only, length 4
            "00000000", // value
            "090000",
        ],
        Err(TlvFault::Length(5)),
    ),
    (
        "a wrong length and a value that isn't filled up",
        &["01ffffff", "05000004", "000000"],
        Err(TlvFault::Short),
    ),
    ("nothing", &[], Err(TlvFault::Form)),
    ("three bytes of the head", &["010000"], Err(TlvFault::Form)),
    ("a RAMS-I", &["02000000"], Err(TlvFault::Form)),
];

/// What is read of information.
type Read = Result<Request<'static>, TlvFault>;

impl Wanted for Read {
    fn is_met(&self, _alloc: Global, fci: &[u8]) -> Result<bool, Fail> {
        Ok(read_request(fci) == *self)
    }
}

#[test]
fn requests_are_read(rt: HostRuntime) -> Result<(), Fail> {
    expect_rows(&rt, rt.alloc(), REQUESTS)
}

/// Requests, and whether they are of the source.
const LISTS: &[(Request<'static>, bool)] = &[
    (ANY, true),
    (
        Request {
            ssrcs: Some(&[]),
            ..ANY
        },
        true,
    ),
    (
        Request {
            ssrcs: Some(&[0x99; 4]),
            ..ANY
        },
        false,
    ),
    (
        Request {
            ssrcs: Some(&[0x99, 0x99, 0x99, 0x99, 0x11, 0x22, 0x33, 0x44]),
            ..ANY
        },
        true,
    ),
    (
        Request {
            ssrcs: Some(&[0x99, 0x99, 0x11, 0x22, 0x33, 0x44, 0x99, 0x99]),
            ..ANY
        },
        false,
    ),
];

#[test]
fn requests_name_sources(rt: HostRuntime) {
    for (place, (request, want)) in LISTS.iter().enumerate() {
        assert!(rt; names(request, MEDIA) == *want, "list {place}");
    }
}

/// Requests of `CLIENT`, and what they wish for.
const WRITTEN: &[Row<Request<'static>>] = &[
    (
        "no wish",
        &[
            "86cd0003", // v=2, p=0, format 6, RTPFB, length 3
            "0000c001", // SSRC of the packet's sender
            "11223344", // SSRC of the media source
            "01000000", // RAMS-R
        ],
        ANY,
    ),
    (
        "every wish",
        &[
            "86cd000e", // v=2, p=0, format 6, RTPFB, length 14
            "0000c001", // SSRC of the packet's sender
            "11223344", // SSRC of the media source
            "01000000", // RAMS-R
            "01000008", // media senders, length 8
            "11223344", // SSRC
            "99999999", // SSRC
            "02000004", // least buffer fill, length 4
            "00000190", // 400 ms
            "03000004", // greatest buffer fill, length 4
            "000007d0", // 2,000 ms
            "04000008", // greatest bit rate, length 8
            "00000000", // 1,280,000
            "00138800", // bits per second
            "05000000", // preamble only, length 0
        ],
        Request {
            ssrcs: Some(&[0x11, 0x22, 0x33, 0x44, 0x99, 0x99, 0x99, 0x99]),
            min_ms: Some(400),
            max_ms: Some(2_000),
            bps: Some(1_280_000),
            preamble: true,
        },
    ),
];

/// The packet is this request, alone and behind others, and is read as it.
impl Wanted for Request<'static> {
    fn is_met(&self, alloc: Global, packet: &[u8]) -> Result<bool, Fail> {
        if let Some(list) = self.ssrcs {
            if list.len() > 256 || list.len() % 4 != 0 {
                return Err(Fail::from("a list that isn't written"));
            }
        }
        let mut text = done(write_request(alloc, CLIENT, MEDIA, self))?;
        let is_so = append_request(&mut text, CLIENT, MEDIA, self).is_ok()
            && is_twice(&text, packet);
        let_go(text);
        Ok(is_so && read_request(fci_of(packet)) == Ok(*self))
    }
}

#[test]
fn requests_are_written(rt: HostRuntime) -> Result<(), Fail> {
    expect_rows(&rt, rt.alloc(), WRITTEN)
}

const NO_INFO: Info = Info {
    msn: 0,
    code: 200,
    first: None,
    join_ms: None,
    length_ms: None,
    bps: None,
};

/// Packets of information of `SENDER`, and what they say.
const INFOS: &[Row<Info>] = &[
    (
        "a code alone",
        &[
            "86cd0003", // v=2, p=0, format 6, RTPFB, length 3
            "aabbccdd", // SSRC of the packet's sender
            "11223344", // SSRC of the media source
            "020100c9", // RAMS-I, message 1, response 201
        ],
        Info {
            msn: 1,
            code: 201,
            ..NO_INFO
        },
    ),
    (
        "every TLV",
        &[
            "86cd000c", // v=2, p=0, format 6, RTPFB, length 12
            "aabbccdd", // SSRC of the packet's sender
            "11223344", // SSRC of the media source
            "020000c8", // RAMS-I, message 0, response 200
            "20000002", // first sequence number, length 2
            "01f40000", // 500, filled up
            "21000004", // join time, length 4
            "0000000a", // 10 ms
            "22000004", // burst duration, length 4
            "000003e8", // 1,000 ms
            "23000008", // greatest bit rate, length 8
            "00000000", // 3,200,000
            "0030d400", // bits per second
        ],
        Info {
            first: Some(500),
            join_ms: Some(10),
            length_ms: Some(1_000),
            bps: Some(3_200_000),
            ..NO_INFO
        },
    ),
];

/// The packet is this information, alone and behind others, and is read as it.
impl Wanted for Info {
    fn is_met(&self, alloc: Global, packet: &[u8]) -> Result<bool, Fail> {
        let mut text = done(write_info(alloc, SENDER, MEDIA, self))?;
        let is_so = append_info(&mut text, SENDER, MEDIA, self).is_ok() && is_twice(&text, packet);
        let_go(text);
        Ok(is_so && read_info(fci_of(packet)) == Ok(*self))
    }
}

/// Information whose join time has 8 bytes.
const LONG_JOIN: [u8; 16] = [2, 0, 0, 200, 0x21, 0, 0, 8, 0, 0, 0, 0, 0, 0, 0, 10];

#[test]
fn information_goes_there_and_back(rt: HostRuntime) -> Result<(), Fail> {
    holds(
        &rt,
        read_info(&LONG_JOIN) == Err(TlvFault::Length(0x21)),
        "a join time of 8 bytes",
    );
    expect_rows(&rt, rt.alloc(), INFOS)
}

/// Terminations of `CLIENT`, and what they say.
const STOPS: &[Row<Stop>] = &[
    (
        "no packet",
        &[
            "86cd0003", // v=2, p=0, format 6, RTPFB, length 3
            "0000c001", // SSRC of the packet's sender
            "11223344", // SSRC of the media source
            "03000000", // RAMS-T
        ],
        Stop {
            first_multicast: None,
        },
    ),
    (
        "a packet",
        &[
            "86cd0005", // v=2, p=0, format 6, RTPFB, length 5
            "0000c001", // SSRC of the packet's sender
            "11223344", // SSRC of the media source
            "03000000", // RAMS-T
            "3d000004", // first multicast packet, length 4
            "00010010", // 65,552
        ],
        Stop {
            first_multicast: Some(65_552),
        },
    ),
];

/// The packet is this termination, alone and behind others, and is read as it.
impl Wanted for Stop {
    fn is_met(&self, alloc: Global, packet: &[u8]) -> Result<bool, Fail> {
        let mut text = done(write_stop(alloc, CLIENT, MEDIA, self))?;
        let is_so = append_stop(&mut text, CLIENT, MEDIA, self).is_ok() && is_twice(&text, packet);
        let_go(text);
        Ok(is_so && read_stop(fci_of(packet)) == Ok(*self))
    }
}

#[test]
fn terminations_go_there_and_back(rt: HostRuntime) -> Result<(), Fail> {
    holds(
        &rt,
        read_stop(&[4, 0, 0, 0]) == Err(TlvFault::Form),
        "format 4",
    );
    expect_rows(&rt, rt.alloc(), STOPS)
}
