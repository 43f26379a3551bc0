//! Worked datagrams, byte for byte.
use crate::fixtures::{holds, same};
use book_text::order_datagrams::{Order, append_order, render_order, renders};
use bytes::Bytes;
use channel_config::Config;
use rams_model::Info;
use std::alloc::Global;
use std::process::Abort;
use std::test::Fail;
use test_fixtures::test_calls::done;
use test_fixtures::test_channel::{CHANNEL, SOURCE, bytes_of};

/// The server's SSRC.
const SERVER: u32 = 0xaabb_ccdd;

/// A packet without its padding, in words with zeros behind them, and its retransmission (RFC 4588, 4).
#[derive(Clone, Copy)]
struct Again {
    name: &'static str,
    packet: (&'static [u32], usize),
    seq: u16,
    sent: (&'static [u32], usize),
}

const AGAIN: &[Again] = &[
    Again {
        name: "the marker is kept",
        packet: (
            &[
                0x80a1_000b, // v=2, p=0, x=0, cc=0, marker, payload type 33, number 11
                900, // timestamp
                SOURCE, // SSRC
            ],
            1458,
        ),
        seq: 500,
        sent: (
            &[
                0x80e3_01f4, // v=2, p=0, x=0, cc=0, marker, payload type 99, number 500
                900, // timestamp
                SOURCE, // SSRC
                0x000b_0000, // original number 11, payload
            ],
            1456,
        ),
    },
    Again {
        name: "no marker, and both numbers wrap",
        packet: (
            &[
                0x8021_0000, // v=2, p=0, x=0, cc=0, payload type 33, number 0
                1800, // timestamp
                SOURCE, // SSRC
            ],
            4,
        ),
        seq: 0,
        sent: (
            &[
                0x8063_0000, // v=2, p=0, x=0, cc=0, payload type 99, number 0
                1800, // timestamp
                SOURCE, // SSRC
                0, // original number 0, payload
            ],
            2,
        ),
    },
    Again {
        name: "contributing sources and a header extension",
        packet: (
            &[
                0x92a1_fffe, // v=2, p=0, x=1, cc=2, marker, payload type 33, number 65534
                0, // timestamp
                SOURCE, // SSRC
                1, // CSRC
                2, // CSRC
                0xbede_0001, // profile, one word
                0x10ff_0000, // extension
            ],
            2,
        ),
        seq: 500,
        sent: (
            &[
                0x92e3_01f4, // v=2, p=0, x=1, cc=2, marker, payload type 99, number 500
                0, // timestamp
                SOURCE, // SSRC
                1, // CSRC
                2, // CSRC
                0xbede_0001, // profile, one word
                0x10ff_0000, // extension
                0xfffe_0000, // original number 65534, payload
            ],
            0,
        ),
    },
    Again {
        name: "no payload",
        packet: (
            &[
                0x80a1_0000, // v=2, p=0, x=0, cc=0, marker, payload type 33, number 0
                0, // timestamp
                SOURCE, // SSRC
            ],
            0,
        ),
        seq: 500,
        sent: (
            &[
                0x80e3_01f4, // v=2, p=0, x=0, cc=0, marker, payload type 99, number 500
                0, // timestamp
                SOURCE, // SSRC
            ],
            2, // original number 0
        ),
    },
];

/// A code alone.
const STOPPED: Info = Info {
    msn: 1,
    code: 201,
    first: None,
    join_ms: None,
    length_ms: None,
    bps: None,
};

/// What a client is told, and the RAMS-I that says so (RFC 6285, 7.3).
type Told = (&'static str, Info, &'static [u32]);

const TOLD: &[Told] = &[
    (
        "an accept at 1,500 bytes a tick of 10 ms",
        Info {
            msn: 0,
            code: 200,
            first: Some(500),
            join_ms: Some(30_000),
            length_ms: Some(1000),
            bps: Some(1_200_000),
        },
        &[
            0x86cd_000c, // v=2, p=0, FMT=6 (RAMS), RTPFB, length 12
            SERVER, // sender
            SOURCE, // media source
            0x0200_00c8, // SFMT=2 (RAMS-I), message 0, response 200
            0x2000_0002, // TLV 32 (first number), length 2
            0x01f4_0000, // 500, padding
            0x2100_0004, // TLV 33 (earliest join), length 4
            30_000, // ms
            0x2200_0004, // TLV 34 (burst duration), length 4
            1000, // ms
            0x2300_0008, // TLV 35 (max transmit bitrate), length 8
            0, // its upper half
            1_200_000, // bits per second
        ],
    ),
    (
        "stopped",
        STOPPED,
        &[
            0x86cd_0003, // v=2, p=0, FMT=6 (RAMS), RTPFB, length 3
            SERVER, // sender
            SOURCE, // media source
            0x0201_00c9, // SFMT=2 (RAMS-I), message 1, response 201
        ],
    ),
    (
        "refused",
        Info {
            msn: 0,
            code: 507,
            ..STOPPED
        },
        &[
            0x86cd_0003, // v=2, p=0, FMT=6 (RAMS), RTPFB, length 3
            SERVER, // sender
            SOURCE, // media source
            0x0200_01fb, // SFMT=2 (RAMS-I), message 0, response 507
        ],
    ),
];

/// Words that aren't an RTP packet.
type NoPacket = (&'static str, &'static [u32]);

const NO_PACKET: &[NoPacket] = &[
    ("8 bytes", &[0x80a1_000a, 0]),
    ("version 1", &[0x40a1_000a, 0, SOURCE]),
    (
        "a contributing source is missing",
        &[0x81a1_000a, 0, SOURCE],
    ),
];

/// The retransmission of these words under a number.
fn retransmission(alloc: Global, words: &[u32], zeros: usize, seq: u16) -> Result<Order, Fail> {
    Ok(Order::Rtx {
        client: 5,
        n: 65546,
        seq,
        packet: Bytes::from_vec(bytes_of(alloc, words, zeros)?)?,
    })
}

/// The order sends these bytes, alone and behind others.
fn expect_sent(
    rt: &impl Abort,
    alloc: Global,
    name: &str,
    order: &Order,
    want: &[u8],
) -> Result<(), Fail> {
    let Ok(config) = Config::check(CHANNEL, 10) else {
        return Err(Fail::new("lawful settings"));
    };
    assert!(rt; renders(order));
    let mut bytes = done(render_order(alloc, &config, order))?;
    done(append_order(&mut bytes, &config, order))?;
    same(rt, &bytes.strip_prefix(want), &Some(want), &name);
    Ok(())
}

fn expect_again(rt: &impl Abort, alloc: Global, rows: &[Again]) -> Result<(), Fail> {
    for case in rows {
        let order = retransmission(alloc, case.packet.0, case.packet.1, case.seq)?;
        let want = bytes_of(alloc, case.sent.0, case.sent.1)?;
        expect_sent(rt, alloc, case.name, &order, &want)?;
    }
    Ok(())
}

fn expect_none(rt: &impl Abort, alloc: Global, rows: &[NoPacket]) -> Result<(), Fail> {
    for (name, words) in rows {
        let order = retransmission(alloc, words, 0, 500)?;
        holds(rt, !renders(&order), name);
    }
    Ok(())
}

#[test]
fn packets_are_sent_again(rt: HostRuntime) -> Result<(), Fail> {
    expect_again(&rt, rt.alloc(), AGAIN)?;
    expect_none(&rt, rt.alloc(), NO_PACKET)
}

fn expect_told(rt: &impl Abort, alloc: Global, rows: &[Told]) -> Result<(), Fail> {
    for (name, info, words) in rows {
        let want = bytes_of(alloc, words, 0)?;
        let order = Order::Info {
            client: 5,
            info: *info,
        };
        expect_sent(rt, alloc, name, &order, &want)?;
    }
    Ok(())
}

#[test]
fn clients_are_told(rt: HostRuntime) -> Result<(), Fail> {
    expect_told(&rt, rt.alloc(), TOLD)
}
