//! Session descriptions, read and written (RFC 8866; RFC 6285, 8.3).
use crate::fixtures::same;
use converters::description_loop::sdp_config::{Sdp, SdpFault, read_sdp, write_sdp};
use std::alloc::Global;
use std::process::Abort;
use std::str;
use std::test::Fail;
use test_fixtures::test_channel::CHANNEL;
use test_fixtures::test_words::joined;

/// What stands in front of the sections.
pub const SESSION: &[&str] = &[
    "v=0",
    "o=ali 1122334455 1122334466 IN IP4 rams.example.com",
    "s=RAMS",
    "t=0 0",
];

/// The section of the channel.
pub const MEDIA: &[&str] = &[
    "m=video 41000 RTP/AVPF 98",
    "c=IN IP4 233.252.0.2/255",
    "a=rtpmap:98 MP2T/90000",
    "a=rtcp-fb:98 nack",
    "a=rtcp-fb:98 nack rai",
    "a=ssrc:123321 cname:iptv",
];

/// That of its repairs.
pub const REPAIRS: &[&str] = &[
    "m=video 42000 RTP/AVPF 99",
    "a=rtpmap:99 rtx/90000",
    "a=fmtp:99 apt=98;rtx-time=5000",
];

const FOUND: Result<Sdp, SdpFault> = Ok(Sdp {
    pt: 98,
    rtx: 99,
    ssrc: 123321,
});

/// A name, the lines of the session, of the channel and of its repairs, and what they say.
type Row = (
    &'static str,
    &'static [&'static str],
    &'static [&'static str],
    &'static [&'static str],
    Result<Sdp, SdpFault>,
);

const ROWS: &[Row] = &[
    ("a channel and its repairs", SESSION, MEDIA, REPAIRS, FOUND),
    ("nothing", &[], &[], &[], Err(SdpFault::Version)),
    (
        "another version",
        &["v=1"],
        MEDIA,
        REPAIRS,
        Err(SdpFault::Version),
    ),
    (
        "no version",
        &["s=x"],
        &["x"],
        REPAIRS,
        Err(SdpFault::Version),
    ),
    (
        "no line",
        &["v=0", "o=-"],
        &["x"],
        REPAIRS,
        Err(SdpFault::Form(3)),
    ),
    (
        "an empty line",
        &["v=0", ""],
        MEDIA,
        REPAIRS,
        Err(SdpFault::Form(2)),
    ),
    (
        "a capital",
        &["v=0", "S=x"],
        MEDIA,
        REPAIRS,
        Err(SdpFault::Form(2)),
    ),
    (
        "the session alone",
        SESSION,
        &[],
        &[],
        Err(SdpFault::NoChannel),
    ),
    (
        "no feedback",
        SESSION,
        &[
            "m=video 41000 RTP/AVP 98",
            "a=rtcp-fb:98 nack rai",
            "a=ssrc:1",
        ],
        REPAIRS,
        Err(SdpFault::NoChannel),
    ),
    (
        "an empty field",
        SESSION,
        &[
            "m=video 41000  RTP/AVPF 98",
            "a=rtcp-fb:98 nack rai",
            "a=ssrc:1",
        ],
        REPAIRS,
        Err(SdpFault::NoChannel),
    ),
    (
        "an offer and more",
        SESSION,
        &[
            "m=video 41000 RTP/AVPF 98",
            "a=rtcp-fb:98 nack rai ",
            "a=ssrc:1",
        ],
        REPAIRS,
        Err(SdpFault::NoChannel),
    ),
    (
        "the first type that is one",
        SESSION,
        &[
            "m=video 1 RTP/AVPF 128 098 98 97",
            "a=rtcp-fb:* nack rai",
            "a=ssrc:123321",
        ],
        REPAIRS,
        FOUND,
    ),
    (
        "not the first type",
        SESSION,
        &[
            "m=video 1 RTP/AVPF 97 98",
            "a=rtcp-fb:98 nack rai",
            "a=ssrc:123321",
        ],
        REPAIRS,
        FOUND,
    ),
    (
        "no source",
        SESSION,
        &["m=video 41000 RTP/AVPF 98", "a=rtcp-fb:98 nack rai"],
        &[
            "m=video 42000 RTP/AVPF 99",
            "a=ssrc:1",
            "a=rtpmap:99 rtx/90000",
            "a=fmtp:99 apt=98",
        ],
        Err(SdpFault::NoSsrc),
    ),
    (
        "the first source that is one",
        SESSION,
        &[
            "m=video 41000 RTP/AVPF 98",
            "a=rtcp-fb:98 nack rai",
            "a=ssrc:4294967296",
            "a=ssrc:01",
            "a=ssrc:123321",
            "a=ssrc:5 cname:x",
        ],
        REPAIRS,
        FOUND,
    ),
    (
        "the greatest source",
        SESSION,
        &[
            "m=video 41000 RTP/AVPF 98",
            "a=rtcp-fb:98 nack rai",
            "a=ssrc:4294967295 x",
        ],
        REPAIRS,
        Ok(Sdp {
            pt: 98,
            rtx: 99,
            ssrc: 4294967295,
        }),
    ),
    ("no repairs", SESSION, MEDIA, &[], Err(SdpFault::NoRtx)),
    (
        "no format of repairs",
        SESSION,
        MEDIA,
        &["m=video 42000 RTP/AVPF 99", "a=rtpmap:99 rtx/90000"],
        Err(SdpFault::NoRtx),
    ),
    (
        "repairs of another format",
        SESSION,
        MEDIA,
        &[
            "m=video 42000 RTP/AVPF 99",
            "a=rtpmap:99 rtx/90000",
            "a=fmtp:99 apt=981",
        ],
        Err(SdpFault::NoRtx),
    ),
    (
        "large letters, and spaces around",
        SESSION,
        MEDIA,
        &[
            "m=video 42000 RTP/AVPF 99",
            "a=rtpmap:99 RtX/90000",
            "a=fmtp:99 rtx-time=5000;  apt=98 ",
        ],
        FOUND,
    ),
    (
        "a space within",
        SESSION,
        MEDIA,
        &[
            "m=video 42000 RTP/AVPF 99",
            "a=rtpmap:99 rtx/90000",
            "a=fmtp:99 apt= 98",
        ],
        Err(SdpFault::NoRtx),
    ),
    (
        "another name",
        SESSION,
        MEDIA,
        &[
            "m=video 42000 RTP/AVPF 99",
            "a=rtpmap:99 rtx2/90000",
            "a=fmtp:99 apt=98",
        ],
        Err(SdpFault::NoRtx),
    ),
    (
        "repairs of themselves",
        SESSION,
        MEDIA,
        &[
            "m=video 42000 RTP/AVPF 98",
            "a=rtpmap:98 rtx/90000",
            "a=fmtp:98 apt=98",
        ],
        Err(SdpFault::Same),
    ),
];

// All lines of a row.
fn text_of(alloc: Global, row: &Row, end: &str) -> Result<Vec<u8>, Fail> {
    let (_, session, media, repairs, _) = row;
    let mut text = joined(alloc, session, end)?;
    text.extend_from_slice(&joined(alloc, media, end)?)?;
    text.extend_from_slice(&joined(alloc, repairs, end)?)?;
    Ok(text)
}

// A row is read so, with either end of its lines.
fn expect_read(rt: &impl Abort, alloc: Global, row: &Row) -> Result<(), Fail> {
    for end in ["\n", "\r\n"] {
        let text = text_of(alloc, row, end)?;
        same(rt, &read_sdp(&text), &row.4, row.0);
    }
    Ok(())
}

#[test]
fn settings_are_read(rt: HostRuntime) -> Result<(), Fail> {
    for row in ROWS {
        expect_read(&rt, rt.alloc(), row)?;
    }
    Ok(())
}

/// Texts that are read whole.
const TEXTS: &[(&str, &str, SdpFault)] = &[
    ("no end", "v=0", SdpFault::NoChannel),
    ("half an end", "v=0\r", SdpFault::Version),
    ("two returns", "v=0\r\r\n", SdpFault::Version),
    ("an empty last line", "v=0\n\n", SdpFault::Form(2)),
    // As ffmpeg 5.1 writes it for a stream of MPEG-2 video.
    (
        "a sender without feedback",
        "v=0\r\no=- 0 0 IN IP4 127.0.0.1\r\ns=No Name\r\nc=IN IP4 127.0.0.1\r\nt=0 0\r\na=tool:libavformat LIBAVFORMAT_VERSION\r\nm=video 5000 RTP/AVP 32\r\nb=AS:200\r\n",
        SdpFault::NoChannel,
    ),
];

#[test]
fn lines_end_in_two_ways(rt: HostRuntime) {
    for (name, text, fault) in TEXTS {
        same(&rt, &read_sdp(text.as_bytes()), &Err(*fault), name);
    }
}

/// So many lines behind a first one of so many bytes.
fn long(alloc: Global, first: usize, lines: usize) -> Result<Vec<u8>, Fail> {
    let mut text = b"v=0\ns=".to_vec(alloc)?;
    text.extend_from_slice(&vec![in alloc; b'x'; first]?)?;
    for _ in 0..lines {
        text.extend_from_slice(b"\na=")?;
    }
    Ok(text)
}

#[test]
fn lines_are_few_and_short(rt: HostRuntime) -> Result<(), Fail> {
    let none = Err(SdpFault::NoChannel);
    let alloc = rt.alloc();
    same(
        &rt,
        &read_sdp(&long(alloc, 4094, 998)?),
        &none,
        "1,000 lines",
    );
    let many = Err(SdpFault::Long);
    same(&rt, &read_sdp(&long(alloc, 0, 999)?), &many, "1,001 lines");
    let wide = Err(SdpFault::Form(2));
    same(
        &rt,
        &read_sdp(&long(alloc, 4095, 999)?),
        &wide,
        "4,097 bytes",
    );
    Ok(())
}

const DESCRIPTION: &[&str] = &[
    "v=0",
    "o=- 0 0 IN IP4 127.0.0.1",
    "s=channel 7",
    "t=0 0",
    "m=video 65000 RTP/AVPF 33",
    "c=IN IP4 127.0.0.1",
    "a=rtpmap:33 MP2T/90000",
    "a=rtcp-fb:33 nack",
    "a=rtcp-fb:33 nack rai",
    "a=ssrc:287454020 cname:rams",
    "m=video 65001 RTP/AVPF 99",
    "c=IN IP4 127.0.0.1",
    "a=rtpmap:99 rtx/90000",
    "a=fmtp:99 apt=33",
];

#[test]
fn a_channel_is_described(rt: HostRuntime) -> Result<(), Fail> {
    let text = write_sdp(rt.alloc(), &CHANNEL, 65_000);
    let text = text.ok().ok_or("memory")?;
    let want = joined(rt.alloc(), DESCRIPTION, "\r\n")?;
    assert!(rt; str::from_utf8(&text)? == str::from_utf8(&want)?);
    let settings = Sdp {
        pt: 33,
        rtx: 99,
        ssrc: 0x1122_3344,
    };
    same(&rt, &read_sdp(&text), &Ok(settings), "what is written");
    Ok(())
}
