//! The commands `sdp`, `describe` and `pcap`: their words, and a run of each.
use crate::fixtures::same;
use rams_replay::Status;
use std::alloc::Global;
use std::test::Fail;
use trace_rows::{OPENING, PIECES, let_go, written};

const OFFER: &str = "end
v=0
o=ali 1122334455 1122334466 IN IP4 rams.example.com
s=RAMS
t=0 0
m=video 41000 RTP/AVPF 98
c=IN IP4 233.252.0.2/255
a=rtpmap:98 MP2T/90000
a=rtcp-fb:98 nack
a=rtcp-fb:98 nack rai
a=ssrc:123321 cname:iptv
m=video 42000 RTP/AVPF 99
a=rtpmap:99 rtx/90000
a=fmtp:99 apt=98;rtx-time=5000
";

/// The opening with the settings of the offer.
const SET: &str = "rams-trace 1 tick 10 link 100000
channel 7 ssrc 0001e1b9 pt 98 rtx 99 server aabbccdd seq0 500 ring 64 window 0 access marker share 10000 reserve 1500 burst 4000 declared 100 minwire 42 limit 100 idle 100 clients 4
end
";

const DESCRIBED: &str =
    "v=0\r\no=- 0 0 IN IP4 127.0.0.1\r\ns=channel 7\r\nt=0 0\r\nm=video 5000 RTP/AVPF 33\r\nc=IN IP4 127.0.0.1\r\na=rtpmap:33 MP2T/90000\r\na=rtcp-fb:33 nack\r\na=rtcp-fb:33 nack rai\r\na=ssrc:287454020 cname:rams\r\nm=video 5001 RTP/AVPF 99\r\nc=IN IP4 127.0.0.1\r\na=rtpmap:99 rtx/90000\r\na=fmtp:99 apt=33\r\n";

/// The opening, and a capture that ends before it begins.
const SHORT: &str = "rams-trace 1 tick 10 link 100000
channel 7 ssrc 11223344 pt 33 rtx 99 server aabbccdd seq0 500 ring 64 window 0 access marker share 10000 reserve 1500 burst 4000 declared 100 minwire 42 limit 100 idle 100 clients 4
refused-capture 0 short
";

/// The words, what stands behind the opening, how the command ends, and with what text.
const ROWS: &[(&[&str], &str, Status, &str)] = &[
    (&["sdp"], OFFER, Status::Done, SET),
    (&["sdp"], "end\n", Status::BadSdp, "refused-sdp version\n"),
    (&["sdp"], "tick\n", Status::BadTrace, "refused 3 order\n"),
    (&["describe", "5000"], "end\n", Status::Done, DESCRIBED),
    (
        &["describe", "1"],
        "",
        Status::BadTrace,
        "refused 3 order\n",
    ),
    (
        &["describe", "65000"],
        "x\n",
        Status::BadTrace,
        "refused 3 form\n",
    ),
    (&["sdp", "x"], OFFER, Status::Words, ""),
    (&["describe"], "end\n", Status::Words, ""),
    (&["describe", "0"], "end\n", Status::Words, ""),
    (&["describe", "65001"], "end\n", Status::Words, ""),
    (&["describe", "05000"], "end\n", Status::Words, ""),
    (&["describe", "5000", "1"], "end\n", Status::Words, ""),
    (&["pcap", "5000"], "end\n", Status::BadCapture, SHORT),
    (
        &["pcap", "65000"],
        "x\n",
        Status::BadTrace,
        "refused 3 form\n",
    ),
    (&["pcap"], "end\n", Status::Words, ""),
    (&["pcap", "0"], "end\n", Status::Words, ""),
    (&["pcap", "65001"], "end\n", Status::Words, ""),
];

/// How the command of these words ends over the opening and these lines, and what it writes.
fn ran(alloc: Global, words: &[&str], lines: &str) -> Result<(Status, Vec<u8>), Fail> {
    let input = format!(in alloc; "{OPENING}{lines}")?;
    written(alloc, words, input.into_bytes(), PIECES, PIECES, 1_000)
}

#[test]
fn settings_and_descriptions_are_written(rt: HostRuntime) -> Result<(), Fail> {
    for (place, (words, lines, status, text)) in ROWS.iter().enumerate() {
        let (got, written) = ran(rt.alloc(), words, lines)?;
        same(&rt, &got, status, &place);
        same(&rt, &written.as_slice(), &text.as_bytes(), &place);
        let_go(written);
    }
    Ok(())
}
