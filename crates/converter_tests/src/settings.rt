//! Settings from descriptions, and descriptions of channels: from a head's bytes to what is written.
use crate::descriptions::{MEDIA, REPAIRS, SESSION};
use crate::fixtures::same;
use converters::description_loop::{Status, Stop, write_description, write_settings};
use ram_io::{MemSink, MemSource};
use std::alloc::{AllocError, Global};
use std::process::Abort;
use std::str;
use std::test::Fail;
use test_fixtures::test_calls::let_go;
use test_fixtures::test_words::joined;

const HEAD: &str = "rams-trace 1 tick 10 link 100000\n";

const CHANNEL: &str =
    "channel 7 ssrc 11223344 pt 33 rtx 99 server aabbccdd seq0 500 ring 64 window 0 access marker share 10000 reserve 1500 burst 4000 declared 100 minwire 42 limit 100 idle 100 clients 4\n";

const HEAD_2: &str = "rams-trace 2 tick 10 link 100000\n";

const CHANNEL_2: &str =
    "channel 7 ssrc 11223344 pt 33 rtx 99 server aabbccdd seq0 500 ring 64 window 0 access marker share 10000 reserve 1500 burst 4000 declared 100 minwire 42 limit 100 idle 100 clients 4 depth 100 swell 7\n";

const END: &str = "end\n";

/// The channels with the settings of the description of `descriptions`.
const SET: &str =
    "channel 7 ssrc 0001e1b9 pt 98 rtx 99 server aabbccdd seq0 500 ring 64 window 0 access marker share 10000 reserve 1500 burst 4000 declared 100 minwire 42 limit 100 idle 100 clients 4\n";

const SET_2: &str =
    "channel 7 ssrc 0001e1b9 pt 98 rtx 99 server aabbccdd seq0 500 ring 64 window 0 access marker share 10000 reserve 1500 burst 4000 declared 100 minwire 42 limit 100 idle 100 clients 4 depth 100 swell 7\n";

const DESCRIPTION: &[&str] = &[
    "v=0",
    "o=- 0 0 IN IP4 127.0.0.1",
    "s=channel 7",
    "t=0 0",
    "m=video 5000 RTP/AVPF 33",
    "c=IN IP4 127.0.0.1",
    "a=rtpmap:33 MP2T/90000",
    "a=rtcp-fb:33 nack",
    "a=rtcp-fb:33 nack rai",
    "a=ssrc:287454020 cname:rams",
    "m=video 5001 RTP/AVPF 99",
    "c=IN IP4 127.0.0.1",
    "a=rtpmap:99 rtx/90000",
    "a=fmtp:99 apt=33",
];

/// What is run over a source and a sink.
#[derive(Clone, Copy)]
enum Command {
    Sdp,
    Describe { port: u16 },
}

const DESCRIBE: Command = Command::Describe { port: 5_000 };

/// How many bytes a call moves at most, and which calls fail.
#[derive(Clone, Copy)]
struct Calls<'a> {
    most: usize,
    fails: &'a [u64],
}

/// Calls that move all they can, and don't fail.
const WHOLE: Calls<'static> = Calls {
    most: 10_000_000,
    fails: &[],
};

/// Does what the command says.
fn status_of(
    alloc: Global,
    command: Command,
    source: &mut MemSource,
    sink: &mut MemSink,
) -> Result<Status, Stop> {
    match command {
        Command::Sdp => write_settings(alloc, source, sink),
        Command::Describe { port } => {
            write_description(alloc, port.clamp(1, 65_000), source, sink)
        }
    }
}

/// How the command ends over a source of these bytes, and what it wrote.
fn ran(
    alloc: Global,
    command: Command,
    input: &[u8],
    takes: Calls<'_>,
    puts: Calls<'_>,
) -> Result<(Result<Status, Stop>, Vec<u8>), Fail> {
    let fails = takes.fails.to_vec(alloc)?;
    let mut source = MemSource::new(input.to_vec(alloc)?, takes.most.max(1), fails);
    let ran = ran_from(alloc, command, &mut source, puts);
    let_go(source);
    ran
}

/// How the command ends over this source, and what it wrote.
fn ran_from(
    alloc: Global,
    command: Command,
    source: &mut MemSource,
    puts: Calls<'_>,
) -> Result<(Result<Status, Stop>, Vec<u8>), Fail> {
    let fails = puts.fails.to_vec(alloc)?;
    let Ok(mut sink) = MemSink::new(alloc, 10_000, puts.most.max(1), fails) else {
        return Err(Fail::new("no memory"));
    };
    let ended = status_of(alloc, command, source, &mut sink);
    let written = sink.held().to_vec(alloc);
    let_go(sink);
    Ok((ended, written?))
}

/// The command ends so and writes this, in whatever pieces the source gives its bytes.
fn ends(
    rt: &impl Abort,
    alloc: Global,
    command: Command,
    input: &[u8],
    status: Status,
    text: &str,
) -> Result<(), Fail> {
    for most in [1, 2, 3, 7, 4_096] {
        let takes = Calls { most, fails: &[] };
        let (ended, written) = ran(alloc, command, input, takes, WHOLE)?;
        same(rt, &str::from_utf8(&written)?, &text, "pieces");
        same(rt, &ended, &Ok(status), text);
    }
    Ok(())
}

/// A text of pieces.
fn text_of(alloc: Global, pieces: &[&str]) -> Result<Vec<u8>, AllocError> {
    joined(alloc, pieces, "")
}

/// The lines of the description of `descriptions`, with these of its repairs, each with this end.
fn described(alloc: Global, repairs: &[&str], end: &str) -> Result<Vec<u8>, AllocError> {
    let mut text = joined(alloc, SESSION, end)?;
    for lines in [MEDIA, repairs] {
        text.extend_from_slice(&joined(alloc, lines, end)?)?;
    }
    Ok(text)
}

/// The head of one channel, and a description behind it.
fn input_of(alloc: Global, description: &[u8]) -> Result<Vec<u8>, AllocError> {
    let mut input = text_of(alloc, &[HEAD, CHANNEL, END])?;
    input.extend_from_slice(description)?;
    Ok(input)
}

/// A head, a channel, and the channel with the settings of the description.
const SETTINGS: &[(&str, &str, &str)] = &[(HEAD, CHANNEL, SET), (HEAD_2, CHANNEL_2, SET_2)];

/// The head of a channel, and the description whose lines have this end.
fn input_with(alloc: Global, head: &str, channel: &str, end: &str) -> Result<Vec<u8>, AllocError> {
    let mut input = text_of(alloc, &[head, channel, END])?;
    input.extend_from_slice(&described(alloc, REPAIRS, end)?)?;
    Ok(input)
}

/// The command is done, and writes this text.
fn ends_with(
    rt: &impl Abort,
    alloc: Global,
    command: Command,
    input: &[u8],
    text: &[u8],
) -> Result<(), Fail> {
    ends(
        rt,
        alloc,
        command,
        input,
        Status::Done,
        str::from_utf8(text)?,
    )
}

/// The channel gets the settings of the description whose lines have this end.
fn gets_settings(
    rt: &impl Abort,
    alloc: Global,
    head: &str,
    channel: &str,
    set: &str,
    end: &str,
) -> Result<(), Fail> {
    let input = input_with(alloc, head, channel, end)?;
    let text = text_of(alloc, &[head, set, END])?;
    let ended = ends_with(rt, alloc, Command::Sdp, &input, &text);
    let_go(input);
    let_go(text);
    ended
}

/// The same, with either end of the lines.
fn gets_settings_by_both(
    rt: &impl Abort,
    alloc: Global,
    head: &str,
    channel: &str,
    set: &str,
) -> Result<(), Fail> {
    for end in ["\n", "\r\n"] {
        gets_settings(rt, alloc, head, channel, set, end)?;
    }
    Ok(())
}

#[test]
fn a_channel_gets_its_settings(rt: HostRuntime) -> Result<(), Fail> {
    for (head, channel, set) in SETTINGS {
        gets_settings_by_both(&rt, rt.alloc(), head, channel, set)?;
    }
    Ok(())
}

/// Descriptions that are refused, and the line that is written.
const REFUSED: &[(&str, &str)] = &[
    ("", "refused-sdp version\n"),
    ("s=x\nx\n", "refused-sdp version\n"),
    ("x\n", "refused-sdp form 1\n"),
    ("v=0\ns=RAMS\nx\nm=\n", "refused-sdp form 3\n"),
    ("v=0\ns=RAMS\n", "refused-sdp no-channel\n"),
    (
        "v=0\nm=video 1 RTP/AVPF 98\na=rtcp-fb:* nack rai\n",
        "refused-sdp no-ssrc\n",
    ),
];

/// Lines of repairs with which the description of `descriptions` is refused, and the line that is written.
const REPAIRS_REFUSED: &[(&[&str], &str)] = &[
    (
        &["m=video 42000 RTP/AVPF 99", "a=rtpmap:99 rtx/90000"],
        "refused-sdp no-rtx\n",
    ),
    (
        &[
            "m=video 42000 RTP/AVPF 98",
            "a=rtpmap:98 rtx/90000",
            "a=fmtp:98 apt=98",
        ],
        "refused-sdp same\n",
    ),
];

/// The description is refused with this line.
fn refuses(rt: &impl Abort, alloc: Global, description: &[u8], text: &str) -> Result<(), Fail> {
    let input = input_of(alloc, description)?;
    let ended = ends(rt, alloc, Command::Sdp, &input, Status::BadSdp, text);
    let_go(input);
    ended
}

#[test]
fn a_description_is_refused(rt: HostRuntime) -> Result<(), Fail> {
    for (description, text) in REFUSED {
        refuses(&rt, rt.alloc(), description.as_bytes(), text)?;
    }
    Ok(())
}

#[test]
fn lines_of_repairs_are_refused(rt: HostRuntime) -> Result<(), Fail> {
    let alloc = rt.alloc();
    for (repairs, text) in REPAIRS_REFUSED {
        refuses(&rt, alloc, &described(alloc, repairs, "\n")?, text)?;
    }
    Ok(())
}

/// Heads that are refused, and the line that is written.
const HEADS_REFUSED: &[(&[&str], &str)] = &[
    (&[], "refused 1 order\n"),
    (&["\n"], "refused 1 form\n"),
    (&[END], "refused 1 order\n"),
    (&[CHANNEL], "refused 1 order\n"),
    (&["rams-trace 3 tick 10 link 100000\n"], "refused 1 form\n"),
    (&["rams-trace 1 tick 0 link 100000\n"], "refused 1 range\n"),
    (&[HEAD], "refused 2 order\n"),
    (&[HEAD, HEAD], "refused 2 order\n"),
    (&[HEAD, END], "refused 2 order\n"),
    (&[HEAD, CHANNEL_2], "refused 2 order\n"),
    (&[HEAD_2, CHANNEL], "refused 2 order\n"),
    (
        &["rams-trace 1 tick 10 link 9999\n", CHANNEL],
        "refused 2 rule-4\n",
    ),
    (&[HEAD, CHANNEL], "refused 3 order\n"),
    (&[HEAD, CHANNEL, "tick\n", END], "refused 3 order\n"),
    // A description is of one channel.
    (&[HEAD, CHANNEL, CHANNEL, END], "refused 3 order\n"),
    (&[HEAD, CHANNEL, "end \n"], "refused 3 form\n"),
    (&[HEAD, CHANNEL, "v=0\n"], "refused 3 form\n"),
];

/// The head is refused with this line, whatever the command.
fn refuses_head(rt: &impl Abort, alloc: Global, lines: &[&str], text: &str) -> Result<(), Fail> {
    let input = text_of(alloc, lines)?;
    for command in [Command::Sdp, DESCRIBE] {
        ends(rt, alloc, command, &input, Status::BadTrace, text)?;
    }
    Ok(())
}

/// A line of 4,097 bytes has no form, whatever stands in it.
fn refuses_long_line(rt: &impl Abort, alloc: Global) -> Result<(), Fail> {
    let mut input = text_of(alloc, &[HEAD])?;
    input.extend_from_slice(&vec![in alloc; b'x'; 4_097]?)?;
    let text = "refused 2 form\n";
    ends(rt, alloc, DESCRIBE, &input, Status::BadTrace, text)
}

#[test]
fn a_head_is_refused(rt: HostRuntime) -> Result<(), Fail> {
    for (lines, text) in HEADS_REFUSED {
        refuses_head(&rt, rt.alloc(), lines, text)?;
    }
    refuses_long_line(&rt, rt.alloc())
}

/// The channel is described so, with these lines behind the head.
fn is_described(rt: &impl Abort, alloc: Global, want: &[u8], behind: &str) -> Result<(), Fail> {
    let input = text_of(alloc, &[HEAD, CHANNEL, END, behind])?;
    let ended = ends_with(rt, alloc, DESCRIBE, &input, want);
    let_go(input);
    ended
}

/// And `sdp` turns the description back.
fn is_turned_back(rt: &impl Abort, alloc: Global, description: &[u8]) -> Result<(), Fail> {
    let input = input_of(alloc, description)?;
    let back = text_of(alloc, &[HEAD, CHANNEL, END])?;
    let ended = ends_with(rt, alloc, Command::Sdp, &input, &back);
    let_go(input);
    let_go(back);
    ended
}

#[test]
fn a_channel_is_described(rt: HostRuntime) -> Result<(), Fail> {
    let alloc = rt.alloc();
    let want = joined(alloc, DESCRIPTION, "\r\n")?;
    // What stands behind `end` isn't looked at.
    for behind in ["", "tick\nx"] {
        is_described(&rt, alloc, &want, behind)?;
    }
    is_turned_back(&rt, alloc, &want)
}

/// The head, and the description behind it.
fn whole_input(alloc: Global) -> Result<Vec<u8>, AllocError> {
    input_of(alloc, &described(alloc, REPAIRS, "\n")?)
}

/// How the command ends where this call of the source fails, and how many bytes are written.
fn source_fails(
    alloc: Global,
    command: Command,
    call: u64,
) -> Result<(Result<Status, Stop>, usize), Fail> {
    let takes = Calls {
        most: 7,
        fails: &[call],
    };
    let (ended, written) = ran(alloc, command, &whole_input(alloc)?, takes, WHOLE)?;
    Ok((ended, written.len()))
}

/// Whichever of so many calls of the source fails, nothing is written; a call behind them isn't made.
fn expect_calls(rt: &impl Abort, alloc: Global, command: Command, calls: u64) -> Result<(), Fail> {
    for call in 0..calls {
        let got = source_fails(alloc, command, call)?;
        same(rt, &got, &(Err(Stop::Read), 0), "a call of the source");
    }
    let (ended, _) = source_fails(alloc, command, calls)?;
    same(rt, &ended, &Ok(Status::Done), "no call that is made");
    Ok(())
}

#[test]
fn a_source_fails(rt: HostRuntime) -> Result<(), Fail> {
    let alloc = rt.alloc();
    // The end of input is a call too. `describe` makes none behind the head.
    let input = whole_input(alloc)?.len();
    expect_calls(&rt, alloc, Command::Sdp, input.div_ceil(7) as u64 + 1)?;
    let head = text_of(alloc, &[HEAD, CHANNEL, END])?.len();
    expect_calls(&rt, alloc, DESCRIBE, head.div_ceil(7) as u64)
}

/// How `sdp` ends where this call of the sink fails, and what is written.
fn sink_fails(alloc: Global, call: u64) -> Result<(Result<Status, Stop>, Vec<u8>), Fail> {
    let puts = Calls {
        most: 10,
        fails: &[call],
    };
    ran(alloc, Command::Sdp, &whole_input(alloc)?, WHOLE, puts)
}

/// Whichever call of the sink fails, it has got a front of the text.
#[test]
fn a_sink_fails(rt: HostRuntime) -> Result<(), Fail> {
    let alloc = rt.alloc();
    let text = text_of(alloc, &[HEAD, SET, END])?;
    for call in 0..(text.len() as u64).div_ceil(10) {
        let (ended, written) = sink_fails(alloc, call)?;
        same(&rt, &ended, &Err(Stop::Write), "a call of the sink");
        same(&rt, &(written.len() as u64), &(10 * call), "its bytes");
        assert!(rt; text.starts_with(&written));
    }
    Ok(())
}

/// The lines of a description of which the second has 4,100,002 bytes.
fn long_description(alloc: Global) -> Result<Vec<u8>, AllocError> {
    let mut description = b"v=0\na=".to_vec(alloc)?;
    description.extend_from_slice(&vec![in alloc; b'x'; 4_100_000]?)?;
    input_of(alloc, &description)
}

/// Of a description 4,098,001 bytes are looked at: a source that fails behind them isn't asked.
#[test]
fn a_description_is_too_long(rt: HostRuntime) -> Result<(), Fail> {
    // The first 1,000 pieces and the one that has byte 4,098,001.
    let takes = Calls {
        most: 4_096,
        fails: &[1_001],
    };
    let input = long_description(rt.alloc())?;
    let (ended, written) = ran(rt.alloc(), Command::Sdp, &input, takes, WHOLE)?;
    same(
        &rt,
        &written.as_slice(),
        &b"refused-sdp form 2\n".as_slice(),
        "a long description",
    );
    same(&rt, &ended, &Ok(Status::BadSdp), "a long description");
    Ok(())
}
