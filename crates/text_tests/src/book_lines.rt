//! Lines of a book behind a text, written by hand.
use crate::fixtures::same;
use book_text::{Pen, append_count, append_no_channel, append_refused, append_send};
use ram_io::NoMemory;
use rams_model::{Cause, FrameFault, LineFault, LiveNote, Note, RtpFault};
use std::alloc::Global;
use std::process::Abort;
use std::test::Fail;
use test_fixtures::test_calls::done;

/// Notes of channel 7, and their lines as those of event 4.
const NOTES: &[(Note, &str)] = &[
    // what becomes of live packets
    (Note::Live(LiveNote::Took(65_546)), "4 7 took 65546\n"),
    (Note::Live(LiveNote::Restart(85_547)), "4 7 restart 85547\n"),
    (Note::Live(LiveNote::Late), "4 7 late\n"),
    (Note::Live(LiveNote::Twice), "4 7 twice\n"),
    (Note::Live(LiveNote::Jump), "4 7 jump\n"),
    (Note::Live(LiveNote::ForeignSsrc), "4 7 foreign-ssrc\n"),
    (Note::Live(LiveNote::ForeignType), "4 7 foreign-type\n"),
    (Note::Live(LiveNote::TooBig), "4 7 too-big\n"),
    (
        Note::Live(LiveNote::Bad(RtpFault::Short)),
        "4 7 bad short\n",
    ),
    (
        Note::Live(LiveNote::Bad(RtpFault::Version)),
        "4 7 bad version\n",
    ),
    (Note::Live(LiveNote::Bad(RtpFault::Csrc)), "4 7 bad csrc\n"),
    (
        Note::Live(LiveNote::Bad(RtpFault::Extension)),
        "4 7 bad extension\n",
    ),
    (
        Note::Live(LiveNote::Bad(RtpFault::Padding)),
        "4 7 bad padding\n",
    ),
    // what is noted of client 5
    (
        Note::Accept {
            client: 5,
            first: 65_547,
            rate: 1_500,
            join: 3_000,
        },
        "4 7 accept 5 first 65547 rate 1500 join 3000\n",
    ),
    (
        Note::Update {
            client: 5,
            rate: 1_500,
            join: 3_000,
        },
        "4 7 update 5 rate 1500 join 3000\n",
    ),
    (Note::Again { client: 5 }, "4 7 again 5\n"),
    (
        Note::Refuse {
            client: 5,
            code: 507,
        },
        "4 7 refuse 5 507\n",
    ),
    (
        Note::StopAt {
            client: 5,
            n: 65_546,
        },
        "4 7 stop 5 65546\n",
    ),
    (
        Note::StopKept {
            client: 5,
            n: 65_546,
        },
        "4 7 stop-kept 5 65546\n",
    ),
    (Note::StopIdle { client: 5 }, "4 7 stop-idle 5\n"),
    (
        Note::Queued {
            client: 5,
            n: 65_546,
        },
        "4 7 queued 5 65546\n",
    ),
    (
        Note::Already {
            client: 5,
            n: 65_546,
        },
        "4 7 already 5 65546\n",
    ),
    (Note::Unheld { client: 5, low: 12 }, "4 7 unheld 5 12\n"),
    (
        Note::Early {
            client: 5,
            n: 65_546,
        },
        "4 7 early 5 65546\n",
    ),
    (
        Note::TableFull {
            client: 5,
            n: 65_546,
        },
        "4 7 table-full 5 65546\n",
    ),
    (
        Note::ClientFull {
            client: 5,
            n: 65_546,
        },
        "4 7 client-full 5 65546\n",
    ),
    (
        Note::QueueFull {
            client: 5,
            n: 65_546,
        },
        "4 7 queue-full 5 65546\n",
    ),
    (Note::ForeignNack { client: 5 }, "4 7 foreign-nack 5\n"),
    (Note::Bye { client: 5 }, "4 7 bye 5\n"),
    (Note::ByeIdle { client: 5 }, "4 7 bye-idle 5\n"),
    (
        Note::Burst {
            client: 5,
            n: 65_546,
            seq: 65_535,
        },
        "4 7 burst 5 65546 65535\n",
    ),
    (
        Note::Repair {
            client: 5,
            n: 65_546,
            seq: 65_535,
        },
        "4 7 repair 5 65546 65535\n",
    ),
    (
        Note::Gone {
            client: 5,
            n: 65_546,
        },
        "4 7 gone 5 65546\n",
    ),
    // why bursts end
    (
        Note::End {
            client: 5,
            cause: Cause::Stopped,
        },
        "4 7 end 5 stopped\n",
    ),
    (
        Note::End {
            client: 5,
            cause: Cause::Lost,
        },
        "4 7 end 5 lost\n",
    ),
    (
        Note::End {
            client: 5,
            cause: Cause::Limit,
        },
        "4 7 end 5 limit\n",
    ),
    (
        Note::End {
            client: 5,
            cause: Cause::Bye,
        },
        "4 7 end 5 bye\n",
    ),
    // why feedback is refused
    (
        Note::BadFeedback {
            client: 5,
            fault: FrameFault::Empty,
        },
        "4 7 bad-feedback 5 empty\n",
    ),
    (
        Note::BadFeedback {
            client: 5,
            fault: FrameFault::Short,
        },
        "4 7 bad-feedback 5 short\n",
    ),
    (
        Note::BadFeedback {
            client: 5,
            fault: FrameFault::Version,
        },
        "4 7 bad-feedback 5 version\n",
    ),
    (
        Note::BadFeedback {
            client: 5,
            fault: FrameFault::Length,
        },
        "4 7 bad-feedback 5 length\n",
    ),
    (
        Note::BadFeedback {
            client: 5,
            fault: FrameFault::Padding,
        },
        "4 7 bad-feedback 5 padding\n",
    ),
    (
        Note::BadFeedback {
            client: 5,
            fault: FrameFault::Body,
        },
        "4 7 bad-feedback 5 body\n",
    ),
];

/// Bytes that are sent to client 5, and their lines.
const SENDS: &[(&[u8], &str)] = &[
    (&[], "4 7 send 5 -\n"),
    (&[0x0a], "4 7 send 5 0a\n"),
    (&[0x86, 0xcd, 0x00, 0xfe, 0x39], "4 7 send 5 86cd00fe39\n"),
];

/// Why line 4 of a trace is refused, and the book's line.
const REFUSALS: &[(LineFault, &str)] = &[
    (LineFault::Form, "refused 4 form\n"),
    (LineFault::Order, "refused 4 order\n"),
    (LineFault::Range, "refused 4 range\n"),
    (LineFault::Twice, "refused 4 twice\n"),
    (LineFault::Rule(3), "refused 4 rule-3\n"),
];

/// The line stands behind `a` and a line feed.
fn expect_line(rt: &impl Abort, text: &[u8], line: &str) {
    same(
        rt,
        &text.strip_prefix(b"a\n"),
        &Some(line.as_bytes()),
        &line,
    );
}

fn note_line(alloc: Global, note: &Note) -> Result<Vec<u8>, Fail> {
    let mut text = b"a\n".to_vec(alloc)?;
    done(Pen::new().append_note(&mut text, 4, 7, note))?;
    Ok(text)
}

fn send_line(alloc: Global, bytes: &[u8]) -> Result<Vec<u8>, Fail> {
    let mut text = b"a\n".to_vec(alloc)?;
    done(append_send(&mut text, 4, 7, 5, bytes))?;
    Ok(text)
}

fn refused_line(alloc: Global, fault: LineFault) -> Result<Vec<u8>, Fail> {
    let mut text = b"a\n".to_vec(alloc)?;
    done(append_refused(&mut text, 4, fault))?;
    Ok(text)
}

fn expect_notes(rt: &impl Abort, alloc: Global, rows: &[(Note, &str)]) -> Result<(), Fail> {
    for (note, line) in rows {
        expect_line(rt, &note_line(alloc, note)?, line);
    }
    Ok(())
}

fn expect_sends(rt: &impl Abort, alloc: Global, rows: &[(&[u8], &str)]) -> Result<(), Fail> {
    for (bytes, line) in rows {
        expect_line(rt, &send_line(alloc, bytes)?, line);
    }
    Ok(())
}

fn expect_refusals(rt: &impl Abort, alloc: Global, rows: &[(LineFault, &str)]) -> Result<(), Fail> {
    for (fault, line) in rows {
        expect_line(rt, &refused_line(alloc, *fault)?, line);
    }
    Ok(())
}

#[test]
fn notes_datagrams_and_refusals_are_lines(rt: HostRuntime) -> Result<(), Fail> {
    expect_notes(&rt, rt.alloc(), NOTES)?;
    expect_sends(&rt, rt.alloc(), SENDS)?;
    expect_refusals(&rt, rt.alloc(), REFUSALS)
}

/// The greatest client.
const FORGOT: Note = Note::Forgot {
    client: 281_474_976_710_655,
};

#[test]
fn the_greatest_numbers_are_written(rt: HostRuntime) -> Result<(), Fail> {
    let mut text = Vec::new(rt.alloc());
    done(Pen::new().append_note(&mut text, u64::MAX, 65_535, &FORGOT))?;
    done(append_no_channel(&mut text, 4, 7))?;
    done(append_count(&mut text, b"done", 0))?;
    let want = b"18446744073709551615 65535 forgot 281474976710655\n4 7 no-channel\ndone 0\n";
    same(&rt, &text.as_slice(), &want.as_slice(), &"the last lines");
    Ok(())
}

/// A repair, under the last of its packet's numbers.
fn repair(client: u64, n: u64) -> Note {
    Note::Repair {
        client,
        n,
        seq: 500,
    }
}

/// The lines of event 4 of channel 7.
fn append_first(pen: &mut Pen, text: &mut Vec<u8>) -> Result<(), NoMemory> {
    pen.append_told(text, 4, 7, &repair(5, 98), 5, &[0xab])?;
    pen.append_told(text, 4, 7, &repair(5, 100), 5, &[])?;
    pen.append_told(text, 4, 7, &repair(60, 100), 60, &[1])
}

/// Those of channel 8.
fn append_others(pen: &mut Pen, text: &mut Vec<u8>) -> Result<(), NoMemory> {
    pen.append_note(text, 4, 8, &FORGOT)?;
    pen.append_told(text, 12, 8, &repair(60, 9), 60, &[2])?;
    pen.append_told(text, 12, 8, &FORGOT, 60, &[3])
}

#[test]
fn a_pen_writes_one_line_after_another(rt: HostRuntime) -> Result<(), Fail> {
    let mut pen = Pen::new();
    let mut text = Vec::new(rt.alloc());
    done(append_first(&mut pen, &mut text))?;
    done(append_others(&mut pen, &mut text))?;
    let want = b"4 7 repair 5 98 500\n4 7 send 5 ab\n4 7 repair 5 100 500\n4 7 send 5 -\n\
        4 7 repair 60 100 500\n4 7 send 60 01\n4 8 forgot 281474976710655\n\
        12 8 repair 60 9 500\n12 8 send 60 02\n12 8 forgot 281474976710655\n12 8 send 60 03\n";
    same(&rt, &text.as_slice(), &want.as_slice(), &"lines of one pen");
    Ok(())
}
