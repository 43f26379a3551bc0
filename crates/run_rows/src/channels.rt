//! Traces of several channels.
use std::alloc::{AllocError, Global};
use std::fmt::Write;
use trace_rows::{BOOK, REQUEST, Row, opening_with};

pub const ROWS: &[Row] = &[
    // An event of a channel that isn't there isn't looked at.
    Row {
        name: "no channel",
        changes: &[],
        lines: &["live 8 80", "fb 8 5 -", "end"],
        book: &["1 8 no-channel", "2 8 no-channel", "done 2"],
    },
    // Each channel has clients, packets and numbers of its own. A tick goes to channel 7 first,
    // whose line is the first.
    Row {
        name: "two channels",
        changes: &[],
        lines: &[
            "channel 3 ssrc 55667788 pt 33 rtx 98 server 000000ff seq0 65535 ring 64 window 0 access marker share 10000 reserve 1500 burst 4000 declared 100 minwire 42 limit 100 idle 100 clients 4",
            // RTP 20 with the marker of source 55667788, 10 with the marker; timestamp 0; 4 bytes of 0
            "live 3 80a10014000000005566778800000000",
            "live 7 80a1000a000000001122334400000000",
            // RAMS-R for media source 55667788
            "fb 3 5 86cd00030000c0015566778801000000",
            REQUEST,
            // RTP 21 of source 55667788; timestamp 0; 4 bytes of 0
            "live 3 80210015000000005566778800000000",
            "tick",
            // BYE
            "fb 3 5 81cb00010000c001",
            "tick",
            "end",
        ],
        book: &[
            "1 3 took 65556",
            "2 7 took 65546",
            "3 3 accept 5 first 65556 rate 4000 join 1",
            // RAMS-I 200, message 0; first packet 65,535 (TLV 32), join after 10 ms (33), lasts 1,000 ms (34),
            // at most 3,200,000 bit/s (35)
            "3 3 send 5 86cd000c000000ff55667788020000c820000002ffff0000210000040000000a22000004000003e823000008000000000030d400",
            "4 7 accept 5 first 65546 rate 4000 join 1",
            "5 3 took 65557",
            "6 7 burst 5 65546 500",
            // RTX 500 of 10 with the marker; timestamp 0; 4 bytes of 0
            "6 7 send 5 80e301f40000000011223344000a00000000",
            "6 3 burst 5 65556 65535",
            // RTX 65,535 of 20 with the marker; timestamp 0; 4 bytes of 0
            "6 3 send 5 80e2ffff0000000055667788001400000000",
            "6 3 burst 5 65557 0",
            // RTX 0 of 21; timestamp 0; 4 bytes of 0
            "6 3 send 5 806200000000000055667788001500000000",
            "7 3 bye 5",
            "7 3 end 5 bye",
            "done 8",
        ],
    },
    // The shares of 10,000 and 90,001 are more than the link's 100,000.
    Row {
        name: "shares above the link",
        changes: &[],
        lines: &[
            "channel 3 ssrc 55667788 pt 33 rtx 98 server 000000ff seq0 0 ring 64 window 0 access ts share 90001 reserve 1500 burst 4000 declared 100 minwire 42 limit 100 idle 100 clients 4",
        ],
        book: &["refused 3 rule-4"],
    },
];

/// The lines of so many channels from 8 on.
fn add_channels(lines: &mut String, count: u16) -> Result<(), AllocError> {
    let settings =
        "pt 33 rtx 99 server aabbccdd seq0 0 ring 64 window 0 access ts share 10000 reserve 1500 burst 4000 declared 100 minwire 42 limit 100 idle 100 clients 4";
    for id in (8..).take(usize::from(count)) {
        writeln!(lines, "channel {id} ssrc 11223344 {settings}")?;
    }
    Ok(())
}

/// A trace of so many channels behind the first, and its book. A trace has at most 64 channels.
pub fn most_channels(
    alloc: Global,
    count: u16,
    line: &str,
) -> Result<(String, String), AllocError> {
    let book = format!(in alloc; "{BOOK}{line}\n")?;
    let mut trace = opening_with(alloc, &[("link 100000", "link 1000000000")])?;
    add_channels(&mut trace, count)?;
    trace.push_str("end\n")?;
    Ok((trace, book))
}
