//! Worlds of set-tops: traces of the command `meet` and their books.
use crate::row::same;
use rams_replay::Status;
use std::alloc::{AllocError, Global};
use std::fmt::Write;
use std::process::Abort;
use std::test::Fail;
use trace_rows::{ACCESS_POINT, MEET, OPENING, Row, WHOLE, let_go, ran};

/// Packets 10 to 15 of the source, the first with the marker, at timestamp 0 with 4 bytes of 0; client 5 is
/// tuned, and its request comes to the server. The request is datagram 0, the RAMS-I datagram 1.
const TUNED: &str = "live 7 80a1000a000000001122334400000000
live 7 8021000b000000001122334400000000
live 7 8021000c000000001122334400000000
live 7 8021000d000000001122334400000000
live 7 8021000e000000001122334400000000
live 7 8021000f000000001122334400000000
tune 7 5 0000c001
give 0";

/// What is said of these. The datagram is an RR, an SDES and a RAMS-R of every SSRC (TLV 1).
const TUNED_BOOK: &str = "1 7 took 65546
2 7 took 65547
3 7 took 65548
4 7 took 65549
5 7 took 65550
6 7 took 65551
7 7 post 5 80c900010000c00181ca00030000c001010373746200000086cd00040000c001112233440100000001000000
8 7 accept 5 first 65546 rate 4000 join 1";

/// The RAMS-I, and the burst, datagrams 2 to 7, as events 9 and 10.
const BURST_BOOK: &str = "9 7 info 5 taken
10 7 burst 5 65546 500
10 7 burst 5 65547 501
10 7 burst 5 65548 502
10 7 burst 5 65549 503
10 7 burst 5 65550 504
10 7 burst 5 65551 505";

/// A set-top loses the third and the fourth packet of its burst, joins, asks for them and leaves.
pub const HANDOVERS: &[Row] = &[Row {
    name: "handover",
    changes: &[],
    lines: &[
        TUNED,
        "give 1\ntick\ngive 2\ngive 3\ngive 6\ngive 7\ngive 3",
        // RTP 16 to 18; timestamp 0; 4 bytes of 0
        "live 7 80210010000000001122334400000000",
        "live 7 80210011000000001122334400000000",
        "live 7 80210012000000001122334400000000",
        "mcast 7 5 65552\nmcast 7 5 65553\nmcast 7 5 65554\ngive 8\ngive 9",
        "ask 7 5\ngive 10\ntick\ngive 11\ngive 12",
        "drop 7 5\nmcast 7 5 65546\nend",
    ],
    book: &[
        TUNED_BOOK,
        BURST_BOOK,
        "11 7 came 5 took",
        // RTP 10 with the marker; timestamp 0; 4 bytes of 0
        "11 7 show 5 65546 80a1000a000000001122334400000000",
        "12 7 came 5 took",
        // RTP 11; timestamp 0; 4 bytes of 0
        "12 7 show 5 65547 8021000b000000001122334400000000",
        "13 7 came 5 took\n14 7 came 5 took\n15 7 came 5 behind",
        "16 7 took 65552\n17 7 took 65553\n18 7 took 65554",
        "19 7 came 5 took",
        // RR; SDES; RAMS-T, first multicast packet 65,552 (TLV 61)
        "19 7 post 5 80c900010000c00181ca00030000c001010373746200000086cd00050000c00111223344030000003d00000400010010",
        "20 7 came 5 took\n21 7 came 5 took",
        "22 7 stop 5 65552\n22 7 end 5 stopped",
        "23 7 info 5 ended 201",
        // RR; SDES; NACK of 12, 13
        "24 7 post 5 80c900010000c00181ca00030000c001010373746200000081cd00030000c00111223344000c0001",
        "25 7 queued 5 65548\n25 7 queued 5 65549",
        "26 7 repair 5 65548 506\n26 7 repair 5 65549 507",
        "27 7 came 5 took",
        // RTP 12; timestamp 0; 4 bytes of 0
        "27 7 show 5 65548 8021000c000000001122334400000000",
        "28 7 came 5 took",
        // RTP 13 to 18; timestamp 0; 4 bytes of 0
        "28 7 show 5 65549 8021000d000000001122334400000000",
        "28 7 show 5 65550 8021000e000000001122334400000000",
        "28 7 show 5 65551 8021000f000000001122334400000000",
        "28 7 show 5 65552 80210010000000001122334400000000",
        "28 7 show 5 65553 80210011000000001122334400000000",
        "28 7 show 5 65554 80210012000000001122334400000000",
        // RR; SDES; BYE
        "29 7 post 5 80c900010000c00181ca00030000c001010373746200000081cb00010000c001",
        "30 7 no-receiver 5",
        "done 30",
    ],
}];

/// Which packet a set-top plays from.
pub const FIRSTS: &[Row] = &[
    Row {
        name: "no burst without its RAMS-I",
        changes: &[],
        lines: &[TUNED, "tick\ngive 2\nend"],
        book: &[
            TUNED_BOOK,
            "9 7 burst 5 65546 500\n9 7 burst 5 65547 501\n9 7 burst 5 65548 502",
            "9 7 burst 5 65549 503\n9 7 burst 5 65550 504\n9 7 burst 5 65551 505",
            "10 7 came 5 before-first",
            "done 10",
        ],
    },
    Row {
        name: "the third packet tells the first number, one by multicast doesn't",
        changes: &[],
        lines: &[
            TUNED,
            "give 1\ntick\nmcast 7 5 65546\ngive 4\ngive 2\ngive 3\nend",
        ],
        book: &[
            TUNED_BOOK,
            BURST_BOOK,
            "11 7 came 5 before-first",
            "12 7 came 5 took",
            "13 7 came 5 took",
            // RTP 10 with the marker; timestamp 0; 4 bytes of 0
            "13 7 show 5 65546 80a1000a000000001122334400000000",
            "14 7 came 5 took",
            // RTP 11, 12; timestamp 0; 4 bytes of 0
            "14 7 show 5 65547 8021000b000000001122334400000000",
            "14 7 show 5 65548 8021000c000000001122334400000000",
            "done 14",
        ],
    },
];

/// What isn't delivered, each for the first reason that is true.
pub const REFUSALS: &[Row] = &[
    Row {
        name: "no datagram",
        changes: &[],
        lines: &["give 99", "end"],
        book: &["1 no-datagram 99", "done 1"],
    },
    Row {
        name: "a client is tuned once",
        changes: &[],
        lines: &[TUNED, "tune 7 5 0000c002\nend"],
        book: &[TUNED_BOOK, "9 7 tuned-before 5", "done 9"],
    },
    Row {
        name: "neither channel nor receiver nor packet",
        changes: &[],
        lines: &[
            "tune 8 5 0000c001\nmcast 8 5 1\nask 8 5\ndrop 8 5",
            "mcast 7 5 1\nask 7 5\ndrop 7 5",
            "tune 7 5 0000c001\nmcast 7 5 65546\nend",
        ],
        book: &[
            "1 8 no-channel\n2 8 no-channel\n3 8 no-channel\n4 8 no-channel",
            "5 7 no-receiver 5\n6 7 no-receiver 5\n7 7 no-receiver 5",
            // RR; SDES; RAMS-R, of every SSRC (TLV 1)
            "8 7 post 5 80c900010000c00181ca00030000c001010373746200000086cd00040000c001112233440100000001000000",
            "9 7 no-packet 65546",
            "done 9",
        ],
    },
    Row {
        name: "a new start is too far away",
        changes: &[],
        lines: &[
            TUNED,
            "give 1\ntick\ngive 2",
            // RTP 60,010, 60,011; timestamp 0; 4 bytes of 0
            "live 7 8021ea6a000000001122334400000000",
            "live 7 8021ea6b000000001122334400000000",
            "mcast 7 5 125547\nend",
        ],
        book: &[
            TUNED_BOOK,
            BURST_BOOK,
            "11 7 came 5 took",
            // RTP 10 with the marker; timestamp 0; 4 bytes of 0
            "11 7 show 5 65546 80a1000a000000001122334400000000",
            "12 7 jump\n13 7 restart 125547\n14 7 too-far 5",
            "done 14",
        ],
    },
];

/// Lines that are refused.
pub const REFUSED: &[Row] = &[
    Row {
        name: "form",
        changes: &[],
        lines: &["tune 7 5 c001", "end"],
        book: &["refused 3 form"],
    },
    Row {
        name: "range",
        changes: &[],
        lines: &["tune 7 5 0000c001", "mcast 0 5 1", "end"],
        book: &[
            // RR; SDES; RAMS-R, of every SSRC (TLV 1)
            "1 7 post 5 80c900010000c00181ca00030000c001010373746200000086cd00040000c001112233440100000001000000",
            "refused 4 range",
        ],
    },
    Row {
        name: "order",
        changes: &[],
        lines: &["give 0"],
        book: &["1 no-datagram 0", "refused 4 order"],
    },
];

/// Appends the packets, and their lines of the book.
fn add_packets(trace: &mut String, book: &mut String) -> Result<(), AllocError> {
    for place in 1..16_386_u32 {
        let sequence = place + 10;
        let (event, number) = (place + 6, place + 65_546);
        // RTP of this number; timestamp 0; 4 bytes of 0
        writeln!(trace, "live 7 8021{sequence:04x}000000001122334400000000")?;
        writeln!(book, "{event} 7 took {number}")?;
    }
    Ok(())
}

/// Appends the trace behind its opening, and the book.
fn add_far_ahead(trace: &mut String, book: &mut String) -> Result<(), AllocError> {
    trace.push_str(ACCESS_POINT)?;
    trace.push_str("\ntune 7 5 0000c001\ngive 0\ngive 1\ntick\ngive 2\n")?;
    book.push_str(MEET.first)?;
    // RR; SDES; RAMS-R, of every SSRC (TLV 1)
    book.push_str(
        "1 7 took 65546\n2 7 post 5 80c900010000c00181ca00030000c001010373746200000086cd00040000c001112233440100000001000000\n",
    )?;
    book.push_str(
        "3 7 accept 5 first 65546 rate 4000 join 1\n4 7 info 5 taken\n5 7 burst 5 65546 500\n",
    )?;
    // RTP 10 with the marker; timestamp 0; 4 bytes of 0
    book.push_str("6 7 came 5 took\n6 7 show 5 65546 80a1000a000000001122334400000000\n")?;
    add_packets(trace, book)?;
    trace.push_str("mcast 7 5 81931\nmcast 7 5 81930\nend\n")?;
    book.push_str("16392 7 came 5 beyond\n16393 7 came 5 took\n")?;
    // RR; SDES; RAMS-T, first multicast packet 81,930 (TLV 61)
    book.push_str(
        "16393 7 post 5 80c900010000c00181ca00030000c001010373746200000086cd00050000c00111223344030000003d0000040001400a\n",
    )?;
    book.push_str("done 16393\n")
}

/// A packet of number next + 16,384 is beyond what a set-top keeps; the one below it isn't.
pub fn far_ahead(alloc: Global) -> Result<(String, String), AllocError> {
    let mut trace = String::from_str(alloc, OPENING)?;
    let mut book = String::new(alloc);
    add_far_ahead(&mut trace, &mut book)?;
    Ok((trace, book))
}

/// Appends so many events, of a channel that isn't there, and the book of them, which ends so.
fn add_events(
    trace: &mut String,
    book: &mut String,
    count: u32,
    end: &str,
) -> Result<(), AllocError> {
    book.push_str(MEET.first)?;
    for event in 1..count.saturating_add(1) {
        trace.push_str("ask 8 5\n")?;
        if event <= 100_000 {
            writeln!(book, "{event} 8 no-channel")?;
        }
    }
    trace.push_str("end\n")?;
    book.push_str(end)
}

/// A trace of so many events, and its book.
fn events(alloc: Global, count: u32, end: &str) -> Result<(String, String), AllocError> {
    let mut trace = String::from_str(alloc, OPENING)?;
    let mut book = String::new(alloc);
    add_events(&mut trace, &mut book, count, end)?;
    Ok((trace, book))
}

/// A command over such a trace ends so, and writes this book.
fn expect_book(
    rt: &impl Abort,
    alloc: Global,
    count: u32,
    status: Status,
    trace: &[u8],
    book: &[u8],
) -> Result<(), Fail> {
    let (got, text) = ran(alloc, MEET, trace, WHOLE, WHOLE)?;
    same(rt, &got, &status, &count);
    same(rt, &(text.as_slice() == book), &true, &count);
    let_go(text);
    Ok(())
}

/// So many events, how the book ends, and how the command does. 100,000 are served, and none after them.
const LENGTHS: &[(u32, &str, Status)] = &[
    (100_000, "done 100000\n", Status::Done),
    (100_001, "too-long\n", Status::TooLong),
];

#[test]
fn most_events_of_a_world(rt: HostRuntime) -> Result<(), Fail> {
    for (count, end, status) in LENGTHS {
        let (trace, book) = events(rt.alloc(), *count, end)?;
        let (bytes, want) = (trace.as_bytes(), book.as_bytes());
        let expected = expect_book(&rt, rt.alloc(), *count, *status, bytes, want);
        let_go(trace);
        let_go(book);
        expected?;
    }
    Ok(())
}
