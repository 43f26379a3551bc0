//! Lines of a trace: each kind, other forms, and numbers out of their ranges.
use crate::fixtures::{holds, same};
use crate::trace_words::{Answer, expect_words, line_of, word_of};
use ram_io::NoMemory;
use rams_model::{Access, Channel};
use std::alloc::{AllocError, Global};
use std::process::Abort;
use std::test::Fail;
use test_fixtures::test_calls::done;
use test_fixtures::test_channel::CHANNEL;
use trace_text::{Line, decode, decode_to, read_line, write_line};

/// Lines, and the word of what they are read as.
const LINES: &[Answer] = &[
    // other words, spaces and ends
    (
        "form",
        &[
            "",
            " ",
            "tick ",
            " tick",
            "tick\r",
            "Tick",
            "ticks",
            "tick tick",
            "end 1",
            "end\n",
            "live",
            "live 7",
            "live  7 00",
            "live 7  00",
            "live 7 00 ",
            "live 7 00 00",
            "live\t7 00",
            "fb 7 5",
            "fb 7 5 00\r",
            "channel 7",
        ],
    ),
    // hexadecimal digits come in pairs, and are small
    (
        "form",
        &[
            "live 7 ",
            "live 7 0",
            "live 7 000",
            "live 7 0A",
            "live 7 A0",
            "live 7 0g",
            "live 7 0`",
            "live 7 0/",
            "live 7 0:",
            "live 7 --",
            "live 7 -0",
            "live 7 0 0",
        ],
    ),
    // no sign, no zero in front, at most 15 digits
    (
        "form",
        &[
            "live 00 -",
            "live 07 -",
            "live -1 -",
            "live +1 -",
            "live 1e3 -",
            "live 1: -",
            "live 1000000000000000 -",
            "fb 7 05 00",
            "fb 7 1000000000000000 00",
            "rams-trace 2 tick 010 link 1500",
        ],
    ),
    // other versions and fields
    (
        "form",
        &[
            "rams-trace 3 tick 10 link 1500",
            "rams-trace 0 tick 10 link 1500",
            "rams-trace 01 tick 10 link 1500",
            "rams-trace 1 tick 10",
            "rams-trace 1 link 1500 tick 10",
            "rams-trace 1 tick 10 link 1500 ",
        ],
    ),
    // lines of receivers
    (
        "form",
        &[
            "tune 7 5",
            "tune 7 5 0000000",
            "tune 7 5 000000000",
            "tune 7 5 0000000A",
            "tune 7 5 -",
            "give",
            "give 01",
            "give 1 1",
            "mcast 7 5",
            "mcast 7 5 01",
            "ask 7",
            "ask 7 05",
            "drop 7",
            "drop 7 5 -",
        ],
    ),
    (
        "range",
        &[
            "live 0 -",
            "live 65536 -",
            "live 999999999999999 -",
            "fb 0 5 -",
            "fb 65536 5 -",
            "fb 7 281474976710656 -",
            "rams-trace 1 tick 0 link 1500",
            "rams-trace 2 tick 1001 link 1500",
            "rams-trace 2 tick 10 link 1499",
            "rams-trace 1 tick 10 link 1000000001",
            "tune 0 5 00000000",
            "tune 7 281474976710656 00000000",
            "mcast 65536 5 1",
            "mcast 7 281474976710656 1",
            "ask 65536 5",
            "ask 7 281474976710656",
            "drop 0 5",
            "drop 7 281474976710656",
        ],
    ),
    (
        "ok",
        &[
            "live 1 -",
            "live 65535 -",
            "fb 1 0 00",
            "fb 65535 281474976710655 -",
            "rams-trace 1 tick 1 link 1500",
            "rams-trace 2 tick 1000 link 1000000000",
            "tune 65535 281474976710655 ffffffff",
            "give 0",
            "give 999999999999999",
            "mcast 1 0 0",
            "mcast 65535 281474976710655 999999999999999",
            "ask 65535 281474976710655",
            "drop 1 0",
        ],
    ),
];

#[test]
fn lines_have_forms_and_ranges(rt: HostRuntime) -> Result<(), Fail> {
    expect_words(&rt, rt.alloc(), LINES)
}

/// A line, and what it says.
type Spelled = (&'static str, Line<'static>);

/// A line of each kind, and of each version of a channel.
const KINDS: &[Spelled] = &[
    (
        "rams-trace 2 tick 20 link 3000",
        Line::Head {
            version: 2,
            tick_ms: 20,
            link: 3000,
        },
    ),
    (
        "live 7 80c9",
        Line::Live {
            id: 7,
            hex: b"80c9",
        },
    ),
    (
        "fb 7 5 -",
        Line::Feedback {
            id: 7,
            client: 5,
            hex: b"-",
        },
    ),
    ("tick", Line::Tick),
    ("end", Line::End),
    (
        "tune 7 5 0a10c3f9",
        Line::Tune {
            id: 7,
            client: 5,
            ssrc: 0x0a10_c3f9,
        },
    ),
    ("give 3", Line::Give { number: 3 }),
    (
        "mcast 7 5 65546",
        Line::Mcast {
            id: 7,
            client: 5,
            n: 65546,
        },
    ),
    ("ask 7 5", Line::Ask { id: 7, client: 5 }),
    ("drop 7 5", Line::Drop { id: 7, client: 5 }),
    (
        "@",
        Line::Channel {
            version: 1,
            channel: CHANNEL,
        },
    ),
    (
        "@marker>ts;clients 4>clients 4 depth 50 swell 60",
        Line::Channel {
            version: 2,
            channel: Channel {
                access: Access::Ts,
                depth: 50,
                swell: 60,
                ..CHANNEL
            },
        },
    ),
];

fn is_read(text: &[u8], line: &Line<'_>) -> bool {
    read_line(text) == Ok(*line)
}

fn is_written(alloc: Global, text: &[u8], line: &Line<'_>) -> Result<bool, NoMemory> {
    Ok(write_line(alloc, line)?.as_slice() == text)
}

/// Each text is read as its line, and the line is written as the text.
fn expect_spelled(rt: &impl Abort, alloc: Global, rows: &[Spelled]) -> Result<(), Fail> {
    for (text, line) in rows {
        let text = line_of(alloc, text)?;
        holds(rt, is_read(text.as_bytes(), line), &text);
        holds(rt, done(is_written(alloc, text.as_bytes(), line))?, &text);
    }
    Ok(())
}

#[test]
fn each_kind_is_read_and_written(rt: HostRuntime) -> Result<(), Fail> {
    expect_spelled(&rt, rt.alloc(), KINDS)
}

/// The front of a line, its length with digits `a` behind the front, and its answer.
const LONG: &[(&str, usize, &str)] = &[
    ("live 77 ", 4096, "ok"),
    ("live 7 ", 4097, "form"),
    ("live 0 ", 4095, "range"),
    ("live 0 ", 4097, "form"),
];

/// The front with so many bytes in all.
fn filled(alloc: Global, front: &str, len: usize) -> Result<String, AllocError> {
    let mut line = String::from_str(alloc, front)?;
    for _ in front.len()..len {
        line.push('a')?;
    }
    Ok(line)
}

#[test]
fn a_line_has_at_most_4096_bytes(rt: HostRuntime) -> Result<(), Fail> {
    for (place, (front, len, want)) in LONG.iter().enumerate() {
        let line = filled(rt.alloc(), front, *len)?;
        same(&rt, &word_of(line.as_bytes()), want, &place);
    }
    Ok(())
}

/// Words of digits, and their bytes.
const DIGITS: &[(&str, &[u8])] = &[
    ("live 7 -", &[]),
    ("live 7 00ff19ae", &[0x00, 0xff, 0x19, 0xae]),
];

/// The bytes of a live line: alone, and in place of others.
fn live_bytes(alloc: Global, text: &str) -> Result<[Vec<u8>; 2], Fail> {
    let Ok(Line::Live { hex, .. }) = read_line(text.as_bytes()) else {
        return Err(Fail::from("no live line"));
    };
    let mut room = b"before".to_vec(alloc)?;
    done(decode_to(hex, &mut room))?;
    Ok([done(decode(alloc, hex))?, room])
}

#[test]
fn words_of_digits_are_bytes(rt: HostRuntime) -> Result<(), Fail> {
    for (text, bytes) in DIGITS {
        let [alone, in_place] = live_bytes(rt.alloc(), text)?;
        same(
            &rt,
            &(alone.as_slice(), in_place.as_slice()),
            &(*bytes, *bytes),
            text,
        );
    }
    Ok(())
}
