//! A burst at a steady load: in each tick 10,864 bytes come, and up to 20,000 go to the client.
use std::alloc::{AllocError, Global};
use std::fmt::Write;
use trace_rows::{BOOK, let_go, opening_with, zeros};

const CHANGES: &[(&str, &str)] = &[
    ("share 10000", "share 100000"),
    ("reserve 1500", "reserve 3000"),
    ("burst 4000", "burst 20000"),
    ("declared 100", "declared 10864"),
    ("minwire 42", "minwire 1358"),
    ("ring 64", "ring 8192"),
];

/// RAMS-R, at least 400 ms of fill (TLV 2), at most 20,000,000 bit/s (TLV 4).
const REQUEST: &str =
    "fb 7 5 86cd00080000c00111223344010000000200000400000190040000080000000001312d00";

/// The live line of packet i: timestamp 900 * floor(i / 8), the marker where i is a multiple of
/// 800.
fn packet(alloc: Global, number: u16, payload: &str) -> Result<String, AllocError> {
    let kind = if number % 800 == 0 { "a1" } else { "21" };
    let timestamp = 900 * u32::from(number / 8);
    format!(in alloc; "live 7 80{kind}{number:04x}{timestamp:08x}11223344{payload}\n")
}

/// The trace's lines of packets from `from` up to `to`, with a tick behind each eight.
fn packets(alloc: Global, from: u16, to: u16) -> Result<String, AllocError> {
    let payload = zeros(alloc, 1_316)?;
    let mut lines = String::new(alloc);
    for number in from..to {
        lines.push_str(&packet(alloc, number, &payload)?)?;
        if number % 8 == 7 {
            lines.push_str("tick\n")?;
        }
    }
    Ok(lines)
}

/// The book's lines of the eight packets in front of a tick, of which the first is such an event.
fn took(alloc: Global, tick: u16, event: u32) -> Result<String, AllocError> {
    let mut lines = String::new(alloc);
    for place in 0..8 {
        let event = u64::from(event) + place;
        let number = 65_536 + 8 * u64::from(tick) + place;
        writeln!(lines, "{event} 7 took {number}")?;
    }
    Ok(lines)
}

/// The book's lines of 50 ticks that send nothing.
fn quiet_ticks(alloc: Global) -> Result<String, AllocError> {
    let mut lines = String::new(alloc);
    for tick in 0..50 {
        lines.push_str(&took(alloc, tick, 9 * u32::from(tick) + 1)?)?;
    }
    Ok(lines)
}

/// How many packets were sent in so many ticks: 14 a tick, until all are that came.
fn sent(ticks: u16) -> u32 {
    let ticks = u32::from(ticks);
    (14 * ticks).min(400 + 8 * ticks)
}

/// The book's lines of the tick that is the burst's tick number `ticks`, counted from 0.
fn burst(alloc: Global, ticks: u16, event: u32) -> Result<String, AllocError> {
    let mut lines = String::new(alloc);
    for place in sent(ticks)..sent(ticks.saturating_add(1)) {
        let place = u64::from(place);
        writeln!(
            lines,
            "{event} 7 burst 5 {} {}",
            65_536 + place,
            500 + place
        )?;
    }
    Ok(lines)
}

/// The book's lines of 75 ticks of the burst. It catches up in the 67th.
fn burst_ticks(alloc: Global) -> Result<String, AllocError> {
    let mut lines = String::new(alloc);
    for ticks in 0..75 {
        let event = 9 * u32::from(ticks) + 452;
        lines.push_str(&took(alloc, 50 + ticks, event)?)?;
        lines.push_str(&burst(alloc, ticks, event + 8)?)?;
    }
    Ok(lines)
}

/// The trace of 1,000 packets, with the request behind the first 400.
fn trace(alloc: Global) -> Result<String, AllocError> {
    let opening = opening_with(alloc, CHANGES)?;
    let front = packets(alloc, 0, 400)?;
    let back = packets(alloc, 400, 1_000)?;
    let trace = format!(in alloc; "{opening}{front}{REQUEST}\n{back}end\n");
    let_go(opening);
    let_go(front);
    let_go(back);
    trace
}

/// Its book. The RAMS-I says 200, message 0; first packet 500 (TLV 32), join after 720 ms (33), lasts 1,000 ms
/// (34), at most 16,000,000 bit/s (35).
fn book(alloc: Global) -> Result<String, AllocError> {
    let quiet = quiet_ticks(alloc)?;
    let bursts = burst_ticks(alloc)?;
    let book = format!(in alloc;
        "{BOOK}{quiet}451 7 accept 5 first 65536 rate 20000 join 72
451 7 send 5 86cd000caabbccdd11223344020000c82000000201f4000021000004000002d022000004000003e8230000080000000000f42400
{bursts}done 1126
"
    );
    let_go(quiet);
    let_go(bursts);
    book
}

/// The access point has age 490 ms, and 543,200 bytes are behind it: at 7,637 a tick they are
/// caught up after 72 ticks of 10 ms.
pub fn steady_load(alloc: Global) -> Result<(String, String), AllocError> {
    let trace = trace(alloc)?;
    Ok((trace, book(alloc)?))
}
