//! Pending repairs: a client has at most 256, a channel at most 4,096.
use std::alloc::{AllocError, Global};
use std::fmt::Write;
use trace_rows::{BOOK, let_go, opening_with};

/// A NACK of packets 10 to 265: fifteen words of 17 packets each, and one of one packet.
const ASKS_256: &str =
    "81cd00120000c00111223344000affff001bffff002cffff003dffff004effff005fffff0070ffff0081ffff0092ffff00a3ffff00b4ffff00c5ffff00d6ffff00e7ffff00f8ffff01090000";

/// A NACK of packet 266, and one of packet 10.
const ASKS_266: &str = "81cd00030000c00111223344010a0000";

const ASKS_10: &str = "81cd00030000c00111223344000a0000";

/// The live lines of packets 10 to 309.
fn packets(alloc: Global) -> Result<String, AllocError> {
    let mut lines = String::new(alloc);
    for number in 10u16..310 {
        // RTP of this number; timestamp 0; 4 bytes of 0
        writeln!(lines, "live 7 8021{number:04x}000000001122334400000000")?;
    }
    Ok(lines)
}

/// The lines of 16 clients that ask for 257 packets each.
fn requests(alloc: Global) -> Result<String, AllocError> {
    let mut lines = String::new(alloc);
    for client in 1..17 {
        writeln!(lines, "fb 7 {client} {ASKS_256}\nfb 7 {client} {ASKS_266}")?;
    }
    Ok(lines)
}

/// Packets 10 to 309, what is asked for, and packets 20,010 and 20,011, each at timestamp 0 with 4 bytes of 0.
fn trace(alloc: Global) -> Result<String, AllocError> {
    let opening = opening_with(
        alloc,
        &[("ring 64", "ring 512"), ("clients 4", "clients 17")],
    )?;
    let packets = packets(alloc)?;
    let requests = requests(alloc)?;
    let trace = format!(in alloc;
        "{opening}{packets}{requests}fb 7 17 {ASKS_10}
live 7 80214e2a000000001122334400000000
live 7 80214e2b000000001122334400000000
tick
end
"
    );
    let_go(opening);
    let_go(packets);
    let_go(requests);
    trace
}

/// The book's lines of the packets.
fn took(alloc: Global) -> Result<String, AllocError> {
    let mut lines = String::new(alloc);
    for event in 1u64..301 {
        writeln!(lines, "{event} 7 took {}", 65_545 + event)?;
    }
    Ok(lines)
}

/// The lines of an event that say this of 256 packets of a client.
fn notes(alloc: Global, event: u64, word: &str, client: u64) -> Result<String, AllocError> {
    let mut lines = String::new(alloc);
    for number in 65_546..65_802 {
        writeln!(lines, "{event} 7 {word} {client} {number}")?;
    }
    Ok(lines)
}

/// The book's lines of the requests, which are events 301 to 332.
fn queued(alloc: Global) -> Result<String, AllocError> {
    let mut lines = String::new(alloc);
    for client in 1u64..17 {
        let event = 299 + 2 * client;
        let queued = notes(alloc, event, "queued", client)?;
        writeln!(lines, "{queued}{} 7 client-full {client} 65802", event + 1)?;
    }
    Ok(lines)
}

/// The book's lines of a tick that finds none of the packets.
fn gone(alloc: Global) -> Result<String, AllocError> {
    let mut lines = String::new(alloc);
    for client in 1..17 {
        lines.push_str(&notes(alloc, 336, "gone", client)?)?;
    }
    Ok(lines)
}

fn book(alloc: Global) -> Result<String, AllocError> {
    let took = took(alloc)?;
    let queued = queued(alloc)?;
    let gone = gone(alloc)?;
    let book = format!(in alloc;
        "{BOOK}{took}{queued}333 7 queue-full 17 65546
334 7 jump
335 7 restart 85547
{gone}done 336
"
    );
    let_go(took);
    let_go(queued);
    let_go(gone);
    book
}

pub fn full_queues(alloc: Global) -> Result<(String, String), AllocError> {
    let trace = trace(alloc)?;
    Ok((trace, book(alloc)?))
}
