//! Settings and numbers at their bounds: as many clients and packets as a channel may have.
use std::alloc::{AllocError, Global};
use std::fmt::Write;
use trace_rows::{ACCESS_POINT, BOOK, Row, opening_with};

/// Channel 65,535, client 2^48 - 1, packets 65,535 and 0 of the source, and the same numbers of
/// retransmissions.
pub const ROWS: &[Row] = &[Row {
    name: "the greatest numbers",
    changes: &[
        ("channel 7", "channel 65535"),
        ("seq0 500", "seq0 65535"),
        ("ring 64", "ring 32768"),
        ("clients 4", "clients 1024"),
    ],
    lines: &[
        // RTP 65,535 with the marker; timestamp 0; 4 bytes of 0
        "live 65535 80a1ffff000000001122334400000000",
        // RAMS-R
        "fb 65535 281474976710655 86cd00030000c0011122334401000000",
        // RTP 0; timestamp 0; 4 bytes of 0
        "live 65535 80210000000000001122334400000000",
        "tick",
        "end",
    ],
    book: &[
        "1 65535 took 131071",
        "2 65535 accept 281474976710655 first 131071 rate 4000 join 1",
        "3 65535 took 131072",
        "4 65535 burst 281474976710655 131071 65535",
        // RTX 65,535 of 65,535 with the marker; timestamp 0; 4 bytes of 0
        "4 65535 send 281474976710655 80e3ffff0000000011223344ffff00000000",
        "4 65535 burst 281474976710655 131072 0",
        // RTX 0 of 0; timestamp 0; 4 bytes of 0
        "4 65535 send 281474976710655 806300000000000011223344000000000000",
        "done 4",
    ],
}];

/// Appends the lines of 1,025 clients, each of which asks for packet 10, and the book's lines of them.
fn add_asking_clients(lines: &mut String, book: &mut String) -> Result<(), AllocError> {
    for client in 1..1_025 {
        // NACK of 10
        writeln!(lines, "fb 7 {client} 81cd00030000c00111223344000a0000")?;
        writeln!(book, "{} 7 queued {client} 65546", client + 1)?;
    }
    // NACK of 10
    lines.push_str("fb 7 1025 81cd00030000c00111223344000a0000\n")?;
    book.push_str("1026 7 table-full 1025 65546\n")
}

/// Appends the trace behind its opening, and the book behind its first line.
fn add_most_clients(trace: &mut String, book: &mut String) -> Result<(), AllocError> {
    writeln!(trace, "{ACCESS_POINT}")?;
    book.push_str("1 7 took 65546\n")?;
    add_asking_clients(trace, book)?;
    // two RAMS-R
    trace.push_str(
        "fb 7 1025 86cd00030000c0011122334401000000
fb 7 1024 86cd00030000c0011122334401000000
end
",
    )?;
    book.push_str(
        "1027 7 refuse 1025 503
1028 7 accept 1024 first 65546 rate 4000 join 1
done 1028
",
    )
}

/// A channel knows 1,024 clients. One more isn't taken by a request either; one of them is.
pub fn most_clients(alloc: Global) -> Result<(String, String), AllocError> {
    let mut trace = opening_with(alloc, &[("clients 4", "clients 1024")])?;
    let mut book = String::from_str(alloc, BOOK)?;
    add_most_clients(&mut trace, &mut book)?;
    Ok((trace, book))
}

/// Appends the lines of packets 0 to 32,768, and the book's lines of them.
fn add_packets(lines: &mut String, book: &mut String) -> Result<(), AllocError> {
    for number in 0u32..32_769 {
        // RTP of this number; timestamp 0; 4 bytes of 0
        writeln!(lines, "live 7 8021{number:04x}000000001122334400000000")?;
        writeln!(book, "{} 7 took {}", number + 1, 65_536 + number)?;
    }
    Ok(())
}

/// The same, and what follows them.
fn add_most_packets(trace: &mut String, book: &mut String) -> Result<(), AllocError> {
    add_packets(trace, book)?;
    // NACK of 0, 1
    trace.push_str("fb 7 5 81cd00030000c0011122334400000001\nend\n")?;
    book.push_str("32770 7 unheld 5 0\n32770 7 queued 5 65537\ndone 32770\n")
}

/// A ring holds 32,768 packets. Of one more than that, the first isn't held any longer.
pub fn most_packets(alloc: Global) -> Result<(String, String), AllocError> {
    let mut trace = opening_with(alloc, &[("ring 64", "ring 32768")])?;
    let mut book = String::from_str(alloc, BOOK)?;
    add_most_packets(&mut trace, &mut book)?;
    Ok((trace, book))
}
