//! Datagrams in frames (RFC 791, 3.1; RFC 768).
use crate::fixtures::same;
use converters::capture_loop::pcap_trace::datagram;
use std::test::Fail;
use test_fixtures::test_words::{Words, bytes_of};

/// A name, the bytes of a frame, and its datagram: the sender's address and port, the port that it
/// goes to, the bytes that it carries.
type Row = (&'static str, Words, Option<(u32, u16, u16, &'static [u8])>);

// Two addresses and the type.
const ETHERNET: &str = "01005e0000010200000000010800";

const ROWS: &[Row] = &[
    (
        "two bytes behind the packet",
        &[
            ETHERNET,
            "4500002000000000",
            "40110000",
            "0a000001",
            "ef000001",
            "13881388000c0000",
            "01020304",
            "0000",
        ],
        Some((0x0a000001, 5000, 5000, &[1, 2, 3, 4])),
    ),
    (
        "two bytes behind the datagram",
        &[
            ETHERNET,
            "4500002200000000",
            "40110000",
            "0a000001",
            "ef000001",
            "13881389000c0000",
            "010203040000",
        ],
        Some((0x0a000001, 5000, 5001, &[1, 2, 3, 4])),
    ),
    (
        "no bytes, with the don't-fragment and the reserved bit",
        &[
            ETHERNET,
            "4500001c0be8c000",
            "40110000",
            "7f000001",
            "7f000001",
            "825c138900080000",
        ],
        Some((0x7f000001, 0x825c, 5001, &[])),
    ),
    (
        "an option of four bytes",
        &[
            ETHERNET,
            "4600002100000000",
            "40110000",
            "0a000001",
            "ef000001",
            "01010101",
            "1388138800090000",
            "09",
        ],
        Some((0x0a000001, 5000, 5000, &[9])),
    ),
    (
        "a tag",
        &[
            "01005e000001020000000001",
            "8100007b",
            "0800",
            "4500001d00000000",
            "40110000",
            "0a000001",
            "ef000001",
            "1388138800090000",
            "09",
        ],
        Some((0x0a000001, 5000, 5000, &[9])),
    ),
    (
        "two tags",
        &[
            "01005e000001020000000001",
            "8100007b",
            "8100007c",
            "0800",
            "4500001d00000000",
            "40110000",
            "0a000001",
            "ef000001",
            "1388138800090000",
            "09",
        ],
        None,
    ),
    (
        "a service tag",
        &[
            "01005e000001020000000001",
            "88a8007b",
            "0800",
            "4500001d00000000",
            "40110000",
            "0a000001",
            "ef000001",
            "1388138800090000",
            "09",
        ],
        None,
    ),
    (
        "IPv6",
        &[
            "01005e00000102000000000186dd",
            "4500001d00000000",
            "40110000",
            "0a000001",
            "ef000001",
            "1388138800090000",
            "09",
        ],
        None,
    ),
    (
        "version 6",
        &[
            ETHERNET,
            "6500001d00000000",
            "40110000",
            "0a000001",
            "ef000001",
            "1388138800090000",
            "09",
        ],
        None,
    ),
    (
        "a header of 16 bytes",
        &[
            ETHERNET,
            "4400001d00000000",
            "40110000",
            "0a000001",
            "ef000001",
            "1388138800090000",
            "09",
        ],
        None,
    ),
    (
        "TCP",
        &[
            ETHERNET,
            "4500001d00000000",
            "40060000",
            "0a000001",
            "ef000001",
            "1388138800090000",
            "09",
        ],
        None,
    ),
    (
        "the first fragment",
        &[
            ETHERNET,
            "4500001d00002000",
            "40110000",
            "0a000001",
            "ef000001",
            "1388138800090000",
            "09",
        ],
        None,
    ),
    (
        "the last fragment",
        &[
            ETHERNET,
            "4500001d00000001",
            "40110000",
            "0a000001",
            "ef000001",
            "1388138800090000",
            "09",
        ],
        None,
    ),
    (
        "a byte of the packet is missing",
        &[
            ETHERNET,
            "4500001e00000000",
            "40110000",
            "0a000001",
            "ef000001",
            "1388138800090000",
            "09",
        ],
        None,
    ),
    (
        "a datagram longer than the packet",
        &[
            ETHERNET,
            "4500001d00000000",
            "40110000",
            "0a000001",
            "ef000001",
            "13881388000a0000",
            "09",
        ],
        None,
    ),
    (
        "a datagram of seven bytes",
        &[
            ETHERNET,
            "4500001d00000000",
            "40110000",
            "0a000001",
            "ef000001",
            "1388138800070000",
            "09",
        ],
        None,
    ),
    (
        "no room for the header of a datagram",
        &[
            ETHERNET,
            "4500001b00000000",
            "40110000",
            "0a000001",
            "ef000001",
            "1388138800080000",
            "09",
        ],
        None,
    ),
    (
        "a header that is cut",
        &[ETHERNET, "4500001d000000004011"],
        None,
    ),
    ("addresses alone", &["01005e000001020000000001"], None),
    ("nothing", &[], None),
];

#[test]
fn datagrams_are_found(rt: HostRuntime) -> Result<(), Fail> {
    for (name, words, want) in ROWS {
        let frame = bytes_of(rt.alloc(), words)?;
        let found = datagram(&frame);
        let from = found.map(|u| (u.from, u.port));
        let sender = want.map(|w| (u64::from(w.0) * 65536 + u64::from(w.1), w.2));
        same(&rt, &from, &sender, name);
        same(&rt, &found.map(|u| u.payload), &want.map(|w| w.3), name);
    }
    Ok(())
}
