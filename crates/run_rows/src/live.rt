//! Packets of the source: their numbers, and why one isn't taken (RFC 3550, 5.1 and appendix A.1).
use trace_rows::{ACCESS_POINT, REQUEST, Row};

pub const ROWS: &[Row] = &[
    Row {
        name: "no event",
        changes: &[],
        lines: &["end"],
        book: &["done 0"],
    },
    // Sequence numbers 10, 12, 11, 14, 15, 16 and 13. When 16 comes, 13 isn't waited for any
    // longer, and 14 to 16 alone are held. Then 12 and 14 are asked for.
    Row {
        name: "window and late",
        changes: &[("window 0", "window 2")],
        lines: &[
            // RTP 10, 12, 11, 14 to 16, 13; timestamp 0; 4 bytes of 0
            "live 7 8021000a000000001122334400000000",
            "live 7 8021000c000000001122334400000000",
            "live 7 8021000b000000001122334400000000",
            "live 7 8021000e000000001122334400000000",
            "live 7 8021000f000000001122334400000000",
            "live 7 80210010000000001122334400000000",
            "live 7 8021000d000000001122334400000000",
            // NACK of 12, 14
            "fb 7 5 81cd00030000c00111223344000c0002",
            "end",
        ],
        book: &[
            "1 7 took 65546",
            "2 7 took 65548",
            "3 7 took 65547",
            "4 7 took 65550",
            "5 7 took 65551",
            "6 7 took 65552",
            "7 7 late",
            "8 7 unheld 5 12",
            "8 7 queued 5 65550",
            "done 8",
        ],
    },
    // Sequence number 20010 is too far ahead; the one behind it begins a new start.
    Row {
        name: "restart loses the burst",
        changes: &[],
        lines: &[
            ACCESS_POINT,
            REQUEST,
            // RTP 20,010, 20,011; timestamp 0; 4 bytes of 0
            "live 7 80214e2a000000001122334400000000",
            "live 7 80214e2b000000001122334400000000",
            "tick",
            "end",
        ],
        book: &[
            "1 7 took 65546",
            "2 7 accept 5 first 65546 rate 4000 join 1",
            "3 7 jump",
            "4 7 restart 85547",
            "5 7 end 5 lost",
            "done 5",
        ],
    },
    // No byte, one byte, 1,471 bytes, 10, 12, 12, 10, another source, another payload type, version
    // 1, and a channel that isn't there.
    Row {
        name: "live refusals",
        changes: &[("window 0", "window 2")],
        lines: &[
            "live 7 -",
            "live 7 40",
            // RTP 1; timestamp 0; 1,459 bytes of 0
            "live 7 802100010000000011223344<1459>",
            // RTP 10, 12, 12, 10, 10 of source 11223345, 10 of payload type 34, 10 of version 1; timestamp 0;
            // 4 bytes of 0
            "live 7 8021000a000000001122334400000000",
            "live 7 8021000c000000001122334400000000",
            "live 7 8021000c000000001122334400000000",
            "live 7 8021000a000000001122334400000000",
            "live 7 8021000a000000001122334500000000",
            "live 7 8022000a000000001122334400000000",
            "live 7 4021000a000000001122334400000000",
            "live 8 80",
            "end",
        ],
        book: &[
            "1 7 bad short",
            "2 7 bad short",
            "3 7 too-big",
            "4 7 took 65546",
            "5 7 took 65548",
            "6 7 twice",
            "7 7 late",
            "8 7 foreign-ssrc",
            "9 7 foreign-type",
            "10 7 bad version",
            "11 8 no-channel",
            "done 11",
        ],
    },
    Row {
        name: "packets that aren't numbered",
        changes: &[],
        lines: &[
            "live 7 -",
            "live 7 40",
            // RTP 1; timestamp 0; 1,459 bytes of 0
            "live 7 802100010000000011223344<1459>",
            // RTP 10, 10 of source 11223345, 10 of payload type 34, 10 of version 1; timestamp 0; 4 bytes of 0
            "live 7 8021000a000000001122334400000000",
            "live 7 8021000a000000001122334500000000",
            "live 7 8022000a000000001122334400000000",
            "live 7 4021000a000000001122334400000000",
            "end",
        ],
        book: &[
            "1 7 bad short",
            "2 7 bad short",
            "3 7 too-big",
            "4 7 took 65546",
            "5 7 foreign-ssrc",
            "6 7 foreign-type",
            "7 7 bad version",
            "done 7",
        ],
    },
    // Two contributing sources, an extension of one word, payload aabb, and two bytes of padding,
    // which the retransmission leaves out.
    Row {
        name: "padding and extension",
        changes: &[],
        lines: &[
            // RTP 10 with the marker; timestamp 0; CSRCs 1 and 2; extension bede of one word, 10ff0000
            "live 7 b2a1000a00000000112233440000000100000002bede000110ff0000aabb0002",
            REQUEST,
            "tick",
            "end",
        ],
        book: &[
            "1 7 took 65546",
            "2 7 accept 5 first 65546 rate 4000 join 1",
            "3 7 burst 5 65546 500",
            // RTX 500 of 10 with the marker; timestamp 0; the same CSRCs and extension; aabb
            "3 7 send 5 92e301f400000000112233440000000100000002bede000110ff0000000aaabb",
            "done 3",
        ],
    },
];
