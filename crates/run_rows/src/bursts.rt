//! Bursts from their request to their end, and the time at which they catch up (RFC 6285).
use trace_rows::{ACCESS_POINT, ONE_PACKET_PER_TICK, REQUEST, Row};

pub const ROWS: &[Row] = &[
    ONE_PACKET_PER_TICK,
    // Four packets are held, 65,548 to 65,551: the burst's first went.
    Row {
        name: "burst lost",
        changes: &[("ring 64", "ring 4"), ("minwire 42", "minwire 100")],
        lines: &[
            ACCESS_POINT,
            REQUEST,
            // RTP 11 to 15; timestamp 0; 4 bytes of 0
            "live 7 8021000b000000001122334400000000",
            "live 7 8021000c000000001122334400000000",
            "live 7 8021000d000000001122334400000000",
            "live 7 8021000e000000001122334400000000",
            "live 7 8021000f000000001122334400000000",
            "tick",
            "end",
        ],
        book: &[
            "1 7 took 65546",
            "2 7 accept 5 first 65546 rate 4000 join 1",
            "3 7 took 65547",
            "4 7 took 65548",
            "5 7 took 65549",
            "6 7 took 65550",
            "7 7 took 65551",
            "8 7 end 5 lost",
            // RAMS-I 502, message 1
            "8 7 send 5 86cd0003aabbccdd11223344020101f6",
            "done 8",
        ],
    },
    Row {
        name: "limit and idle",
        changes: &[("limit 100", "limit 1"), ("idle 100", "idle 2")],
        lines: &[ACCESS_POINT, REQUEST, "tick", "tick", "tick", "end"],
        book: &[
            "1 7 took 65546",
            "2 7 accept 5 first 65546 rate 4000 join 1",
            "3 7 burst 5 65546 500",
            "3 7 end 5 limit",
            // RAMS-I 201, message 1
            "3 7 send 5 86cd0003aabbccdd11223344020100c9",
            "5 7 forgot 5",
            "done 5",
        ],
    },
];

/// A ring of four packets, each with 142 bytes on the wire, and one packet a tick is declared.
const SMALL_RING: &[(&str, &str)] = &[
    ("ring 64", "ring 4"),
    ("burst 4000", "burst 1642"),
    ("declared 100", "declared 142"),
    ("minwire 42", "minwire 142"),
];

/// The join time that a burst was told is kept while the source sends what it declares.
pub const JOIN_TIMES: &[Row] = &[
    Row {
        name: "caught up in three ticks",
        changes: &[
            ("burst 4000", "burst 2999"),
            ("declared 100", "declared 0"),
            ("minwire 42", "minwire 1500"),
        ],
        lines: &[
            // RTP 10 with the marker, 11, 12; timestamp 0; 1,458 bytes of 0
            "live 7 80a1000a0000000011223344<1458>",
            "live 7 8021000b0000000011223344<1458>",
            "live 7 8021000c0000000011223344<1458>",
            REQUEST,
            "tick",
            "tick",
            "tick",
            "tick",
            "end",
        ],
        book: &[
            "1 7 took 65546",
            "2 7 took 65547",
            "3 7 took 65548",
            "4 7 accept 5 first 65546 rate 2999 join 3",
            "5 7 burst 5 65546 500",
            "6 7 burst 5 65547 501",
            "7 7 burst 5 65548 502",
            "done 8",
        ],
    },
    Row {
        name: "a quiet burst isn't lost",
        changes: SMALL_RING,
        lines: &[
            // RTP 10 with the marker, 11, 12; timestamp 0; 100 bytes of 0
            "live 7 80a1000a0000000011223344<100>",
            "live 7 8021000b0000000011223344<100>",
            "live 7 8021000c0000000011223344<100>",
            REQUEST,
            // RTP 13; timestamp 0; 100 bytes of 0
            "live 7 8021000d0000000011223344<100>",
            "tick",
            "end",
        ],
        book: &[
            "1 7 took 65546",
            "2 7 took 65547",
            "3 7 took 65548",
            "4 7 accept 5 first 65546 rate 1642 join 426",
            "5 7 took 65549",
            "6 7 burst 5 65546 500",
            "6 7 burst 5 65547 501",
            "6 7 burst 5 65548 502",
            "6 7 burst 5 65549 503",
            "done 6",
        ],
    },
    // 284 bytes come before the tick, and 142 are declared.
    Row {
        name: "more than was declared loses the burst",
        changes: SMALL_RING,
        lines: &[
            // RTP 10 with the marker, 11, 12; timestamp 0; 100 bytes of 0
            "live 7 80a1000a0000000011223344<100>",
            "live 7 8021000b0000000011223344<100>",
            "live 7 8021000c0000000011223344<100>",
            REQUEST,
            // RTP 13, 14; timestamp 0; 100 bytes of 0
            "live 7 8021000d0000000011223344<100>",
            "live 7 8021000e0000000011223344<100>",
            "tick",
            "end",
        ],
        book: &[
            "1 7 took 65546",
            "2 7 took 65547",
            "3 7 took 65548",
            "4 7 accept 5 first 65546 rate 1642 join 426",
            "5 7 took 65549",
            "6 7 took 65550",
            "7 7 end 5 lost",
            "done 7",
        ],
    },
    // 568 bytes behind the access point and 142 declared are more than the ring's 568.
    Row {
        name: "no room in the ring for what is declared",
        changes: SMALL_RING,
        lines: &[
            // RTP 10 with the marker, 11 to 13; timestamp 0; 100 bytes of 0
            "live 7 80a1000a0000000011223344<100>",
            "live 7 8021000b0000000011223344<100>",
            "live 7 8021000c0000000011223344<100>",
            "live 7 8021000d0000000011223344<100>",
            REQUEST,
            "end",
        ],
        book: &[
            "1 7 took 65546",
            "2 7 took 65547",
            "3 7 took 65548",
            "4 7 took 65549",
            "5 7 refuse 5 507",
            "done 5",
        ],
    },
];
