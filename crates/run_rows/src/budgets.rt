//! What bursts, a client and a channel may send in a tick, and how many clients a channel knows.
use trace_rows::{ACCESS_POINT, REQUEST, REQUEST_OF_6, Row};

pub const ROWS: &[Row] = &[
    // Two bursts of 4,000 bytes a tick and a reserve of 1,500 make 9,500.
    Row {
        name: "share is just enough",
        changes: &[("share 10000", "share 9500")],
        lines: &[ACCESS_POINT, REQUEST, REQUEST_OF_6, "end"],
        book: &[
            "1 7 took 65546",
            "2 7 accept 5 first 65546 rate 4000 join 1",
            "3 7 accept 6 first 65546 rate 4000 join 1",
            "done 3",
        ],
    },
    Row {
        name: "share is spent",
        changes: &[("share 10000", "share 9499")],
        lines: &[ACCESS_POINT, REQUEST, REQUEST_OF_6, "end"],
        book: &[
            "1 7 took 65546",
            "2 7 accept 5 first 65546 rate 4000 join 1",
            "3 7 refuse 6 501",
            // RAMS-I 501, message 0
            "3 7 send 6 86cd0003aabbccdd11223344020001f5",
            "done 3",
        ],
    },
    Row {
        name: "full table",
        changes: &[("clients 4", "clients 1")],
        lines: &[
            ACCESS_POINT,
            REQUEST,
            REQUEST_OF_6,
            // NACK of 10
            "fb 7 6 81cd00030000c00111223344000a0000",
            // BYE
            "fb 7 5 81cb00010000c001",
            REQUEST_OF_6,
            "end",
        ],
        book: &[
            "1 7 took 65546",
            "2 7 accept 5 first 65546 rate 4000 join 1",
            "3 7 refuse 6 503",
            "4 7 table-full 6 65546",
            "5 7 bye 5",
            "5 7 end 5 bye",
            "6 7 accept 6 first 65546 rate 4000 join 1",
            "done 6",
        ],
    },
    // Client 5 asks for 1,600 bytes a tick, client 6 for 4,000, and then client 5 for 3,200.
    Row {
        name: "share is just enough for an update",
        changes: &[("share 10000", "share 8700")],
        lines: &[
            ACCESS_POINT,
            // RAMS-R, at most 1,280,000 bit/s (TLV 4)
            "fb 7 5 86cd00060000c0011122334401000000040000080000000000138800",
            REQUEST_OF_6,
            // RAMS-R, at most 2,560,000 bit/s (TLV 4)
            "fb 7 5 86cd00060000c0011122334401000000040000080000000000271000",
            "end",
        ],
        book: &[
            "1 7 took 65546",
            "2 7 accept 5 first 65546 rate 1600 join 46",
            "3 7 accept 6 first 65546 rate 4000 join 1",
            "4 7 update 5 rate 3200 join 1",
            "done 4",
        ],
    },
    Row {
        name: "share is spent for an update",
        changes: &[("share 10000", "share 8699")],
        lines: &[
            ACCESS_POINT,
            // RAMS-R, at most 1,280,000 bit/s (TLV 4)
            "fb 7 5 86cd00060000c0011122334401000000040000080000000000138800",
            REQUEST_OF_6,
            // RAMS-R, at most 2,560,000 bit/s (TLV 4)
            "fb 7 5 86cd00060000c0011122334401000000040000080000000000271000",
            "end",
        ],
        book: &[
            "1 7 took 65546",
            "2 7 accept 5 first 65546 rate 1600 join 46",
            "3 7 accept 6 first 65546 rate 4000 join 1",
            "4 7 refuse 5 501",
            "done 4",
        ],
    },
];

/// Five packets of 1,500 bytes on the wire, and a burst of 2,999 bytes a tick that keeps up to
/// 1,499 of what it leaves: 2,999, 4,498 and 4,497 bytes in its first ticks.
pub const DEPTHS: &[Row] = &[
    Row {
        name: "a burst keeps what it leaves",
        changes: &[
            ("trace 1", "trace 2"),
            ("burst 4000", "burst 2999"),
            ("declared 100", "declared 0"),
            ("minwire 42", "minwire 1500"),
            ("clients 4", "clients 4 depth 1499 swell 0"),
        ],
        lines: &[
            // RTP 10 with the marker, 11 to 14; timestamp 0; 1,458 bytes of 0
            "live 7 80a1000a0000000011223344<1458>",
            "live 7 8021000b0000000011223344<1458>",
            "live 7 8021000c0000000011223344<1458>",
            "live 7 8021000d0000000011223344<1458>",
            "live 7 8021000e0000000011223344<1458>",
            REQUEST,
            "tick",
            "tick",
            "tick",
            "end",
        ],
        book: &[
            "1 7 took 65546",
            "2 7 took 65547",
            "3 7 took 65548",
            "4 7 took 65549",
            "5 7 took 65550",
            "6 7 accept 5 first 65546 rate 2999 join 3",
            "7 7 burst 5 65546 500",
            "8 7 burst 5 65547 501",
            "8 7 burst 5 65548 502",
            "9 7 burst 5 65549 503",
            "9 7 burst 5 65550 504",
            "done 9",
        ],
    },
    Row {
        name: "a burst that keeps nothing",
        changes: &[
            ("trace 1", "trace 2"),
            ("burst 4000", "burst 2999"),
            ("declared 100", "declared 0"),
            ("minwire 42", "minwire 1500"),
            ("clients 4", "clients 4 depth 0 swell 0"),
        ],
        lines: &[
            // RTP 10 with the marker, 11 to 14; timestamp 0; 1,458 bytes of 0
            "live 7 80a1000a0000000011223344<1458>",
            "live 7 8021000b0000000011223344<1458>",
            "live 7 8021000c0000000011223344<1458>",
            "live 7 8021000d0000000011223344<1458>",
            "live 7 8021000e0000000011223344<1458>",
            REQUEST,
            "end",
        ],
        book: &[
            "1 7 took 65546",
            "2 7 took 65547",
            "3 7 took 65548",
            "4 7 took 65549",
            "5 7 took 65550",
            "6 7 accept 5 first 65546 rate 2999 join 5",
            "done 6",
        ],
    },
    // Two rates of 2,999, two depths of 1,499 and a reserve of 1,500 make 10,496.
    Row {
        name: "share is just enough for two depths",
        changes: &[
            ("trace 1", "trace 2"),
            ("burst 4000", "burst 2999"),
            ("declared 100", "declared 0"),
            ("minwire 42", "minwire 1500"),
            ("share 10000", "share 10496"),
            ("clients 4", "clients 4 depth 1499 swell 0"),
        ],
        lines: &[
            // RTP 10 with the marker, 11 to 14; timestamp 0; 1,458 bytes of 0
            "live 7 80a1000a0000000011223344<1458>",
            "live 7 8021000b0000000011223344<1458>",
            "live 7 8021000c0000000011223344<1458>",
            "live 7 8021000d0000000011223344<1458>",
            "live 7 8021000e0000000011223344<1458>",
            REQUEST,
            REQUEST_OF_6,
            "end",
        ],
        book: &[
            "1 7 took 65546",
            "2 7 took 65547",
            "3 7 took 65548",
            "4 7 took 65549",
            "5 7 took 65550",
            "6 7 accept 5 first 65546 rate 2999 join 3",
            "7 7 accept 6 first 65546 rate 2999 join 3",
            "done 7",
        ],
    },
    Row {
        name: "share is spent by depths",
        changes: &[
            ("trace 1", "trace 2"),
            ("burst 4000", "burst 2999"),
            ("declared 100", "declared 0"),
            ("minwire 42", "minwire 1500"),
            ("share 10000", "share 10495"),
            ("clients 4", "clients 4 depth 1499 swell 0"),
        ],
        lines: &[
            // RTP 10 with the marker, 11 to 14; timestamp 0; 1,458 bytes of 0
            "live 7 80a1000a0000000011223344<1458>",
            "live 7 8021000b0000000011223344<1458>",
            "live 7 8021000c0000000011223344<1458>",
            "live 7 8021000d0000000011223344<1458>",
            "live 7 8021000e0000000011223344<1458>",
            REQUEST,
            REQUEST_OF_6,
            "end",
        ],
        book: &[
            "1 7 took 65546",
            "2 7 took 65547",
            "3 7 took 65548",
            "4 7 took 65549",
            "5 7 took 65550",
            "6 7 accept 5 first 65546 rate 2999 join 3",
            "7 7 refuse 6 501",
            "done 7",
        ],
    },
];

/// A packet of 1,500 bytes on the wire for three clients, and a share of 3,100: with the 1,400 that
/// the channel keeps of a tick before there are 4,500.
pub const SWELLS: &[Row] = &[
    Row {
        name: "a channel keeps what it leaves",
        changes: &[
            ("trace 1", "trace 2"),
            ("burst 4000", "burst 1600"),
            ("share 10000", "share 3100"),
            ("clients 4", "clients 4 depth 0 swell 1400"),
        ],
        lines: &[
            // RTP 10; timestamp 0; 1,458 bytes of 0
            "live 7 8021000a0000000011223344<1458>",
            "tick",
            // NACK of 10
            "fb 7 5 81cd00030000c00111223344000a0000",
            // NACK of 10
            "fb 7 6 81cd00030000c00111223344000a0000",
            // NACK of 10
            "fb 7 7 81cd00030000c00111223344000a0000",
            "tick",
            "end",
        ],
        book: &[
            "1 7 took 65546",
            "3 7 queued 5 65546",
            "4 7 queued 6 65546",
            "5 7 queued 7 65546",
            "6 7 repair 5 65546 500",
            "6 7 repair 6 65546 500",
            "6 7 repair 7 65546 500",
            "done 6",
        ],
    },
    Row {
        name: "a channel keeps one byte too few",
        changes: &[
            ("trace 1", "trace 2"),
            ("burst 4000", "burst 1600"),
            ("share 10000", "share 3100"),
            ("clients 4", "clients 4 depth 0 swell 1399"),
        ],
        lines: &[
            // RTP 10; timestamp 0; 1,458 bytes of 0
            "live 7 8021000a0000000011223344<1458>",
            "tick",
            // NACK of 10
            "fb 7 5 81cd00030000c00111223344000a0000",
            // NACK of 10
            "fb 7 6 81cd00030000c00111223344000a0000",
            // NACK of 10
            "fb 7 7 81cd00030000c00111223344000a0000",
            "tick",
            "tick",
            "end",
        ],
        book: &[
            "1 7 took 65546",
            "3 7 queued 5 65546",
            "4 7 queued 6 65546",
            "5 7 queued 7 65546",
            "6 7 repair 5 65546 500",
            "6 7 repair 6 65546 500",
            "7 7 repair 7 65546 500",
            "done 7",
        ],
    },
];
