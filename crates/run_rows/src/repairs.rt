//! Repairs of lost packets, asked for by generic NACKs (RFC 4585, 6.2.1) and sent as
//! retransmissions (RFC 4588).
use trace_rows::{REQUEST, Row};

pub const ROWS: &[Row] = &[
    // Asked for are 65,535 and 0, which hasn't come.
    Row {
        name: "repair across the wrap",
        changes: &[],
        lines: &[
            // RTP 65,534 with the marker at 0, 65,535 at 900; 4 bytes of 0
            "live 7 80a1fffe000000001122334400000000",
            "live 7 8021ffff000003841122334400000000",
            // NACK of 65,535, 0
            "fb 7 5 81cd00030000c00111223344ffff0001",
            "tick",
            "end",
        ],
        book: &[
            "1 7 took 131070",
            "2 7 took 131071",
            "3 7 queued 5 131071",
            "3 7 unheld 5 0",
            "4 7 repair 5 131071 500",
            // RTX 500 of 65,535; timestamp 900; 4 bytes of 0
            "4 7 send 5 806301f40000038411223344ffff00000000",
            "done 4",
        ],
    },
    // Packet 65,535 is asked for twice. Packet 65,534 is asked for while the burst is about to send
    // it.
    Row {
        name: "early and already",
        changes: &[],
        lines: &[
            // RTP 65,534 with the marker at 0, 65,535 at 900; 4 bytes of 0
            "live 7 80a1fffe000000001122334400000000",
            "live 7 8021ffff000003841122334400000000",
            // NACK of 65,535
            "fb 7 5 81cd00030000c00111223344ffff0000",
            // NACK of 65,535
            "fb 7 5 81cd00030000c00111223344ffff0000",
            REQUEST,
            // NACK of 65,534
            "fb 7 5 81cd00030000c00111223344fffe0000",
            "tick",
            "end",
        ],
        book: &[
            "1 7 took 131070",
            "2 7 took 131071",
            "3 7 queued 5 131071",
            "4 7 already 5 131071",
            "5 7 accept 5 first 131070 rate 4000 join 1",
            "6 7 early 5 131070",
            "7 7 burst 5 131070 500",
            "7 7 burst 5 131071 501",
            "7 7 repair 5 131071 502",
            "done 7",
        ],
    },
    // Two packets of 1,500 bytes and one of 46: of 1,600 bytes in a tick 100 are left for the
    // third.
    Row {
        name: "repair waits for its budget",
        changes: &[("burst 4000", "burst 1600")],
        lines: &[
            // RTP 10 of 1,458 bytes, 11 of 1,458 bytes, 12 of 4 bytes; timestamp 0
            "live 7 8021000a0000000011223344<1458>",
            "live 7 8021000b0000000011223344<1458>",
            "live 7 8021000c000000001122334400000000",
            // NACK of 10, 11, 12
            "fb 7 5 81cd00030000c00111223344000a0003",
            "tick",
            "tick",
            "end",
        ],
        book: &[
            "1 7 took 65546",
            "2 7 took 65547",
            "3 7 took 65548",
            "4 7 queued 5 65546",
            "4 7 queued 5 65547",
            "4 7 queued 5 65548",
            "5 7 repair 5 65546 500",
            "5 7 repair 5 65548 501",
            "6 7 repair 5 65547 502",
            "done 6",
        ],
    },
];
