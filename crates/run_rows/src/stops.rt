//! Stops of a burst (RFC 6285, RAMS-T): where the multicast took over.
use trace_rows::{REQUEST, Row, STOP_ACROSS_THE_WRAP};

pub const ROWS: &[Row] = &[
    STOP_ACROSS_THE_WRAP,
    // All four are sent before the stop, which names the second.
    Row {
        name: "stop after the last",
        changes: &[],
        lines: &[
            // RTP 65,534 with the marker at 0, 65,535 at 900, 0 at 1,800, 1 at 2,700; 4 bytes of 0
            "live 7 80a1fffe000000001122334400000000",
            "live 7 8021ffff000003841122334400000000",
            "live 7 80210000000007081122334400000000",
            "live 7 8021000100000a8c1122334400000000",
            REQUEST,
            "tick",
            // RAMS-T, first multicast packet 65,535 (TLV 61)
            "fb 7 5 86cd00050000c00111223344030000003d0000040000ffff",
            // RAMS-T, first multicast packet 65,535 (TLV 61)
            "fb 7 5 86cd00050000c00111223344030000003d0000040000ffff",
            "end",
        ],
        book: &[
            "1 7 took 131070",
            "2 7 took 131071",
            "3 7 took 131072",
            "4 7 took 131073",
            "5 7 accept 5 first 131070 rate 4000 join 1",
            "6 7 burst 5 131070 500",
            "6 7 burst 5 131071 501",
            "6 7 burst 5 131072 502",
            "6 7 burst 5 131073 503",
            "7 7 stop 5 131074",
            "7 7 end 5 stopped",
            "8 7 stop-idle 5",
            "done 8",
        ],
    },
    // The stop names the burst's first packet.
    Row {
        name: "stop already passed",
        changes: &[],
        lines: &[
            // RTP 65,534 with the marker at 0, 65,535 at 900, 0 at 1,800, 1 at 2,700; 4 bytes of 0
            "live 7 80a1fffe000000001122334400000000",
            "live 7 8021ffff000003841122334400000000",
            "live 7 80210000000007081122334400000000",
            "live 7 8021000100000a8c1122334400000000",
            REQUEST,
            // RAMS-T, first multicast packet 65,534 (TLV 61)
            "fb 7 5 86cd00050000c00111223344030000003d0000040000fffe",
            "tick",
            "end",
        ],
        book: &[
            "1 7 took 131070",
            "2 7 took 131071",
            "3 7 took 131072",
            "4 7 took 131073",
            "5 7 accept 5 first 131070 rate 4000 join 1",
            "6 7 stop 5 131070",
            "6 7 end 5 stopped",
            "done 7",
        ],
    },
    // Only the low 16 bits of the number that a stop names count.
    Row {
        name: "stop with high bits",
        lines: &[
            // RTP 65,534 with the marker at 0, 65,535 at 900, 0 at 1,800, 1 at 2,700; 4 bytes of 0
            "live 7 80a1fffe000000001122334400000000",
            "live 7 8021ffff000003841122334400000000",
            "live 7 80210000000007081122334400000000",
            "live 7 8021000100000a8c1122334400000000",
            REQUEST,
            // RAMS-T, first multicast packet 589,825 (TLV 61)
            "fb 7 5 86cd00050000c00111223344030000003d00000400090001",
            "tick",
            "end",
        ],
        ..STOP_ACROSS_THE_WRAP
    },
];
