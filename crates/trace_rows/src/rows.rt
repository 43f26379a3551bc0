//! Rows that are run whole, in pieces and with faults.
use super::{REQUEST, Row};

/// Three packets of 1,500 bytes on the wire, the second of them the access point, and a rate of
/// 1,500 bytes a tick: 3,000 bytes behind the second are caught up by 1 byte a tick.
pub const ONE_PACKET_PER_TICK: Row = Row {
    name: "one packet per tick",
    changes: &[
        ("burst 4000", "burst 1500"),
        ("declared 100", "declared 0"),
        ("minwire 42", "minwire 1500"),
    ],
    lines: &[
        // RTP 10 at 0, 11 with the marker at 900, 12 at 1,800; 1,458 bytes of 0
        "live 7 8021000a0000000011223344<1458>",
        "live 7 80a1000b0000038411223344<1458>",
        "live 7 8021000c0000070811223344<1458>",
        REQUEST,
        "tick",
        "tick",
        "end",
    ],
    book: &[
        "1 7 took 65546",
        "2 7 took 65547",
        "3 7 took 65548",
        "4 7 accept 5 first 65547 rate 1500 join 3000",
        // RAMS-I 200, message 0; first packet 500 (TLV 32), join after 30,000 ms (33), lasts 1,000 ms (34),
        // at most 1,200,000 bit/s (35)
        "4 7 send 5 86cd000caabbccdd11223344020000c82000000201f40000210000040000753022000004000003e8230000080000000000124f80",
        "5 7 burst 5 65547 500",
        // RTX 500 of 11 with the marker; timestamp 900; 1,458 bytes of 0
        "5 7 send 5 80e301f40000038411223344000b<1458>",
        "6 7 burst 5 65548 501",
        // RTX 501 of 12; timestamp 1,800; 1,458 bytes of 0
        "6 7 send 5 806301f50000070811223344000c<1458>",
        "done 6",
    ],
};

/// Packets 65,534, 65,535, 0 and 1 of the source, and the first packet that the client got by
/// multicast is 1. The book is whole.
pub const STOP_ACROSS_THE_WRAP: Row = Row {
    name: "stop across the wrap",
    changes: &[],
    lines: &[
        // RTP 65,534 with the marker at 0, 65,535 at 900, 0 at 1,800, 1 at 2,700; 4 bytes of 0
        "live 7 80a1fffe000000001122334400000000",
        "live 7 8021ffff000003841122334400000000",
        "live 7 80210000000007081122334400000000",
        "live 7 8021000100000a8c1122334400000000",
        REQUEST,
        // RAMS-T, first multicast packet 1 (TLV 61)
        "fb 7 5 86cd00050000c00111223344030000003d00000400000001",
        "tick",
        "end",
    ],
    book: &[
        "1 7 took 131070",
        "2 7 took 131071",
        "3 7 took 131072",
        "4 7 took 131073",
        "5 7 accept 5 first 131070 rate 4000 join 1",
        // RAMS-I 200, message 0; first packet 500 (TLV 32), join after 10 ms (33), lasts 1,000 ms (34),
        // at most 3,200,000 bit/s (35)
        "5 7 send 5 86cd000caabbccdd11223344020000c82000000201f40000210000040000000a22000004000003e823000008000000000030d400",
        "6 7 stop 5 131073",
        "7 7 burst 5 131070 500",
        // RTX 500 of 65,534 with the marker; timestamp 0; 4 bytes of 0
        "7 7 send 5 80e301f40000000011223344fffe00000000",
        "7 7 burst 5 131071 501",
        // RTX 501 of 65,535; timestamp 900; 4 bytes of 0
        "7 7 send 5 806301f50000038411223344ffff00000000",
        "7 7 burst 5 131072 502",
        // RTX 502 of 0; timestamp 1,800; 4 bytes of 0
        "7 7 send 5 806301f60000070811223344000000000000",
        "7 7 end 5 stopped",
        // RAMS-I 201, message 1
        "7 7 send 5 86cd0003aabbccdd11223344020100c9",
        "done 7",
    ],
};
