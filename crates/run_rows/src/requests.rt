//! Requests for a burst (RFC 6285, RAMS-R) and other feedback, and what each is answered.
use trace_rows::{ACCESS_POINT, REQUEST, Row};

pub const ROWS: &[Row] = &[
    Row {
        name: "no eligible access point",
        changes: &[],
        // RTP 10; timestamp 0; 4 bytes of 0
        lines: &["live 7 8021000a000000001122334400000000", REQUEST, "end"],
        book: &[
            "1 7 took 65546",
            "2 7 refuse 5 507",
            // RAMS-I 507, message 0
            "2 7 send 5 86cd0003aabbccdd11223344020001fb",
            "done 2",
        ],
    },
    // 46 bytes are behind the access point, and the ring surely has room for 45.
    Row {
        name: "an access point too large for the ring",
        changes: &[
            ("ring 64", "ring 1"),
            ("declared 100", "declared 0"),
            ("minwire 42", "minwire 45"),
        ],
        lines: &[ACCESS_POINT, REQUEST, "end"],
        book: &["1 7 took 65546", "2 7 refuse 5 507", "done 2"],
    },
    Row {
        name: "an access point that fits in the ring",
        changes: &[
            ("ring 64", "ring 1"),
            ("declared 100", "declared 0"),
            ("minwire 42", "minwire 46"),
        ],
        lines: &[ACCESS_POINT, REQUEST, "end"],
        book: &[
            "1 7 took 65546",
            "2 7 accept 5 first 65546 rate 4000 join 1",
            "done 2",
        ],
    },
    // The most that the client receives is 1,280,000 bits a second: 1,600 bytes a tick.
    Row {
        name: "slow client",
        changes: &[],
        lines: &[
            ACCESS_POINT,
            // RAMS-R, at most 1,280,000 bit/s (TLV 4)
            "fb 7 5 86cd00060000c0011122334401000000040000080000000000138800",
            "end",
        ],
        book: &[
            "1 7 took 65546",
            "2 7 accept 5 first 65546 rate 1600 join 46",
            "done 2",
        ],
    },
    Row {
        name: "client too slow",
        changes: &[],
        lines: &[
            ACCESS_POINT,
            // RAMS-R, at most 1,279,999 bit/s (TLV 4)
            "fb 7 5 86cd00060000c00111223344010000000400000800000000001387ff",
            "end",
        ],
        book: &["1 7 took 65546", "2 7 refuse 5 403", "done 2"],
    },
    // A receiver report, a description and a request in one datagram; then without its last byte.
    Row {
        name: "compound feedback",
        changes: &[],
        lines: &[
            ACCESS_POINT,
            // RR; SDES; RAMS-R
            "fb 7 5 80c900010000c00181ca00030000c001010373746200000086cd00030000c0011122334401000000",
            // RR; SDES; RAMS-R cut short
            "fb 7 5 80c900010000c00181ca00030000c001010373746200000086cd00030000c00111223344010000",
            // RR; SDES; RAMS-R
            "fb 7 5 80c900010000c00181ca00030000c001010373746200000086cd00030000c0011122334401000000",
            "end",
        ],
        book: &[
            "1 7 took 65546",
            "2 7 accept 5 first 65546 rate 4000 join 1",
            // RAMS-I 200, message 0; first packet 500 (TLV 32), join after 10 ms (33), lasts 1,000 ms (34),
            // at most 3,200,000 bit/s (35)
            "2 7 send 5 86cd000caabbccdd11223344020000c82000000201f40000210000040000000a22000004000003e823000008000000000030d400",
            "3 7 bad-feedback 5 length",
            "4 7 again 5",
            // RAMS-I 200, message 0; first packet 500 (TLV 32), join after 10 ms (33), lasts 1,000 ms (34),
            // at most 3,200,000 bit/s (35)
            "4 7 send 5 86cd000caabbccdd11223344020000c82000000201f40000210000040000000a22000004000003e823000008000000000030d400",
            "done 4",
        ],
    },
    // A minimum buffer fill of three bytes, a preamble alone, another source, no access point, a
    // stop that names two bytes, a NACK for another source, and a BYE of a client that isn't known.
    Row {
        name: "request refusals",
        changes: &[],
        lines: &[
            // RAMS-R, TLV 2 of 3 bytes
            "fb 7 5 86cd00050000c00111223344010000000200000300000000",
            // RAMS-R, preamble only (TLV 5)
            "fb 7 5 86cd00040000c001112233440100000005000000",
            // RAMS-R, SSRCs 99999999
            "fb 7 5 86cd00050000c00111223344010000000100000499999999",
            REQUEST,
            // RAMS-T, TLV 61 of 2 bytes
            "fb 7 5 86cd00050000c00111223344030000003d00000200010000",
            // NACK of 10 of media source 99999999
            "fb 7 5 81cd00030000c00199999999000a0000",
            // BYE
            "fb 7 5 81cb00010000c001",
            "end",
        ],
        book: &[
            "1 7 refuse 5 400",
            "2 7 refuse 5 512",
            "3 7 refuse 5 509",
            "4 7 refuse 5 507",
            "5 7 refuse 5 404",
            "6 7 foreign-nack 5",
            "7 7 bye-idle 5",
            "done 7",
        ],
    },
    // 1,280,000 bits a second, then 2,560,000, no wish, 1,279,999, and a stop at the first packet.
    Row {
        name: "updated requests",
        changes: &[],
        lines: &[
            ACCESS_POINT,
            // RAMS-R, at most 1,280,000 bit/s (TLV 4)
            "fb 7 5 86cd00060000c0011122334401000000040000080000000000138800",
            // RAMS-R, at most 2,560,000 bit/s (TLV 4)
            "fb 7 5 86cd00060000c0011122334401000000040000080000000000271000",
            REQUEST,
            // RAMS-R, at most 1,279,999 bit/s (TLV 4)
            "fb 7 5 86cd00060000c00111223344010000000400000800000000001387ff",
            // RAMS-T, first multicast packet 10 (TLV 61)
            "fb 7 5 86cd00050000c00111223344030000003d0000040000000a",
            "end",
        ],
        book: &[
            "1 7 took 65546",
            "2 7 accept 5 first 65546 rate 1600 join 46",
            "3 7 update 5 rate 3200 join 1",
            // RAMS-I 100, message 1; first packet 500 (TLV 32), join after 10 ms (33), lasts 1,000 ms (34),
            // at most 2,560,000 bit/s (35)
            "3 7 send 5 86cd000caabbccdd11223344020100642000000201f40000210000040000000a22000004000003e8230000080000000000271000",
            "4 7 again 5",
            // RAMS-I 100, message 1; first packet 500 (TLV 32), join after 10 ms (33), lasts 1,000 ms (34),
            // at most 2,560,000 bit/s (35)
            "4 7 send 5 86cd000caabbccdd11223344020100642000000201f40000210000040000000a22000004000003e8230000080000000000271000",
            "5 7 refuse 5 403",
            "6 7 stop 5 65546",
            "6 7 end 5 stopped",
            // RAMS-I 201, message 2
            "6 7 send 5 86cd0003aabbccdd11223344020200c9",
            "done 6",
        ],
    },
];

/// Access points of ages 200 ms and 100 ms, and a request that says how much is to be buffered.
pub const BUFFER_FILL: &[Row] = &[
    Row {
        name: "at least 150 ms",
        changes: &[],
        lines: &[
            ACCESS_POINT,
            // RTP 11 with the marker at 9,000, 12 at 18,000; 4 bytes of 0
            "live 7 80a1000b000023281122334400000000",
            "live 7 8021000c000046501122334400000000",
            // RAMS-R, at least 150 ms of fill (TLV 2)
            "fb 7 5 86cd00050000c00111223344010000000200000400000096",
            "end",
        ],
        book: &[
            "1 7 took 65546",
            "2 7 took 65547",
            "3 7 took 65548",
            "4 7 accept 5 first 65546 rate 4000 join 1",
            "done 4",
        ],
    },
    Row {
        name: "at least 201 ms",
        changes: &[],
        lines: &[
            ACCESS_POINT,
            // RTP 11 with the marker at 9,000, 12 at 18,000; 4 bytes of 0
            "live 7 80a1000b000023281122334400000000",
            "live 7 8021000c000046501122334400000000",
            // RAMS-R, at least 201 ms of fill (TLV 2)
            "fb 7 5 86cd00050000c001112233440100000002000004000000c9",
            "end",
        ],
        book: &[
            "1 7 took 65546",
            "2 7 took 65547",
            "3 7 took 65548",
            "4 7 refuse 5 401",
            "done 4",
        ],
    },
    Row {
        name: "at most 99 ms",
        changes: &[],
        lines: &[
            ACCESS_POINT,
            // RTP 11 with the marker at 9,000, 12 at 18,000; 4 bytes of 0
            "live 7 80a1000b000023281122334400000000",
            "live 7 8021000c000046501122334400000000",
            // RAMS-R, at most 99 ms of fill (TLV 3)
            "fb 7 5 86cd00050000c00111223344010000000300000400000063",
            "end",
        ],
        book: &[
            "1 7 took 65546",
            "2 7 took 65547",
            "3 7 took 65548",
            "4 7 refuse 5 402",
            "done 4",
        ],
    },
    Row {
        name: "100 ms and no more",
        changes: &[],
        lines: &[
            ACCESS_POINT,
            // RTP 11 with the marker at 9,000, 12 at 18,000; 4 bytes of 0
            "live 7 80a1000b000023281122334400000000",
            "live 7 8021000c000046501122334400000000",
            // RAMS-R, at least 100 ms of fill (TLV 2), at most 100 ms of fill (TLV 3)
            "fb 7 5 86cd00070000c001112233440100000002000004000000640300000400000064",
            "end",
        ],
        book: &[
            "1 7 took 65546",
            "2 7 took 65547",
            "3 7 took 65548",
            "4 7 accept 5 first 65547 rate 4000 join 1",
            "done 4",
        ],
    },
];
