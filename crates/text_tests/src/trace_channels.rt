//! Channel lines, each number at the edges of its range.
use crate::trace_words::{Answer, expect_words};
use std::test::Fail;

/// Edits of the channel line, and the word of what it is then read as.
const EDITS: &[Answer] = &[
    (
        "ok",
        &[
            "@channel 7>channel 1",
            "@channel 7>channel 65535",
            "@ssrc 11223344>ssrc 00000000",
            "@pt 33>pt 0",
            "@pt 33>pt 127",
            "@rtx 99>rtx 127",
            "@server aabbccdd>server ffffffff",
            "@seq0 500>seq0 0",
            "@seq0 500>seq0 65535",
            "@ring 64>ring 1",
            "@ring 64>ring 32768",
            "@window 0>window 64",
            "@access marker>access ts",
            "@share 10000>share 1500",
            "@share 10000>share 1000000000",
            "@reserve 1500>reserve 1000000000",
            "@burst 4000>burst 1500",
            "@declared 100>declared 1000000000",
            "@minwire 42>minwire 1500",
            "@limit 100>limit 1",
            "@limit 100>limit 1000000",
            "@idle 100>idle 1000000",
            "@clients 4>clients 1024",
            "@clients 4>clients 4 depth 1000000000 swell 7",
            "@clients 4>clients 4 depth 7 swell 1000000000",
        ],
    ),
    (
        "range",
        &[
            "@channel 7>channel 0",
            "@channel 7>channel 65536",
            "@pt 33>pt 128",
            "@rtx 99>rtx 128",
            "@seq0 500>seq0 65536",
            "@ring 64>ring 0",
            "@ring 64>ring 32769",
            "@window 0>window 65",
            "@share 10000>share 1499",
            "@share 10000>share 1000000001",
            "@reserve 1500>reserve 1499",
            "@burst 4000>burst 1499",
            "@declared 100>declared 1000000001",
            "@minwire 42>minwire 41",
            "@minwire 42>minwire 1501",
            "@limit 100>limit 0",
            "@limit 100>limit 1000001",
            "@idle 100>idle 0",
            "@clients 4>clients 0",
            "@clients 4>clients 1025",
            "@clients 4>clients 999999999999999",
            "@clients 4>clients 4 depth 1000000001 swell 0",
            "@clients 4>clients 4 depth 0 swell 1000000001",
        ],
    ),
    (
        "form",
        &[
            "@access marker>access Marker",
            "@access marker>access tsx",
            "@ssrc 11223344>ssrc 1122334",
            "@ssrc 11223344>ssrc 112233445",
            "@server aabbccdd>server AABBCCDD",
            "@pt 33>pt 033",
            "@pt 33 rtx 99>rtx 99 pt 33",
            "@share 10000 >",
            "@idle>idles",
            "@clients 4>clients 4 ",
            "@clients 4>clients",
            "@minwire 42>minwire -42",
            "@ring 64>ring 1000000000000000",
            "@clients 4>clients 4 depth 0",
            "@clients 4>clients 4 swell 0 depth 0",
            "@clients 4>clients 4 depth 00 swell 0",
            "@clients 4>clients 4 depth 0 swell 0 depth 0",
        ],
    ),
];

#[test]
fn channels_have_forms_and_ranges(rt: HostRuntime) -> Result<(), Fail> {
    expect_words(&rt, rt.alloc(), EDITS)
}
