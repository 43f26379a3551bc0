//! Ticks of a channel, worked out by hand.
use crate::fixtures::{NACK, SENDER, STOP};
use crate::row::Given::{Asks, Heard, Next, Start, Tick};
use crate::row::{Case, Row, expect_all};
use channel_config::Channel;
use rams_model::LiveNote::Took;
use rams_model::Note::{Accept, Burst, End, Forgot, Gone, Live, Queued, Repair, StopAt};
use rams_model::{Cause, Info};
use std::test::Fail;
use test_fixtures::test_channel::{CHANNEL, SOURCE};

/// What a client is told of a burst of 4,000 bytes a tick, which lasts 1,000 ms at most.
const ACCEPTED: Info = Info {
    msn: 0,
    code: 200,
    first: Some(500),
    join_ms: Some(10),
    length_ms: Some(1000),
    bps: Some(3_200_000),
};

/// What it is told of the end.
const COMPLETED: Info = Info {
    msn: 1,
    code: 201,
    first: None,
    join_ms: None,
    length_ms: None,
    bps: None,
};

/// A burst sends what fits, and ends at its stop.
const STOPPED: &[Row] = &[
    (Start(65534, 0, 4), &[Live(Took(131070))], 0, None),
    (Next(65535, 900, 4), &[Live(Took(131071))], 0, None),
    (Next(0, 1800, 4), &[Live(Took(131072))], 0, None),
    (Next(1, 2700, 4), &[Live(Took(131073))], 0, None),
    (
        Asks(5, &[]),
        &[Accept {
            client: 5,
            first: 131070,
            rate: 4000,
            join: 1,
        }],
        1,
        Some(ACCEPTED),
    ),
    (
        Heard(5, &[&STOP]),
        &[StopAt {
            client: 5,
            n: 131073,
        }],
        0,
        None,
    ),
    (
        Tick,
        &[
            Burst {
                client: 5,
                n: 131070,
                seq: 500,
            },
            Burst {
                client: 5,
                n: 131071,
                seq: 501,
            },
            Burst {
                client: 5,
                n: 131072,
                seq: 502,
            },
            End {
                client: 5,
                cause: Cause::Stopped,
            },
        ],
        4,
        Some(COMPLETED),
    ),
];

const KEEPING: Channel = Channel {
    burst: 2999,
    declared: 0,
    minwire: 1500,
    depth: 1499,
    ..CHANNEL
};

/// Packets of 1,500 bytes. Each tick gives the burst 2,999 bytes beside what it kept: it has 2,999, 4,498
/// and 4,497. Then it has caught up.
const KEPT: &[Row] = &[
    (Start(10, 0, 1458), &[Live(Took(65546))], 0, None),
    (Next(11, 900, 1458), &[Live(Took(65547))], 0, None),
    (Next(12, 1800, 1458), &[Live(Took(65548))], 0, None),
    (Next(13, 2700, 1458), &[Live(Took(65549))], 0, None),
    (Next(14, 3600, 1458), &[Live(Took(65550))], 0, None),
    (
        Asks(5, &[]),
        &[Accept {
            client: 5,
            first: 65546,
            rate: 2999,
            join: 3,
        }],
        1,
        Some(Info {
            join_ms: Some(30),
            bps: Some(2_399_200),
            ..ACCEPTED
        }),
    ),
    (
        Tick,
        &[Burst {
            client: 5,
            n: 65546,
            seq: 500,
        }],
        1,
        None,
    ),
    (
        Tick,
        &[
            Burst {
                client: 5,
                n: 65547,
                seq: 501,
            },
            Burst {
                client: 5,
                n: 65548,
                seq: 502,
            },
        ],
        2,
        None,
    ),
    (
        Tick,
        &[
            Burst {
                client: 5,
                n: 65549,
                seq: 503,
            },
            Burst {
                client: 5,
                n: 65550,
                seq: 504,
            },
        ],
        2,
        None,
    ),
    (Tick, &[], 0, None),
];

const SHORT: Channel = Channel {
    ring: 4,
    minwire: 100,
    ..CHANNEL
};

/// A ring of four packets: of six the first two are gone.
const LOST: &[Row] = &[
    (Start(10, 0, 4), &[Live(Took(65546))], 0, None),
    (Next(11, 900, 4), &[Live(Took(65547))], 0, None),
    (
        Asks(5, &[]),
        &[Accept {
            client: 5,
            first: 65546,
            rate: 4000,
            join: 1,
        }],
        1,
        Some(ACCEPTED),
    ),
    (
        Heard(6, &[&[NACK, SENDER, SOURCE, 0x000a_0000]]), // number 10
        &[Queued {
            client: 6,
            n: 65546,
        }],
        0,
        None,
    ),
    (Next(12, 1800, 4), &[Live(Took(65548))], 0, None),
    (Next(13, 2700, 4), &[Live(Took(65549))], 0, None),
    (Next(14, 3600, 4), &[Live(Took(65550))], 0, None),
    (Next(15, 4500, 4), &[Live(Took(65551))], 0, None),
    (
        Tick,
        &[
            End {
                client: 5,
                cause: Cause::Lost,
            },
            Gone {
                client: 6,
                n: 65546,
            },
        ],
        1,
        Some(Info {
            code: 502,
            ..COMPLETED
        }),
    ),
];

const BRIEF: Channel = Channel {
    limit: 1,
    ..CHANNEL
};

/// Bursts of one tick, which are served by rising client.
const LAST_TICK: &[Row] = &[
    (Start(10, 0, 4), &[Live(Took(65546))], 0, None),
    (
        Asks(6, &[]),
        &[Accept {
            client: 6,
            first: 65546,
            rate: 4000,
            join: 1,
        }],
        1,
        Some(Info {
            length_ms: Some(10),
            ..ACCEPTED
        }),
    ),
    (
        Asks(5, &[]),
        &[Accept {
            client: 5,
            first: 65546,
            rate: 4000,
            join: 1,
        }],
        1,
        Some(Info {
            length_ms: Some(10),
            ..ACCEPTED
        }),
    ),
    (
        Tick,
        &[
            Burst {
                client: 5,
                n: 65546,
                seq: 500,
            },
            End {
                client: 5,
                cause: Cause::Limit,
            },
            Burst {
                client: 6,
                n: 65546,
                seq: 500,
            },
            End {
                client: 6,
                cause: Cause::Limit,
            },
        ],
        4,
        Some(COMPLETED),
    ),
];

const SLOW: Channel = Channel {
    burst: 1600,
    idle: 2,
    ..CHANNEL
};

/// Of 1,600 bytes a tick 1,500 are taken; the second packet waits, and the small one behind it doesn't.
/// A client is forgotten in its second tick without a pending repair.
const REPAIRED: &[Row] = &[
    (Start(10, 0, 1458), &[Live(Took(65546))], 0, None),
    (Next(11, 900, 1458), &[Live(Took(65547))], 0, None),
    (Next(12, 1800, 4), &[Live(Took(65548))], 0, None),
    (
        Heard(5, &[&[NACK, SENDER, SOURCE, 0x000a_0003]]), // numbers 10 to 12
        &[
            Queued {
                client: 5,
                n: 65546,
            },
            Queued {
                client: 5,
                n: 65547,
            },
            Queued {
                client: 5,
                n: 65548,
            },
        ],
        0,
        None,
    ),
    (
        Tick,
        &[
            Repair {
                client: 5,
                n: 65546,
                seq: 500,
            },
            Repair {
                client: 5,
                n: 65548,
                seq: 501,
            },
        ],
        2,
        None,
    ),
    (
        Tick,
        &[Repair {
            client: 5,
            n: 65547,
            seq: 502,
        }],
        1,
        None,
    ),
    (Tick, &[], 0, None),
    (Tick, &[Forgot { client: 5 }], 0, None),
];

const CASES: &[Case] = &[
    (CHANNEL, STOPPED),
    (KEEPING, KEPT),
    (SHORT, LOST),
    (BRIEF, LAST_TICK),
    (SLOW, REPAIRED),
];

#[test]
fn bursts_and_repairs_are_sent(rt: HostRuntime) -> Result<(), Fail> {
    expect_all(&rt, rt.alloc(), CASES)
}
