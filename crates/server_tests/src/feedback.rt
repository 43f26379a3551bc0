//! Worked answers to datagrams.
use crate::fixtures::{BYE, NACK, REQUEST, SENDER, STOP};
use crate::row::Given::{Asks, Heard, Next, Start};
use crate::row::{Case, Row, expect_all};
use channel_config::Channel;
use rams_model::LiveNote::Took;
use rams_model::Note::{
    Accept, Again, Already, BadFeedback, Bye, ByeIdle, Early, End, ForeignNack, Live, Queued,
    Refuse, StopAt, StopIdle, StopKept, TableFull, Unheld, Update,
};
use rams_model::{Cause, FrameFault, Info};
use std::test::Fail;
use test_fixtures::test_channel::{CHANNEL, SOURCE};

const RECEIVER_REPORT: [u32; 2] = [
    0x80c9_0001, // v=2, p=0, count=0, RR, length 1
    SENDER, // sender
];

const SOURCE_DESCRIPTION: [u32; 4] = [
    0x81ca_0003, // v=2, p=0, count=1, SDES, length 3
    SENDER, // its SSRC
    0x0103_7374, // CNAME, length 3, "st"
    0x6200_0000, // "b", end
];

const PLAIN_STOP: [u32; 4] = [
    0x86cd_0003, // v=2, p=0, FMT=6 (RAMS), RTPFB, length 3
    SENDER, // sender
    SOURCE, // media source
    0x0300_0000, // SFMT=3 (RAMS-T)
];

const UNREADABLE_STOP: [u32; 6] = [
    0x86cd_0005, // v=2, p=0, FMT=6 (RAMS), RTPFB, length 5
    SENDER, // sender
    SOURCE, // media source
    0x0300_0000, // SFMT=3 (RAMS-T)
    0x3d00_0002, // TLV 61 (first multicast packet), length 2 in place of 4
    0x0001_0000, // number 1, padding
];

/// What a client is told of a burst of 4,000 bytes a tick, which lasts 1,000 ms at most.
const ACCEPTED: Info = Info {
    msn: 0,
    code: 200,
    first: Some(500),
    join_ms: Some(10),
    length_ms: Some(1000),
    bps: Some(3_200_000),
};

/// A code alone: 400 in a message of its own.
const REFUSED: Info = Info {
    msn: 0,
    code: 400,
    first: None,
    join_ms: None,
    length_ms: None,
    bps: None,
};

/// The messages of a datagram are answered in their order, of the RAMS messages the first alone; one that
/// doesn't frame changes nothing.
const MESSAGES: &[Row] = &[
    (Start(65534, 0, 4), &[Live(Took(131070))], 0, None),
    (Next(65535, 900, 4), &[Live(Took(131071))], 0, None),
    (Next(0, 1800, 4), &[Live(Took(131072))], 0, None),
    (Next(1, 2700, 4), &[Live(Took(131073))], 0, None),
    (
        Heard(
            5,
            &[
                &RECEIVER_REPORT,
                &SOURCE_DESCRIPTION,
                &[NACK, SENDER, SOURCE, 0xfffe_0000], // 65534
                &REQUEST,
                &[NACK, SENDER, SOURCE, 0xffff_0000], // 65535
                &PLAIN_STOP,
                &BYE,
            ],
        ),
        &[
            Queued {
                client: 5,
                n: 131070,
            },
            Accept {
                client: 5,
                first: 131070,
                rate: 4000,
                join: 1,
            },
            Early {
                client: 5,
                n: 131071,
            },
            Bye { client: 5 },
            End {
                client: 5,
                cause: Cause::Bye,
            },
        ],
        1,
        Some(ACCEPTED),
    ),
    (
        Heard(5, &[&PLAIN_STOP, &REQUEST]),
        &[StopIdle { client: 5 }],
        0,
        None,
    ),
    (
        // 65535, and the first and third number behind it.
        Heard(5, &[&[NACK, SENDER, SOURCE, 0xffff_0005]]),
        &[
            Queued {
                client: 5,
                n: 131071,
            },
            Queued {
                client: 5,
                n: 131072,
            },
            Unheld { client: 5, low: 2 },
        ],
        0,
        None,
    ),
    (
        Heard(5, &[&[NACK, SENDER, SOURCE, 0xffff_0000]]),
        &[Already {
            client: 5,
            n: 131071,
        }],
        0,
        None,
    ),
    (
        Heard(5, &[&REQUEST, &[NACK, SENDER, SOURCE]]),
        &[BadFeedback {
            client: 5,
            fault: FrameFault::Length,
        }],
        0,
        None,
    ),
    (
        Heard(5, &[&REQUEST]),
        &[Accept {
            client: 5,
            first: 131070,
            rate: 4000,
            join: 1,
        }],
        1,
        Some(ACCEPTED),
    ),
    (
        Heard(5, &[&STOP]),
        &[StopAt {
            client: 5,
            n: 131073,
        }],
        0,
        None,
    ),
    (
        Heard(5, &[&PLAIN_STOP]),
        &[StopKept {
            client: 5,
            n: 131073,
        }],
        0,
        None,
    ),
    (
        // 65534, which the burst will send, and 1, where it stops.
        Heard(
            5,
            &[
                &[NACK, SENDER, SOURCE, 0xfffe_0000],
                &[NACK, SENDER, SOURCE, 0x0001_0000],
            ],
        ),
        &[
            Early {
                client: 5,
                n: 131070,
            },
            Queued {
                client: 5,
                n: 131073,
            },
        ],
        0,
        None,
    ),
    (
        Heard(5, &[&REQUEST]),
        &[Again { client: 5 }],
        1,
        Some(ACCEPTED),
    ),
    (
        // A BYE of another SSRC, and a NACK of another media source.
        Heard(
            5,
            &[
                &[0x81cb_0001, 0x0000_c002],
                &[NACK, SENDER, 0x9999_9999, 0xffff_0000],
            ],
        ),
        &[ByeIdle { client: 5 }, ForeignNack { client: 5 }],
        0,
        None,
    ),
    (
        Heard(5, &[&BYE]),
        &[
            Bye { client: 5 },
            End {
                client: 5,
                cause: Cause::Bye,
            },
        ],
        0,
        None,
    ),
];

/// TLV 4 (max receive bitrate), length 8: 1,280,000 bits per second, 1,600 bytes a tick of 10 ms.
const SLOW: [u32; 3] = [0x0400_0008, 0, 1_280_000];

/// One bit per second less: too little for what the source adds and a packet.
const TOO_SLOW: [u32; 3] = [0x0400_0008, 0, 1_279_999];

/// 3,200 bytes a tick.
const FAST: [u32; 3] = [0x0400_0008, 0, 2_560_000];

const ACCEPTED_SLOW: Info = Info {
    join_ms: Some(460),
    bps: Some(1_280_000),
    ..ACCEPTED
};

const UPDATED: Info = Info {
    msn: 1,
    code: 100,
    bps: Some(2_560_000),
    ..ACCEPTED
};

/// A request that names another bit rate changes the rate; the stop is the packet that is next. A RAMS-T
/// that can't be read is refused.
const UPDATES: &[Row] = &[
    (Start(10, 0, 4), &[Live(Took(65546))], 0, None),
    (
        Heard(5, &[&UNREADABLE_STOP]),
        &[Refuse {
            client: 5,
            code: 404,
        }],
        1,
        Some(Info {
            code: 404,
            ..REFUSED
        }),
    ),
    (
        Asks(5, &SLOW),
        &[Accept {
            client: 5,
            first: 65546,
            rate: 1600,
            join: 46,
        }],
        1,
        Some(ACCEPTED_SLOW),
    ),
    (
        Asks(5, &FAST),
        &[Update {
            client: 5,
            rate: 3200,
            join: 1,
        }],
        1,
        Some(UPDATED),
    ),
    (Asks(5, &[]), &[Again { client: 5 }], 1, Some(UPDATED)),
    (
        Asks(5, &TOO_SLOW),
        &[Refuse {
            client: 5,
            code: 403,
        }],
        1,
        Some(Info {
            code: 403,
            ..REFUSED
        }),
    ),
    (
        Heard(5, &[&PLAIN_STOP]),
        &[
            StopAt {
                client: 5,
                n: 65546,
            },
            End {
                client: 5,
                cause: Cause::Stopped,
            },
        ],
        1,
        Some(Info {
            msn: 2,
            code: 201,
            ..REFUSED
        }),
    ),
];

/// A channel with room for one burst.
const ONE_BURST: Channel = Channel {
    share: 5500,
    ..CHANNEL
};

/// Access points that are 200 and 100 ms old, and a burst of another client that leaves no room for a
/// second. Of several causes of a refusal the first counts.
const BUSY: &[Row] = &[
    (Start(10, 0, 4), &[Live(Took(65546))], 0, None),
    (Start(11, 9000, 4), &[Live(Took(65547))], 0, None),
    (Next(12, 18000, 4), &[Live(Took(65548))], 0, None),
    (
        Asks(6, &[]),
        &[Accept {
            client: 6,
            first: 65547,
            rate: 4000,
            join: 1,
        }],
        1,
        Some(ACCEPTED),
    ),
    (
        Asks(
            5,
            &[
                0x0100_0004, // TLV 1 (media senders), length 4
                0x9999_9999, // another source
                0x0500_0000, // TLV 5 (preamble only), length 0
                0x0200_0003, // TLV 2 (min buffer fill), length 3 in place of 4
                0,
            ],
        ),
        &[Refuse {
            client: 5,
            code: 400,
        }],
        1,
        Some(REFUSED),
    ),
    (
        Asks(
            5,
            &[
                0x0100_0004, // TLV 1 (media senders), length 4
                0x9999_9999, // another source
                0x0500_0000, // TLV 5 (preamble only), length 0
            ],
        ),
        &[Refuse {
            client: 5,
            code: 512,
        }],
        1,
        Some(Info {
            code: 512,
            ..REFUSED
        }),
    ),
    (
        Asks(
            5,
            &[
                0x0100_0004, // TLV 1 (media senders), length 4
                0x9999_9999, // another source
                0x0200_0004, // TLV 2 (min buffer fill), length 4
                201, // ms
            ],
        ),
        &[Refuse {
            client: 5,
            code: 509,
        }],
        1,
        Some(Info {
            code: 509,
            ..REFUSED
        }),
    ),
    (
        Asks(
            5,
            &[
                0x0200_0004, // TLV 2 (min buffer fill), length 4
                201, // ms
                0x0300_0004, // TLV 3 (max buffer fill), length 4
                99, // ms
            ],
        ),
        &[Refuse {
            client: 5,
            code: 401,
        }],
        1,
        Some(Info {
            code: 401,
            ..REFUSED
        }),
    ),
    (
        Asks(
            5,
            &[
                0x0200_0004, // TLV 2 (min buffer fill), length 4
                150, // ms
                0x0300_0004, // TLV 3 (max buffer fill), length 4
                199, // ms
            ],
        ),
        &[Refuse {
            client: 5,
            code: 402,
        }],
        1,
        Some(Info {
            code: 402,
            ..REFUSED
        }),
    ),
    (
        Asks(5, &TOO_SLOW),
        &[Refuse {
            client: 5,
            code: 403,
        }],
        1,
        Some(Info {
            code: 403,
            ..REFUSED
        }),
    ),
    (
        Asks(5, &SLOW),
        &[Refuse {
            client: 5,
            code: 501,
        }],
        1,
        Some(Info {
            code: 501,
            ..REFUSED
        }),
    ),
];

/// A channel that holds one packet and knows one client.
const ONE_PLACE: Channel = Channel {
    ring: 1,
    declared: 0,
    minwire: 45,
    clients: 1,
    ..CHANNEL
};

/// The only packet isn't eligible: the 46 bytes behind it are more than the 45 that the ring is sure to
/// hold. Once another client has the only place, that comes first.
const NO_PLACE: &[Row] = &[
    (Start(10, 0, 4), &[Live(Took(65546))], 0, None),
    (
        Asks(
            5,
            &[
                0x0200_0004, // TLV 2 (min buffer fill), length 4
                201, // ms
            ],
        ),
        &[Refuse {
            client: 5,
            code: 507,
        }],
        1,
        Some(Info {
            code: 507,
            ..REFUSED
        }),
    ),
    (
        Heard(6, &[&[NACK, 0x0000_c002, SOURCE, 0x000a_0000]]), // number 10
        &[Queued {
            client: 6,
            n: 65546,
        }],
        0,
        None,
    ),
    (
        Heard(5, &[&[NACK, SENDER, SOURCE, 0x000a_0000]]), // number 10
        &[TableFull {
            client: 5,
            n: 65546,
        }],
        0,
        None,
    ),
    (
        Asks(5, &[]),
        &[Refuse {
            client: 5,
            code: 503,
        }],
        1,
        Some(Info {
            code: 503,
            ..REFUSED
        }),
    ),
];

const NARROW: Channel = Channel {
    share: 8699,
    ..CHANNEL
};

/// Two bursts of 7,200 bytes a tick together leave the reserve of 1,500 where the share is 8,700; here it
/// is one byte less.
const RESERVED: &[Row] = &[
    (Start(10, 0, 4), &[Live(Took(65546))], 0, None),
    (
        Asks(5, &SLOW),
        &[Accept {
            client: 5,
            first: 65546,
            rate: 1600,
            join: 46,
        }],
        1,
        Some(ACCEPTED_SLOW),
    ),
    (
        Asks(6, &[]),
        &[Accept {
            client: 6,
            first: 65546,
            rate: 4000,
            join: 1,
        }],
        1,
        Some(ACCEPTED),
    ),
    (
        Asks(5, &FAST),
        &[Refuse {
            client: 5,
            code: 501,
        }],
        1,
        Some(Info {
            code: 501,
            ..REFUSED
        }),
    ),
];

const ANSWERED: &[Case] = &[(CHANNEL, MESSAGES), (CHANNEL, UPDATES)];

#[test]
fn messages_are_answered(rt: HostRuntime) -> Result<(), Fail> {
    expect_all(&rt, rt.alloc(), ANSWERED)
}

const REFUSALS: &[Case] = &[(ONE_BURST, BUSY), (ONE_PLACE, NO_PLACE), (NARROW, RESERVED)];

#[test]
fn requests_are_refused(rt: HostRuntime) -> Result<(), Fail> {
    expect_all(&rt, rt.alloc(), REFUSALS)
}
