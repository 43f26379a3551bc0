//! A channel's events, worked out by hand.
use crate::fixtures::{BYE, NACK, SENDER, STOP};
use crate::row::Given::{Asks, Heard, Next, Start, Tick};
use crate::row::{Case, Row, expect_all};
use rams_model::LiveNote::Took;
use rams_model::Note::{Accept, Burst, Bye, Early, End, Live, Queued, Repair, StopAt};
use rams_model::{Cause, Info};
use std::test::Fail;
use test_fixtures::test_channel::{CHANNEL, SOURCE};

/// A repair is sent behind the burst; what the burst will send isn't repaired.
const EVENTS: &[Row] = &[
    (Start(65534, 0, 4), &[Live(Took(131070))], 0, None),
    (Next(65535, 900, 4), &[Live(Took(131071))], 0, None),
    (
        Heard(5, &[&[NACK, SENDER, SOURCE, 0xffff_0000]]), // 65535
        &[Queued {
            client: 5,
            n: 131071,
        }],
        0,
        None,
    ),
    (
        Asks(5, &[]),
        &[Accept {
            client: 5,
            first: 131070,
            rate: 4000,
            join: 1,
        }],
        1,
        Some(Info {
            msn: 0,
            code: 200,
            first: Some(500),
            join_ms: Some(10),
            length_ms: Some(1000),
            bps: Some(3_200_000),
        }),
    ),
    (
        Heard(5, &[&[NACK, SENDER, SOURCE, 0xfffe_0000]]), // 65534
        &[Early {
            client: 5,
            n: 131070,
        }],
        0,
        None,
    ),
    (
        Tick,
        &[
            Burst {
                client: 5,
                n: 131070,
                seq: 500,
            },
            Burst {
                client: 5,
                n: 131071,
                seq: 501,
            },
            Repair {
                client: 5,
                n: 131071,
                seq: 502,
            },
        ],
        3,
        None,
    ),
    (
        Heard(5, &[&STOP, &BYE]),
        &[
            StopAt {
                client: 5,
                n: 131073,
            },
            Bye { client: 5 },
            End {
                client: 5,
                cause: Cause::Bye,
            },
        ],
        0,
        None,
    ),
];

const CASES: &[Case] = &[(CHANNEL, EVENTS)];

#[test]
fn a_channel_answers(rt: HostRuntime) -> Result<(), Fail> {
    expect_all(&rt, rt.alloc(), CASES)
}
