//! Answers, counted.
use bytes::Bytes;
use generated::summary::Tally;
use rams_model::{Answer, Cause, Info, LiveNote, Note, Order};
use std::test::Fail;
use test_fixtures::test_calls::done;

/// A note of each kind that is counted, of some twice, and some that aren't.
const NOTES: [Note; 14] = [
    Note::Live(LiveNote::Took(65546)),
    Note::Live(LiveNote::Restart(85547)),
    Note::Accept {
        client: 5,
        first: 65546,
        rate: 4000,
        join: 1,
    },
    Note::Update {
        client: 5,
        rate: 4000,
        join: 1,
    },
    Note::Again { client: 5 },
    Note::Again { client: 6 },
    Note::Refuse {
        client: 6,
        code: 507,
    },
    Note::StopIdle { client: 5 },
    Note::Burst {
        client: 5,
        n: 65546,
        seq: 0,
    },
    Note::Repair {
        client: 5,
        n: 65546,
        seq: 1,
    },
    Note::Repair {
        client: 6,
        n: 65546,
        seq: 0,
    },
    Note::Repair {
        client: 6,
        n: 65547,
        seq: 1,
    },
    Note::End {
        client: 5,
        cause: Cause::Stopped,
    },
    Note::Forgot { client: 5 },
];

const NOTHING: &[u8] =
    b"rams-made 7 1\nevents 11\ntook 0\naccept 0\nagain 0\nrefuse 0\nburst 0\nrepair 0\nend 0\nbytes 0\ndone\n";

/// Twice those notes, and once the packet.
const TWICE: &[u8] =
    b"rams-made 7 1\nevents 11\ntook 2\naccept 2\nagain 4\nrefuse 2\nburst 2\nrepair 6\nend 2\nbytes 46\ndone\n";

/// A RAMS-I that ends a burst (RFC 6285, 7.3).
const ENDED: Info = Info {
    msn: 1,
    code: 201,
    first: None,
    join_ms: None,
    length_ms: None,
    bps: None,
};

#[test]
fn answers_are_counted(rt: HostRuntime) -> Result<(), Fail> {
    let alloc = rt.alloc();
    let mut tally = Tally::new();
    assert!(rt; done(tally.write(alloc, 7, 1, 11))?.as_slice() == NOTHING);
    let packet = Bytes::from_vec(NOTHING[..16].to_vec(alloc)?)?;
    let mut orders = Vec::new(alloc);
    orders.push(Order::Rtx {
        client: 5,
        n: 65546,
        seq: 0,
        packet,
    })?;
    orders.push(Order::Info {
        client: 5,
        info: ENDED,
    })?;
    tally.add(&Answer::new(NOTES.to_vec(alloc)?, orders));
    tally.add(&Answer::new(NOTES.to_vec(alloc)?, Vec::new(alloc)));
    assert!(rt; done(tally.write(alloc, 7, 1, 11))?.as_slice() == TWICE);
    Ok(())
}
