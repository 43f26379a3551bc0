//! What receivers answer, present and send.
use crate::row::Call::{Ask, Info, Multicast, Rtx};
use crate::row::Said::{Asks, Came, Joined, Told};
use crate::row::{Row, TUNED, datagram, expect_all};
use receiver_core::{InfoCame, MediaCame, Receiver};
use std::alloc::Global;
use std::process::Abort;
use std::test::Fail;
use test_fixtures::test_calls::let_go;
use test_fixtures::test_words::Words;

/// A RAMS-I of a burst that begins with sequence number 500 (RFC 6285, 7.3).
const BEGINS: Words = &[
    "86cd000c", "aabbccdd", "11223344", // format 6 of type 205, sender, media source
    "020000c8", // RAMS-I, number 0, code 200
    "20000002", "01f40000", // first sequence number
    "21000004", "0000000a", // earliest join time
    "22000004", "000003e8", // duration
    "23000008", "00000000", "0030d400", // most bits per second
];

/// A RAMS-I that the burst is over.
const OVER: Words = &["86cd0003", "aabbccdd", "11223344", "020100c9"];

/// A RAMS-R with an empty list of media sources (RFC 6285, 7.2).
const REQUEST: Words = &["86cd0004", "0000c001", "11223344", "01000000", "01000000"];

/// A RAMS-I of the burst is taken.
const TAKEN: Row = (Info(BEGINS), Told(InfoCame::Taken), &[]);

/// Retransmissions: payload type 99 and a sequence number, timestamp, media source, the original's
/// number in front of a payload of four zeros (RFC 4588, 4).
const AGAIN_10: Words = &["806301f4", "00000000", "11223344", "000a0000", "0000"];

const AGAIN_11: Words = &["806301f5", "00000000", "11223344", "000b0000", "0000"];

const AGAIN_12: Words = &["806301f6", "00000000", "11223344", "000c0000", "0000"];

const AGAIN_14: Words = &["806301f8", "00000000", "11223344", "000e0000", "0000"];

const AGAIN_15: Words = &["806301f9", "00000000", "11223344", "000f0000", "0000"];

const REPAIR_12: Words = &["806301fa", "00000000", "11223344", "000c0000", "0000"];

const REPAIR_13: Words = &["806301fb", "00000000", "11223344", "000d0000", "0000"];

/// Packets of the multicast, with payload type 33.
const PACKET_9: Words = &["80210009", "00000000", "11223344", "00000000"];

const PACKET_10: Words = &["8021000a", "00000000", "11223344", "00000000"];

const PACKET_11: Words = &["8021000b", "00000000", "11223344", "00000000"];

const PACKET_12: Words = &["8021000c", "00000000", "11223344", "00000000"];

const PACKET_13: Words = &["8021000d", "00000000", "11223344", "00000000"];

const PACKET_14: Words = &["8021000e", "00000000", "11223344", "00000000"];

const PACKET_15: Words = &["8021000f", "00000000", "11223344", "00000000"];

const PACKET_16: Words = &["80210010", "00000000", "11223344", "00000000"];

const PACKET_17: Words = &["80210011", "00000000", "11223344", "00000000"];

/// A burst is lost in part, the receiver joins the multicast, asks for what is missing, and presents
/// each packet once.
const HANDOVER: [Row; 13] = [
    (Ask, Asks(&[REQUEST]), &[]),
    TAKEN,
    (Rtx(AGAIN_10), Came(MediaCame::Took), &[(65546, PACKET_10)]),
    (Rtx(AGAIN_11), Came(MediaCame::Took), &[(65547, PACKET_11)]),
    (Rtx(AGAIN_14), Came(MediaCame::Took), &[]),
    (Rtx(AGAIN_15), Came(MediaCame::Took), &[]),
    (Rtx(AGAIN_11), Came(MediaCame::Behind), &[]),
    (
        Multicast(PACKET_16),
        // RAMS-T: the extended number of the first multicast packet (RFC 6285, 7.4)
        Joined(
            MediaCame::Took,
            &[
                "86cd0005", "0000c001", "11223344", "03000000", "3d000004", "00010010",
            ],
        ),
        &[],
    ),
    (Multicast(PACKET_17), Came(MediaCame::Took), &[]),
    (Info(OVER), Told(InfoCame::Ended(201)), &[]),
    // a generic NACK of 12 and 13 (RFC 4585, 6.2.1)
    (
        Ask,
        Asks(&[&["81cd0003", "0000c001", "11223344", "000c0001"]]),
        &[],
    ),
    (Rtx(REPAIR_12), Came(MediaCame::Took), &[(65548, PACKET_12)]),
    (
        Rtx(REPAIR_13),
        Came(MediaCame::Took),
        &[
            (65549, PACKET_13),
            (65550, PACKET_14),
            (65551, PACKET_15),
            (65552, PACKET_16),
            (65553, PACKET_17),
        ],
    ),
];

#[test]
fn handover(rt: HostRuntime) -> Result<(), Fail> {
    expect_all(&rt, rt.alloc(), &HANDOVER)
}

/// Before a burst is taken no media is, and no code means its end.
const BEFORE: [Row; 10] = [
    (Rtx(AGAIN_10), Came(MediaCame::BeforeFirst), &[]),
    (Info(OVER), Told(InfoCame::Refused(201)), &[]),
    // no datagram, no RAMS-I, a burst without its first sequence number
    (Info(&[]), Told(InfoCame::Bad), &[]),
    (Info(REQUEST), Told(InfoCame::Bad), &[]),
    (
        Info(&["86cd0003", "aabbccdd", "11223344", "020000c8"]),
        Told(InfoCame::Bad),
        &[],
    ),
    // another media source
    (
        Info(&["86cd0003", "aabbccdd", "11223345", "020100c9"]),
        Told(InfoCame::Foreign),
        &[],
    ),
    TAKEN,
    (Info(BEGINS), Told(InfoCame::Repeated), &[]),
    // code 100, a new rate
    (
        Info(&[
            "86cd0005", "aabbccdd", "11223344", "02010064", "20000002", "01f40000",
        ]),
        Told(InfoCame::Updated),
        &[],
    ),
    // code 502, the burst was lost
    (
        Info(&["86cd0003", "aabbccdd", "11223344", "020201f6"]),
        Told(InfoCame::Ended(502)),
        &[],
    ),
];

#[test]
fn told_of_a_burst(rt: HostRuntime) -> Result<(), Fail> {
    expect_all(&rt, rt.alloc(), &BEFORE)
}

/// The first retransmission that comes places the first number, whichever of the burst it is.
const FIRST: [Row; 7] = [
    TAKEN,
    (Multicast(PACKET_10), Came(MediaCame::BeforeFirst), &[]),
    // sequence number 16,884, which is 16,384 ahead
    (
        Rtx(&["806341f4", "00000000", "11223344", "000a0000", "0000"]),
        Came(MediaCame::BeforeFirst),
        &[],
    ),
    (Rtx(AGAIN_12), Came(MediaCame::Took), &[]),
    (Rtx(AGAIN_12), Came(MediaCame::Twice), &[]),
    (Rtx(AGAIN_10), Came(MediaCame::Took), &[(65546, PACKET_10)]),
    (
        Rtx(AGAIN_11),
        Came(MediaCame::Took),
        &[(65547, PACKET_11), (65548, PACKET_12)],
    ),
];

#[test]
fn a_retransmission_places_the_first_number(rt: HostRuntime) -> Result<(), Fail> {
    expect_all(&rt, rt.alloc(), &FIRST)
}

/// 16,384 numbers from the next on have room; 65546 was presented, so they end with 81930.
const ROOM: [Row; 6] = [
    TAKEN,
    (Rtx(AGAIN_10), Came(MediaCame::Took), &[(65546, PACKET_10)]),
    (
        Multicast(&["8021400b", "00000000", "11223344", "00000000"]),
        Came(MediaCame::Beyond),
        &[],
    ),
    // below the first: no joining
    (Multicast(PACKET_9), Came(MediaCame::Behind), &[]),
    (
        Multicast(&["8021400a", "00000000", "11223344", "00000000"]),
        Joined(
            MediaCame::Took,
            &[
                "86cd0005", "0000c001", "11223344", "03000000", "3d000004", "0001400a",
            ],
        ),
        &[],
    ),
    (
        Multicast(&["8021400a", "00000000", "11223344", "00000000"]),
        Came(MediaCame::Twice),
        &[],
    ),
];

#[test]
fn room_for_numbers(rt: HostRuntime) -> Result<(), Fail> {
    expect_all(&rt, rt.alloc(), &ROOM)
}

/// Bytes that are no packet, a retransmission without its number, and packets of others.
const UNFIT: [Row; 6] = [
    (Rtx(&[]), Came(MediaCame::Bad), &[]),
    (
        Rtx(&["806301f4", "00000000", "11223345", "00"]),
        Came(MediaCame::Bad),
        &[],
    ),
    (
        Rtx(&["806301f4", "00000000", "11223345", "000a"]),
        Came(MediaCame::Foreign),
        &[],
    ),
    (
        Rtx(&["802101f4", "00000000", "11223344", "000a"]),
        Came(MediaCame::Foreign),
        &[],
    ),
    (
        Multicast(&["8063000a", "00000000", "11223344"]),
        Came(MediaCame::Foreign),
        &[],
    ),
    (
        Multicast(&["4021000a", "00000000", "11223344"]),
        Came(MediaCame::Bad),
        &[],
    ),
];

#[test]
fn unfit_media(rt: HostRuntime) -> Result<(), Fail> {
    expect_all(&rt, rt.alloc(), &UNFIT)
}

// The bytes are a receiver's datagram with this message.
fn expect_datagram(
    rt: &impl Abort,
    alloc: Global,
    bytes: &[u8],
    message: &[&str],
) -> Result<(), Fail> {
    let want = datagram(alloc, message)?;
    assert!(rt; bytes == want.as_slice());
    let_go(want);
    Ok(())
}

/// What a receiver sends as it is tuned and as it leaves, and its numbers.
#[test]
fn tune_and_leave(rt: HostRuntime) -> Result<(), Fail> {
    let alloc = rt.alloc();
    let Ok((receiver, request)) = Receiver::tune(alloc, TUNED) else {
        return Err(Fail::new("no memory"));
    };
    assert!(rt; receiver.first().is_none() && receiver.next().is_none());
    let asked = expect_datagram(&rt, alloc, &request, REQUEST);
    let_go(request);
    let bye = receiver.leave(alloc);
    asked?;
    let Ok(bye) = bye else {
        return Err(Fail::new("no memory"));
    };
    let left = expect_datagram(&rt, alloc, &bye, &["81cb0001", "0000c001"]);
    let_go(bye);
    left
}
