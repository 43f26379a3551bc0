//! What a row of a table is, and how it is run.
ghost use Rattle.std.specs.Prelude.{◌≡◌, ◌+◌, ◌<◌, ◌≤◌, ◌^◌, IfOk, OnOk, length};
ghost use Rattle.receiver_core.specs.{reach};

use receiver_core::{Bump, InfoCame, Lent, MediaCame, Receiver, Shown, Tuned};
use std::alloc::Global;
use std::fmt::Display;
use std::process::Abort;
use std::test::Fail;
use test_fixtures::test_calls::let_go;
use test_fixtures::test_words::{Words, bytes_of};

/// A client of a channel whose retransmissions have payload type 99.
pub const TUNED: Tuned = Tuned {
    client: 5,
    ssrc: 0x0000_c001,
    media: 0x1122_3344,
    pt: 33,
    rtx: 99,
};

/// With what each datagram of a receiver begins: a report, and its name, `stb` (RFC 3550, 6.4.2 and
/// 6.5).
const FRONT: &[&str] = &[
    "80c90001", "0000c001", "81ca0003", "0000c001", "01037374", "62000000",
];

/// What is done with a receiver.
#[derive(Clone, Copy)]
pub enum Call {
    Info(Words),
    Rtx(Words),
    Multicast(Words),
    Ask,
}

/// What it answers. Messages stand behind the report and the name.
#[derive(Clone, Copy)]
pub enum Said {
    Told(InfoCame),
    Came(MediaCame),
    /// With a RAMS-T.
    Joined(MediaCame, Words),
    Asks(&'static [Words]),
}

/// What is done, what is answered, and what is presented then: numbers, and the packets.
pub type Row = (Call, Said, &'static [(u64, Words)]);

/// A receiver's datagram with this message.
pub fn datagram(alloc: Global, message: &[&str]) -> Result<Vec<u8>, Fail> {
    let mut bytes = bytes_of(alloc, FRONT)?;
    bytes.extend_from_slice(&bytes_of(alloc, message)?)?;
    Ok(bytes)
}

/// A receiver that has got nothing.
pub fn tuned<'a>(alloc: Global) -> Result<Receiver<'a>, Fail>
    ensures { IfOk result (λ receiver. reach receiver ≡ 0) }
{
    let Ok((receiver, _)) = Receiver::tune(alloc, TUNED) else {
        return Err(Fail::new("no memory"));
    };
    Ok(receiver)
}

/// The value is the one that is wanted of this.
fn same<T: PartialEq, C: Display>(rt: &impl Abort, got: &T, want: &T, of: &C) {
    assert!(rt; *got == *want, "{of}");
}

// A RAMS-I is answered so.
fn expect_told(
    rt: &impl Abort,
    alloc: Global,
    receiver: &mut Receiver<'_>,
    words: Words,
    expected: InfoCame,
    place: usize,
) -> Result<(), Fail>
    ensures { OnOk result (reach receiver.new ≡ reach receiver.old) }
{
    let came = receiver.info(&bytes_of(alloc, words)?);
    same(rt, &came, &expected, &place);
    Ok(())
}

// A retransmission is answered so.
fn expect_again<'a>(
    rt: &impl Abort,
    alloc: Global,
    arena: &'a Bump,
    receiver: &mut Receiver<'a>,
    words: Words,
    expected: MediaCame,
    place: usize,
) -> Result<(), Fail>
    requires { reach receiver.old < 2 ^ 40 }
    ensures { OnOk result (reach receiver.new ≤ reach receiver.old + 1) }
{
    let Ok(came) = receiver.rtx(alloc, arena, &bytes_of(alloc, words)?) else {
        return Err(Fail::new("no memory"));
    };
    same(rt, &came, &expected, &place);
    Ok(())
}

// The bytes, in the arena.
fn lend<'a>(arena: &'a Bump, bytes: &[u8]) -> Result<&'a [u8], Fail> {
    match Lent::copied(arena, bytes) {
        Ok(lent) => Ok(lent.as_slice()),
        Err(_) => Err(Fail::new("no memory")),
    }
}

// The answer to a packet of the multicast.
fn answer<'a>(
    alloc: Global,
    arena: &'a Bump,
    receiver: &mut Receiver<'a>,
    words: Words,
) -> Result<(MediaCame, Option<Vec<u8>>), Fail>
    requires { reach receiver.old < 2 ^ 40 }
    ensures { OnOk result (reach receiver.new ≤ reach receiver.old + 1) }
{
    let packet = lend(arena, &bytes_of(alloc, words)?)?;
    let Ok(answer) = receiver.multicast(alloc, arena, packet) else {
        return Err(Fail::new("no memory"));
    };
    Ok(answer)
}

// The answer is as it is said.
fn expect_answer(
    rt: &impl Abort,
    alloc: Global,
    came: MediaCame,
    text: Option<Vec<u8>>,
    said: Said,
    place: usize,
) -> Result<(), Fail> {
    match said {
        Said::Joined(expected, message) => {
            same(rt, &came, &expected, &place);
            let stop = text.expect(rt, "a RAMS-T");
            same(rt, &stop, &datagram(alloc, message)?, &place);
        }
        Said::Came(expected) => {
            same(rt, &came, &expected, &place);
            assert!(rt; text.is_none(), "{place}");
        }
        _ => assert!(rt; false, "{place}"),
    }
    Ok(())
}

// A packet of the multicast is answered so.
fn expect_multicast<'a>(
    rt: &impl Abort,
    alloc: Global,
    arena: &'a Bump,
    receiver: &mut Receiver<'a>,
    words: Words,
    said: Said,
    place: usize,
) -> Result<(), Fail>
    requires { reach receiver.old < 2 ^ 40 }
    ensures { OnOk result (reach receiver.new ≤ reach receiver.old + 1) }
{
    let (came, text) = answer(alloc, arena, receiver, words)?;
    expect_answer(rt, alloc, came, text, said, place)
}

// The receiver asks by these datagrams.
fn expect_datagrams(
    rt: &impl Abort,
    alloc: Global,
    receiver: &Receiver<'_>,
    messages: &[Words],
    place: usize,
) -> Result<(), Fail> {
    let Ok(datagrams) = receiver.ask(alloc) else {
        return Err(Fail::new("no memory"));
    };
    same(rt, &datagrams.len(), &messages.len(), &place);
    for (asked, message) in datagrams.iter().zip(messages) {
        let expected = datagram(alloc, message)?;
        same(rt, &asked.bytes(), &expected.as_slice(), &place);
    }
    Ok(())
}

// A call is answered so.
fn expect<'a>(
    rt: &impl Abort,
    alloc: Global,
    arena: &'a Bump,
    receiver: &mut Receiver<'a>,
    call: Call,
    said: Said,
    place: usize,
) -> Result<(), Fail>
    requires { reach receiver.old < 2 ^ 40 }
    ensures { OnOk result (reach receiver.new ≤ reach receiver.old + 1) }
{
    match (call, said) {
        (Call::Info(words), Said::Told(expected)) => {
            expect_told(rt, alloc, receiver, words, expected, place)
        }
        (Call::Rtx(words), Said::Came(expected)) => {
            expect_again(rt, alloc, arena, receiver, words, expected, place)
        }
        (Call::Multicast(words), _) => expect_multicast(
            rt, alloc, arena, receiver, words, said, place,
        ),
        (Call::Ask, Said::Asks(messages)) => expect_datagrams(rt, alloc, receiver, messages, place),
        _ => {
            assert!(rt; false, "{place}");
            Ok(())
        }
    }
}

// What is presented next. The call stands alone, as its contract is long.
fn presented<'a>(receiver: &mut Receiver<'a>) -> Option<Shown<'a>>
    ensures { reach receiver.new ≡ reach receiver.old }
{
    receiver.present()
}

// These packets are presented, and no more.
fn expect_shown(
    rt: &impl Abort,
    alloc: Global,
    receiver: &mut Receiver<'_>,
    shown: &[(u64, Words)],
) -> Result<(), Fail>
    ensures { OnOk result (reach receiver.new ≡ reach receiver.old) }
{
    for (n, packet) in shown {
        let piece = presented(receiver).expect(rt, "a packet");
        let expected = bytes_of(alloc, packet)?;
        same(
            rt,
            &(piece.n, piece.packet.as_slice()),
            &(*n, expected.as_slice()),
            n,
        );
    }
    assert!(rt; presented(receiver).is_none());
    Ok(())
}

// The rows' calls of a receiver that has got nothing.
fn expect_rows<'a>(
    rt: &impl Abort,
    alloc: Global,
    arena: &'a Bump,
    receiver: &mut Receiver<'a>,
    rows: &[Row],
) -> Result<(), Fail>
    requires few { length rows.now < 1000 }
    requires new { reach receiver.old ≡ 0 }
{
    let mut place = 0usize;
    for (call, said, shown) in rows {
        expect(rt, alloc, arena, receiver, *call, *said, place)?;
        expect_shown(rt, alloc, receiver, shown)?;
        place = place.wrapping_add(1);
    }
    Ok(())
}

/// Each row's call of a receiver is answered as the row says, and what it says is presented.
pub fn expect_all(rt: &impl Abort, alloc: Global, rows: &[Row]) -> Result<(), Fail> {
    assert!(rt; rows.len() < 1000);
    let arena = Bump::new(alloc);
    let mut receiver = tuned(alloc)?;
    let expected = expect_rows(rt, alloc, &arena, &mut receiver, rows);
    let_go(receiver);
    expected
}
