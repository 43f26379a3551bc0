//! The objects in memory, and those over std, called through their traits.
ghost use Rattle.std.specs.Prelude.{All, IfOk};
ghost use Rattle.ram_io.specs.{IsFromClient};

use crate::fixtures::{holds, same};
use ram_io::{
    Arrival, Clock, Failed, Gate, Incoming, MemClock, MemSink, MemSource, MemWire, Octets, Open,
    Sink, Source, StdSink, StdSource, Wire,
};
use std::alloc::{AllocError, Global};
use std::fmt::Write as _;
use std::io;
use std::io::{ErrorKind, Read, Write};
use std::test::Fail;
use test_fixtures::test_calls::done;

/// The answers of six calls with a buffer of `size` bytes, at most 8.
fn six_takes<S: Source>(alloc: Global, source: &mut S, size: usize) -> Result<String, AllocError> {
    let mut text = String::new(alloc);
    let mut buf = [0u8; 8];
    if size == 0 || 8 < size {
        return Ok(text);
    }
    for _ in 0..6 {
        match source.take(&mut buf[..size]) {
            Ok(count) => write!(text, "{:?}", &buf[..count])?,
            Err(Failed) => write!(text, "Failed")?,
        }
    }
    Ok(text)
}

/// A reader and writer whose calls are interrupted.
#[derive(Drop)]
struct Broken;

impl Read for Broken {
    fn read(&mut self, _buf: &mut [u8]) -> io::Result<usize> {
        Err(io::Error::from(ErrorKind::Interrupted))
    }
}

impl Write for Broken {
    fn write(&mut self, _buf: &[u8]) -> io::Result<usize> {
        Err(io::Error::from(ErrorKind::Interrupted))
    }

    fn flush(&mut self) -> io::Result<()> {
        Ok(())
    }
}

/// The most that a call gives of 1, 2, 3, 4, 5, the size of the buffer, the two calls that fail, and
/// the answers.
const SOURCES: &[(usize, usize, [u64; 2], &str)] = &[
    (9, 8, [7, 7], "[1, 2, 3, 4, 5][][][][][]"),
    (9, 2, [7, 7], "[1, 2][3, 4][5][][][]"),
    (2, 8, [7, 7], "[1, 2][3, 4][5][][][]"),
    (3, 8, [1, 4], "[1, 2, 3]Failed[4, 5][]Failed[]"),
];

fn taken(alloc: Global, most: usize, size: usize, fails: &[u64; 2]) -> Result<String, Fail> {
    let bytes = [1u8, 2, 3, 4, 5].to_vec(alloc)?;
    let mut source = MemSource::new(bytes, most.max(1), fails.to_vec(alloc)?);
    Ok(six_takes(alloc, &mut source, size)?)
}

#[test]
fn sources_give_their_bytes(rt: HostRuntime) -> Result<(), Fail> {
    for (place, (most, size, fails, want)) in SOURCES.iter().enumerate() {
        let got = taken(rt.alloc(), *most, *size, fails)?;
        same(&rt, &got.as_str(), want, &place);
    }
    Ok(())
}

#[test]
fn a_reader_is_a_source(rt: HostRuntime) -> Result<(), Fail> {
    let mut source = StdSource::new([1u8, 2, 3].as_slice());
    let got = six_takes(rt.alloc(), &mut source, 2)?;
    same(&rt, &got.as_str(), &"[1, 2][3][][][][]", &"three bytes");
    Ok(())
}

#[test]
fn a_broken_reader_fails(rt: HostRuntime) -> Result<(), Fail> {
    let got = six_takes(rt.alloc(), &mut StdSource::new(Broken), 2)?;
    same(
        &rt,
        &got.as_str(),
        &"FailedFailedFailedFailedFailedFailed",
        &"six calls",
    );
    Ok(())
}

/// The answers of calls with what is left of "abcdefg", at most six of them.
fn six_puts<K: Sink>(alloc: Global, sink: &mut K) -> Result<String, AllocError> {
    let mut text = String::new(alloc);
    let mut rest = b"abcdefg".as_slice();
    for _ in 0..6 {
        if rest.is_empty() {
            break;
        }
        match sink.put(rest) {
            Ok(count) => {
                write!(text, "{count} ")?;
                rest = &rest[count..];
            }
            Err(Failed) => write!(text, "Failed ")?,
        }
    }
    Ok(text)
}

/// The room, the most that a call takes, the two calls that fail, the answers, and what went out.
const SINKS: &[(usize, usize, [u64; 2], &str, &[u8])] = &[
    (7, 9, [9, 9], "7 ", b"abcdefg"),
    (7, 3, [9, 9], "3 3 1 ", b"abcdefg"),
    (5, 3, [9, 9], "3 2 Failed Failed Failed Failed ", b"abcde"),
    (9, 4, [1, 2], "4 Failed Failed 3 ", b"abcdefg"),
];

fn sink_of(alloc: Global, room: usize, most: usize, fails: &[u64; 2]) -> Result<MemSink, Fail> {
    done(MemSink::new(alloc, room, most.max(1), fails.to_vec(alloc)?))
}

/// The answers of such a sink, and what it is then.
fn put(
    alloc: Global,
    room: usize,
    most: usize,
    fails: &[u64; 2],
) -> Result<(String, MemSink), Fail> {
    let mut sink = sink_of(alloc, room, most, fails)?;
    let answers = six_puts(alloc, &mut sink)?;
    Ok((answers, sink))
}

#[test]
fn sinks_take_bytes(rt: HostRuntime) -> Result<(), Fail> {
    for (place, (room, most, fails, want, held)) in SINKS.iter().enumerate() {
        let (got, sink) = put(rt.alloc(), *room, *most, fails)?;
        same(&rt, &got.as_str(), want, &place);
        same(&rt, &sink.held(), held, &place);
    }
    Ok(())
}

#[test]
fn a_writer_is_a_sink(rt: HostRuntime) -> Result<(), Fail> {
    let mut room = [0u8; 4];
    let got = six_puts(rt.alloc(), &mut StdSink::new(room.as_mut_slice()))?;
    same(
        &rt,
        &got.as_str(),
        &"4 Failed Failed Failed Failed Failed ",
        &"four bytes",
    );
    same(&rt, &room.as_slice(), &b"abcd".as_slice(), &"four bytes");
    Ok(())
}

#[test]
fn a_broken_writer_fails(rt: HostRuntime) -> Result<(), Fail> {
    let got = six_puts(rt.alloc(), &mut StdSink::new(Broken))?;
    same(
        &rt,
        &got.as_str(),
        &"Failed Failed Failed Failed Failed Failed ",
        &"six calls",
    );
    Ok(())
}

/// "abc" to port 9, nothing, and 2,003 bytes to port 7, of which the last four are 1, 2, 2 and 2.
fn arrivals(alloc: Global) -> Result<Vec<Incoming>, AllocError>
    ensures { IfOk result (λ v. All IsFromClient v.items) }
{
    let mut long = vec![in alloc; 1u8; 2_000]?;
    long.extend_from_slice(&[2, 2, 2])?;
    let arrivals = vec![in alloc;
        Incoming::Datagram {
            from: 5,
            port: 9,
            bytes: Octets::of(b"abc".to_vec(alloc)?),
        },
        Incoming::Nothing,
        Incoming::Datagram {
            from: 0xffff_ffff_ffff,
            port: 7,
            bytes: Octets::of(long),
        },
    ]?;
    Ok(arrivals)
}

/// Writes whence a datagram came and where to, its length, and its first and its last byte.
fn write_arrival(text: &mut String, from: u64, port: u16, bytes: &[u8]) -> Result<(), AllocError> {
    let ends = (bytes.first(), bytes.last());
    write!(text, "{from} to {port}: {} {ends:?} ", bytes.len())
}

/// The answers of six calls of `receive`, each with the first and the last byte of its datagram.
fn six_receives<W: Wire>(alloc: Global, wire: &mut W) -> Result<String, AllocError> {
    let mut text = String::new(alloc);
    let mut buf = [0u8; 2_000];
    for _ in 0..6 {
        match wire.receive(&mut buf) {
            Ok(None) => write!(text, "None ")?,
            Ok(Some(Arrival { from, port, len })) => {
                write_arrival(&mut text, from, port, &buf[..len])?;
            }
            Err(Failed) => write!(text, "Failed ")?,
        }
    }
    Ok(text)
}

/// A wire with these arrivals, of which the first two calls fail.
fn arriving(alloc: Global) -> Result<MemWire, Fail> {
    let fails = [1, 2].to_vec(alloc)?;
    done(MemWire::new(alloc, arrivals(alloc)?, 0, 0, fails))
}

fn received(alloc: Global) -> Result<String, Fail> {
    let mut wire = arriving(alloc)?;
    Ok(six_receives(alloc, &mut wire)?)
}

#[test]
fn a_wire_receives(rt: HostRuntime) -> Result<(), Fail> {
    let want = "5 to 9: 3 (Some(97), Some(99)) Failed Failed None \
        281474976710655 to 7: 2000 (Some(1), Some(1)) None ";
    same(&rt, &received(rt.alloc())?.as_str(), &want, &"six calls");
    Ok(())
}

const PIECES: &[&[u8]] = &[b"ab", b"cdef", b"cde", b""];

/// Room for bytes and for datagrams, the call that fails, the answers to the pieces, and the bytes
/// that go out.
const SENDS: &[(usize, usize, u64, &str, &[u8])] = &[
    (9, 4, 9, "sent sent sent sent ", b"abcdefcde"),
    (5, 2, 9, "sent Failed sent Failed ", b"abcde"),
    (4, 4, 9, "sent Failed Failed sent ", b"ab"),
    (9, 4, 0, "Failed sent sent sent ", b"cdefcde"),
];

/// The answers to each piece that is sent to client 5 and port 9.
fn sends<W: Wire>(alloc: Global, wire: &mut W) -> Result<String, AllocError> {
    let mut text = String::new(alloc);
    for piece in PIECES {
        match wire.send(5, 9, piece) {
            Ok(()) => write!(text, "sent ")?,
            Err(Failed) => write!(text, "Failed ")?,
        }
    }
    Ok(text)
}

fn wire_of(alloc: Global, room: usize, datagrams: usize, fails: u64) -> Result<MemWire, Fail> {
    let fails = [fails].to_vec(alloc)?;
    done(MemWire::new(alloc, Vec::new(alloc), room, datagrams, fails))
}

/// The answers of such a wire, and what it is then.
fn sent(
    alloc: Global,
    room: usize,
    datagrams: usize,
    fails: u64,
) -> Result<(String, MemWire), Fail> {
    let mut wire = wire_of(alloc, room, datagrams, fails)?;
    let answers = sends(alloc, &mut wire)?;
    Ok((answers, wire))
}

/// All that went out went to client 5 and port 9.
fn went_there(wire: &MemWire) -> bool {
    wire.sent()
        .iter()
        .all(|sent| sent.to == 5 && sent.port == 9)
}

#[test]
fn a_wire_sends(rt: HostRuntime) -> Result<(), Fail> {
    for (place, (room, datagrams, fails, want, bytes)) in SENDS.iter().enumerate() {
        let (got, wire) = sent(rt.alloc(), *room, *datagrams, *fails)?;
        same(&rt, &got.as_str(), want, &place);
        holds(
            &rt,
            went_there(&wire) && wire.sent_bytes() == *bytes,
            &place,
        );
    }
    Ok(())
}

/// The answers of five calls.
fn five_moments<C: Clock>(alloc: Global, clock: &mut C) -> Result<String, AllocError> {
    let mut text = String::new(alloc);
    for _ in 0..5 {
        write!(text, "{} ", clock.now_ms())?;
    }
    Ok(text)
}

#[test]
fn a_clock_repeats_its_last_moment(rt: HostRuntime) -> Result<(), Fail> {
    let mut clock = MemClock::new([3, 5, 9].to_vec(rt.alloc())?);
    same(
        &rt,
        &five_moments(rt.alloc(), &mut clock)?.as_str(),
        &"3 5 9 9 9 ",
        &"five calls",
    );
    Ok(())
}

#[test]
fn a_clock_without_moments_stands_at_0(rt: HostRuntime) -> Result<(), Fail> {
    let mut clock = MemClock::new(Vec::new(rt.alloc()));
    same(
        &rt,
        &five_moments(rt.alloc(), &mut clock)?.as_str(),
        &"0 0 0 0 0 ",
        &"five calls",
    );
    Ok(())
}

#[test]
fn an_open_gate_holds_nobody(_rt: HostRuntime) {
    Open.enter(0, 0);
    Open.drawing(0, u64::MAX);
}
