//! What a wire receives and sends on loopback.
ghost use Rattle.std.specs.Prelude.{◌≤◌};

use crate::peers::{client, first_port, local, peer, wire};
use ram_io::{Arrival, Wire};
use std::net::UdpSocket;
use std::process::Abort;
use std::test::Fail;
use std::thread;
use std::time::{Duration, Instant};
use test_fixtures::test_calls::done;
use udp_edge::UdpWire;

// A live packet: type 33, sequence number 10, timestamp 0, marked, four bytes.
const LIVE: [u8; 16] = *b"\x80\xa1\0\x0a\0\0\0\0\x11\x22\x33\x44\x47\x1f\xff\x10";

// A port of the wire, counted from its first, and how many bytes come there. The 16 bytes are the
// live packet.
const LENGTHS: [(u16, usize); 5] = [(0, 16), (3, 1_470), (2, 0), (1, 2_000), (1, 2_001)];

// The ports that datagrams come to before the wire is asked, and the order in which it gives them.
const ROUNDS: [([u16; 7], [u16; 7]); 3] = [
    ([1, 1, 1, 1, 0, 0, 0], [0, 1, 0, 1, 0, 1, 1]),
    ([0, 0, 0, 3, 3, 2, 1], [2, 3, 0, 1, 3, 0, 0]),
    ([3, 3, 3, 3, 3, 3, 0], [3, 0, 3, 3, 3, 3, 3]),
];

/// Each datagram comes at once, with its sender and its port, cut to 2,000 bytes.
#[test]
fn datagrams_come_with_port_and_sender(rt: HostRuntime) -> Result<(), Fail> {
    let first = first_port(&rt);
    let mut wire = wire(&rt, first, 30_000)?;
    let peer = peer(&rt)?;
    let from = client(peer.local_addr()?.port());
    let mut bytes = [7u8; 2_001];
    bytes[..16].copy_from_slice(&LIVE);
    let mut buf = [0u8; 2_000];
    for (place, len) in LENGTHS {
        let port = first + place % 4;
        peer.send_to(bytes.get(..len).unwrap_or(&[]), local(port))?;
        let got = done(wire.receive(&mut buf))?;
        let len = len.min(2_000);
        assert!(rt; got == Some(Arrival { from, port, len }));
        assert!(rt; buf.get(..len) == bytes.get(..len), "{len} bytes");
    }
    Ok(())
}

/// A datagram comes to each of these ports, counted from the first.
fn send_to_all(rt: &HostRuntime, peer: &UdpSocket, first: u16, come: [u16; 7]) -> Result<(), Fail>
    requires { first ≤ 33_000 }
{
    for place in come {
        peer.send_to(&LIVE, local(first + place % 4))?;
    }
    thread::sleep(rt, Duration::from_millis(20));
    Ok(())
}

/// The wire gives what came to these ports, in this order.
fn expect_order(
    rt: &impl Abort,
    wire: &mut UdpWire<HostRuntime>,
    first: u16,
    order: [u16; 7],
    round: usize,
) -> Result<(), Fail>
    requires { first ≤ 33_000 }
{
    let mut buf = [0u8; 2_000];
    for place in order {
        let got = done(wire.receive(&mut buf))?.map(|arrival| arrival.port);
        assert!(rt; got == Some(first + place % 4), "in round {round}");
    }
    assert!(rt; done(wire.receive(&mut buf))? == None);
    Ok(())
}

/// Sockets that are ready take turns, and the round goes on behind the one that gave last.
#[test]
fn busy_sockets_take_turns(rt: HostRuntime) -> Result<(), Fail> {
    let first = first_port(&rt) + 8;
    let mut wire = wire(&rt, first, 1)?;
    let peer = peer(&rt)?;
    for (round, (come, order)) in ROUNDS.into_iter().enumerate() {
        send_to_all(&rt, &peer, first, come)?;
        expect_order(&rt, &mut wire, first, order, round)?;
    }
    Ok(())
}

/// Where nothing comes the answer is `None`, after the wait.
#[test]
fn nothing_comes_after_the_wait(rt: HostRuntime) -> Result<(), Fail> {
    let mut wire = wire(&rt, first_port(&rt) + 16, 50)?;
    let start = Instant::now(&rt)?;
    assert!(rt; done(wire.receive(&mut [0; 2_000]))? == None);
    assert!(rt; start.elapsed(&rt)? >= Duration::from_millis(50));
    Ok(())
}

/// What is sent to clients that have closed their port, or have none, is no fault.
fn send_to_none(rt: &impl Abort, wire: &mut UdpWire<HostRuntime>, port: u16, closed: u16) {
    for gone in [client(closed), client(closed), client(0)] {
        assert!(rt; wire.send(gone, port, &LIVE) == Ok(()));
    }
}

/// A client gets what is sent to it, from the port that is named. One that has closed its port, or
/// has none, is no fault.
#[test]
fn clients_get_what_is_sent(rt: HostRuntime) -> Result<(), Fail> {
    let first = first_port(&rt) + 20;
    let mut wire = wire(&rt, first, 1)?;
    let closed = peer(&rt)?.local_addr()?.port();
    let peer = peer(&rt)?;
    let to = client(peer.local_addr()?.port());
    let mut buf = [0u8; 2_000];
    for place in 0..4 {
        send_to_none(&rt, &mut wire, first + place, closed);
        done(wire.send(to, first + place, &LIVE))?;
        let (len, from) = peer.recv_from(&mut buf)?;
        assert!(rt; (len, from) == (16, local(first + place)));
        assert!(rt; buf.starts_with(&LIVE));
        assert!(rt; done(wire.receive(&mut buf))? == None);
    }
    Ok(())
}
