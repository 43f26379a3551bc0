//! What is asked of the sockets of a wire.
ghost use Rattle.std.specs.Prelude.{◌≡◌, ◌+◌, ◌-◌, ◌%◌, ◌^◌, ◌<◌, ◌≤◌, All, length, vec_len, IfErr, IfOk, IfSome};
ghost use Rattle.mio.specs.Event.{event_token};
ghost use Rattle.mio.specs.Events.{items};
ghost use Rattle.udp_edge.specs.{IsNext, IsReady, KeepsReady};

use crate::address::number_of;
use crate::bind_fault::BindFault;
use crate::round::{PLACES, Round};
use mio::net::UdpSocket;
use mio::{Events, Interest, Poll, Token};
use ram_io::Arrival;
use std::alloc::Global;
use std::io::ErrorKind;
use std::net::{Ipv4Addr, Net, SocketAddr, SocketAddrV4};
use std::rt::Clock;
use std::thread;
use std::time::Duration;

// The most tries in one call.
const TRIES: u32 = 1_000;

// The wait before a send that would block is tried again, in ms.
const PAUSE_MS: u64 = 1;

// Binds so many ports from `first` on, and has `poll` tell when there is something to read.
pub(crate) fn bound_sockets(
    net: &impl Net,
    alloc: Global,
    poll: &Poll,
    first: u16,
    count: u16,
) -> Result<Vec<UdpSocket>, BindFault>
    requires { first + count ≤ 2 ^ 16 }
    ensures { IfOk result (λ sockets. vec_len sockets ≡ count) }
{
    let mut sockets = Vec::with_capacity(alloc, usize::from(count))?;
    for place in 0..count {
        let address = SocketAddrV4::new(Ipv4Addr::LOCALHOST, first + place);
        let mut socket = UdpSocket::bind(net, SocketAddr::V4(address))?;
        poll.registry()
            .register(&mut socket, Token(usize::from(place)), Interest::READABLE)?;
        sockets.push(socket)?;
    }
    Ok(sockets)
}

// The first of so many ports from `first` on that can't be had alone, if there is one.
pub(crate) fn first_busy(net: &impl Net, first: u16, count: u16) -> Option<u16>
    requires { first + count ≤ 2 ^ 16 }
    ensures { IfSome result (λ port. (first ≤ port) × (port < first + count)) }
{
    for place in 0..count {
        let address = SocketAddrV4::new(Ipv4Addr::LOCALHOST, first + place);
        if UdpSocket::bind(net, SocketAddr::V4(address)).is_err() {
            return Some(first + place);
        }
    }
    None
}

// Each socket that the system tells of is ready.
pub(crate) fn mark_all(round: &mut Round, events: &Events)
    ensures marked { All (λ event. IsReady round.new.ready (event_token event).0)
        (items events.now) }
    ensures kept { KeepsReady round.old.ready round.new.ready }
    ensures turn { round.new.turn ≡ round.old.turn }
{
    for event in events {
        let place = usize::from(event.token());
        if place < PLACES {
            round.mark(place);
        }
    }
}

// Takes a datagram from the first socket in the round that has one, if any has. The socket at a
// place has the port `first` + place. Where a socket fails, its port is answered.
pub(crate) fn next_datagram(
    first: u16,
    sockets: &[UdpSocket],
    round: &mut Round,
    buf: &mut [u8],
) -> Result<Option<Arrival>, u16>
    requires buffer { length buf.old ≡ 2000 }
    requires ports { first + length sockets.now ≤ 2 ^ 16 }
    ensures bound { IfOk result (λ o. IfSome o (λ a. (a.from < 2 ^ 48) × (a.len ≤ 2000))) }
    ensures port { IfOk result (λ o. IfSome o (λ a. (first ≤ a.port)
        × (a.port < first + length sockets.now))) }

    // Each socket that came sooner in the round has nothing, and the next one has its turn now.
    ensures fair { IfOk result (λ o. IfSome o (λ a. IsNext round.new.ready round.old.turn
        (a.port - first))) }
    ensures turn { IfOk result (λ o. IfSome o (λ a. round.new.turn ≡ (a.port - first + 1) % 128)) }
    ensures failed { IfErr result (λ port. (first ≤ port) × (port < first + length sockets.now)) }
{
    for _ in 0..TRIES {
        let Some(place) = round.next() else {
            break;
        };
        let Some(socket) = sockets.get(place) else {
            round.clear(place);
            continue;
        };
        match socket.recv_from(buf) {
            Ok((len, SocketAddr::V4(from))) => {
                round.pass(place);
                let (from, port) = (number_of(from), first + place as u16);
                return Ok(Some(Arrival { from, port, len }));
            }
            Ok((_, SocketAddr::V6(_))) => {}
            Err(e) => match e.kind() {
                ErrorKind::WouldBlock => round.clear(place),
                ErrorKind::Interrupted | ErrorKind::ConnectionRefused => {}
                _ => return Err(first + place as u16),
            },
        }
    }
    Ok(None)
}

// Whether the datagram went out. Where it would block it waits and is tried again. A client that
// has closed its port is sent to all the same, and nobody can listen at port 0.
pub(crate) fn is_sent(
    clock: &impl Clock,
    socket: &UdpSocket,
    to: SocketAddrV4,
    bytes: &[u8],
) -> bool {
    if to.port() == 0 {
        return true;
    }
    for _ in 0..TRIES {
        match socket.send_to(bytes, SocketAddr::V4(to)) {
            Ok(_) => return true,
            Err(e) => match e.kind() {
                ErrorKind::WouldBlock => thread::sleep(clock, Duration::from_millis(PAUSE_MS)),
                ErrorKind::Interrupted | ErrorKind::ConnectionRefused => {}
                _ => return false,
            },
        }
    }
    false
}
