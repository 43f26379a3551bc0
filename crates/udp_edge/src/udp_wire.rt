//! A wire over UDP.
ghost use Rattle.std.specs.Prelude.{◌≡◌, ◌+◌, ◌*◌, ◌^◌, ◌<◌, ◌≤◌, length, IfOk, IfSome, IsErr, None};
ghost use Rattle.ram_io.specs.{HasCause};
ghost use Rattle.udp_edge.specs.{IsPortOf};

use crate::address::address_of;
use crate::bind_fault::BindFault;
use crate::faults::Faults;
use crate::round::{PLACES, Round};
use crate::sockets::{bound_sockets, first_busy, is_sent, mark_all, next_datagram};
use mio::net::UdpSocket;
use mio::{Events, Poll};
use ram_io::{Arrival, Failed, Wire};
use std::alloc::Global;
use std::marker::Model;
use std::net::Net;
use std::rt::Clock;
use std::time::Duration;

/// Datagrams over UDP, by IPv4, to and from local ports on 127.0.0.1. It tells no content. In each
/// call of `receive` it asks the system which sockets became ready, and they take turns by a
/// datagram each; where none is ready it waits, until one is or the time of its wait is over.
#[derive(Drop)]
pub struct UdpWire<R> {
    rt: R,
    poll: Poll,
    events: Events,
    // The socket at a place has the port `first` + place.
    sockets: Vec<UdpSocket>,
    first: u16,
    wait: Duration,
    // A bit falls only where its socket had nothing more, as the system tells of changes alone.
    round: Round,
    faults: Faults,
    // The port of the last fault, where it was one port's.
    failed: Option<u16>,
}

impl<R> Model for UdpWire<R> {
    ghost use Rattle.std.specs.Prelude.{◌+◌, ◌^◌, ◌<◌, ◌≤◌, vec_len, IfSome};
    ghost use Rattle.udp_edge.specs.{UdpState};

    ghost Value = { UdpState };

    ghost view = { λ w. record {
      first = w.first;
      ports = vec_len w.sockets;
      faults = w.faults.count;
    } };

    ghost invariant = { λ w. (w.first + vec_len w.sockets ≤ 2 ^ 16) × (vec_len w.sockets ≤ 128)
        × IfSome w.failed (λ port. (w.first ≤ port) × (port < w.first + vec_len w.sockets)) };
}

impl<R: Net + Clock + Clone + Drop> UdpWire<R> {
    /// Binds the 2 * `channels` ports from `port` on, on 127.0.0.1: at most 128 ports, from 1 to
    /// 65535. `receive` waits for at most `wait_ms` ms. `Failed`: a port is taken, or the system
    /// refuses what is asked.
    pub fn bind(
        rt: &R,
        alloc: Global,
        port: u16,
        channels: u16,
        wait_ms: u32,
    ) -> Result<UdpWire<R>, BindFault>
        requires first { 0 < port }
        requires channels { channels ≤ 64 }
        requires ports { port + 2 * channels ≤ 2 ^ 16 }
        ensures first { IfOk result (λ wire. wire.first ≡ port) }
        ensures ports { IfOk result (λ wire. wire.ports ≡ 2 * channels) }
        ensures faults { IfOk result (λ wire. ⟦<UdpWire<R> as Wire>⟧.faults wire ≡ 0) }
    {
        let poll = Poll::new(rt)?;
        let events = Events::with_capacity(alloc, PLACES)?;
        let sockets = bound_sockets(rt, alloc, &poll, port, 2 * channels)?;
        Ok(UdpWire {
            rt: rt.clone()?,
            poll,
            events,
            sockets,
            first: port,
            wait: Duration::from_millis(u64::from(wait_ms)),
            round: Round::new(),
            faults: Faults::none(),
            failed: None,
        })
    }
}

impl<R> UdpWire<R> {
    /// The port at which the last fault came, to tell an operator. `None` where no call failed, or
    /// where the last one to fail did so at no port: the system couldn't tell which sockets are
    /// ready, or a datagram was to go from a port that isn't the wire's.
    pub fn failed_port(&self) -> Option<u16>
        ensures { IfSome result (IsPortOf self.now) }
    {
        self.failed
    }
}

/// The first of the 2 * `channels` ports from `port` on, on 127.0.0.1, that can't be bound, to tell an
/// operator; `None` where each can be had alone.
pub fn busy_port(net: &impl Net, port: u16, channels: u16) -> Option<u16>
    requires channels { channels ≤ 64 }
    requires ports { port + 2 * channels ≤ 2 ^ 16 }
    ensures { IfSome result (λ busy. (port ≤ busy) × (busy < port + 2 * channels)) }
{
    first_busy(net, port, 2 * channels)
}

impl<R> UdpWire<R> {
    // Asks the system which sockets became ready, and waits for one, but no longer than that.
    fn ask(&mut self, wait: Duration) -> Result<(), Failed>
        ensures cause { HasCause self.old.faults self.new.faults result }
        ensures ports { self.new ≡ record self.old { faults = self.new.faults } }
    {
        if self.poll.poll(&mut self.events, Some(wait)).is_err() {
            self.failed = None;
            return Err(self.faults.rise());
        }
        mark_all(&mut self.round, &self.events);
        Ok(())
    }

    // Takes a datagram from the first socket in the round that has one, if any has.
    fn take(&mut self, buf: &mut [u8]) -> Result<Option<Arrival>, Failed>
        requires { length buf.old ≡ 2000 }
        ensures bound { IfOk result (λ o. IfSome o (λ a. (a.from < 2 ^ 48) × (a.len ≤ 2000))) }
        ensures port { IfOk result (λ o. IfSome o (λ a. IsPortOf self.old a.port)) }
        ensures cause { HasCause self.old.faults self.new.faults result }
        ensures ports { self.new ≡ record self.old { faults = self.new.faults } }
    {
        match next_datagram(self.first, &self.sockets, &mut self.round, buf) {
            Ok(taken) => Ok(taken),
            Err(port) => {
                self.failed = Some(port);
                Err(self.faults.rise())
            }
        }
    }
}

impl<R: Clock> Wire for UdpWire<R> {
    ghost arrivals = { λ _. None };

    ghost sent = { λ _. None };

    ghost faults = { λ w. w.faults };

    ghost is_steady = { λ _ _ _. ⊥ };

    fn receive(&mut self, buf: &mut [u8]) -> Result<Option<Arrival>, Failed>
        requires { length buf.old ≡ 2000 }
        ensures bound { IfOk result (λ o. IfSome o (λ a. (a.from < 2 ^ 48) × (a.len ≤ 2000))) }
        ensures port { IfOk result (λ o. IfSome o (λ a. IsPortOf self.old a.port)) }
        ensures cause { HasCause self.old.faults self.new.faults result }
        ensures ports { self.new ≡ record self.old { faults = self.new.faults } }
    {
        if !self.round.is_idle() {
            self.ask(Duration::ZERO)?;
            let taken = self.take(buf)?;
            if taken.is_some() {
                return Ok(taken);
            }
        }
        self.ask(self.wait)?;
        self.take(buf)
    }

    fn send(&mut self, to: u64, port: u16, bytes: &[u8]) -> Result<(), Failed>
        // Another's port, or a number that has no address.
        ensures refused { ¬ (IsPortOf self.old port × (to < 2 ^ 48)) → IsErr result }
        ensures cause { HasCause self.old.faults self.new.faults result }
        ensures ports { self.new ≡ record self.old { faults = self.new.faults } }
    {
        let place = usize::from(port.wrapping_sub(self.first));
        self.failed = None;
        if let (Some(socket), Some(to)) = (self.sockets.get(place), address_of(to)) {
            if is_sent(&self.rt, socket, to, bytes) {
                return Ok(());
            }
            self.failed = Some(port);
        }
        Err(self.faults.rise())
    }
}
