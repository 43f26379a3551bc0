//! A wire in memory.
ghost use Rattle.std.specs.Prelude.{◌≡◌, ◌-◌, ◌^◌, ◌⊎◌, ◌↔◌, ◌<◌, ◌≤◌, ℕ, [], All, length, Some, IfOk, IfSome, IsErr, IsOkAnd, OnErr, OnOk};
ghost use Rattle.ram_io.specs.{IsFailing, HasCause, after_failed_call, after_receive, after_send, datagrams, IsFromClient, IsFullFor, IsSteadyWire, new_wire, cut, outgoing, seen, SendsOne, TakesNext};

use crate::calls::Calls;
use crate::copy::copy_front;
use crate::failed::{Failed, NoMemory};
use crate::wire::{Arrival, Incoming, Wire};
use std::alloc::Global;
use std::marker::Model;

// The most bytes of a datagram that `receive` gives.
const MOST: usize = 2_000;

/// A datagram that went to `to` from the local port `port`. Its bytes are the `len` bytes of
/// `sent_bytes` from place `start` on.
#[derive(Clone, Copy, PartialEq, Eq)]
pub struct Sent {
    pub to: u64,
    pub port: u16,
    pub start: usize,
    pub len: usize,
}

/// A wire that brings the answers that it was made with, and then none, and holds what was sent.
#[derive(Drop)]
pub struct MemWire {
    arrivals: Vec<Incoming>,
    // How many of the arrivals were taken.
    taken: usize,
    places: Vec<Sent>,
    bytes: Vec<u8>,
    // The most bytes that it holds.
    room: usize,
    // The most datagrams that it holds.
    sends: usize,
    // Of `receive` and `send` together.
    calls: Calls,
}

impl Model for MemWire {
    ghost use Rattle.std.specs.Prelude.{drop, vec_capacity};
    ghost use Rattle.ram_io.specs.{IsWireState, WireState};

    ghost Value = { WireState };

    ghost view = { λ w. record {
      arrivals = drop w.taken w.arrivals.items;
      places = w.places.items;
      bytes = w.bytes.items;
      room = w.room;
      sends = w.sends;
      calls = w.calls;
    } };

    ghost invariant = { λ w. IsWireState w.arrivals.items w.places.items w.bytes.items
        w.room w.sends (vec_capacity w.bytes) (vec_capacity w.places) };
}

impl MemWire {
    /// A wire that brings these answers and has room for `room` bytes in `sends` datagrams, which
    /// it takes at once. The calls of `receive` and `send` whose numbers, from 0, stand in `fails`
    /// fail. Any other fails only for want of room. Where memory runs out, the lists are dropped.
    pub fn new(
        alloc: Global,
        arrivals: Vec<Incoming>,
        room: usize,
        sends: usize,
        fails: Vec<u64>,
    ) -> Result<MemWire, NoMemory>
        requires { All IsFromClient arrivals.items }
        ensures value { IfOk result (λ w. w ≡ new_wire arrivals.items room sends fails.items) }

        ensures arrivals { IfOk result (λ w. ⟦<MemWire as Wire>⟧.arrivals w ≡ Some arrivals.items) }
        ensures sent { IfOk result (λ w. ⟦<MemWire as Wire>⟧.sent w ≡ Some []) }
        ensures faults { IfOk result (λ w. ⟦<MemWire as Wire>⟧.faults w ≡ 0) }
        ensures steady { IfOk result (λ w. (bytes : ℕ) (datagrams : ℕ) → fails.items ≡ []
            → bytes ≤ room → datagrams ≤ sends
            → ⟦<MemWire as Wire>⟧.is_steady w bytes datagrams) }
    {
        let bytes = Vec::with_capacity(alloc, room)?;
        let places = Vec::with_capacity(alloc, sends)?;
        Ok(MemWire {
            arrivals,
            taken: 0,
            places,
            bytes,
            room,
            sends,
            calls: Calls::new(fails),
        })
    }

    /// The datagrams that went out, as places in `sent_bytes`.
    pub fn sent(&self) -> &[Sent]
        ensures places { result.now ≡ self.now.places }
        ensures sent { ⟦<MemWire as Wire>⟧.sent self.now
            ≡ Some (datagrams result.now self.now.bytes) }
    {
        &self.places
    }

    /// The bytes of the datagrams that went out, one after another.
    pub fn sent_bytes(&self) -> &[u8]
        ensures bytes { result.now ≡ self.now.bytes }
        ensures sent { ⟦<MemWire as Wire>⟧.sent self.now
            ≡ Some (datagrams self.now.places result.now) }
    {
        &self.bytes
    }
}

// Gives what came, its datagram in the front of `buf`.
fn deliver(incoming: &Incoming, buf: &mut [u8]) -> Option<Arrival>
    requires room { length buf.old ≡ 2000 }
    requires client { IsFromClient incoming.now }
    ensures bound { IfSome result (λ a. (a.from < 2 ^ 48) × (a.len ≤ 2000)) }
    ensures seen { seen result buf.new ≡ cut incoming.now }
{
    match incoming {
        Incoming::Nothing => None,
        Incoming::Datagram { from, port, bytes } => {
            let len = copy_front(bytes.bytes(), buf, MOST);
            Some(Arrival {
                from: *from,
                port: *port,
                len,
            })
        }
    }
}

impl Wire for MemWire {
    ghost arrivals = { λ w. Some w.arrivals };

    ghost sent = { λ w. Some (datagrams w.places w.bytes) };

    ghost faults = { λ w. w.calls.faults };

    ghost is_steady = { IsSteadyWire };

    fn receive(&mut self, buf: &mut [u8]) -> Result<Option<Arrival>, Failed>
        requires { length buf.old ≡ 2000 }
        ensures bound { IfOk result (λ o. IfSome o (λ a. (a.from < 2 ^ 48) × (a.len ≤ 2000))) }
        ensures next { TakesNext (Some self.old.arrivals) (Some self.new.arrivals) result buf.new }
        ensures unsent { Some (datagrams self.new.places self.new.bytes)
            ≡ Some (datagrams self.old.places self.old.bytes) }
        ensures cause { HasCause self.old.calls.faults self.new.calls.faults result }
        ensures steady { (bytes : ℕ) (sends : ℕ) → IsSteadyWire self.old bytes sends
            → IsOkAnd result (λ _. IsSteadyWire self.new bytes sends) }

        ensures fails { IsErr result ↔ IsFailing self.old.calls }
        ensures ok { OnOk result (self.new ≡ after_receive self.old) }
        ensures err { OnErr result (self.new ≡ after_failed_call self.old) }
    {
        self.calls.begin()?;
        let Some(incoming) = self.arrivals.get(self.taken) else {
            return Ok(None);
        };
        self.taken += 1;
        Ok(deliver(incoming, buf))
    }

    fn send(&mut self, to: u64, port: u16, bytes: &[u8]) -> Result<(), Failed>
        ensures sends { SendsOne (Some (datagrams self.old.places self.old.bytes))
            (Some (datagrams self.new.places self.new.bytes)) result (outgoing to port bytes.now) }
        ensures untaken { self.new.arrivals ≡ self.old.arrivals }
        ensures cause { HasCause self.old.calls.faults self.new.calls.faults result }
        ensures steady { (room : ℕ) (sends : ℕ) → length bytes.now ≤ room → 0 < sends
            → IsSteadyWire self.old room sends
            → IsOkAnd result (λ _. IsSteadyWire self.new (room - length bytes.now) (sends - 1)) }

        ensures fails { IsErr result
            ↔ (IsFailing self.old.calls ⊎ IsFullFor self.old (length bytes.now)) }
        ensures ok { OnOk result (self.new ≡ after_send to port bytes.now self.old) }
        ensures err { OnErr result (self.new ≡ after_failed_call self.old) }
    {
        self.calls.begin()?;
        let start = self.bytes.len();
        if self.places.len() == self.sends || self.room - start < bytes.len() {
            return Err(self.calls.fault());
        }
        self.bytes.extend_from_slice(bytes).unwrap();
        self.places
            .push(Sent {
                to,
                port,
                start,
                len: bytes.len(),
            })
            .unwrap();
        Ok(())
    }
}
