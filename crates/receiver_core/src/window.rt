//! What a receiver plays.
ghost use Rattle.std.specs.Prelude.{◌≡◌, ◌+◌, ◌%◌, ◌^◌, ◌<◌, ◌≤◌, if◌then◌else◌, Some, map, take, option_map, vec_len, length, IfOk, OnOk, OnErr, MatchResult};
ghost use Rattle.std.specs.List.{insert};
ghost use Rattle.rams_model.specs.Receiver.{Playing, playing_from, nearest, came, has_piece, with_arrival, joining, join_kept, presented, after_presenting, last_number, missing, most_named};
ghost use Rattle.receiver_core.specs.{as_shown, pieces_of, Rise, AreBelow, IsPlace, IsGap};

use crate::lent::Lent;
use crate::numbers::{ROOM, nearest};
use crate::shown::Shown;
use ram_io::NoMemory;
use rams_model::MediaCame;
use reckoning::ext_seq::SEQUENCE_NUMBERS;
use std::alloc::Global;
use std::collections::VecDeque;
use std::marker::Model;

// The most numbers that one NACK names.
const MOST_NAMED: usize = 256;

/// What a receiver plays. Most packets come in order: one goes behind those that wait, and is presented
/// from their front.
#[derive(Drop)]
pub(crate) struct Window<'a> {
    first: u64,
    next: u64,
    /// The packets that arrived and aren't presented, by rising number.
    waits: VecDeque<Shown<'a>>,
    /// The number of the packet with which the receiver joined the multicast.
    joined: Option<u64>,
}

impl<'a> Model for Window<'a> {
    ghost use Rattle.rams_model.specs.Receiver.{Playing};
    ghost use Rattle.receiver_core.specs.Pieces.{pieces_of, Rise};

    ghost Value = { Playing };

    ghost view = { λ w. record { first = w.first; next = w.next; waits = pieces_of w.waits.items; joined = w.joined } };

    ghost invariant = { λ w. Rise w.next w.waits.items };
}

impl<'a> Window<'a> {
    /// Nothing arrived yet, and this number is the first. It takes no memory.
    pub(crate) fn new(alloc: Global, first: u64) -> Window<'a>
        ensures { result ≡ playing_from first }
    {
        Window {
            first,
            next: first,
            waits: VecDeque::new(alloc),
            joined: None,
        }
    }

    /// The first number of all.
    pub(crate) fn first(&self) -> u64
        ensures { result ≡ self.now.first }
    {
        self.first
    }

    /// The number that is presented next.
    pub(crate) fn next(&self) -> u64
        ensures { result ≡ self.now.next }
    {
        self.next
    }

    /// The number with which the receiver joined.
    pub(crate) fn joined(&self) -> Option<u64>
        ensures { result ≡ self.now.joined }
    {
        self.joined
    }

    /// The number of a packet with these low 16 bits, the nearest to the next one.
    pub(crate) fn number_of(&self, low: u16) -> u64
        requires high { 65536 ≤ self.now.next }
        requires small { self.now.next < 2 ^ 62 }
        ensures { result ≡ nearest self.now.next low }
    {
        nearest(self.next, low)
    }

    /// A packet with this number arrives: it is kept where it is new and has room. After want of
    /// memory all is as before.
    pub(crate) fn arrive(&mut self, n: u64, packet: Lent<'a>) -> Result<MediaCame, NoMemory>
        requires { self.old.next < 2 ^ 62 }
        ensures came { IfOk result (λ c. c ≡ came self.old n) }
        ensures after { OnOk result (self.new ≡ with_arrival n packet.entry self.old) }
        ensures same { OnErr result (self.new ≡ self.old) }
    {
        if n < self.next {
            return Ok(MediaCame::Behind);
        }
        if n >= self.next + ROOM {
            return Ok(MediaCame::Beyond);
        }
        match place_in(&self.waits, n) {
            Ok(_) => Ok(MediaCame::Twice),
            Err(place) => {
                put(&mut self.waits, place, Shown { n, packet })?;
                Ok(MediaCame::Took)
            }
        }
    }

    /// The number with which the receiver joins, where a multicast packet with this number makes it
    /// join.
    pub(crate) fn joining(&self, n: u64) -> Option<u64>
        requires { self.now.next < 2 ^ 62 }
        ensures { result ≡ joining self.now n }
    {
        if self.joined.is_some() || n < self.first || n >= self.next + ROOM {
            return None;
        }
        Some(n)
    }

    /// The receiver joined with this number.
    pub(crate) fn join(&mut self, n: u64)
        ensures { self.new ≡ join_kept (Some n) self.old }
    {
        self.joined = Some(n);
    }

    /// The next packet, where it arrived.
    pub(crate) fn present(&mut self) -> Option<Shown<'a>>
        requires { self.old.next < 2 ^ 62 }
        ensures shown { result ≡ option_map as_shown (presented self.old) }
        ensures after { self.new ≡ after_presenting self.old }
    {
        if self.waits.front()?.n != self.next {
            return None;
        }
        let shown = self.waits.pop_front()?;
        self.next += 1;
        Some(shown)
    }

    /// The low 16 bits of the numbers that are missing below the greatest that arrived, in rising
    /// order, the least 256 of them where there are more.
    pub(crate) fn missing(&self, alloc: Global) -> Result<Vec<u16>, NoMemory>
        ensures value { IfOk result (λ v. v.items ≡ map (λ n. n % 65536) (take most_named (missing self.now))) }
        ensures few { IfOk result (λ v. vec_len v ≤ 256) }
    {
        let mut numbers = Vec::new(alloc);
        let mut passed = 0;
        for n in self.next..self.last() {
            if numbers.len() == MOST_NAMED {
                break;
            }
            if waits_at(&self.waits, passed, n) {
                passed += 1;
            } else {
                numbers.push((n % SEQUENCE_NUMBERS) as u16)?;
            }
        }
        Ok(numbers)
    }

    // The greatest number that waits; the next one where none does.
    fn last(&self) -> u64
        ensures { result ≡ last_number self.now.next self.now.waits }
    {
        match self.waits.back() {
            Some(last) => last.n,
            None => self.next,
        }
    }
}

// Whether the packet with a number waits, where so many wait with numbers below it.
fn waits_at(waits: &VecDeque<Shown<'_>>, passed: usize, n: u64) -> bool
    requires rise { Rise 0 waits.now.items }
    requires below { AreBelow n waits.now.items passed }
    ensures waits { result ≡ has_piece n (pieces_of waits.now.items) }
    ensures below { AreBelow (n + 1) waits.now.items (if result then passed + 1 else passed) }
{
    match waits.get(passed) {
        Some(shown) => shown.n == n,
        None => false,
    }
}

// Puts a packet at this place among those that wait. Most come in order, and go behind the last.
fn put<'a>(waits: &mut VecDeque<Shown<'a>>, place: usize, shown: Shown<'a>) -> Result<(), NoMemory>
    requires { place ≤ length waits.old.items }
    ensures items { OnOk result (waits.new.items ≡ insert waits.old.items place shown.entry) }
    ensures same { OnErr result (waits.new.items ≡ waits.old.items) }
{
    if place == waits.len() {
        waits.push_back(shown)?;
    } else {
        waits.insert(place, shown)?;
    }
    Ok(())
}

// Where the packet with a number waits, or where it would.
fn place_in(waits: &VecDeque<Shown<'_>>, n: u64) -> Result<usize, usize>
    requires { Rise 0 waits.now.items }
    ensures { MatchResult result (IsPlace n waits.now.items) (IsGap n waits.now.items) }
{
    match waits.back() {
        Some(last) if n <= last.n => waits.binary_search_by_key(&n, |shown| shown.n),
        _ => Err(waits.len()),
    }
}
