//! Bytes of a source in large pieces, over one buffer.
ghost use Rattle.std.specs.Prelude.{◌≡◌, ◌+◌, ◌-◌, ◌<◌, ◌≤◌, MatchBool, length, take, drop, slice_range, IfOk, OnErr, IsOkAnd};
ghost use Rattle.std.specs.Io.KnownBytes.{Consumes, IsAtEnd, Keeps, prepend_known};
ghost use Rattle.ram_io.specs.{HasCause};
ghost use Rattle.line_io.specs.{IsGrown};
ghost use Rattle.converters.specs.capture_loop.{BeginsWith};

use crate::capture_loop::pcap_trace::{HEADER_SIZE, MOST_CAPTURED};
use ram_io::{Failed, NoMemory, Source};
use std::alloc::{AllocError, Global};
use std::marker::Model;

// The longest record with its header: most bytes that are wanted together, and most that one call asks of a
// source.
const LONGEST_RECORD: usize = HEADER_SIZE + MOST_CAPTURED as usize;

// Bytes of the buffer.
const ROOM: usize = 2 * LONGEST_RECORD;

/// Bytes that were taken of a source and aren't used yet, at most `ROOM`, in a buffer that never grows.
#[derive(Drop)]
pub(crate) struct Intake {
    bytes: Vec<u8>,
    from: usize,
    to: usize,
}

impl Model for Intake {
    ghost use Rattle.std.specs.Prelude.{ℕ, List, slice_range};
    ghost use Rattle.converters.specs.capture_loop.{IsWindow};

    ghost Value = { List ℕ };

    ghost view = { λ i. slice_range i.bytes.items i.from i.to };

    ghost invariant = { λ i. IsWindow i.from i.to i.bytes.items };
}

// A buffer of this many zeros.
fn buffer(alloc: Global, size: usize) -> Result<Vec<u8>, AllocError>
    ensures { IfOk result (λ v. length v.items ≡ size) }
{
    vec![in alloc; 0u8; size]
}

// Copies bytes to the front of others.
fn copy_front(from: &[u8], to: &mut [u8])
    requires { length from.now ≤ length to.old }
    ensures { take (length from.now) to.new ≡ from.now }
{
    to[..from.len()].copy_from_slice(from);
}

// Moves the window to the front of the buffer if fewer than `LONGEST_RECORD` bytes are free behind it, and says
// where it begins now.
fn make_room(bytes: &mut [u8], from: usize, to: usize) -> usize
    requires ordered { from ≤ to }
    requires within { to ≤ length bytes.old }
    requires small { to - from + LONGEST_RECORD ≤ length bytes.old }
    ensures room { result + (to - from) + LONGEST_RECORD ≤ length bytes.old }
    ensures same { slice_range bytes.new result (result + (to - from)) ≡ slice_range bytes.old from to }
{
    if LONGEST_RECORD <= bytes.len() - to {
        return from;
    }
    bytes.copy_within(from..to, 0);
    0
}

// Takes up to `LONGEST_RECORD` bytes of the source to this place of the buffer, and says how many. Where the
// source fails, nothing is taken.
fn take_into<S: Source>(source: &mut S, bytes: &mut [u8], at: usize) -> Result<usize, Failed>
    requires { at + LONGEST_RECORD ≤ length bytes.old }
    ensures front { take at bytes.new ≡ take at bytes.old }
    ensures bound { IfOk result (λ n. n ≤ LONGEST_RECORD) }
    ensures bytes { IfOk result (λ n. Consumes (S.left source.old) (S.left source.new) (take n (drop at bytes.new))) }
    ensures end { IfOk result (λ n. n ≡ 0 → IsAtEnd (S.left source.new)) }
    ensures same { OnErr result (Keeps (S.left source.old) (S.left source.new)) }
    ensures cause { HasCause (S.faults source.old) (S.faults source.new) result }
    ensures steady { S.is_steady source.old → IsOkAnd result (λ _. S.is_steady source.new) }
{
    source.take(&mut bytes[at..at + LONGEST_RECORD])
}

impl Intake {
    /// An intake that has these bytes.
    pub(crate) fn new(alloc: Global, bytes: &[u8]) -> Result<Intake, NoMemory>
        requires { length bytes.now ≤ 65536 }
        ensures { IfOk result (λ intake. intake ≡ bytes.now) }
    {
        let mut room = buffer(alloc, ROOM)?;
        copy_front(bytes, room.as_mut_slice());
        Ok(Intake {
            bytes: room,
            from: 0,
            to: bytes.len(),
        })
    }

    /// Its bytes.
    pub(crate) fn bytes(&self) -> &[u8]
        ensures { result.now ≡ self.now }
    {
        &self.bytes[self.from..self.to]
    }

    /// Drops the first bytes.
    pub(crate) fn skip(&mut self, count: usize)
        requires { count ≤ length self.old }
        ensures { self.new ≡ drop count self.old }
    {
        self.from += count;
    }

    /// Takes bytes of the source until there are so many, and says whether there are; else the source
    /// has ended. Where the source fails, nothing is lost.
    pub(crate) fn fill<S: Source>(&mut self, source: &mut S, count: usize) -> Result<bool, Failed>
        requires { count ≤ LONGEST_RECORD }
        ensures filled { IfOk result (λ full. MatchBool full (count ≤ length self.new) ((length self.new < count) × IsAtEnd (S.left source.new))) }
        ensures short { OnErr result (length self.new < count) }
        ensures grown { BeginsWith self.old self.new }
        ensures same { Keeps
            (prepend_known self.old (S.left source.old))
            (prepend_known self.new (S.left source.new)) }
        ensures cause { HasCause (S.faults source.old) (S.faults source.new) result }
        ensures steady { S.is_steady source.old → IsOkAnd result (λ _. S.is_steady source.new) }
    {
        'pieces: while self.bytes().len() < count {
            if self.refill(source)? == 0 {
                return Ok(false);
            }
        }
        Ok(true)
    }

    // Takes one piece of the source behind the others, and says how many bytes it has.
    fn refill<S: Source>(&mut self, source: &mut S) -> Result<usize, Failed>
        requires { length self.old ≤ LONGEST_RECORD }
        ensures grown { IfOk result (IsGrown self.old self.new) }
        ensures unread { OnErr result (self.new ≡ self.old) }
        ensures end { IfOk result (λ n. n ≡ 0 → IsAtEnd (S.left source.new)) }
        ensures whole { Keeps
            (prepend_known self.old (S.left source.old))
            (prepend_known self.new (S.left source.new)) }
        ensures cause { HasCause (S.faults source.old) (S.faults source.new) result }
        ensures steady { S.is_steady source.old → IsOkAnd result (λ _. S.is_steady source.new) }
    {
        let kept = self.to - self.from;
        let bytes = self.bytes.as_mut_slice();
        self.from = make_room(bytes, self.from, self.to);
        self.to = self.from + kept;
        let taken = take_into(source, bytes, self.to)?;
        self.to += taken;
        Ok(taken)
    }
}
