//! Text into a sink.
ghost use Rattle.std.specs.Prelude.{◌≡◌, ◌+◌, ◌<◌, ◌++◌, ℕ, List, [], length, IfOk, OnOk, OnErr, IsOkAnd};
ghost use Rattle.std.specs.Io.KnownBytes.{Appends};
ghost use Rattle.ram_io.specs.{HasCause};
ghost use Rattle.line_io.specs.Passes.{Passes};

use ram_io::{Failed, NoMemory, Sink};
use std::alloc::Global;
use std::marker::Model;

// From so many bytes on, what waits goes to the sink.
const FULL: usize = 65536;

// Room for what is appended before that is seen: a line with a datagram has less than 4,200 bytes.
const ROOM: usize = FULL + 8192;

/// Texts that wait to be put to a sink together, in pieces of about 64 KiB.
#[derive(Drop)]
pub struct Gather {
    waiting: Vec<u8>,
}

impl Model for Gather {
    ghost use Rattle.std.specs.Prelude.{ℕ, List};

    ghost Value = { List ℕ };

    ghost view = { λ g. g.waiting.items };
}

impl Gather {
    ghost use Rattle.std.specs.Borrow.{Lends, sem};
    ghost use Rattle.line_io.specs.Lending.{LendsText};

    /// Takes memory for as much as waits, and for a line behind it.
    pub fn new(alloc: Global) -> Result<Gather, NoMemory>
        ensures { IfOk result (λ gather. gather ≡ []) }
    {
        Ok(Gather {
            waiting: Vec::with_capacity(alloc, ROOM)?,
        })
    }

    /// The text that waits: what is appended to it waits too. `settle` puts it to the sink where it has
    /// grown long.
    pub fn text(&mut self) -> &mut Vec<u8>
        ensures* lends { sem 𝓛 (LendsText self.entry result) }
        ensures now { result.now.items ≡ self.old }
    {
        &mut self.waiting
    }

    /// Puts all that waits to the sink where that is 65,536 bytes or more, and else nothing.
    ///
    /// Where the sink fails, what waits stays as it was, though a front of it may have gone: the
    /// sink's text is right only if the caller then puts no more.
    pub fn settle<K: Sink>(&mut self, sink: &mut K) -> Result<(), Failed>
        ensures all { OnOk result (Passes (K.held sink.old) (K.held sink.new) self.old self.new) }
        ensures few { OnOk result (length self.new < 65536) }
        ensures prefix { (rest : List ℕ) × Passes (K.held sink.old) (K.held sink.new) self.old rest }
        ensures same { OnErr result (self.new ≡ self.old) }
        ensures cause { HasCause (K.faults sink.old) (K.faults sink.new) result }
        ensures steady { (room : ℕ) → K.is_steady sink.old (length self.old + room)
            → IsOkAnd result (λ _. K.is_steady sink.new (length self.new + room)) }
    {
        if self.waiting.len() < FULL {
            return Ok(());
        }
        self.flush(sink)
    }

    /// Lets a piece wait behind the others, where they have no more than 65,536 bytes together. Else
    /// what waits goes to the sink, and a piece of more than so many goes there at once.
    ///
    /// Where the sink fails, what waits stays as it was, though a front of it may have gone: the
    /// sink's text is right only if the caller then puts no more.
    pub fn put<K: Sink>(&mut self, sink: &mut K, piece: &[u8]) -> Result<(), Failed>
        ensures all { OnOk result (Passes (K.held sink.old) (K.held sink.new) (self.old ++ piece.now) self.new) }
        ensures prefix { (rest : List ℕ) × Passes (K.held sink.old) (K.held sink.new) (self.old ++ piece.now) rest }
        ensures same { OnErr result (self.new ≡ self.old) }
        ensures cause { HasCause (K.faults sink.old) (K.faults sink.new) result }
        ensures steady { (room : ℕ) → K.is_steady sink.old (length self.old + length piece.now + room)
            → IsOkAnd result (λ _. K.is_steady sink.new (length self.new + room)) }
    {
        let room = FULL
            .min(self.waiting.capacity())
            .saturating_sub(self.waiting.len());
        if piece.len() > room {
            return self.put_behind(sink, piece);
        }
        self.waiting.extend_from_slice(piece).unwrap();
        Ok(())
    }

    /// Puts all that waits to the sink.
    ///
    /// Where the sink fails, what waits stays as it was, though a front of it may have gone.
    pub fn flush<K: Sink>(&mut self, sink: &mut K) -> Result<(), Failed>
        ensures all { OnOk result (Passes (K.held sink.old) (K.held sink.new) self.old []) }
        ensures empty { OnOk result (self.new ≡ []) }
        ensures prefix { (rest : List ℕ) × Passes (K.held sink.old) (K.held sink.new) self.old rest }
        ensures same { OnErr result (self.new ≡ self.old) }
        ensures cause { HasCause (K.faults sink.old) (K.faults sink.new) result }
        ensures steady { (room : ℕ) → K.is_steady sink.old (length self.old + room)
            → IsOkAnd result (λ _. K.is_steady sink.new room) }
    {
        self.pass(sink)?;
        self.waiting.clear();
        Ok(())
    }

    // Puts what waits to the sink, and keeps it.
    fn pass<K: Sink>(&self, sink: &mut K) -> Result<(), Failed>
        ensures all { OnOk result (Appends (K.held sink.old) (K.held sink.new) self.now) }
        ensures prefix { (rest : List ℕ) × Passes (K.held sink.old) (K.held sink.new) self.now rest }
        ensures cause { HasCause (K.faults sink.old) (K.faults sink.new) result }
        ensures steady { (room : ℕ) → K.is_steady sink.old (length self.now + room)
            → IsOkAnd result (λ _. K.is_steady sink.new room) }
    {
        put_all(sink, &self.waiting)
    }

    // Puts what waits to the sink. The piece then waits, or goes there too where it has no room.
    fn put_behind<K: Sink>(&mut self, sink: &mut K, piece: &[u8]) -> Result<(), Failed>
        ensures all { OnOk result (Passes (K.held sink.old) (K.held sink.new) (self.old ++ piece.now) self.new) }
        ensures prefix { (rest : List ℕ) × Passes (K.held sink.old) (K.held sink.new) (self.old ++ piece.now) rest }
        ensures same { OnErr result (self.new ≡ self.old) }
        ensures cause { HasCause (K.faults sink.old) (K.faults sink.new) result }
        ensures steady { (room : ℕ) → K.is_steady sink.old (length self.old + length piece.now + room)
            → IsOkAnd result (λ _. K.is_steady sink.new (length self.new + room)) }
    {
        self.pass(sink)?;
        if piece.len() > FULL.min(self.waiting.capacity()) {
            put_all(sink, piece)?;
            self.waiting.clear();
            return Ok(());
        }
        self.waiting.clear();
        self.waiting.extend_from_slice(piece).unwrap();
        Ok(())
    }
}

/// Puts the whole text, piece by piece. Where the sink fails, a front of the text has gone.
pub fn put_all<K: Sink>(sink: &mut K, text: &[u8]) -> Result<(), Failed>
    ensures all { OnOk result (Appends (K.held sink.old) (K.held sink.new) text.now) }
    ensures prefix { (rest : List ℕ) × Passes (K.held sink.old) (K.held sink.new) text.now rest }
    ensures cause { HasCause (K.faults sink.old) (K.faults sink.new) result }
    ensures steady { (room : ℕ) → K.is_steady sink.old (length text.now + room)
        → IsOkAnd result (λ _. K.is_steady sink.new room) }
{
    let mut at = 0;
    'pieces: while at < text.len() {
        let (_, rest) = text.split_at(at);
        at += sink.put(rest)?;
    }
    Ok(())
}
