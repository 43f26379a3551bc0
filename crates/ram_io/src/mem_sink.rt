//! A sink in memory.
ghost use Rattle.std.specs.Prelude.{◌≡◌, ◌-◌, ◌⊎◌, ◌↔◌, ◌<◌, ◌≤◌, ℕ, [], length, min, take, Some, IfOk, IsErr, IsOkAnd, OnErr};
ghost use Rattle.std.specs.Io.{WritesAtMost};
ghost use Rattle.std.specs.Io.KnownBytes.{WriteAppends};
ghost use Rattle.ram_io.specs.{IsFailing, HasCause, after_failed_put, after_put, IsSteadySink, new_sink};

use crate::calls::Calls;
use crate::failed::{Failed, NoMemory};
use crate::sink::Sink;
use std::alloc::Global;
use std::marker::Model;

/// A sink that holds what was put.
#[derive(Drop)]
pub struct MemSink {
    bytes: Vec<u8>,
    // The most bytes that it holds.
    room: usize,
    // The most bytes that a call takes.
    most: usize,
    calls: Calls,
}

impl Model for MemSink {
    ghost use Rattle.std.specs.Prelude.{◌<◌, ◌≤◌, length, vec_capacity};
    ghost use Rattle.ram_io.specs.{SinkState};

    ghost Value = { SinkState };

    ghost view = { λ s. record {
      held = s.bytes.items;
      room = s.room;
      most = s.most;
      calls = s.calls;
    } };

    ghost invariant = { λ s. (length s.bytes.items ≤ s.room) × (s.room ≤ vec_capacity s.bytes)
        × (0 < s.most) };
}

impl MemSink {
    /// An empty sink with room for `room` bytes, which it takes at once, that takes at most `most`
    /// in a call. The calls whose numbers, from 0, stand in `fails` fail. Any other fails only
    /// where no room is left. Where memory runs out, the list is dropped.
    pub fn new(
        alloc: Global,
        room: usize,
        most: usize,
        fails: Vec<u64>,
    ) -> Result<MemSink, NoMemory>
        requires { 0 < most }
        ensures value { IfOk result (λ s. s ≡ new_sink room most fails.items) }

        ensures held { IfOk result (λ s. ⟦<MemSink as Sink>⟧.held s ≡ Some []) }
        ensures faults { IfOk result (λ s. ⟦<MemSink as Sink>⟧.faults s ≡ 0) }
        ensures steady { IfOk result (λ s. (n : ℕ) → fails.items ≡ [] → n ≤ room
            → ⟦<MemSink as Sink>⟧.is_steady s n) }
    {
        Ok(MemSink {
            bytes: Vec::with_capacity(alloc, room)?,
            room,
            most,
            calls: Calls::new(fails),
        })
    }

    /// What went out.
    pub fn held(&self) -> &[u8]
        ensures { ⟦<MemSink as Sink>⟧.held self.now ≡ Some result.now }
    {
        &self.bytes
    }
}

impl Sink for MemSink {
    ghost held = { λ s. Some s.held };

    ghost faults = { λ s. s.calls.faults };

    ghost is_steady = { IsSteadySink };

    fn put(&mut self, piece: &[u8]) -> Result<usize, Failed>
        requires { 0 < length piece.now }
        ensures bound { WritesAtMost result piece.now }
        ensures some { IfOk result (λ n. 0 < n) }
        ensures bytes { WriteAppends (Some self.old.held) (Some self.new.held) result piece.now }
        ensures cause { HasCause self.old.calls.faults self.new.calls.faults result }
        ensures steady { (n : ℕ) → length piece.now ≤ n → IsSteadySink self.old n
            → IsOkAnd result (λ k. IsSteadySink self.new (n - k)) }

        ensures fails { IsErr result
            ↔ (IsFailing self.old.calls ⊎ (length self.old.held ≡ self.old.room)) }
        ensures count { IfOk result (λ k. k ≡ min (length piece.now)
            (min self.old.most (self.old.room - length self.old.held))) }
        ensures ok { IfOk result (λ k. self.new ≡ after_put (take k piece.now) self.old) }
        ensures err { OnErr result (self.new ≡ after_failed_put self.old) }
    {
        self.calls.begin()?;
        let count = piece.len().min(self.most.min(self.room - self.bytes.len()));
        if count == 0 {
            return Err(self.calls.fault());
        }
        let (front, _) = piece.split_at(count);
        self.bytes.extend_from_slice(front).unwrap();
        Ok(count)
    }
}
