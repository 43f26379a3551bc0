//! A source in memory.
ghost use Rattle.std.specs.Prelude.{◌≡◌, ◌↔◌, ◌<◌, [], length, min, Some, IfOk, IsErr, IsOkAnd, OnErr};
ghost use Rattle.std.specs.Io.{ReadsAtMost};
ghost use Rattle.std.specs.Io.KnownBytes.{ReadConsumes};
ghost use Rattle.ram_io.specs.{IsFailing, HasCause, after_failed_take, after_take, new_source};

use crate::calls::Calls;
use crate::copy::copy_front;
use crate::failed::Failed;
use crate::source::Source;
use std::marker::Model;

/// A source of the bytes that it was made with.
#[derive(Drop)]
pub struct MemSource {
    bytes: Vec<u8>,
    // How many of the bytes were taken.
    taken: usize,
    // The most bytes that a call gives.
    most: usize,
    calls: Calls,
}

impl Model for MemSource {
    ghost use Rattle.std.specs.Prelude.{◌<◌, ◌≤◌, drop, length};
    ghost use Rattle.ram_io.specs.{SourceState};

    ghost Value = { SourceState };

    ghost view = { λ s. record {
      left = drop s.taken s.bytes.items;
      most = s.most;
      calls = s.calls;
    } };

    ghost invariant = { λ s. (s.taken ≤ length s.bytes.items) × (0 < s.most) };
}

impl MemSource {
    /// A source of these bytes that gives at most `most` in a call. The calls whose numbers, from
    /// 0, stand in `fails` fail, and no other.
    pub fn new(bytes: Vec<u8>, most: usize, fails: Vec<u64>) -> MemSource
        requires { 0 < most }
        ensures value { result ≡ new_source bytes.items most fails.items }

        ensures left { ⟦<MemSource as Source>⟧.left result ≡ Some bytes.items }
        ensures faults { ⟦<MemSource as Source>⟧.faults result ≡ 0 }
        ensures steady { fails.items ≡ [] → ⟦<MemSource as Source>⟧.is_steady result }
    {
        MemSource {
            bytes,
            taken: 0,
            most,
            calls: Calls::new(fails),
        }
    }
}

impl Source for MemSource {
    ghost left = { λ s. Some s.left };

    ghost faults = { λ s. s.calls.faults };

    ghost is_steady = { λ s. s.calls.fails ≡ [] };

    fn take(&mut self, buf: &mut [u8]) -> Result<usize, Failed>
        requires { 0 < length buf.old }
        ensures bound { ReadsAtMost result buf.new }
        ensures bytes { ReadConsumes (Some self.old.left) (Some self.new.left) result buf.new }
        ensures cause { HasCause self.old.calls.faults self.new.calls.faults result }
        ensures steady { self.old.calls.fails ≡ []
            → IsOkAnd result (λ _. self.new.calls.fails ≡ []) }

        ensures fails { IsErr result ↔ IsFailing self.old.calls }
        ensures count { IfOk result
            (λ k. k ≡ min self.old.most (min (length self.old.left) (length buf.old))) }
        ensures ok { IfOk result (λ k. self.new ≡ after_take k self.old) }
        ensures err { OnErr result (self.new ≡ after_failed_take self.old) }
    {
        self.calls.begin()?;
        let (_, left) = self.bytes.split_at(self.taken);
        let count = copy_front(left, buf, self.most);
        self.taken += count;
        Ok(count)
    }
}
