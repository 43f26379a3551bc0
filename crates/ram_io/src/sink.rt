//! Where bytes go.
ghost use Rattle.std.specs.Prelude.{◌-◌, ◌<◌, ◌≤◌, length, IfOk, IsOkAnd};
ghost use Rattle.std.specs.Io.{WritesAtMost};
ghost use Rattle.std.specs.Io.KnownBytes.{WriteAppends};
ghost use Rattle.ram_io.specs.{HasCause};

use crate::failed::Failed;

/// A sink of bytes.
pub trait Sink {
    ghost use Rattle.std.specs.Prelude.{ℕ, List, Option};

    /// The bytes that it holds, where the sink tells them.
    ghost held: { Self → Option (List ℕ) };

    /// How often it has failed.
    ghost faults: { Self → ℕ };

    /// The next so many bytes go in, in whatever pieces, and no call fails.
    ghost is_steady: { Self → ℕ → Type 0 };

    /// Appends a front of the piece that isn't empty, and says how many bytes.
    /// Where it fails, nothing is appended.
    fn put(&mut self, piece: &[u8]) -> Result<usize, Failed>
        requires { 0 < length piece.now }
        ensures bound { WritesAtMost result piece.now }
        ensures some { IfOk result (λ n. 0 < n) }
        ensures bytes { WriteAppends (held self.old) (held self.new) result piece.now }
        ensures cause { HasCause (faults self.old) (faults self.new) result }
        ensures steady { (n : ℕ) → length piece.now ≤ n → is_steady self.old n → IsOkAnd result (λ k. is_steady self.new (n - k)) };
}
