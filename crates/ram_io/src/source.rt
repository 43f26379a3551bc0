//! Where bytes come from.
ghost use Rattle.std.specs.Prelude.{◌<◌, length, IsOkAnd};
ghost use Rattle.std.specs.Io.{ReadsAtMost};
ghost use Rattle.std.specs.Io.KnownBytes.{ReadConsumes};
ghost use Rattle.ram_io.specs.{HasCause};

use crate::failed::Failed;

/// A source of bytes.
pub trait Source {
    ghost use Rattle.std.specs.Prelude.{ℕ, List, Option};

    /// The bytes that are left, where the source tells them.
    ghost left: { Self → Option (List ℕ) };

    /// How often it has failed.
    ghost faults: { Self → ℕ };

    /// No call fails from here on.
    ghost is_steady: { Self → Type 0 };

    /// Takes the next bytes into the front of `buf`, and says how many; 0 is the end of input.
    /// Where it fails, nothing is taken.
    fn take(&mut self, buf: &mut [u8]) -> Result<usize, Failed>
        requires { 0 < length buf.old }
        ensures bound { ReadsAtMost result buf.new }
        ensures bytes { ReadConsumes (left self.old) (left self.new) result buf.new }
        ensures cause { HasCause (faults self.old) (faults self.new) result }
        ensures steady { is_steady self.old → IsOkAnd result (λ _. is_steady self.new) };
}
