//! Where datagrams come from and go.
ghost use Rattle.std.specs.Prelude.{◌≡◌, ◌-◌, ◌^◌, ◌<◌, ◌≤◌, length, IfOk, IfSome, IsOkAnd};
ghost use Rattle.ram_io.specs.{HasCause, outgoing, SendsOne, TakesNext};

use crate::failed::Failed;
use rams_model::Octets;

/// A datagram that came: its sender, the local port that it came to, and its length in bytes.
#[derive(Clone, Copy, PartialEq, Eq)]
pub struct Arrival {
    /// The IPv4 address times 65536, plus the port.
    pub from: u64,
    pub port: u16,
    pub len: usize,
}

/// What a wire answers to one call of `receive`.
#[derive(Drop)]
pub enum Incoming {
    /// No datagram is ready.
    Nothing,
    /// A datagram from this sender to this local port.
    Datagram { from: u64, port: u16, bytes: Octets },
}

/// A wire of datagrams.
pub trait Wire {
    ghost use Rattle.std.specs.Prelude.{ℕ, List, Option};
    ghost use Rattle.ram_io.specs.declared.wire.Incoming.{Incoming};
    ghost use Rattle.ram_io.specs.{Outgoing};

    /// The answers that are left for `receive`, where the wire tells them. After them comes
    /// nothing.
    ghost arrivals: { Self → Option (List Incoming) };

    /// The datagrams that went out, where the wire tells them.
    ghost sent: { Self → Option (List Outgoing) };

    /// How often it has failed.
    ghost faults: { Self → ℕ };

    /// So many further bytes in so many further datagrams go out, and no call fails.
    ghost is_steady: { Self → ℕ → ℕ → Type 0 };

    /// Takes the next datagram, if one is ready, into the front of `buf`.
    /// A datagram of more than 2,000 bytes is cut. Where the call fails, nothing is taken.
    fn receive(&mut self, buf: &mut [u8]) -> Result<Option<Arrival>, Failed>
        requires { length buf.old ≡ 2000 }
        ensures bound { IfOk result (λ o. IfSome o (λ a. (a.from < 2 ^ 48) × (a.len ≤ 2000))) }
        ensures next { TakesNext (arrivals self.old) (arrivals self.new) result buf.new }
        ensures unsent { sent self.new ≡ sent self.old }
        ensures cause { HasCause (faults self.old) (faults self.new) result }
        ensures steady { (bytes : ℕ) (datagrams : ℕ) → is_steady self.old bytes datagrams
            → IsOkAnd result (λ _. is_steady self.new bytes datagrams) };

    /// Sends one datagram to `to` from the local port `port`. Where it fails, nothing is sent.
    fn send(&mut self, to: u64, port: u16, bytes: &[u8]) -> Result<(), Failed>
        ensures sends { SendsOne (sent self.old) (sent self.new) result
            (outgoing to port bytes.now) }
        ensures untaken { arrivals self.new ≡ arrivals self.old }
        ensures cause { HasCause (faults self.old) (faults self.new) result }
        ensures steady { (room : ℕ) (datagrams : ℕ) → length bytes.now ≤ room → 0 < datagrams
            → is_steady self.old room datagrams
            → IsOkAnd result (λ _. is_steady self.new (room - length bytes.now) (datagrams - 1)) };
}
