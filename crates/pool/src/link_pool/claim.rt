//! What is claimed of the link.

/// Bytes of the link that a taker has claimed: so many from byte `from` on, counted from the first that
/// was ever claimed.
#[derive(Clone, Copy, PartialEq, Eq)]
pub struct Claim {
    /// The number of the taker.
    pub taker: u32,
    pub from: u64,
    pub bytes: u64,
}

impl Claim {
    ghost use Rattle.std.specs.Prelude.{◌≡◌};
    ghost use Rattle.pool.specs.link_pool.{is_paid};

    /// Whether so many granted bytes pay for it: they reach to its end.
    pub fn is_paid(&self, granted: u64) -> bool
        ensures { result ≡ is_paid granted self.now }
    {
        self.from <= granted && self.bytes <= granted - self.from
    }
}
