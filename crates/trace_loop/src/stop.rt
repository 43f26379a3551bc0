//! Why a command stops before its end.
ghost use Rattle.std.specs.Prelude.{◌≡◌};
ghost use Rattle.trace_loop.specs.declared.stop.Stop.TheVariants.{Memory};

use ram_io::NoMemory;

/// What stopped a command.
#[derive(Clone, Copy, PartialEq, Eq)]
pub enum Stop {
    Memory,
    /// The source failed.
    Read,
    /// The sink failed.
    Write,
    /// The wire failed.
    Wire,
}

impl From<NoMemory> for Stop {
    ghost from_gives = { λ _ e. e ≡ Memory };

    fn from(_e: NoMemory) -> Stop {
        Stop::Memory
    }
}
