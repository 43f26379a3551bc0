//! Why a wire can't be bound.
use std::alloc::{AllocError, AllocFailed};
use std::io;

/// Why a wire can't be bound.
#[derive(Clone, Copy, PartialEq, Eq)]
pub enum BindFault {
    /// The system refused a socket, one of its ports, or the question which sockets are ready.
    Failed,
    /// Memory ran out.
    NoMemory,
}

impl From<io::Error> for BindFault {
    ghost use Rattle.std.specs.Prelude.{◌≡◌, ◌↔◌};
    ghost use Rattle.std.specs.IoError.{error_kind};
    ghost use Rattle.std.specs.declared.io.ErrorKind.TheVariants.{OutOfMemory};
    ghost use Rattle.udp_edge.specs.declared.bind_fault.BindFault.TheVariants.{NoMemory};

    ghost from_gives = { λ e fault. (fault ≡ NoMemory) ↔ (error_kind e ≡ OutOfMemory) };

    fn from(e: io::Error) -> BindFault {
        match e.kind() {
            io::ErrorKind::OutOfMemory => BindFault::NoMemory,
            _ => BindFault::Failed,
        }
    }
}

impl From<AllocError> for BindFault {
    ghost use Rattle.std.specs.Prelude.{◌≡◌};
    ghost use Rattle.udp_edge.specs.declared.bind_fault.BindFault.TheVariants.{NoMemory};

    ghost from_gives = { λ _ fault. fault ≡ NoMemory };

    fn from(_e: AllocError) -> BindFault {
        BindFault::NoMemory
    }
}

impl<T: Drop> From<AllocFailed<T>> for BindFault {
    ghost use Rattle.std.specs.Prelude.{◌≡◌};
    ghost use Rattle.udp_edge.specs.declared.bind_fault.BindFault.TheVariants.{NoMemory};

    ghost from_gives = { λ _ fault. fault ≡ NoMemory };

    fn from(_e: AllocFailed<T>) -> BindFault {
        BindFault::NoMemory
    }
}
