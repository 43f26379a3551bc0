//! The commands of the program, over whatever they read from and write to.
#![tactic(auto)]

mod commands;
mod made;
mod replay;
mod served;
mod words;
mod writer;

pub use commands::{plain, run};
pub use converters::capture_loop::{CaptureFault, CaptureWatch, FileKind};
pub use ram_io::{NoMemory, Octets, Sink, Source};
pub use rams_model::Status;
pub use serve_loop::Watch;
pub use words::{Command, command_of, port_of};
