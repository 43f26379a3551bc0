//! Captures as traces: a head and a classic capture file (pcap) are read from a source, and a trace of
//! the head's channels is written of what the file's records brought to their ports.

mod capture;
mod events;
mod intake;
mod last;
pub mod pcap_trace;
mod records;
mod text;
mod watch;
mod writer;

pub use crate::capture_loop::pcap_trace::{CaptureFault, FileKind};
pub use ram_io::{Sink, Source};
pub use rams_model::Status;
pub use text::write_capture;
pub use trace_loop::Stop;
pub use watch::CaptureWatch;
