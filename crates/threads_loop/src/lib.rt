//! A trace of one channel whose events are dealt into lists, each on a thread of its own: from the
//! source's bytes to the trace of what came of it, and its book.
#![tactic(auto)]

mod dealing;
mod ending;
mod event;
mod reading;
pub mod session_worker;
mod writing;

pub use dealing::Dealt;
pub use ending::write_threads;
pub use ram_io::{Gate, NoMemory, Open, Sink, Source};
pub use rams_model::Status;
pub use reading::read_trace;
pub use trace_loop::Stop;
pub use trace_loop::whole_trace::ReadTrace;
