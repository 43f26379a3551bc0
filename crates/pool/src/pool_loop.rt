//! A trace of any number of channels on one link, each channel on a thread of its own: from the
//! source's bytes to the trace's book and the link's ledger.

mod dealing;
mod ending;
mod lanes;
mod reading;
mod routes;
mod walking;
mod writing;

pub use dealing::{Coming, Dealt};
pub use ending::write_pool;
pub use ram_io::{Gate, NoMemory, Open, Sink, Source};
pub use rams_model::Status;
pub use reading::read_trace;
pub use routes::Route;
pub use trace_loop::Stop;
pub use trace_loop::whole_trace::ReadTrace;
