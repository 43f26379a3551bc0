//! The loop over the lines of a trace, whatever serves it: from the source's bytes to the sink's.
#![tactic(auto)]

pub mod head_loop;
pub mod journal_book;
mod lines;
mod server;
mod stop;
mod text;
pub mod trace_book;
mod turn;
pub mod whole_trace;
mod writer;

pub use line_io::Gather;
pub use ram_io::{NoMemory, Sink, Source};
pub use rams_model::Status;
pub use server::TraceServer;
pub use stop::Stop;
pub use text::{close, write_text};
pub use turn::{MOST_EVENTS, Turn};
pub use writer::{Writer, flush, new_writer, put, settle};
