//! A standby: it reads the journal of a server as far as that goes, and takes over from there.
//!
//! A journal is a trace (`trace_text`). It may be cut at any byte; a last line that isn't whole isn't
//! looked at. The words of the contracts stand in `specs/`.

mod channels;
mod fault;
pub mod laws;
mod line;
mod part;
mod standby;
pub mod standby_book;

pub use fault::FeedFault;
pub use rams_model::LineFault;
pub use server_hub::Hub;
pub use standby::Standby;
