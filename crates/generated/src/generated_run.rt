//! A generated trace, served by a core of its channel from the first event to the last, and the
//! summary of its one lawful book.

mod run;
mod serving;

pub use ram_io::NoMemory;
pub use run::{MOST_BLOCKS, summary_of};
