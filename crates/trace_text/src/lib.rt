//! The lines of a trace: their order, and how they are written.
#![tactic(auto)]

mod judged;
mod laws;
mod order;
mod state;
mod text;

pub use judged::Judged;
pub use laws::{lines_are_spelled_as_read, spelled_lines_are_read, the_words_tell};
pub use rams_model::{LineFault, Mode};
pub use state::State;
pub use text::{append_line, write_line};
pub use trace_lines::{LONGEST_LINE, Line, decode, decode_to, number, read_line};
