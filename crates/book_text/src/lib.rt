//! The lines of a book, each appended to a given text.
//!
//! A call appends its whole line, or nothing where memory runs out. It runs out only where the text
//! lacks room for the line, and a text never loses room.
#![tactic(auto)]

pub mod answer_text;
mod line;
mod named;
mod note;
pub mod order_datagrams;
mod pen;
mod piece;
mod tail;

pub use line::{
    append_count, append_hex, append_no_channel, append_refused, append_send, append_with_hex,
    begin,
};
pub use pen::Pen;
pub use tail::Tail;
