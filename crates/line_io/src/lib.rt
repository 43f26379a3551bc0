//! Lines out of a source, and text into a sink, in large pieces.
//!
//! A `LineReader` takes pieces of its source into a buffer that never grows, and hands out lines as
//! slices of it. A `Gather` gathers small texts and puts them to its sink in pieces of about 64 KiB.
#![tactic(auto)]

mod gather;
mod reader;
mod window;

pub use gather::{Gather, put_all};
pub use reader::{LineReader, Next};
