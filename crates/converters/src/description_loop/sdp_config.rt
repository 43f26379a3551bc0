//! Session descriptions (SDP, RFC 8866) of a channel: its settings are read from one, and one is
//! written.
//!
//! A description has sections, one a media stream. The channel is the first format for which rapid
//! acquisition is offered (`nack rai`: RFC 4585, 4.2; RFC 6285, 8.1), and its repairs are the first
//! format of retransmission that names it (`rtx`, `apt`: RFC 4588, 8.6). Nothing that is read is copied.

mod attribute;
mod laws;
mod lines;
mod pieces;
mod read;
mod sdp;
mod section;
mod write;

pub use laws::{descriptions_are_read_back, long_texts_are_refused, settings_are_in_range};
pub use lines::LONGEST_LINE;
pub use ram_io::NoMemory;
pub use read::{MOST_LINES, read_sdp};
pub use sdp::{Sdp, SdpFault};
pub use write::write_sdp;
