//! A server over any source, sink, wire and clock: it reads a head, hears what comes to the ports of its
//! channels, turn by turn, and writes the journal of it.
#![tactic(auto)]

mod head;
mod hearing;
mod journal;
mod send;
mod serving;
mod turns;
mod watch;

pub use head::read_head;
pub use hearing::{Server, hear, new_server};
pub use journal::{write_event, write_refused};
pub use send::send_all;
pub use serving::serve;
pub use trace_loop::Stop;
pub use trace_loop::head_loop::{Head, HeadLine, Opened};
pub use turns::{MOST_DATAGRAM, take_turns};
pub use watch::{Watch, tell_ports};
