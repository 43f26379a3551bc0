//! The RAMS messages (RFC 6285, 7): a request, information and a termination, read and written.
//!
//! A reader takes the feedback control information of a message (RFC 4585, 6.1) and copies nothing.
//! A writer gives the whole RTCP packet.

mod packet;
mod rams_i;
mod rams_r;
mod rams_t;
mod tlv_writing;
mod tlvs;

pub use ram_io::NoMemory;
pub use rams_i::{append_info, read_info, write_info};
pub use rams_model::{Info, Stop, TlvFault};
pub use rams_r::{Request, append_request, names, read_request, write_request};
pub use rams_t::{append_stop, read_stop, write_stop};
