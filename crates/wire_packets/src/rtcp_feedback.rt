//! Transport layer feedback (RFC 4585, 6.1) and the generic NACK (RFC 4585, 6.2.1), read and
//! written.

mod feedback_message;
mod feedback_reading;
mod nack_iter;
mod nack_reading;
mod nack_writing;

pub use feedback_message::Feedback;
pub use feedback_reading::feedback;
pub use nack_iter::NackIter;
pub use nack_reading::nack_numbers;
pub use nack_writing::{append_nack, write_nack};
pub use ram_io::NoMemory;
pub use rams_model::NackFault;
