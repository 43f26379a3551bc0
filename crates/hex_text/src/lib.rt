//! Bytes as lower-case hexadecimal digits, two a byte, at speed.
//!
//! Digits and bytes go in blocks of 16 bytes, as vectors; digits that are known to be such aren't
//! tested again. What is read and written is told in the words of the crate `hex`: a text of lower-case
//! digits decodes to the same bytes here and there, and bytes are written as there. That crate
//! reads the capitals `A` to `F` too, and this one refuses them.
#![tactic(auto)]

mod block;
mod decode;
mod encode;
mod laws;
mod test;
mod vectors;

pub use decode::decode_into;
pub use encode::encode_into;
pub use laws::texts_are_bytes;
pub use test::are_digits;
pub use vectors::{append_encoded, decode_digits};
