//! What is compared, and the packets of the tests.
use std::alloc::{AllocError, Global};
use std::fmt::Display;
use std::process::Abort;

/// The value is the one that is wanted of this.
pub fn same<T: PartialEq, C: Display>(rt: &impl Abort, got: &T, want: &T, of: &C) {
    assert!(rt; *got == *want, "{of}");
}

/// It holds of this.
pub fn holds<C: Display>(rt: &impl Abort, is_so: bool, of: &C) {
    assert!(rt; is_so, "{of}");
}

/// A packet of the channel: version 2, the marker and payload type 33, and this payload.
pub fn packet(
    alloc: Global,
    sequence: u16,
    timestamp: u32,
    marker: bool,
    payload: &[u8],
) -> Result<Vec<u8>, AllocError> {
    let kind = if marker { 0xa1 } else { 0x21 };
    let s = sequence.to_be_bytes();
    let t = timestamp.to_be_bytes();
    let mut bytes = Vec::from_slice(
        alloc,
        &[
            0x80, kind, s[0], s[1], t[0], t[1], t[2], t[3], 0x11, 0x22, 0x33, 0x44,
        ],
    )?;
    bytes.extend_from_slice(payload)?;
    Ok(bytes)
}
