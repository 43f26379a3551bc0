//! What is compared, and long runs of a byte.
use std::alloc::{AllocError, Global};
use std::fmt::Display;
use std::process::Abort;

/// The value is the one that is wanted of this.
pub fn same<T: PartialEq, C: Display>(rt: &impl Abort, got: &T, want: &T, of: &C) {
    assert!(rt; *got == *want, "{of}");
}

/// It holds of this.
pub fn holds<C: Display>(rt: &impl Abort, is_so: bool, of: &C) {
    assert!(rt; is_so, "{of}");
}

/// So many times the same byte, and then the end.
pub fn run(alloc: Global, byte: u8, count: usize, end: &[u8]) -> Result<Vec<u8>, AllocError> {
    let mut bytes = vec![in alloc; byte; count]?;
    bytes.extend_from_slice(end)?;
    Ok(bytes)
}
