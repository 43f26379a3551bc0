//! What is compared, and how what is dear to drop is let go.
use std::fmt::Display;
use std::process::Abort;

/// The value is the one that is wanted of this.
pub fn same<T: PartialEq, C: Display>(rt: &impl Abort, got: &T, want: &T, of: &C) {
    assert!(rt; *got == *want, "{of}");
}
