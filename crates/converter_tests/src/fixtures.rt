//! What is compared.
use std::process::Abort;

/// The value is the one that is wanted of this.
pub fn same<T: PartialEq>(rt: &impl Abort, got: &T, want: &T, of: &str) {
    assert!(rt; *got == *want, "{of}");
}
