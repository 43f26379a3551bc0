//! What is compared.
use std::fmt::Display;
use std::process::Abort;

/// The value is the one that is wanted of this.
pub fn same<T: PartialEq, C: Display>(rt: &impl Abort, got: &T, want: &T, of: &C) {
    assert!(rt; *got == *want, "{of}");
}

/// It holds of this.
pub fn holds<C: Display>(rt: &impl Abort, is_so: bool, of: &C) {
    assert!(rt; is_so, "{of}");
}
