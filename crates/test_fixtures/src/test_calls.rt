//! What tests call around what they test. What is compared, which takes the bound `Abort`, stands in each crate of
//! tests: no library may have that bound.

use std::test::Fail;

/// The value is dropped, by a call of its own: so a caller's proof doesn't go through its fields.
pub fn let_go<T: Drop>(_value: T) {}

/// What a call gives that succeeds in a test.
pub fn done<T, E: Drop>(outcome: Result<T, E>) -> Result<T, Fail> {
    match outcome {
        Ok(value) => Ok(value),
        Err(_) => Err(Fail::new("a call failed")),
    }
}
