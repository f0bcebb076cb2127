//! What the tests share.
use std::fmt::Debug;
use std::process::Abort;

/// Called by an assertion: ends the test if two values differ.
fn equal<T: PartialEq + Debug + Drop>(rt: &impl Abort, what: &str, left: T, right: T) {
    assert_eq!(rt; left, right, "{what}");
}

/// Returns the value of a result, or ends the test with its error.
fn unwrap<T, E: Debug + Drop>(rt: &impl Abort, made: Result<T, E>) -> T {
    match made {
        Ok(value) => value,
        Err(error) => panic!(rt; "error: {error:?}"),
    }
}

mod composed;
mod data;
mod malformed;
mod params;
mod refused;
mod rows;
mod types;
