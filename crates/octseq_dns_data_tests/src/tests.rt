//! What the tests share.
use std::alloc::AllocGlobal;
use std::fmt::{Debug, Display};
use std::process::Abort;

/// Called by an assertion: ends the test if two values differ.
fn equal<T: PartialEq + Debug + Drop>(rt: &impl Abort, what: &str, left: T, right: T) {
    assert_eq!(rt; left, right, "{what}");
}

/// Returns the value of a result, or ends the test with its error.
fn unwrap<T, E: Debug + Drop>(rt: &impl Abort, made: Result<T, E>) -> T {
    match made {
        Ok(value) => value,
        Err(error) => panic!(rt; "error: {error:?}"),
    }
}

/// Returns what a value shows.
fn shown<T: Display>(rt: &(impl Abort + AllocGlobal), value: &T) -> String {
    unwrap(rt, format!(in rt.alloc(); "{value}"))
}

mod addresses;
mod known_types;
mod mnemonics;
mod rtype_bitmaps;
mod scan;
mod svc_params;
