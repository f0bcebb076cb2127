//! What the tests share.
use std::alloc::AllocGlobal;
use std::fmt::{Debug, Display};
use std::process::Abort;

/// Called by an assertion: ends the test if two values differ.
fn equal<T: PartialEq + Debug + Drop>(rt: &impl Abort, what: &str, left: T, right: T) {
    assert_eq!(rt; left, right, "{what}");
}

/// Returns the value of a result, or ends the test with its error.
fn unwrap<T, E: Debug + Drop>(rt: &impl Abort, made: Result<T, E>) -> T {
    match made {
        Ok(value) => value,
        Err(error) => panic!(rt; "error: {error:?}"),
    }
}

/// Returns what a value shows.
fn shown<T: Display>(rt: &(impl Abort + AllocGlobal), value: &T) -> String {
    unwrap(rt, format!(in rt.alloc(); "{value}"))
}

/// Appends a label of this length, and a full stop.
fn push_label(rt: &impl Abort, text: &mut String, len: usize) {
    for _ in 0..len {
        unwrap(rt, text.push('a'));
    }
    unwrap(rt, text.push('.'));
}

/// Returns the text of labels of these lengths, each followed by a full stop.
fn labels_text(rt: &(impl Abort + AllocGlobal), lengths: &[usize]) -> String {
    let mut text = String::new(rt.alloc());
    for len in lengths {
        push_label(rt, &mut text, *len);
    }
    text
}

mod compressed;
mod name_relatives;
mod names;
