use octseq::builder::{AppendError, AsOctets, ShortBuf};
use octseq::str::StrBuilder;
use octseq_asserts::{assert_equal, assert_true};
use std::fmt::Debug;
use std::process::Abort;

/// Called by an assertion: ends the test if two values differ.
fn equal<T: PartialEq + Debug + Drop>(rt: &impl Abort, what: &str, left: T, right: T) {
    assert_eq!(rt; left, right, "{what}");
}

/// Returns the value of a result, or ends the test with its error.
fn unwrap<T, E: Debug + Drop>(rt: &impl Abort, made: Result<T, E>) -> T {
    match made {
        Ok(value) => value,
        Err(error) => panic!(rt; "error: {error:?}"),
    }
}

/// Checks that the result is the expected text, or if there is none, the refusal of what exceeds the limit.
fn is_text_or_short<B: AsOctets>(
    rt: &impl Abort,
    answer: Result<StrBuilder<B>, AppendError>,
    wanted: Option<&str>,
) {
    match answer {
        Ok(text) => assert_equal!(rt, Some(text.as_str()), wanted),
        Err(error) => {
            assert_true!(rt, wanted.is_none());
            assert_equal!(rt, error, AppendError::Short(ShortBuf));
        }
    }
}

mod builders;
mod composing;
mod errors;
mod habits;
mod integers;
mod refused;
mod runs;
mod text;
mod uses;
mod windows;
