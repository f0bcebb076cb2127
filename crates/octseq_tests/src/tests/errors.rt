//! What errors print, and how they convert.
use crate::tests::unwrap;
use octseq::ShortInput;
use octseq::parse::ParseOctetsError;
use octseq_asserts::{assert_equal, assert_true};
use std::alloc::{AllocError, Global};
use std::error::Error;

/// Returns what an error prints, through the trait of errors.
fn text<E: Error>(alloc: Global, error: E) -> Result<String, AllocError> {
    Ok(format!(in alloc; "{error}")?)
}

#[test]
fn errors_print_what_was_wrong(rt: HostRuntime) {
    let alloc = rt.alloc();
    let short = "unexpected end of input";
    assert_equal!(&rt, unwrap(&rt, text(alloc, ShortInput)).as_str(), short);
    assert_equal!(
        &rt,
        unwrap(&rt, text(alloc, ParseOctetsError::Short(ShortInput))).as_str(),
        short,
    );
    assert_equal!(
        &rt,
        unwrap(&rt, text(alloc, ParseOctetsError::Memory)).as_str(),
        "out of memory",
    );
    assert_equal!(
        &rt,
        unwrap(&rt, format!(in alloc; "{ShortInput:?}")).as_str(),
        "ShortInput",
    );
    let error = ParseOctetsError::Short(ShortInput);
    assert_equal!(
        &rt,
        unwrap(&rt, format!(in alloc; "{error:?}")).as_str(),
        "Short(ShortInput)",
    );
}

#[test]
fn errors_are_made_of_others(rt: HostRuntime) {
    assert_equal!(&rt, ShortInput::default(), ShortInput);
    assert_equal!(
        &rt,
        ParseOctetsError::from(ShortInput),
        ParseOctetsError::Short(ShortInput),
    );
    assert_equal!(
        &rt,
        ParseOctetsError::from(AllocError),
        ParseOctetsError::Memory,
    );
    assert_true!(
        &rt,
        ParseOctetsError::Memory != ParseOctetsError::Short(ShortInput),
    );
}
