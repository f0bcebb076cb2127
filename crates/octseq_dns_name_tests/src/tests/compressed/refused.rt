//! Refused requests for memory.
//!
//! `.ci/refused` runs these tests with their n-th request refused, for each n up to the last of them. A refusal ends a
//! test with its error, once the test has checked what is there.
use crate::tests::compressed::{name_of, new_composer};
use crate::tests::unwrap;
use octseq::{AppendError, Turns};
use octseq_asserts::assert_equal;

#[test]
fn a_name_is_appended_or_not_at_all(rt: HostRuntime) {
    let mut turns = Turns::new();
    let mut composer = new_composer(&rt);
    let appended = composer.append_name(&name_of(&rt, b"\x01a\x01b\x00"), &mut turns);
    match appended {
        Ok(()) => assert_equal!(
            &rt,
            composer.as_slice().get(12..),
            Some(b"\x01a\x01b\x00".as_slice())
        ),
        Err(refusal) => {
            assert_equal!(&rt, refusal, AppendError::Memory);
            assert_equal!(&rt, composer.as_slice().len(), 12);
        }
    }
    unwrap(&rt, appended);
}
