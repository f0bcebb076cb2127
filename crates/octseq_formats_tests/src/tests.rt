//! What the tests share.
use octseq::{AsOctets, EmptyBuilder, Malformed, OctetsBuilder, Truncate, WriteError};
use octseq_asserts::{assert_equal, assert_true};
use octseq_format::Format;
use std::alloc::{AllocGlobal, Global};
use std::fmt::Debug;
use std::process::Abort;

/// Called by an assertion: ends the test if two values differ.
fn equal<T: PartialEq + Debug + Drop>(rt: &impl Abort, what: &str, left: T, right: T) {
    assert_eq!(rt; left, right, "{what}");
}

/// Returns the value of a result, or ends the test with its error.
fn unwrap<T, E: Debug + Drop>(rt: &impl Abort, made: Result<T, E>) -> T {
    match made {
        Ok(value) => value,
        Err(error) => panic!(rt; "error: {error:?}"),
    }
}

/// Reads a value from all the octets, and checks that it is written back.
///
/// This and what follows is the same for each format: a call of it is proved sooner than one of the format, whose
/// contract says what the octets are.
fn read<F: Format<R>, R: AsOctets + Copy>(rt: &(impl AllocGlobal + Abort), octets: R) -> F::Value {
    let value = unwrap(rt, F::parse_whole(octets));
    let written: Vec<u8> = unwrap(rt, F::compose_whole(rt.alloc(), &value));
    assert_equal!(rt, written.as_slice(), octets.as_ref());
    value
}

/// Checks what a whole slice says by a format, and that it is written back.
fn is_said<'a, F: Format<&'a [u8]>>(
    rt: &(impl AllocGlobal + Abort),
    octets: &'a [u8],
    wanted: F::Value,
)
where
    F::Value: PartialEq + Debug,
{
    let value = read::<F, &[u8]>(rt, octets);
    assert_equal!(rt, value, wanted);
}

/// Returns the error of octets that aren't a value, or `None`.
fn refusal<F: Format<R>, R: AsOctets + Copy>(octets: R) -> Option<Malformed> {
    F::parse_whole(octets).err()
}

/// Checks that a value isn't written.
fn is_unwritten<'a, F: Format<&'a [u8]>>(rt: &(impl AllocGlobal + Abort), value: F::Value) {
    let written: Result<Vec<u8>, _> = compose::<F, &'a [u8], _>(rt.alloc(), &value);
    assert_equal!(rt, written, Err(WriteError::Malformed));
}

/// Checks that octets aren't a value.
fn isnt_said<'a, F: Format<&'a [u8]>>(rt: &impl Abort, octets: &'a [u8]) {
    assert_equal!(rt, refusal::<F, &[u8]>(octets), Some(Malformed));
}

/// Appends the octets of a value.
fn append<F: Format<R>, R: AsOctets + Copy, B: OctetsBuilder + Truncate>(
    builder: &mut B,
    value: &F::Value,
) -> Result<(), WriteError> {
    F::append(builder, value)
}

/// Makes the octets of a value.
fn compose<F: Format<R>, R: AsOctets + Copy, B: EmptyBuilder + Truncate>(
    alloc: Global,
    value: &F::Value,
) -> Result<B, WriteError> {
    F::compose_whole(alloc, value)
}

/// Reads a packet and writes it again. Returns `None` if the octets are malformed, or can't be written. (With `rt` as a
/// parameter, a check of a format of some size takes more than it may.)
fn again<F: Format<R>, R: AsOctets + Copy>(alloc: Global, octets: R) -> Option<Vec<u8>> {
    let Ok(value) = F::parse_whole(octets) else {
        return None;
    };
    F::compose_whole(alloc, &value).ok()
}

/// Reads a packet and writes it again. Returns `None` if the octets are malformed.
fn rewritten<F: Format<R>, R: AsOctets + Copy>(
    rt: &(impl AllocGlobal + Abort),
    octets: R,
) -> Option<Vec<u8>> {
    let Ok(value) = F::parse_whole(octets) else {
        return None;
    };
    Some(unwrap(rt, F::compose_whole(rt.alloc(), &value)))
}

/// Checks that a packet was written as these octets.
fn is_same(rt: &impl Abort, written: Option<Vec<u8>>, octets: &[u8]) {
    match written {
        Some(written) => assert_equal!(rt, written.as_slice(), octets),
        None => assert_equal!(rt, "malformed", "a packet"),
    }
}

/// Checks that a packet was written in fewer octets.
fn is_shorter(rt: &impl Abort, written: Option<Vec<u8>>, len: usize) {
    match written {
        Some(written) => assert_true!(rt, written.len() < len),
        None => assert_equal!(rt, "malformed", "a packet"),
    }
}

/// Checks that octets were refused.
fn is_refused(rt: &impl Abort, written: Option<Vec<u8>>) {
    assert_true!(rt, written.is_none());
}

/// Reads a value from all the octets. Returns `None` if they are malformed.
fn value<F: Format<R>, R: AsOctets + Copy>(octets: R) -> Option<F::Value> {
    F::parse_whole(octets).ok()
}

mod bgp;
mod bitcoin;
mod dhcp;
mod families;
mod faults;
mod headers;
mod heads;
mod keyed;
mod leaves;
mod limits;
mod mqtt;
mod ntp;
mod numbers;
mod parts;
mod refused;
mod tftp;
mod tls;
