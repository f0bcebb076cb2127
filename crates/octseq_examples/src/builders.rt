//! Octets builders, and the sequences that they become.
use octseq::{Array, CowOctets, EmptyBuilder, FreezeBuilder, OctetsBuilder, Truncate};
use std::alloc::Global;

/// Returns an array that is truncated, and then shows hidden octets again.
pub fn lengthened() -> anyhow::Result<Array<4>> {
    let mut array = Array::<4>::new();
    array.append_slice(b"abcd")?;
    array.truncate(1); // the content is "a"
    array.resize_raw(3)?; // the content is "abc"
    Ok(array)
}

/// Returns a name followed by a zero, in a builder of any type.
pub fn c_string<B: EmptyBuilder>(alloc: Global, name: &str) -> anyhow::Result<B> {
    let mut octets = B::empty(alloc)?;
    octets.append_slice(name.as_bytes())?;
    octets.append_slice(b"\0")?;
    Ok(octets)
}

/// Returns a greeting that no longer grows.
pub fn greeting<B: EmptyBuilder + FreezeBuilder>(alloc: Global) -> anyhow::Result<B::Octets> {
    let mut builder = B::empty(alloc)?;
    builder.append_slice(b"hello")?;
    Ok(builder.freeze()?)
}

/// Returns octets that are borrowed until more are appended.
pub fn extended(alloc: Global) -> anyhow::Result<CowOctets<'static>> {
    let mut greeting = CowOctets::borrowed(alloc, b"hello world");
    greeting.truncate(5); // "hello", still borrowed
    greeting.append_slice(b"!")?; // "hello!", copied and owned
    Ok(greeting)
}
