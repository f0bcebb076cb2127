//! Compressed names: what their tests share.
use crate::tests::unwrap;
use octseq::{OctetsBuilder, Parser, Truncate, Turns};
use octseq_dns_compress::{Composer, Compressor, Target};
use octseq_dns_name::ParsedName;
use std::alloc::AllocGlobal;
use std::process::Abort;

/// Reads the name that octets begin with.
fn name_of<'a>(rt: &impl Abort, octets: &'a [u8]) -> ParsedName<&'a [u8]> {
    let mut parser = Parser::from_ref(octets);
    unwrap(rt, ParsedName::parse(&mut parser))
}

/// Returns a composer that has written a header alone.
fn new_composer(rt: &(impl AllocGlobal + Abort)) -> Composer<Vec<u8>, Vec<Target>> {
    let table = Vec::<Target>::new(rt.alloc());
    unwrap(
        rt,
        Composer::from_builder(Vec::<u8>::new(rt.alloc()), table),
    )
}

/// Appends the name that octets begin with.
fn append<B: OctetsBuilder + Truncate, T: Compressor>(
    rt: &impl Abort,
    composer: &mut Composer<B, T>,
    octets: &[u8],
    turns: &mut Turns,
) {
    unwrap(rt, composer.append_name(&name_of(rt, octets), turns));
}

mod entries;
mod places;
mod refused;
mod standard;
