//! The names of the example of RFC 1035, 4.1.4, the first two at its offsets: F.ISI.ARPA at 20 and FOO.F.ISI.ARPA at
//! 40. ARPA and the root come right after them.
use crate::tests::compressed::{append, name_of};
use crate::tests::unwrap;
use arrayvec::ArrayVec;
use octseq::{AppendError, Array, AsOctets, OctetsBuilder, ShortBuf, Truncate, Turns};
use octseq_asserts::assert_equal;
use octseq_dns_compress::{Composer, Compressor, Target};
use std::process::Abort;

const HOST: &[u8] = b"\x01F\x03ISI\x04ARPA\x00";

const OTHER: &[u8] = b"\x03FOO\x01F\x03ISI\x04ARPA\x00";

const LAST: &[u8] = b"\x04ARPA\x00";

const ROOT: &[u8] = b"\x00";

/// Writes the four names, and checks what is there from offset 40 on.
fn compose<B: OctetsBuilder + Truncate, T: Compressor>(
    rt: &impl Abort,
    octets: B,
    table: T,
    wanted: &[u8],
) -> (B, T) {
    let mut turns = Turns::new();
    let mut composer = unwrap(rt, Composer::from_builder(octets, table));
    unwrap(rt, composer.append_slice(&[0; 8]));
    append(rt, &mut composer, HOST, &mut turns);
    unwrap(rt, composer.append_slice(&[0; 8]));
    append(rt, &mut composer, OTHER, &mut turns);
    append(rt, &mut composer, LAST, &mut turns);
    append(rt, &mut composer, ROOT, &mut turns);
    are_written(rt, composer.as_slice(), wanted);
    composer.finish()
}

/// Checks that the first name is at offset 20, and what is there from offset 40 on.
fn are_written(rt: &impl Abort, written: &[u8], wanted: &[u8]) {
    assert_equal!(rt, written.get(..20), Some([0; 20].as_slice()));
    assert_equal!(rt, written.get(20..32), Some(HOST));
    assert_equal!(rt, written.get(40..), Some(wanted));
}

#[test]
fn the_example_of_the_standard(rt: HostRuntime) {
    let wanted = b"\x03FOO\xC0\x14\xC0\x1A\x00".as_slice();
    let table = Vec::<Target>::new(rt.alloc());
    let (octets, table) = compose(&rt, Vec::<u8>::new(rt.alloc()), table, wanted);
    let (octets, table) = compose(&rt, octets, table, wanted);
    assert_equal!(&rt, octets.len(), 49);
    assert_equal!(&rt, table.len(), 4);
    compose(
        &rt,
        Array::<49>::new(),
        ArrayVec::<Target, 4>::new(),
        wanted,
    );
}

#[test]
fn a_full_table_compresses_less(rt: HostRuntime) {
    let one = b"\x03FOO\x01F\x03ISI\xC0\x1A\xC0\x1A\x00".as_slice();
    compose(&rt, Array::<255>::new(), ArrayVec::<Target, 1>::new(), one);
    let none = b"\x03FOO\x01F\x03ISI\x04ARPA\x00\x04ARPA\x00\x00".as_slice();
    compose(&rt, Array::<255>::new(), ArrayVec::<Target, 0>::new(), none);
}

/// Checks that no composer is made in 11 octets.
fn has_no_room_for_a_header(rt: &impl Abort) {
    let table = ArrayVec::<Target, 4>::new();
    let made = Composer::from_builder(Array::<11>::new(), table);
    assert_equal!(rt, made.is_err(), true);
}

#[test]
fn what_passes_the_limit_is_refused(rt: HostRuntime) {
    has_no_room_for_a_header(&rt);
    let mut turns = Turns::new();
    let mut composer = unwrap(
        &rt,
        Composer::from_builder(Array::<26>::new(), ArrayVec::<Target, 4>::new()),
    );
    append(&rt, &mut composer, HOST, &mut turns);
    let refused = composer.append_name(&name_of(&rt, b"\x01A\x00"), &mut turns);
    assert_equal!(&rt, refused, Err(AppendError::Short(ShortBuf)));
    append(&rt, &mut composer, HOST, &mut turns);
    assert_equal!(
        &rt,
        composer.as_slice().get(24..),
        Some(b"\xC0\x0C".as_slice())
    );
    let (octets, table) = composer.finish();
    assert_equal!(&rt, octets.len(), 26);
    assert_equal!(&rt, table.len(), 3);
}
