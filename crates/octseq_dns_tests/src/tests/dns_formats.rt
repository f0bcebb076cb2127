//! Names and data as formats: read in a message, with their pointers, and written plain.
use crate::tests::unwrap;
use octseq::{Array, AsOctets, EmptyBuilder, Parser, Truncate, WriteError};
use octseq_asserts::assert_equal;
use octseq_dns::DomainName;
use octseq_dns::data::{Mx, Soa, Srv};
use octseq_dns::opt::EdnsOption;
use octseq_format::{Format, Of, Repeated};
use std::alloc::AllocGlobal;
use std::process::Abort;

/// `F.ISI.ARPA.` at offset 0, and at offset 12 a number of 2 octets, `FOO` and a pointer to offset 0: names of RFC
/// 1035, 4.1.4.
const EXCHANGE: &[u8] = b"\x01F\x03ISI\x04ARPA\0\0\x0A\x03FOO\xC0\0";

/// Reads the value at an offset. Returns where it ends, and how it is written.
fn written<R: AsOctets + Copy, F: Format<R>, B: EmptyBuilder + Truncate>(
    rt: &(impl Abort + AllocGlobal),
    octets: R,
    place: usize,
) -> (usize, Result<B, WriteError>) {
    let mut parser = Parser::from_ref(octets);
    unwrap(rt, parser.seek(place));
    let value = unwrap(rt, F::parse(&mut parser));
    (parser.pos(), F::compose_whole(rt.alloc(), &value))
}

/// Does this for a name.
fn name<R: AsOctets + Copy, B: EmptyBuilder + Truncate>(
    rt: &(impl Abort + AllocGlobal),
    octets: R,
    place: usize,
) -> (usize, Result<B, WriteError>) {
    written::<R, DomainName, B>(rt, octets, place)
}

#[test]
fn a_name_is_written_plain(rt: HostRuntime) {
    let (end, octets) = name::<&[u8], Vec<u8>>(&rt, EXCHANGE, 14);
    assert_equal!(&rt, end, 20);
    assert_equal!(
        &rt,
        unwrap(&rt, octets).as_slice(),
        b"\x03FOO\x01F\x03ISI\x04ARPA\0".as_slice()
    );
}

#[test]
fn a_name_is_written_where_it_fits(rt: HostRuntime) {
    let (_end, octets) = name::<&[u8], Array<16>>(&rt, EXCHANGE, 14);
    assert_equal!(
        &rt,
        unwrap(&rt, octets).as_slice(),
        b"\x03FOO\x01F\x03ISI\x04ARPA\0".as_slice()
    );
    let (_end, octets) = name::<&[u8], Array<15>>(&rt, EXCHANGE, 14);
    assert_equal!(
        &rt,
        octets.is_err_and(|error| error == WriteError::Short),
        true
    );
}

/// Does this for a mail exchange.
fn mx<R: AsOctets + Copy>(
    rt: &(impl Abort + AllocGlobal),
    octets: R,
    place: usize,
) -> (usize, Vec<u8>) {
    let (end, octets) = written::<R, Of<Mx<R>>, Vec<u8>>(rt, octets, place);
    (end, unwrap(rt, octets))
}

#[test]
fn a_mail_exchange_is_written_plain(rt: HostRuntime) {
    let (end, octets) = mx(&rt, EXCHANGE, 12);
    assert_equal!(&rt, end, 20);
    assert_equal!(
        &rt,
        octets.as_slice(),
        b"\0\x0A\x03FOO\x01F\x03ISI\x04ARPA\0".as_slice()
    );
}

/// Does this for mail exchanges up to the end.
fn mxs<R: AsOctets + Copy>(
    rt: &(impl Abort + AllocGlobal),
    octets: R,
    place: usize,
) -> (usize, Vec<u8>) {
    let (end, octets) = written::<R, Repeated<Of<Mx<R>>>, Vec<u8>>(rt, octets, place);
    (end, unwrap(rt, octets))
}

/// Their octets aren't the ones they were read from.
#[test]
fn mail_exchanges_are_written_plain(rt: HostRuntime) {
    let packed = b"\x01F\x03ISI\x04ARPA\0\0\x0A\x03FOO\xC0\0\0\x14\x03BAR\xC0\x02".as_slice();
    let plain = b"\0\x0A\x03FOO\x01F\x03ISI\x04ARPA\0\0\x14\x03BAR\x03ISI\x04ARPA\0".as_slice();
    let (end, octets) = mxs(&rt, packed, 12);
    assert_equal!(&rt, end, 28);
    assert_equal!(&rt, octets.as_slice(), plain);
}

/// Does this for a start of authority.
fn soa<R: AsOctets + Copy>(rt: &(impl Abort + AllocGlobal), octets: R) -> (usize, Vec<u8>) {
    let (end, octets) = written::<R, Of<Soa<R>>, Vec<u8>>(rt, octets, 0);
    (end, unwrap(rt, octets))
}

#[test]
fn the_start_of_a_zone_is_written_plain(rt: HostRuntime) {
    let packed =
        b"\x02ns\0\x01a\xC0\0\0\0\0\x01\0\0\0\x02\0\0\0\x03\0\0\0\x04\0\0\0\x05".as_slice();
    let plain =
        b"\x02ns\0\x01a\x02ns\0\0\0\0\x01\0\0\0\x02\0\0\0\x03\0\0\0\x04\0\0\0\x05".as_slice();
    let (end, octets) = soa(&rt, packed);
    assert_equal!(&rt, end, 28);
    assert_equal!(&rt, octets.as_slice(), plain);
}

/// Does this for a service record.
fn srv<R: AsOctets + Copy>(rt: &(impl Abort + AllocGlobal), octets: R) -> (usize, Vec<u8>) {
    let (end, octets) = written::<R, Of<Srv<R>>, Vec<u8>>(rt, octets, 0);
    (end, unwrap(rt, octets))
}

#[test]
fn the_place_of_a_service_is_written(rt: HostRuntime) {
    let octets = b"\0\x01\0\x02\x01\xBB\x02ns\0more".as_slice();
    let (end, again) = srv(&rt, octets);
    assert_equal!(&rt, end, 10);
    assert_equal!(
        &rt,
        again.as_slice(),
        b"\0\x01\0\x02\x01\xBB\x02ns\0".as_slice()
    );
}

/// Does this for an EDNS option.
fn option<R: AsOctets + Copy>(rt: &(impl Abort + AllocGlobal), octets: R) -> (usize, Vec<u8>) {
    let (end, octets) = written::<R, Of<EdnsOption<R>>, Vec<u8>>(rt, octets, 0);
    (end, unwrap(rt, octets))
}

#[test]
fn an_option_is_written(rt: HostRuntime) {
    let (end, octets) = option(&rt, b"\0\x0A\0\x03abcd".as_slice());
    assert_equal!(&rt, end, 7);
    assert_equal!(&rt, octets.as_slice(), b"\0\x0A\0\x03abc".as_slice());
}
