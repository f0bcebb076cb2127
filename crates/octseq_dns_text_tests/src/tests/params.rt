//! Service parameters: the test vectors of RFC 9460, appendix D, and other texts.
use crate::tests::types::assert_made;
use crate::tests::unwrap;
use octseq::{Array, AsOctets};
use octseq_asserts::assert_equal;
use octseq_dns_scan::Words;
use octseq_dns_text::{ScanError, scan_params};
use std::alloc::AllocGlobal;
use std::process::Abort;

/// The vectors of RFC 9460, D.1 and D.2, and their octets.
static VECTORS: [(&str, &[u8]); 9] = [
    ("", b""),
    ("port=53", b"\x00\x03\x00\x02\x00\x35"),
    ("key667=hello", b"\x02\x9B\x00\x05hello"),
    (r#"key667="hello\210qoo""#, b"\x02\x9B\x00\x09hello\xD2qoo"),
    (
        r#"ipv6hint="2001:db8::1,2001:db8::53:1""#,
        b"\x00\x06\x00\x20\x20\x01\x0D\xB8\0\0\0\0\0\0\0\0\0\0\0\x01\x20\x01\x0D\xB8\0\0\0\0\0\0\0\0\0\x53\0\x01",
    ),
    (
        r#"ipv6hint="2001:db8:122:344::192.0.2.33""#,
        b"\x00\x06\x00\x10\x20\x01\x0D\xB8\x01\x22\x03\x44\0\0\0\0\xC0\x00\x02\x21",
    ),
    (
        "alpn=h2,h3-19 mandatory=ipv4hint,alpn ipv4hint=192.0.2.1",
        b"\x00\x00\x00\x04\x00\x01\x00\x04\x00\x01\x00\x09\x02h2\x05h3-19\x00\x04\x00\x04\xC0\x00\x02\x01",
    ),
    (
        r#"alpn="f\\\\oo\\,bar,h2""#,
        b"\x00\x01\x00\x0C\x08f\\oo,bar\x02h2",
    ),
    (
        r#"alpn=f\\\092oo\092,bar,h2"#,
        b"\x00\x01\x00\x0C\x08f\\oo,bar\x02h2",
    ),
];

/// The failures of RFC 9460, D.3, and the offsets of the words that aren't what they have to be. Of a key that is
/// mandatory and isn't there, nothing is said here: data is read, not judged.
static FAILURES: [(&str, usize); 8] = [
    ("key123=abc key123=def", 11),
    ("mandatory", 0),
    ("alpn", 0),
    ("port", 0),
    ("ipv4hint", 0),
    ("ipv6hint", 0),
    ("no-default-alpn=abc", 0),
    ("mandatory=mandatory", 0),
];

/// What is shown of parameters, and their octets.
static SHOWN: [(&str, &[u8]); 8] = [
    (r#"port="53""#, b"\x00\x03\x00\x02\x00\x35"),
    ("no-default-alpn", b"\x00\x02\x00\x00"),
    (r#"mandatory="port""#, b"\x00\x00\x00\x02\x00\x03"),
    ("ech", b"\x00\x05\x00\x00"),
    (
        r#"alpn="a\\\\b\\,c\"\000""#,
        b"\x00\x01\x00\x08\x07a\\b,c\"\x00",
    ),
    (
        "mandatory=\"alpn,port\" alpn=\"h2,h3\" port=\"443\" ipv4hint=\"1.2.3.4,5.6.7.8\" ech=\"AA==\" \
ipv6hint=\"2001:db8::1\" key7 key667=\"\\\"\\000\"",
        b"\x00\x00\x00\x04\x00\x01\x00\x03\x00\x01\x00\x06\x02h2\x02h3\x00\x03\x00\x02\x01\xBB\
\x00\x04\x00\x08\x01\x02\x03\x04\x05\x06\x07\x08\x00\x05\x00\x01\x00\
\x00\x06\x00\x10\x20\x01\x0D\xB8\0\0\0\0\0\0\0\0\0\0\0\x01\x00\x07\x00\x00\x02\x9B\x00\x02\"\x00",
    ),
    ("key65535", b"\xFF\xFF\x00\x00"),
    (r#"key8="""#, b"\x00\x08\x00\x00"),
];

/// Texts whose words aren't parameters, and the offsets of the first such words.
static REFUSED: [(&str, usize); 27] = [
    ("port=53 mandatory=key123,key123", 8),
    ("port=53 key3=53", 8),
    ("mandatory=port,key0", 0),
    ("mandatory=port,", 0),
    ("mandatory=\"\"", 0),
    ("PORT=53", 0),
    ("key65536=a", 0),
    ("key007=a", 0),
    ("key=a", 0),
    ("key7=", 0),
    ("=a", 0),
    ("port=65536", 0),
    ("port=-1", 0),
    ("port=\"\"", 0),
    ("key7=a\"b\"", 0),
    ("key7=a;b", 0),
    ("key7=\\256", 0),
    ("alpn=", 0),
    ("alpn=h2,", 0),
    ("alpn=,h2", 0),
    (r#"alpn="h2\\""#, 0),
    (r#"alpn="h\\2""#, 0),
    ("ipv4hint=1.2.3.4,", 0),
    ("ipv4hint=1.2.3", 0),
    ("ipv6hint=::1,1.2.3.4", 0),
    ("ech=A", 0),
    ("key7 key8=\"a", 5),
];

/// Checks that a text of parameters is read as octets, or refused.
fn assert_read(rt: &(impl Abort + AllocGlobal), text: &str, wanted: Result<&[u8], ScanError>) {
    let mut octets = unwrap(rt, vec![in rt.alloc(); 7]);
    let made = scan_params(rt.alloc(), Words::new(text.as_bytes()), &mut octets);
    assert_made(rt, text, made, octets.as_slice(), wanted);
}

#[test]
fn vectors_of_the_standard_are_read(rt: HostRuntime) {
    for (text, octets) in &VECTORS {
        assert_read(&rt, text, Ok(octets));
    }
}

#[test]
fn what_is_shown_is_read(rt: HostRuntime) {
    for (text, octets) in &SHOWN {
        assert_read(&rt, text, Ok(octets));
    }
}

#[test]
fn failures_of_the_standard_are_refused(rt: HostRuntime) {
    for (text, place) in &FAILURES {
        assert_read(&rt, text, Err(ScanError::Malformed(*place)));
    }
}

#[test]
fn a_word_that_is_no_parameter_is_refused(rt: HostRuntime) {
    for (text, place) in &REFUSED {
        assert_read(&rt, text, Err(ScanError::Malformed(*place)));
    }
}

#[test]
fn keys_are_of_one_number_however_they_are_named(rt: HostRuntime) {
    assert_read(
        &rt,
        "key4=1.2.3.4\tkey1=h2 key0=key4,alpn  key5=AAAA key2 ",
        Ok(
            b"\x00\x00\x00\x04\x00\x01\x00\x04\x00\x01\x00\x03\x02h2\x00\x02\x00\x00\
\x00\x04\x00\x04\x01\x02\x03\x04\x00\x05\x00\x03\0\0\0",
        ),
    );
}

#[test]
fn parameters_beyond_the_limit_are_refused(rt: HostRuntime) {
    let mut few = Array::<9>::new();
    let words = Words::new(b"key9 key7=a");
    assert_equal!(&rt, scan_params(rt.alloc(), words, &mut few), Ok(()));
    let more = scan_params(rt.alloc(), Words::new(b"key9"), &mut few);
    assert_equal!(&rt, more, Err(ScanError::Short));
    assert_equal!(
        &rt,
        AsOctets::as_ref(&few),
        b"\x00\x07\x00\x01a\x00\x09\x00\x00".as_slice()
    );
}
