//! Words, numbers, times, strings, octets and addresses of a line: what the standards' examples and Python's
//! `calendar.timegm` say.
use crate::tests::{equal, unwrap};
use octseq::{Array, WriteError};
use octseq_asserts::{assert_equal, assert_true};
use octseq_dns_scan::{
    Base32hexReader, Base64Reader, HexReader, STRING_MAX, StringError, Words, scan_ipv4, scan_ipv6,
    scan_number, scan_string, scan_time, scan_ttl, scan_u8, scan_u16, scan_u32, string_len,
};
use std::process::Abort;
use std::test::Fail;

/// Words as TTLs.
static TTLS: [(&[u8], Option<u32>); 7] = [
    (b"86400", Some(86_400)),
    (b"4294967295", Some(4_294_967_295)),
    (b"4294967296", None),
    (b"00000000001", None),
    (b"1h", None),
    (b"+1", None),
    (b"", None),
];

/// The dates of RFC 4034, 3.3, and the ends of months, years and numbers.
static TIMES: [(&[u8], Option<u32>); 16] = [
    (b"20030322173103", Some(1_048_354_263)),
    (b"20030220173103", Some(1_045_762_263)),
    (b"1048354263", Some(1_048_354_263)),
    (b"19700101000000", Some(0)),
    (b"20000229000000", Some(951_782_400)),
    (b"20240229235959", Some(1_709_251_199)),
    (b"20380119031408", Some(2_147_483_648)),
    (b"21060207062816", Some(0)),
    (b"21000301000000", Some(4_107_542_400)),
    (b"99991231235959", Some(4_294_197_631)),
    (b"21000229000000", None),
    (b"20231301000000", None),
    (b"20230431000000", None),
    (b"20230101240000", None),
    (b"19691231235959", None),
    (b"2023010100000", None),
];

/// Octets in base 64: RFC 4648, 10.
static BASE_64: [(&[u8], &[u8]); 7] = [
    (b"", b""),
    (b"Zg==", b"f"),
    (b"Zm8=", b"fo"),
    (b"Zm9v", b"foo"),
    (b"Zm9vYg==", b"foob"),
    (b"Zm9vYmE=", b"fooba"),
    (b"Zm9vYmFy", b"foobar"),
];

/// Octets in base 32 with the digits of hexadecimal, in either case and without padding: RFC 4648, 10.
static BASE_32: [(&[u8], &[u8]); 7] = [
    (b"", b""),
    (b"CO", b"f"),
    (b"cpng", b"fo"),
    (b"CPNMU", b"foo"),
    (b"cpnmuog", b"foob"),
    (b"CPNMUOJ1", b"fooba"),
    (b"cpnmuoj1E8", b"foobar"),
];

/// The words of a line, and what is said of its end.
#[test]
fn a_line_has_words(rt: HostRuntime) -> Result<(), Fail> {
    let mut words = Words::new(b"a\\ b.\t \"two words\" alpn=\"h2,h3\" \"no end");
    let name = words.next_word().ok_or("a word")?;
    assert_equal!(&rt, name.octets, b"a\\ b.".as_slice());
    let quoted = words.next_word().ok_or("a word")?;
    assert_equal!(&rt, quoted.octets, b"\"two words\"".as_slice());
    assert_equal!(&rt, quoted.offset, 7);
    let parameter = words.next_word().ok_or("a word")?;
    assert_equal!(&rt, parameter.octets, b"alpn=\"h2,h3\"".as_slice());
    assert_true!(&rt, words.next_word().is_none());
    assert_equal!(&rt, words.offset(), 32);
    assert_equal!(&rt, words.is_at_end(), false);
    Ok(())
}

#[test]
fn a_number_has_a_greatest(rt: HostRuntime) {
    assert_equal!(&rt, scan_number(b"0100", 100), Some(100));
    assert_equal!(&rt, scan_number(b"101", 100), None);
    assert_equal!(&rt, (scan_u8(b"255"), scan_u8(b"256")), (Some(255), None));
    assert_equal!(
        &rt,
        (scan_u16(b"65535"), scan_u16(b"65536")),
        (Some(65_535), None)
    );
    assert_equal!(&rt, scan_u32(b"4294967296"), None);
}

#[test]
fn a_ttl_is_a_number(rt: HostRuntime) {
    for (word, ttl) in TTLS {
        equal(&rt, "a TTL", scan_ttl(word), ttl);
    }
}

#[test]
fn a_time_is_a_date_or_a_number(rt: HostRuntime) {
    for (word, time) in TIMES {
        equal(&rt, "a time", scan_time(word), time);
    }
}

#[test]
fn a_string_is_spelled(rt: HostRuntime) {
    let mut octets = Array::<8>::new();
    let spelled = scan_string(b"\"a\\\"\\065 ;\"", Some(STRING_MAX), &mut octets);
    assert_equal!(&rt, spelled, Ok(()));
    assert_equal!(&rt, octets.as_slice(), b"a\"A ;".as_slice());
    let malformed = Err(StringError::Malformed);
    assert_equal!(&rt, scan_string(b"\\256", None, &mut octets), malformed);
    assert_equal!(&rt, scan_string(b"a;b", None, &mut octets), malformed);
    assert_equal!(
        &rt,
        scan_string(b"abc", Some(2), &mut octets),
        Err(StringError::TooLong)
    );
    assert_equal!(
        &rt,
        scan_string(b"\"abcd\"", None, &mut octets),
        Err(StringError::Short)
    );
    assert_equal!(&rt, scan_string(b"a\\;b", None, &mut octets), Ok(()));
    assert_equal!(&rt, octets.as_slice(), b"a\"A ;a;b".as_slice());
    assert_equal!(&rt, string_len(b"\"\""), Some(0));
    assert_equal!(&rt, string_len(b"\""), None);
}

/// Octets in hexadecimal, in runs that end within a pair.
#[test]
fn hexadecimal_comes_in_runs(rt: HostRuntime) {
    let mut octets = Array::<4>::new();
    let reader = unwrap(&rt, HexReader::new().feed(b"c0F", &mut octets));
    assert_true!(&rt, reader.finish().is_err());
    let reader = unwrap(&rt, reader.feed(b"fEe", &mut octets));
    assert_true!(&rt, reader.finish().is_ok());
    assert_equal!(&rt, octets.as_slice(), b"\xC0\xFF\xEE".as_slice());
    assert_true!(&rt, reader.feed(b"0g", &mut octets).is_err());
}

/// Whether base 64 text is that of these octets, read in two runs.
fn is_base64(rt: &impl Abort, text: &[u8], octets: &[u8]) -> bool {
    let (front, back) = text.split_at(text.len() / 2);
    let mut read = Array::<8>::new();
    let reader = unwrap(rt, Base64Reader::new().feed(front, &mut read));
    let reader = unwrap(rt, reader.feed(back, &mut read));
    reader.finish().is_ok() && read.as_slice() == octets
}

#[test]
fn base_64_is_read(rt: HostRuntime) {
    for (text, octets) in BASE_64 {
        equal(&rt, "base 64", is_base64(&rt, text, octets), true);
    }
    let mut octets = Array::<8>::new();
    assert_true!(&rt, Base64Reader::new().feed(b"Zh==", &mut octets).is_err());
    assert_true!(&rt, Base64Reader::new().feed(b"Z=g=", &mut octets).is_err());
}

/// Whether base 32 text is that of these octets.
fn is_base32hex(rt: &impl Abort, text: &[u8], octets: &[u8]) -> bool {
    let mut read = Array::<8>::new();
    let reader = unwrap(rt, Base32hexReader::new().feed(text, &mut read));
    reader.finish().is_ok() && read.as_slice() == octets
}

#[test]
fn base_32_is_read(rt: HostRuntime) {
    for (text, octets) in BASE_32 {
        equal(&rt, "base 32", is_base32hex(&rt, text, octets), true);
    }
    let mut octets = Array::<8>::new();
    assert_true!(
        &rt,
        Base32hexReader::new().feed(b"cw", &mut octets).is_err()
    );
}

#[test]
fn an_address_is_read_as_std_reads_it(rt: HostRuntime) {
    assert_equal!(&rt, scan_ipv4(b"192.0.2.1"), Some([192, 0, 2, 1]));
    assert_equal!(&rt, scan_ipv4(b"192.0.2.01"), None);
    let address = [0x20, 1, 0xD, 0xB8, 0, 0, 0, 0, 0, 0, 0, 0, 192, 0, 2, 1];
    assert_equal!(&rt, scan_ipv6(b"2001:DB8::192.0.2.1"), Some(address));
    assert_equal!(&rt, scan_ipv6(b"2001:db8:::1"), None);
}
