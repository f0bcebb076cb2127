//! Types and classes by their mnemonics, and octets in base 64 and base 32.
use crate::tests::{shown, unwrap};
use octseq_asserts::{assert_equal, assert_true};
use octseq_dns_data::{Class, Opcode, Rcode, Rtype, write_base32hex, write_base64};
use std::fmt;

/// Types of the DNS parameters registry.
static TYPES: [(u16, &str); 40] = [
    (1, "A"),
    (2, "NS"),
    (5, "CNAME"),
    (6, "SOA"),
    (12, "PTR"),
    (13, "HINFO"),
    (15, "MX"),
    (16, "TXT"),
    (17, "RP"),
    (28, "AAAA"),
    (29, "LOC"),
    (33, "SRV"),
    (35, "NAPTR"),
    (39, "DNAME"),
    (41, "OPT"),
    (43, "DS"),
    (44, "SSHFP"),
    (46, "RRSIG"),
    (47, "NSEC"),
    (48, "DNSKEY"),
    (49, "DHCID"),
    (50, "NSEC3"),
    (51, "NSEC3PARAM"),
    (52, "TLSA"),
    (53, "SMIMEA"),
    (59, "CDS"),
    (60, "CDNSKEY"),
    (61, "OPENPGPKEY"),
    (62, "CSYNC"),
    (63, "ZONEMD"),
    (64, "SVCB"),
    (65, "HTTPS"),
    (99, "SPF"),
    (249, "TKEY"),
    (250, "TSIG"),
    (251, "IXFR"),
    (252, "AXFR"),
    (255, "ANY"),
    (256, "URI"),
    (257, "CAA"),
];

#[test]
fn each_type_has_its_mnemonic(rt: HostRuntime) {
    for (number, mnemonic) in &TYPES {
        let rtype = Rtype::from_int(*number);
        let text = shown(&rt, &rtype);
        assert_equal!(&rt, text.as_str(), *mnemonic);
        assert_equal!(&rt, unwrap(&rt, mnemonic.parse::<Rtype>()), rtype);
        let lower = unwrap(&rt, mnemonic.to_ascii_lowercase(rt.alloc()));
        assert_equal!(&rt, unwrap(&rt, lower.as_str().parse::<Rtype>()), rtype);
    }
}

#[test]
fn each_class_has_its_mnemonic(rt: HostRuntime) {
    for (number, mnemonic) in [(1, "IN"), (3, "CH"), (4, "HS"), (254, "NONE"), (255, "ANY")] {
        let class = Class::from_int(number);
        let text = shown(&rt, &class);
        assert_equal!(&rt, text.as_str(), mnemonic);
        assert_equal!(&rt, unwrap(&rt, mnemonic.parse::<Class>()), class);
    }
}

#[test]
fn numbers_without_mnemonics_follow_a_word(rt: HostRuntime) {
    let rtype = Rtype::from_int(65535);
    let text = shown(&rt, &rtype);
    assert_equal!(&rt, text.as_str(), "TYPE65535");
    let class = Class::from_int(2);
    let text = shown(&rt, &class);
    assert_equal!(&rt, text.as_str(), "CLASS2");
}

#[test]
fn types_are_read_in_either_case(rt: HostRuntime) {
    for (text, number) in [
        ("type65535", 65535),
        ("tYpE028", 28),
        ("TYPE0", 0),
        ("TYPE0000000001", 1),
        ("nSeC3pArAm", 51),
    ] {
        assert_equal!(
            &rt,
            unwrap(&rt, text.parse::<Rtype>()),
            Rtype::from_int(number)
        );
    }
    for text in [
        "",
        "TYPE65536",
        "TYPE",
        "TYPE 1",
        "TYPE+1",
        "TYPE1 ",
        "TYPE1x",
        "CLASS1",
        "IN",
        "AA",
        "28",
    ] {
        assert_true!(&rt, text.parse::<Rtype>().is_err());
    }
}

#[test]
fn classes_are_read_in_either_case(rt: HostRuntime) {
    for (text, number) in [
        ("in", 1),
        ("CLASS3", 3),
        ("class65535", 65535),
        ("cLaSs0255", 255),
    ] {
        assert_equal!(
            &rt,
            unwrap(&rt, text.parse::<Class>()),
            Class::from_int(number)
        );
    }
    for text in ["", "CLASS", "CLASS65536", "CLASS-1", "TYPE1", "A", "INN"] {
        assert_true!(&rt, text.parse::<Class>().is_err());
    }
}

/// Octets that are shown in base 64.
#[derive(Clone, Copy)]
struct Base64<'a>(&'a [u8]);

impl fmt::Display for Base64<'_> {
    fn fmt<W: fmt::Write>(&self, f: &mut fmt::Formatter<W>) -> fmt::Result {
        write_base64(f, self.0)
    }
}

/// Octets that are shown in base 32.
#[derive(Clone, Copy)]
struct Base32hex<'a>(&'a [u8]);

impl fmt::Display for Base32hex<'_> {
    fn fmt<W: fmt::Write>(&self, f: &mut fmt::Formatter<W>) -> fmt::Result {
        write_base32hex(f, self.0)
    }
}

/// The vectors of RFC 4648, 10, and digits at the ends of its tables.
#[test]
fn octets_show_in_base_64(rt: HostRuntime) {
    for (octets, wanted) in [
        (b"".as_slice(), ""),
        (b"f", "Zg=="),
        (b"fo", "Zm8="),
        (b"foo", "Zm9v"),
        (b"foob", "Zm9vYg=="),
        (b"fooba", "Zm9vYmE="),
        (b"foobar", "Zm9vYmFy"),
        (b"\x00\x10\x83\xFB\xFF", "ABCD+/8="),
    ] {
        let text = shown(&rt, &Base64(octets));
        assert_equal!(&rt, text.as_str(), wanted);
    }
}

/// The same in base 32, in lower case and without `=`.
#[test]
fn octets_show_in_base_32(rt: HostRuntime) {
    for (octets, wanted) in [
        (b"".as_slice(), ""),
        (b"f", "co"),
        (b"fo", "cpng"),
        (b"foo", "cpnmu"),
        (b"foob", "cpnmuog"),
        (b"fooba", "cpnmuoj1"),
        (b"foobar", "cpnmuoj1e8"),
        (b"\x00\xFF", "03vg"),
    ] {
        let text = shown(&rt, &Base32hex(octets));
        assert_equal!(&rt, text.as_str(), wanted);
    }
}

#[test]
fn codes_have_four_bits(rt: HostRuntime) {
    for (number, made) in [
        (0, Some(0)),
        (5, Some(5)),
        (15, Some(15)),
        (16, None),
        (255, None),
    ] {
        let opcode = Opcode::checked_from_int(number).map(Opcode::to_int);
        let rcode = Rcode::checked_from_int(number).map(Rcode::to_int);
        assert_equal!(&rt, opcode, made);
        assert_equal!(&rt, rcode, made);
    }
}
