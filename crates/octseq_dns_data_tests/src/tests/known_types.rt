//! Data that is read without the message: its type, and its text as dnspython 2.3.0 prints it.
use crate::tests::shown;
use octseq::{Parser, Turns};
use octseq_asserts::{assert_equal, assert_true};
use octseq_dns_data::{Class, Data, Rtype};
use std::alloc::AllocGlobal;
use std::process::Abort;

/// Data of a type, and its text.
struct Row {
    rtype: u16,
    octets: &'static [u8],
    text: &'static str,
}

static ROWS: [Row; 9] = [
    Row {
        rtype: 49,
        octets: b"\0\x02\x01\x63\x6F\xC0\xB8\x27\x1C\x82\x82\x5B\xB1\xAC\x5C\x41\xCF\x53\x51\xAA\x69\xB4\xFE\xBD\
            \x94\xE8\xF1\x7C\xDB\x95\0\x0D\xA4\x8C\x40",
        text: "AAIBY2/AuCccgoJbsaxcQc9TUapptP69lOjxfNuVAA2kjEA=",
    },
    Row {
        rtype: 49,
        octets: b"\0\0\x01\x39\x20",
        text: "AAABOSA=",
    },
    Row {
        rtype: 52,
        octets: b"\x03\x01\x01\xD2\xAB\xDE\x24\x0D\x7C\xD3\xEE",
        text: "3 1 1 d2abde240d7cd3ee",
    },
    Row {
        rtype: 61,
        octets: b"\x99\x01\x0D\x04\x53",
        text: "mQENBFM=",
    },
    Row {
        rtype: 61,
        octets: b"\0",
        text: "AA==",
    },
    Row {
        rtype: 61,
        octets: b"\xC0\xC1\xC2\xC3\xC4\xC5\xC6\xC7\xC8\xC9\xCA\xCB\xCC\xCD\xCE\xCF\xD0\xD1",
        text: "wMHCw8TFxsfIycrLzM3Oz9DR",
    },
    Row {
        rtype: 62,
        octets: b"\0\0\0\x42\0\x03\0\x04\x60\0\0\x08",
        text: "66 3 A NS AAAA",
    },
    Row {
        rtype: 62,
        octets: b"\xFF\xFF\xFF\xFF\x80\0\0\x01\x40\x01\x01\x40",
        text: "4294967295 32768 A CAA",
    },
    Row {
        rtype: 62,
        octets: b"\0\0\0\x01\0\0",
        text: "1 0",
    },
];

/// Returns the text of data of a type.
fn data_text(rt: &(impl Abort + AllocGlobal), rtype: u16, octets: &[u8]) -> String {
    let parser = Parser::from_ref(octets);
    let rtype = Rtype::from_int(rtype);
    match Data::parse(parser, parser, rtype, Class::IN, &mut Turns::new()) {
        Ok(data) => {
            assert_equal!(rt, data.rtype(), rtype);
            shown(rt, &data)
        }
        Err(_) => panic!(rt; "malformed data of type {rtype}"),
    }
}

#[test]
fn data_shows_as_in_a_zone_file(rt: HostRuntime) {
    for row in &ROWS {
        let text = data_text(&rt, row.rtype, row.octets);
        assert_equal!(&rt, text.as_str(), row.text);
    }
}

/// Data that isn't of its type: an identifier and a key of no octet, flags of one octet, a bitmap of no octet.
static REFUSED: [(u16, &[u8]); 4] = [
    (49, b""),
    (61, b""),
    (62, b"\0\0\0\x01\0"),
    (62, b"\0\0\0\x01\0\0\0\0"),
];

#[test]
fn data_without_its_parts_is_refused(rt: HostRuntime) {
    for (rtype, octets) in &REFUSED {
        let parser = Parser::from_ref(*octets);
        let rtype = Rtype::from_int(*rtype);
        let parsed = Data::parse(parser, parser, rtype, Class::IN, &mut Turns::new());
        assert_true!(&rt, parsed.is_err());
    }
}
