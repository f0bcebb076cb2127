//! Service parameters of SVCB and HTTPS: RFC 9460.
use crate::tests::{shown, unwrap};
use octseq::octets::Octets;
use octseq_asserts::{Case, assert_equal, assert_true, over_each};
use octseq_dns_data::svc_params::key::{ALPN, ECH, PORT};
use octseq_dns_data::{SvcParam, SvcParams};
use std::alloc::AllocGlobal;
use std::process::Abort;

/// A parameter of each named key except that of no default protocol, and two of other keys.
const MANY: &[u8] =
    b"\x00\x00\x00\x04\x00\x01\x00\x03\x00\x01\x00\x06\x02h2\x02h3\x00\x03\x00\x02\x01\xBB\
\x00\x04\x00\x08\x01\x02\x03\x04\x05\x06\x07\x08\x00\x05\x00\x01\x00\
\x00\x06\x00\x10\x20\x01\x0D\xB8\0\0\0\0\0\0\0\0\0\0\0\x01\x00\x07\x00\x00\x02\x9B\x00\x02\"\x00";

/// Six of those, without the addresses.
const SIX: &[u8] =
    b"\x00\x00\x00\x04\x00\x01\x00\x03\x00\x01\x00\x06\x02h2\x02h3\x00\x03\x00\x02\x01\xBB\
\x00\x05\x00\x01\x00\x00\x07\x00\x00\x02\x9B\x00\x02\"\x00";

/// Checks that octets are parameters that show this text.
fn shows(rt: &(impl Abort + AllocGlobal), octets: &[u8], wanted: &str) {
    let params = unwrap(rt, SvcParams::from_octets(octets));
    assert_equal!(rt, params.as_slice(), octets);
    assert_equal!(rt, shown(rt, &params).as_str(), wanted);
}

#[test]
fn each_parameter_shows_after_a_space(rt: HostRuntime) {
    let cases: [(&[u8], &str); 14] = [
        (b"", ""),
        (b"\x00\x02\x00\x00", " no-default-alpn"),
        (b"\x00\x00\x00\x02\x00\x03", r#" mandatory="port""#),
        (b"\x00\x05\x00\x00", " ech"),
        (
            b"\x00\x01\x00\x08\x07a\\b,c\"\x00",
            r#" alpn="a\\\\b\\,c\"\000""#,
        ),
        (b"\x00\x01\x00\x07\x03a,b\x02h2", r#" alpn="a\\,b,h2""#),
        (
            MANY,
            " mandatory=\"alpn,port\" alpn=\"h2,h3\" port=\"443\" ipv4hint=\"1.2.3.4,5.6.7.8\" ech=\"AA==\" \
ipv6hint=\"2001:db8::1\" key7 key667=\"\\\"\\000\"",
        ),
        (b"\xFF\xFF\x00\x00", " key65535"),
        (b"\x00\x03\x00\x02\x00\x35", r#" port="53""#),
        (b"\x02\x9B\x00\x05hello", r#" key667="hello""#),
        (b"\x02\x9B\x00\x09hello\xD2qoo", r#" key667="hello\210qoo""#),
        (
            b"\x00\x06\x00\x20\x20\x01\x0D\xB8\0\0\0\0\0\0\0\0\0\0\0\x01\x20\x01\x0D\xB8\0\0\0\0\0\0\0\0\0\x53\0\x01",
            r#" ipv6hint="2001:db8::1,2001:db8::53:1""#,
        ),
        (
            b"\x00\x00\x00\x04\x00\x01\x00\x04\x00\x01\x00\x09\x02h2\x05h3-19\x00\x04\x00\x04\xC0\x00\x02\x01",
            r#" mandatory="alpn,ipv4hint" alpn="h2,h3-19" ipv4hint="192.0.2.1""#,
        ),
        (
            b"\x00\x01\x00\x0C\x08f\\oo,bar\x02h2",
            r#" alpn="f\\\\oo\\,bar,h2""#,
        ),
    ];
    for (octets, wanted) in cases {
        shows(&rt, octets, wanted);
    }
}

#[test]
fn what_has_no_form_is_malformed(rt: HostRuntime) {
    let cases: [&[u8]; 33] = [
        // a truncated key, length or value
        b"\x00",
        b"\x00\x03",
        b"\x00\x03\x00",
        b"\x00\x03\x00\x02",
        b"\x00\x03\x00\x02\x00",
        b"\x00\x07\x00\x02\x00",
        // keys that don't ascend
        b"\x00\x03\x00\x02\x00\x35\x00\x01\x00\x03\x02h2",
        b"\x00\x03\x00\x02\x00\x35\x00\x03\x00\x02\x00\x35",
        b"\xFF\xFF\x00\x00\x00\x00\x00\x02\x00\x01",
        // mandatory: none, half a key, 0, a repeated key, descending keys
        b"\x00\x00\x00\x00",
        b"\x00\x00\x00\x01\x01",
        b"\x00\x00\x00\x03\x00\x01\x00",
        b"\x00\x00\x00\x02\x00\x00",
        b"\x00\x00\x00\x04\x00\x03\x00\x03",
        b"\x00\x00\x00\x04\x00\x04\x00\x03",
        // alpn: none, an empty id first and last, a truncated id
        b"\x00\x01\x00\x00",
        b"\x00\x01\x00\x01\x00",
        b"\x00\x01\x00\x04\x00\x02h2",
        b"\x00\x01\x00\x04\x02h2\x00",
        b"\x00\x01\x00\x03\x03h2",
        // no-default-alpn: an octet
        b"\x00\x02\x00\x01\x00",
        // port: none, one octet, three
        b"\x00\x03\x00\x00",
        b"\x00\x03\x00\x01\x35",
        b"\x00\x03\x00\x03\x00\x35\x00",
        // ipv4hint: none, three octets, five
        b"\x00\x04\x00\x00",
        b"\x00\x04\x00\x03\x01\x02\x03",
        b"\x00\x04\x00\x05\x01\x02\x03\x04\x05",
        // ipv6hint: none, four octets, fifteen, seventeen
        b"\x00\x06\x00\x00",
        b"\x00\x06\x00\x04\x01\x02\x03\x04",
        b"\x00\x06\x00\x0F0123456789abcde",
        b"\x00\x06\x00\x110123456789abcdefg",
        // an invalid value after a valid one
        b"\x00\x01\x00\x03\x02h2\x00\x02\x00\x01\x00",
        b"\x00\x05\x00\x01\x00\x06\x00\x00",
    ];
    for octets in cases {
        assert_true!(&rt, SvcParams::from_octets(octets).is_err());
    }
}

#[test]
fn parameters_end_where_one_of_them_does(rt: HostRuntime) {
    let ends = [0, 8, 18, 24, 36, 41, 61, 65, 71];
    assert_equal!(&rt, MANY.len(), 71);
    for len in 0..=MANY.len() {
        let front = unwrap(&rt, MANY.get(..len).ok_or("no such front"));
        assert_equal!(
            &rt,
            SvcParams::from_octets(front).is_ok(),
            ends.contains(&len)
        );
    }
}

/// A test of the parameters of `SIX`, in order.
#[derive(Drop)]
struct AreSix;

impl<H: Abort + AllocGlobal> Case<H> for AreSix {
    fn holds<R: Octets + Copy>(&self, rt: &H, octets: R) {
        let params = unwrap(rt, unwrap(rt, SvcParams::from_octets(octets)).clone());
        let mut keys = [0_u16; 6];
        let mut sizes = [0_usize; 6];
        let mut count = 0_usize;
        for param in unwrap(rt, params.iter().clone()) {
            assert_true!(rt, count < 6);
            if count < 6 {
                keys[count] = param.key;
                sizes[count] = param.octets.remaining();
                count += 1;
            }
        }
        assert_equal!(rt, count, 6);
        assert_equal!(rt, keys, [0, 1, 3, 5, 7, 667]);
        assert_equal!(rt, sizes, [4, 6, 2, 1, 0, 2]);
        assert_true!(rt, params.get(2).is_none());
        let port = unwrap(rt, params.get(PORT).ok_or("no port"));
        assert_equal!(rt, port.octets.peek_all(), b"\x01\xBB".as_slice());
        assert_true!(rt, port.alpn_ids().is_none());
        let ech = unwrap(rt, params.get(ECH).ok_or("no ech"));
        let text = shown(rt, &ech);
        assert_equal!(rt, text.as_str(), r#"ech="AA==""#);
        let alpn = unwrap(rt, params.get(ALPN).ok_or("no alpn"));
        has_two_ids(rt, &alpn);
    }
}

/// Checks the ids `h2` and `h3`.
fn has_two_ids<R: Octets + Copy>(rt: &impl Abort, alpn: &SvcParam<R>) {
    let ids = unwrap(rt, unwrap(rt, alpn.clone()).alpn_ids().ok_or("no ids"));
    let mut left = unwrap(rt, ids.clone());
    let first = unwrap(rt, left.next().ok_or("no first id"));
    let second = unwrap(rt, left.next().ok_or("no second id"));
    assert_equal!(rt, first.peek_all(), b"h2".as_slice());
    assert_equal!(rt, second.peek_all(), b"h3".as_slice());
    assert_true!(rt, left.next().is_none());
}

#[test]
fn parameters_are_read_from_each_kind_of_octets(rt: HostRuntime) {
    unwrap(&rt, over_each(&rt, &AreSix, SIX));
}
