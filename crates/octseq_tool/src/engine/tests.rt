use super::{Status, ToolFault, command_word, engine};
use std::alloc::{AllocError, Global};
use std::fmt::Debug;
use std::io::ErrorKind;
use std::process::Abort;
use streams::{Failure, NONE, ShortReads};

/// Ends the test if two values differ. A call is proved in a tenth of the time of an `assert_eq!`.
macro_rules! assert_equal {
    ($rt:expr, $left:expr, $right:expr $(,)?) => {
        crate::engine::tests::equal($rt, stringify!($left), $left, $right)
    };
}

/// Ends the test if the condition is false.
macro_rules! assert_true {
    ($rt:expr, $holds:expr $(,)?) => {
        crate::engine::tests::equal($rt, stringify!($holds), $holds, true)
    };
}

fn equal<T: PartialEq + Debug + Drop>(rt: &impl Abort, what: &str, left: T, right: T) {
    assert_eq!(rt; left, right, "{what}");
}

/// Returns the value of a result, or ends the test with its error.
fn unwrap<T, E: Debug + Drop>(rt: &impl Abort, made: Result<T, E>) -> T {
    match made {
        Ok(value) => value,
        Err(error) => panic!(rt; "error: {error:?}"),
    }
}

mod hostile;
mod refused;
mod streams;

/// The line for a word that names no command.
const USAGE: &str = "usage: octseq_tool check|lossy|lossy64|records\n";

/// Returns the result and the output of a command for octets that come one per read.
fn ran(alloc: Global, command: &str, octets: &[u8]) -> (Result<Status, ToolFault>, Vec<u8>) {
    let mut reader = ShortReads {
        rest: octets,
        at_once: 1,
        failure: NONE,
    };
    let mut written = Vec::new(alloc);
    let answer = engine(alloc, command, &mut reader, &mut written);
    (answer, written)
}

/// Octets, each repeated.
fn repeated(alloc: Global, parts: &[(u8, usize)]) -> Result<Vec<u8>, AllocError> {
    let mut octets = Vec::new(alloc);
    for (octet, count) in parts {
        for _ in 0..*count {
            octets.push(*octet)?;
        }
    }
    Ok(octets)
}

#[test]
fn check_tells_what_it_read(rt: HostRuntime) {
    let cases = [
        (
            b"h\xC3\xA9".as_slice(),
            Status::Fine,
            "well formed: 3 octets\n",
        ),
        (b"".as_slice(), Status::Fine, "well formed: 0 octets\n"),
        (
            b"a\xC0".as_slice(),
            Status::Refused,
            "invalid utf-8 sequence of 1 bytes from index 1\n",
        ),
        (
            b"a\xF1\x80\x80".as_slice(),
            Status::Refused,
            "incomplete utf-8 byte sequence from index 1\n",
        ),
    ];
    for (octets, status, line) in cases {
        let (answer, written) = ran(rt.alloc(), "check", octets);
        assert_equal!(&rt, answer, Ok(status));
        assert_equal!(&rt, written.as_slice(), line.as_bytes());
    }
}

#[test]
fn another_word_reads_nothing(rt: HostRuntime) {
    for word in [
        "chek", "", "Check", "check ", "lossy6", "--help", "-h", "help",
    ] {
        let mut reader = ShortReads {
            rest: b"a",
            at_once: 1,
            failure: Failure {
                at: 1,
                kind: ErrorKind::ConnectionReset,
            },
        };
        let mut written = Vec::new(rt.alloc());
        let answer = engine(rt.alloc(), word, &mut reader, &mut written);
        assert_equal!(&rt, answer, Ok(Status::Usage));
        assert_equal!(&rt, written.as_slice(), USAGE.as_bytes());
        assert_equal!(&rt, (reader.rest, reader.failure.at), (b"a".as_slice(), 1));
    }
}

#[test]
fn one_argument_is_the_command(rt: HostRuntime) {
    let alloc = rt.alloc();
    let cases = [
        ([].as_slice(), "check"),
        (&["octseq_tool"], "check"),
        (&["octseq_tool", "lossy"], "lossy"),
        (&["octseq_tool", "--help"], "--help"),
        (&["octseq_tool", "lossy", "check"], ""),
        (&["octseq_tool", "check", "FILE"], ""),
        (&["octseq_tool", "check", "check", "check"], ""),
    ];
    for (words, wanted) in cases {
        let mut args = Vec::new(alloc);
        for word in words {
            unwrap(&rt, args.push(unwrap(&rt, String::from_str(alloc, word))));
        }
        assert_equal!(&rt, command_word(&args), wanted);
    }
}

#[test]
fn lossy_replaces(rt: HostRuntime) {
    let cases = [
        (b"".as_slice(), ""),
        (
            b"Hello\xC0\x80 There\xE6\x83 Goodbye",
            "Hello\u{FFFD}\u{FFFD} There\u{FFFD} Goodbye",
        ),
        (
            b"Hello\xC2 There\xFF Goodbye\xE2\x82",
            "Hello\u{FFFD} There\u{FFFD} Goodbye\u{FFFD}",
        ),
        (b"a\xF1\x80\x80", "a\u{FFFD}"),
    ];
    for (octets, text) in cases {
        let (answer, written) = ran(rt.alloc(), "lossy", octets);
        assert_equal!(&rt, answer, Ok(Status::Fine));
        assert_equal!(&rt, written.as_slice(), text.as_bytes());
    }
}

#[test]
fn lossy64_holds_64_octets(rt: HostRuntime) {
    let alloc = rt.alloc();
    let fits = unwrap(&rt, repeated(alloc, &[(b'a', 1), (0xFF, 21)]));
    let (answer, written) = ran(alloc, "lossy64", fits.as_slice());
    assert_equal!(&rt, answer, Ok(Status::Fine));
    assert_equal!(&rt, written.len(), 64);
    let mut wanted = unwrap(&rt, String::from_str(alloc, "a"));
    for _ in 0..21 {
        unwrap(&rt, wanted.push(char::REPLACEMENT_CHARACTER));
    }
    assert_equal!(&rt, written.as_slice(), wanted.as_bytes());
    for (octet, count) in [(0xFF, 22), (b'a', 65)] {
        let long = unwrap(&rt, repeated(alloc, &[(octet, count)]));
        let (answer, written) = ran(alloc, "lossy64", long.as_slice());
        assert_equal!(&rt, answer, Ok(Status::Refused));
        let line = "buffer size exceeded\n";
        assert_equal!(&rt, written.as_slice(), line.as_bytes());
    }
}

#[test]
fn records_writes_a_line_for_each(rt: HostRuntime) {
    let cut = b"unexpected end of input\n".as_slice();
    let cases = [
        (
            b"\x03a\xFFb\0\x01z".as_slice(),
            Status::Fine,
            b"a\xEF\xBF\xBDb\n\nz\n".as_slice(),
        ),
        (b"\x03a", Status::Refused, cut),
        (
            b"\x01a\x02",
            Status::Refused,
            b"a\nunexpected end of input\n",
        ),
        (b"", Status::Fine, b""),
        (b"\0", Status::Fine, b"\n"),
        (b"\x02\xC3\xA9", Status::Fine, b"\xC3\xA9\n"),
        (b"\x01\xFF", Status::Fine, b"\xEF\xBF\xBD\n"),
        (b"\x02a", Status::Refused, cut),
    ];
    for (octets, status, lines) in cases {
        let (answer, written) = ran(rt.alloc(), "records", octets);
        assert_equal!(&rt, answer, Ok(status));
        assert_equal!(&rt, written.as_slice(), lines);
    }
}
