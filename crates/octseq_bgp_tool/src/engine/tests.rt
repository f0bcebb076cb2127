use super::Command;
use octseq_cli::engine::engine;
use octseq_cli::fault_injection::ShortReads;
use octseq_cli::{ProgramFault, Status, command_word};
use std::alloc::{AllocError, Global};
use std::fmt::Debug;
use std::process::Abort;

/// Ends the test if two values differ. A call is proved in a tenth of the time of an `assert_eq!`.
macro_rules! assert_equal {
    ($rt:expr, $left:expr, $right:expr $(,)?) => {
        crate::engine::tests::equal($rt, stringify!($left), $left, $right)
    };
}

/// Ends the test if the condition is false.
macro_rules! assert_true {
    ($rt:expr, $holds:expr $(,)?) => {
        crate::engine::tests::equal($rt, stringify!($holds), $holds, true)
    };
}

fn equal<T: PartialEq + Debug + Drop>(rt: &impl Abort, what: &str, left: T, right: T) {
    assert_eq!(rt; left, right, "{what}");
}

/// Returns the value of a result, or ends the test with its error.
fn unwrap<T, E: Debug + Drop>(rt: &impl Abort, made: Result<T, E>) -> T {
    match made {
        Ok(value) => value,
        Err(error) => panic!(rt; "error: {error:?}"),
    }
}

mod hostile;
mod records;
mod refused;
mod rewritten;
mod streams;

/// The marker that a message begins with.
const MARKER: [u8; 16] = [0xFF; 16];

/// A KEEPALIVE, after the marker.
const KEEPALIVE: [u8; 3] = [0, 19, 4];

/// An UPDATE, after the marker: ORIGIN, AS_PATH, NEXT_HOP, and a prefix.
const UPDATE: [u8; 31] = [
    0, 0x2F, 2, 0, 0, 0, 0x14, 0x40, 1, 1, 0, 0x40, 2, 6, 2, 1, 0, 0, 0xFD, 0xFC, 0x40, 3, 4, 10,
    0, 0, 1, 0x18, 9, 9, 9,
];

/// The text of `UPDATE`.
const UPDATE_TEXT: &str = "update\n\
    attribute T ORIGIN IGP\n\
    attribute T AS_PATH sequence 65020\n\
    attribute T NEXT_HOP 10.0.0.1\n\
    announced 9.9.9.0/24\n";

/// The text of `UPDATE` with two-octet AS numbers.
const SHORT_TEXT: &str = "update\n\
    attribute T ORIGIN IGP\n\
    attribute T AS_PATH \\# 6 02010000fdfc\n\
    attribute T NEXT_HOP 10.0.0.1\n\
    announced 9.9.9.0/24\n";

/// An UPDATE, after the marker: a prefix with a path id.
const PATH: [u8; 15] = [0, 0x1F, 2, 0, 0, 0, 0, 0, 0, 0, 7, 0x18, 9, 9, 9];

/// What a word writes for octets, on standard output and on standard error.
#[derive(Debug, Drop, PartialEq)]
struct Outcome {
    answer: Result<Status, ProgramFault>,
    written: Vec<u8>,
    errors: Vec<u8>,
}

/// Returns what a word writes for octets that come at most `at_once` at a time, if reads fail after the first `reads`.
fn reported(alloc: Global, word: &str, octets: &[u8], at_once: usize, reads: usize) -> Outcome {
    let mut reader = ShortReads {
        rest: octets,
        at_once,
        reads,
    };
    let (mut written, mut errors) = (Vec::new(alloc), Vec::new(alloc));
    let (output, notes) = (&mut written, &mut errors);
    let answer = engine::<Command, _, _, _>(alloc, word, &mut reader, output, notes);
    Outcome {
        answer,
        written,
        errors,
    }
}

/// Checks what a word writes for octets that come one at a time.
fn shows(
    rt: &impl Abort,
    alloc: Global,
    word: &str,
    octets: &[u8],
    status: Status,
    text: &str,
    lines: &str,
) {
    let it = reported(alloc, word, octets, 1, usize::MAX);
    assert_equal!(rt, it.answer, Ok(status));
    assert_equal!(rt, it.written.as_slice(), text.as_bytes());
    assert_equal!(rt, it.errors.as_slice(), lines.as_bytes());
}

/// Octets one after another.
fn joined(alloc: Global, parts: &[&[u8]]) -> Result<Vec<u8>, AllocError> {
    let mut octets = Vec::new(alloc);
    for part in parts {
        octets.extend_from_slice(part)?;
    }
    Ok(octets)
}

/// Messages, each with a marker.
fn messages(alloc: Global, bodies: &[&[u8]]) -> Result<Vec<u8>, AllocError> {
    let mut octets = Vec::new(alloc);
    for body in bodies {
        octets.extend_from_slice(&MARKER)?;
        octets.extend_from_slice(body)?;
    }
    Ok(octets)
}

#[test]
fn message_is_shown(rt: HostRuntime) {
    let update = unwrap(&rt, messages(rt.alloc(), &[&UPDATE]));
    let path = unwrap(&rt, messages(rt.alloc(), &[&PATH]));
    let with_path = "update\nannounced 9.9.9.0/24 path 7\n";
    let fine = Status::Fine;
    shows(&rt, rt.alloc(), "message", &update, fine, UPDATE_TEXT, "");
    shows(
        &rt,
        rt.alloc(),
        "message,two-octet",
        &update,
        fine,
        SHORT_TEXT,
        "",
    );
    shows(
        &rt,
        rt.alloc(),
        "message,extended",
        &update,
        fine,
        UPDATE_TEXT,
        "",
    );
    shows(
        &rt,
        rt.alloc(),
        "message,add-path",
        &path,
        fine,
        with_path,
        "",
    );
    let all = "message,two-octet,add-path,extended";
    shows(&rt, rt.alloc(), all, &path, fine, with_path, "");
}

#[test]
fn a_malformed_message_is_reported_with_its_place(rt: HostRuntime) {
    // (no octets, an unknown type, an extra octet, and prefixes that need path ids)
    let cases = [
        ("message", unwrap(&rt, joined(rt.alloc(), &[])), 0),
        (
            "message",
            unwrap(&rt, messages(rt.alloc(), &[&[0, 19, 6]])),
            0,
        ),
        (
            "message",
            unwrap(&rt, messages(rt.alloc(), &[&[0, 20, 4, 0]])),
            19,
        ),
        (
            "message,add-path",
            unwrap(&rt, messages(rt.alloc(), &[&UPDATE])),
            43,
        ),
    ];
    for (word, octets, offset) in cases {
        let line = unwrap(
            &rt,
            format!(in rt.alloc(); "message 1: malformed at octet {offset}\n"),
        );
        shows(
            &rt,
            rt.alloc(),
            word,
            &octets,
            Status::Refused,
            "malformed\n",
            &line,
        );
    }
}

#[test]
fn no_argument_is_message(rt: HostRuntime) {
    let octets = unwrap(&rt, messages(rt.alloc(), &[&KEEPALIVE]));
    let word = command_word::<Command>(&[]);
    shows(
        &rt,
        rt.alloc(),
        word,
        &octets,
        Status::Fine,
        "keepalive\n",
        "",
    );
}

#[test]
fn help_tells_commands_and_statuses(rt: HostRuntime) {
    let it = reported(rt.alloc(), "--help", b"a", 1, 0);
    assert_equal!(&rt, it.answer, Ok(Status::Fine));
    assert_true!(&rt, it.errors.is_empty());
    let text = unwrap(&rt, str::from_utf8(&it.written));
    for part in [
        "  message   ",
        "  stream    ",
        "  mrt       ",
        "  messages  ",
        "  --help    ",
        "  two-octet  ",
        "  add-path   ",
        "  extended   ",
        "\nstatus:\n  0  ",
        "\n  4  ",
    ] {
        assert_eq!(rt; text.contains(part), true, "{part}");
    }
}

#[test]
fn another_word_is_reported_on_standard_error(rt: HostRuntime) {
    for word in [
        "",
        "Stream",
        "rewritten",
        "messages,two-octet",
        "mrt,extended",
        "stream,",
        "stream,add-path,two-octet",
        "message,extended,extended",
        "messagetwo-octet",
    ] {
        let it = reported(rt.alloc(), word, b"a", 1, 0);
        assert_eq!(rt; it.answer, Ok(Status::Usage), "{word}");
        assert_true!(&rt, it.written.is_empty());
        let usage = "usage: ./bgp [COMMAND [FILE]]; ./bgp --help lists the commands";
        let line = format!(in rt.alloc(); "no command '{word}'; {usage}\n");
        assert_equal!(&rt, it.errors.as_slice(), unwrap(&rt, line).as_bytes());
    }
}
