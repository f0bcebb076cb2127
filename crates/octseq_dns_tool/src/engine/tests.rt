use super::Command;
use octseq_cli::fault_injection::ShortReads;
use octseq_cli::{ProgramFault, Status};
use std::alloc::{AllocError, Global};
use std::fmt::Debug;
use std::io::{self, Read, Write};
use std::process::Abort;

/// Ends the test if two values differ. A call is proved in a tenth of the time of an `assert_eq!`.
macro_rules! assert_equal {
    ($rt:expr, $left:expr, $right:expr $(,)?) => {
        crate::engine::tests::equal($rt, stringify!($left), $left, $right)
    };
}

/// Ends the test if the condition is false.
macro_rules! assert_true {
    ($rt:expr, $holds:expr $(,)?) => {
        crate::engine::tests::equal($rt, stringify!($holds), $holds, true)
    };
}

fn equal<T: PartialEq + Debug + Drop>(rt: &impl Abort, what: &str, left: T, right: T) {
    assert_eq!(rt; left, right, "{what}");
}

/// Returns the value of a result, or ends the test with its error.
fn unwrap<T, E: Debug + Drop>(rt: &impl Abort, made: Result<T, E>) -> T {
    match made {
        Ok(value) => value,
        Err(error) => panic!(rt; "error: {error:?}"),
    }
}

mod composed;
mod hostile;
mod refused;
mod rewritten;

/// The reply to a question about `example.com.`. The owner name of its answer is a pointer to the name of the question.
const REPLY: [u8; 45] = [
    0x12, 0x34, 0x85, 0x80, 0, 1, 0, 1, 0, 0, 0, 0, 7, 0x65, 0x78, 0x61, 0x6D, 0x70, 0x6C, 0x65, 3,
    0x63, 0x6F, 0x6D, 0, 0, 1, 0, 1, 0xC0, 0x0C, 0, 1, 0, 1, 0, 0, 1, 0x2C, 0, 4, 1, 2, 3, 4,
];

/// The text of `REPLY`.
const REPLY_TEXT: &str = "id 4660 opcode 0 rcode 0 flags QR AA RD RA\n\
    question example.com. IN A\n\
    answer example.com. 300 IN A 1.2.3.4\n";

/// The text of a header of zeros.
const BLANK_TEXT: &str = "id 0 opcode 0 rcode 0 flags\n";

/// Runs the program over a reader and a writer. Its notes on standard error are dropped.
fn engine<R: Read, W: Write>(
    alloc: Global,
    word: &str,
    reader: &mut R,
    writer: &mut W,
) -> Result<Status, ProgramFault> {
    octseq_cli::engine::engine::<Command, _, _, _>(alloc, word, reader, writer, &mut io::sink())
}

/// Returns what a command returns and writes for octets that come one at a time.
fn ran(alloc: Global, word: &str, octets: &[u8]) -> (Result<Status, ProgramFault>, Vec<u8>) {
    let mut reader = ShortReads {
        rest: octets,
        at_once: 1,
        reads: usize::MAX,
    };
    let mut written = Vec::new(alloc);
    let answer = engine(alloc, word, &mut reader, &mut written);
    (answer, written)
}

/// Octets one after another.
fn joined(alloc: Global, parts: &[&[u8]]) -> Result<Vec<u8>, AllocError> {
    let mut octets = Vec::new(alloc);
    for part in parts {
        octets.extend_from_slice(part)?;
    }
    Ok(octets)
}

#[test]
fn message_is_shown(rt: HostRuntime) {
    let cases = [
        (REPLY.as_slice(), Status::Fine, REPLY_TEXT),
        ([0; 12].as_slice(), Status::Fine, BLANK_TEXT),
        ([0; 11].as_slice(), Status::Refused, "malformed\n"),
        (b"".as_slice(), Status::Refused, "malformed\n"),
        (&REPLY[..44], Status::Refused, "malformed\n"),
    ];
    for (octets, status, text) in cases {
        let (answer, written) = ran(rt.alloc(), "message", octets);
        assert_equal!(&rt, answer, Ok(status));
        assert_equal!(&rt, written.as_slice(), text.as_bytes());
    }
}

/// Returns what a word writes for octets, on standard output and on standard error, if reads fail after the first
/// `reads`.
fn reported(
    alloc: Global,
    word: &str,
    octets: &[u8],
    reads: usize,
) -> (Result<Status, ProgramFault>, Vec<u8>, Vec<u8>) {
    let mut reader = ShortReads {
        rest: octets,
        at_once: usize::MAX,
        reads,
    };
    let (mut written, mut errors) = (Vec::new(alloc), Vec::new(alloc));
    let answer = octseq_cli::engine::engine::<Command, _, _, _>(
        alloc,
        word,
        &mut reader,
        &mut written,
        &mut errors,
    );
    (answer, written, errors)
}

#[test]
fn help_tells_commands_and_statuses(rt: HostRuntime) {
    let (answer, written, errors) = reported(rt.alloc(), "--help", b"a", 0);
    assert_equal!(&rt, answer, Ok(Status::Fine));
    assert_true!(&rt, errors.is_empty());
    let text = unwrap(&rt, str::from_utf8(&written));
    for part in [
        "  message  ",
        "  stream   ",
        "  rewrite  ",
        "  compose  ",
        "  --help   ",
        "\nstatus:\n  0  ",
        "\n  1  ",
        "\n  2  ",
        "\n  3  ",
        "\n  4  ",
    ] {
        assert_eq!(rt; text.contains(part), true, "{part}");
    }
}

#[test]
fn another_word_is_reported_on_standard_error(rt: HostRuntime) {
    for word in ["", "mesage", "Stream", "-help", "--Version"] {
        let (answer, written, errors) = reported(rt.alloc(), word, b"a", 0);
        assert_equal!(&rt, answer, Ok(Status::Usage));
        assert_true!(&rt, written.is_empty());
        let usage = "usage: ./dns [COMMAND [FILE]]; ./dns --help lists the commands";
        let line = format!(in rt.alloc(); "no command '{word}'; {usage}\n");
        assert_equal!(&rt, errors.as_slice(), unwrap(&rt, line).as_bytes());
    }
}

#[test]
fn short_help_and_the_version(rt: HostRuntime) {
    let (_, help, _) = reported(rt.alloc(), "--help", b"a", 0);
    let (answer, written, errors) = reported(rt.alloc(), "-h", b"a", 0);
    assert_equal!(&rt, answer, Ok(Status::Fine));
    assert_equal!(&rt, written.as_slice(), help.as_slice());
    assert_true!(&rt, errors.is_empty());
    let (answer, written, errors) = reported(rt.alloc(), "--version", b"a", 0);
    assert_equal!(&rt, answer, Ok(Status::Fine));
    let version = b"octseq 0.1.0, proved with rattle-kit-13f, BSD 3-Clause License\n";
    assert_equal!(&rt, written.as_slice(), version.as_slice());
    assert_true!(&rt, errors.is_empty());
}

#[test]
fn malformed_messages_are_reported_by_number_and_place(rt: HostRuntime) {
    let alloc = rt.alloc();
    // (part of a header, a message, a question that is missing, an extra octet, and part of an answer after a question)
    let stream = unwrap(
        &rt,
        joined(
            alloc,
            &[
                &[0, 11],
                &[0; 11],
                &[0, 12],
                &[0; 12],
                &[0, 12],
                &[0, 0, 0, 0, 0, 1, 0, 0, 0, 0, 0, 0],
                &[0, 13],
                &[0; 13],
                &[0, 44],
                &REPLY[..44],
            ],
        ),
    );
    let lines = "message 1: malformed at octet 0\n\
        message 3: malformed at octet 12\n\
        message 4: malformed at octet 12\n\
        message 5: malformed at octet 29\n";
    for (command, status) in [("stream", Status::Fine), ("rewrite", Status::Refused)] {
        let (answer, _, errors) = reported(alloc, command, stream.as_slice(), usize::MAX);
        assert_equal!(&rt, answer, Ok(status));
        assert_equal!(&rt, errors.as_slice(), lines.as_bytes());
    }
    let (answer, written, errors) = reported(alloc, "message", &REPLY[..44], usize::MAX);
    assert_equal!(&rt, answer, Ok(Status::Refused));
    assert_equal!(&rt, written.as_slice(), b"malformed\n".as_slice());
    let line = "message 1: malformed at octet 29\n";
    assert_equal!(&rt, errors.as_slice(), line.as_bytes());
    let (_, _, errors) = reported(alloc, "message", &REPLY, usize::MAX);
    assert_true!(&rt, errors.is_empty());
}

#[test]
fn a_live_source_shows_at_once(rt: HostRuntime) {
    let alloc = rt.alloc();
    let first = unwrap(&rt, joined(alloc, &[&[0, 12], &[0; 12]]));
    let stream = unwrap(&rt, joined(alloc, &[first.as_slice(), &[0, 45], &REPLY]));
    // (two reads yield the first message, and the third one fails)
    for (command, output) in [
        ("stream", "id 0 opcode 0 rcode 0 flags\n\n".as_bytes()),
        ("rewrite", first.as_slice()),
    ] {
        let (answer, written, errors) = reported(alloc, command, stream.as_slice(), 2);
        assert_equal!(&rt, answer, Err(ProgramFault::Read));
        assert_equal!(&rt, written.as_slice(), output);
        assert_true!(&rt, errors.is_empty());
    }
}

#[test]
fn stream_goes_on_after_a_malformed_message(rt: HostRuntime) {
    let alloc = rt.alloc();
    let stream = unwrap(
        &rt,
        joined(
            alloc,
            &[
                &[0, 11],
                &[0; 11],
                &[0, 45],
                &REPLY,
                &[0, 0],
                &[0, 12],
                &[0; 12],
            ],
        ),
    );
    let texts = [
        "malformed\n\n",
        REPLY_TEXT,
        "\nmalformed\n\n",
        BLANK_TEXT,
        "\n",
    ];
    let (answer, written) = ran(alloc, "stream", stream.as_slice());
    assert_equal!(&rt, answer, Ok(Status::Fine));
    let mut wanted = Vec::new(alloc);
    for text in texts {
        unwrap(&rt, wanted.extend_from_slice(text.as_bytes()));
    }
    assert_equal!(&rt, written.as_slice(), wanted.as_slice());
}

#[test]
fn stream_of_no_messages_shows_nothing(rt: HostRuntime) {
    let (answer, written) = ran(rt.alloc(), "stream", b"");
    assert_equal!(&rt, answer, Ok(Status::Fine));
    assert_true!(&rt, written.is_empty());
}

#[test]
fn stream_tells_that_it_is_cut_off(rt: HostRuntime) {
    let alloc = rt.alloc();
    // (part of a length, lengths of more octets than there are, and one that would be 12 with its octets swapped)
    let rests = [
        [0].as_slice(),
        &[0, 1],
        &[1, 0, 0],
        &[12, 0, 0, 0, 0, 0, 0, 0, 0, 0, 0, 0, 0, 0],
    ];
    for rest in rests {
        let (answer, written) = ran(alloc, "stream", rest);
        assert_equal!(&rt, answer, Ok(Status::Refused));
        let cut = "unexpected end of input\n";
        assert_equal!(&rt, written.as_slice(), cut.as_bytes());
        let stream = unwrap(&rt, joined(alloc, &[&[0, 12], &[0; 12], rest]));
        let (answer, written) = ran(alloc, "stream", stream.as_slice());
        assert_equal!(&rt, answer, Ok(Status::Refused));
        let cut = "id 0 opcode 0 rcode 0 flags\n\nunexpected end of input\n";
        assert_equal!(&rt, written.as_slice(), cut.as_bytes());
    }
}
