//! Texts that are refused, each with the offset of the first word that isn't what has to come there.
use crate::tests::equal;
use octseq::Array;
use octseq_dns_data::{Class, Rtype};
use octseq_dns_scan::Words;
use octseq_dns_text::{ScanError, scan_data};

/// A type, a class, a text, and the offset.
static REFUSED: [(u16, u16, &[u8], usize); 44] = [
    (48, 1, b"1 256 1 AQ==", 2),
    (15, 1, b"65536 .", 0),
    (15, 1, b"10", 2),
    (15, 1, b"10  ", 4),
    (15, 1, b"10 a", 3),
    (15, 1, b"10 . .", 5),
    (1, 1, b"1.2.3", 0),
    (1, 3, b"1.2.3.4", 0),
    (1, 1, b"1.2.3.4 5", 8),
    (28, 1, b"::: ", 0),
    (1, 1, b"", 0),
    (1, 1, b" 1.2.3.4", 0),
    (99, 1, b"\"a\"", 0),
    (16, 1, b"", 0),
    (16, 1, b"a \"b", 2),
    (16, 1, b"a b;c", 2),
    (43, 1, b"1 5 1", 5),
    (43, 1, b"1 5 1 f", 7),
    (43, 1, b"1 5 1 ff 0g", 9),
    (43, 1, b"1 5 1 \\# 0", 6),
    (48, 1, b"1 3 5 AQ== AQ==", 11),
    (48, 1, b"1 3 5 AQ", 8),
    (46, 1, b"FOO 5 2 300 0 0 7 . AQ==", 0),
    (46, 1, b"A 5 2 300 20230229000000 0 7 . AQ==", 10),
    (51, 1, b"1 0 10 a", 7),
    (51, 1, b"1 0 10 --", 7),
    (257, 1, b"0 a-b \"\"", 2),
    (257, 1, b"0 a \"\" \"\"", 7),
    (256, 1, b"1 1 \"\"", 4),
    (61, 1, b"A", 1),
    (47, 1, b". A A", 4),
    (50, 1, b"1 0 10 - -", 9),
    (50, 1, b"1 0 10 - ", 9),
    (64, 1, b"1 . port=\"65536\"", 4),
    (65, 1, b"1 . port=\"1\" port=\"1\"", 13),
    (65, 3, b"1 .", 0),
    (1, 1, b"\\#", 2),
    (1, 1, b"\\# 65536", 3),
    (1, 1, b"\\# 0 00", 5),
    (1, 1, b"\\# 2 00", 7),
    (1, 1, b"\\# 1 0000", 5),
    (1, 1, b"\\# 1 0 00", 7),
    (1, 1, b"\\# 1 0 ", 7),
    (1, 1, b"\\# 1 0x", 5),
];

#[test]
fn a_text_that_is_none_is_refused(rt: HostRuntime) {
    for (rtype, class, text, offset) in REFUSED {
        let mut target = Array::<64>::new();
        let read = scan_data::<&[u8], _>(
            rt.alloc(),
            Words::new(text),
            Rtype::from_int(rtype),
            Class::from_int(class),
            None,
            &mut target,
        );
        equal(&rt, "a refusal", read, Err(ScanError::Malformed(offset)));
        equal(&rt, "what is left", target.as_slice(), b"".as_slice());
    }
}
