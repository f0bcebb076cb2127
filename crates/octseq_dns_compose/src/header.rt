//! The line of a header.
ghost use Rattle.std.specs.Prelude.{◌≡◌, ◌+◌, List, ℕ, length};
ghost use Rattle.octseq_dns_scan.specs.Words.{ahead_of, offset_of};
ghost use Rattle.octseq_dns_compose.specs.HeaderLine.{AreFlags, IsHeaderLine, Picks, TakesField, flag_names};
ghost use Rattle.octseq_dns_compose.specs.Take.{ReadsAllWords};

use crate::take::{take_number, take_word};
use octseq_dns_data::{Opcode, Rcode};
use octseq_dns_message::{Flags, Header};
use octseq_dns_scan::Words;

/// Reads a header from the words of its line. If they are none, the cursor stays at the first word that isn't
/// what has to come there.
pub(crate) fn scan_header(words: &mut Words) -> Option<Header>
    ensures { ReadsAllWords IsHeaderLine result (ahead_of words.old) (offset_of words.old) (offset_of words.new) }
{
    let Some(id) = take_field(words, b"id", 65535) else {
        return None;
    };
    let Some(opcode) = take_field(words, b"opcode", 15) else {
        return None;
    };
    let Some(rcode) = take_field(words, b"rcode", 15) else {
        return None;
    };
    if !take_word(words, b"flags") {
        return None;
    }
    let flags = take_flags(words);
    if !words.is_at_end() {
        return None;
    }
    Some(Header {
        id: id as u16,
        flags,
        opcode: Opcode::from_int(opcode as u8),
        rcode: Rcode::from_int(rcode as u8),
    })
}

/// Takes a word and a number of at most `max`.
fn take_field(words: &mut Words, name: &[u8], max: u32) -> Option<u32>
    ensures taken { TakesField name.now max result (ahead_of words.old) (ahead_of words.new) }
    ensures end { offset_of words.new + length (ahead_of words.new)
        ≡ offset_of words.old + length (ahead_of words.old) }
{
    if !take_word(words, name) {
        return None;
    }
    let Some(number) = take_number(words, max) else {
        return None;
    };
    Some(number)
}

/// Takes the flags that come next: each at most once, from the highest bit to the lowest. The reserved bit has no name.
fn take_flags(words: &mut Words) -> Flags
    ensures taken { (flag_list : List (List ℕ)) × Picks flag_names (ahead_of words.old) flag_list (ahead_of words.new)
        × AreFlags result flag_list }
    ensures end { offset_of words.new + length (ahead_of words.new)
        ≡ offset_of words.old + length (ahead_of words.old) }
{
    let qr = take_word(words, b"QR");
    let aa = take_word(words, b"AA");
    let tc = take_word(words, b"TC");
    let rd = take_word(words, b"RD");
    let ra = take_word(words, b"RA");
    let ad = take_word(words, b"AD");
    let cd = take_word(words, b"CD");
    Flags {
        qr,
        aa,
        tc,
        rd,
        ra,
        z: false,
        ad,
        cd,
    }
}
