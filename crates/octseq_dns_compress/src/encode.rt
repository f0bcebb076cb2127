//! Writing the octets of a name: RFC 1035, 4.1.4.
ghost use Rattle.std.specs.Prelude.{◌≡◌, ◌≤◌, ◌+◌, ◌++◌, List, ℕ, length, take, true, OnOk, OnErr};
ghost use Rattle.octseq.specs.Appends.{Appends};
ghost use Rattle.octseq.specs.Limit.{IsWithin};
ghost use Rattle.octseq.specs.Refusal.{IsShort, IsMemory, append_error};
ghost use Rattle.octseq_dns_compress.specs.Composed.{message_limit};
ghost use Rattle.octseq_dns_compress.specs.Names.{ended, labels_wire};
ghost use Rattle.octseq_dns_compress.specs.PlainNames.{plain_labels};

use crate::append::has_room;
use crate::plain::LabelOffsets;
use crate::search::SuffixMatch;
use octseq::{AppendError, AsOctets, OctetsBuilder, ShortBuf, Truncate};

/// Appends the first labels of a name, as many at once as lie one after another. There must be room for them. If a
/// request for memory is refused, some of them may have been appended.
fn append_labels<B: OctetsBuilder>(
    octets: &mut B,
    name: &LabelOffsets<'_>,
    count: usize,
) -> Result<(), AppendError>
    requires count { count ≤ length (plain_labels name.now) }
    requires room { IsWithin B.limit (length (B.content octets.old)
        + length (labels_wire (take count (plain_labels name.now)))) }
    ensures ok { OnOk result (B.content octets.new
        ≡ B.content octets.old ++ labels_wire (take count (plain_labels name.now))) }
    ensures err { OnErr result ((more : List ℕ) × (B.content octets.new ≡ B.content octets.old ++ more)) }
    ensures short { ¬ IsShort append_error result }
    ensures memory { IsMemory append_error result → B.asks ≡ true }
    ensures borrows { B.borrows octets.new ≡ B.borrows octets.old }
{
    let mut index = 0;
    'labels: while index < count {
        let (run, after) = name.run(index, count);
        if let Err(error) = octets.append_few(run) {
            return Err(error);
        }
        index = after;
    }
    Ok(())
}

/// Appends what comes after the first labels of a name: the root, or a pointer to an offset.
fn append_end<B: OctetsBuilder>(octets: &mut B, next: u16) -> Result<(), AppendError>
    requires { next ≤ 16383 }
    ensures appended { Appends B.limit B.asks result (ended next) (B.content octets.old) (B.content octets.new) }
    ensures borrows { B.borrows octets.new ≡ B.borrows octets.old }
{
    if next == 0 {
        octets.append_slice(&[0])
    } else {
        let mark = 192 + (next / 256) as u8;
        octets.append_slice(&[mark, (next % 256) as u8])
    }
}

/// Returns the number of octets that this takes.
fn end_len(next: u16) -> usize
    ensures len { result ≡ length (ended next) }
    ensures most { result ≤ 2 }
{
    if next == 0 { 1 } else { 2 }
}

/// Appends the labels of a name that are written, followed by the root or a pointer. An error leaves the message
/// unchanged.
pub(crate) fn append_encoded<B: OctetsBuilder + Truncate>(
    octets: &mut B,
    name: &LabelOffsets<'_>,
    ending: SuffixMatch,
) -> Result<(), AppendError>
    requires written { ending.written ≤ length (plain_labels name.now) }
    requires len { ending.len ≡ length (labels_wire (take ending.written (plain_labels name.now))) }
    requires few { ending.len ≤ 254 }
    requires next { ending.next ≤ 16383 }
    requires short { length (B.content octets.old) ≤ 65535 }
    ensures appended { Appends (message_limit B.limit) B.asks result
        (labels_wire (take ending.written (plain_labels name.now)) ++ ended ending.next)
        (B.content octets.old) (B.content octets.new) }
    ensures most { length (B.content octets.new) ≤ 65535 }
    ensures within { OnOk result (IsWithin (message_limit B.limit) (length (B.content octets.new))) }
    ensures borrows { B.borrows octets.new ≡ B.borrows octets.old }
{
    let before = octets.len();
    if !has_room(octets, ending.len + end_len(ending.next)) {
        return Err(AppendError::Short(ShortBuf));
    }
    if let Err(error) = append_labels(octets, name, ending.written) {
        octets.truncate(before);
        return Err(error);
    }
    if let Err(error) = append_end(octets, ending.next) {
        octets.truncate(before);
        return Err(error);
    }
    Ok(())
}
