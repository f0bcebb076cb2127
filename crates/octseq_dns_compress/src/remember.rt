//! Keeping the labels of a written name in a table.
ghost use Rattle.std.specs.Prelude.{◌≡◌, ◌≤◌, ◌+◌, ℕ, List, length, take, nat_lt, true, OnOk, OnErr};
ghost use Rattle.std.specs.List.{filter};
ghost use Rattle.octseq_dns_compress.specs.TableMatches.{TableMatches};
ghost use Rattle.octseq_dns_compress.specs.SuffixMatch.{IsSuffixMatch};
ghost use Rattle.octseq_dns_compress.specs.Names.{Names, names_with, labels_wire};
ghost use Rattle.octseq_dns_compress.specs.PlainNames.{plain_labels};
ghost use Rattle.octseq_dns_compress.specs.Written.{AreLabelsWritten};

use crate::plain::LabelOffsets;
use crate::search::{SuffixMatch, digest};
use crate::table::{Compressor, Target};
use octseq::Turns;
use std::alloc::AllocError;

/// The last offset that a pointer can express: RFC 1035, 4.1.4.
const PLACE_MAX: usize = 16383;

/// The greatest number of pointers that may be followed from a target.
const POINTERS_MAX: u8 = 126;

/// Keeps the labels of a name that were written from `start` on, the last one first: as many as begin at an offset that
/// a pointer can express, and as the table has room for. It keeps none if too many pointers would be followed from
/// them.
///
/// # Errors
///
/// `AllocError` if a request for memory was refused. Some of the labels may then be kept.
pub(crate) fn remember<T: Compressor>(
    table: &mut T,
    name: &LabelOffsets<'_>,
    ending: SuffixMatch,
    start: usize,
    turns: &mut Turns,
) -> Result<(), AllocError>
    requires few { length (T.held table.old) ≤ T.most }
    requires written { ending.written ≤ length (plain_labels name.now) }
    requires len { ending.len ≡ length (labels_wire (take ending.written (plain_labels name.now))) }
    requires short { ending.len ≤ 254 }
    requires position { ending.position ≤ length (T.held table.old) }
    requires start { start ≤ 65535 }
    ensures kept { (octets : List ℕ) (names : Names) → TableMatches octets (T.held table.old) names
        → IsSuffixMatch octets (T.held table.old) names (plain_labels name.now) ending
        → AreLabelsWritten octets names start (plain_labels name.now) ending.written
        → OnOk result (TableMatches octets (T.held table.new) (names_with T.most names start (plain_labels name.now))) }
    ensures before { filter (λ target. nat_lt target.at start) (T.held table.new)
        ≡ filter (λ target. nat_lt target.at start) (T.held table.old) }
    ensures few { length (T.held table.new) ≤ T.most }
    ensures memory { OnErr result (T.asks ≡ true) }
    ensures turns { turns.new ≤ turns.old + ending.written }
    ensures least { turns.old + length (T.held table.new) ≤ turns.new + length (T.held table.old) }
    ensures on { turns.old ≤ turns.new }
{
    if ending.pointers > POINTERS_MAX {
        return Ok(());
    }
    let older = table.as_slice().len();
    let mut left = ending.written;
    let mut end = start + ending.len;
    let mut next = ending.next;
    let mut position = ending.position;
    'labels: while left > 0 {
        turns.tick();
        let label = name.label(left - 1);
        let at = end - label.len();
        if at > PLACE_MAX || table.is_full() {
            return Ok(());
        }
        table.insert(
            position,
            Target {
                at: at as u16,
                next,
                pointers: ending.pointers,
                digest: digest(label),
            },
        )?;
        left -= 1;
        end = at;
        next = at as u16;
        position = older + 1;
    }
    Ok(())
}
