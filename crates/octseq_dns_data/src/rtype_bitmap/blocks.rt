//! The window blocks of a type bitmap: RFC 4034, 4.1.2.
ghost use Rattle.std.specs.Prelude.{◌≡◌, ℕ, ◌+◌, ◌*◌, ◌≤◌, List, ◌++◌, length, IsTrue, IsFalse, IsNone, IfSome};
ghost use Rattle.octseq_dns_data.specs.RtypeBitmap as said;
ghost use Rattle.octseq_dns_data.specs.RtypeBitmapOf.{block_of};
ghost use Rattle.octseq_dns_data.specs.RtypeBitmap.{IsRtypeBitmap, IsWindowBlock, bitmap_turns, block_octets};

use octseq::Turns;

/// A window block: the number of its window, and its bitmap.
#[derive(Clone, Copy)]
pub(crate) struct WindowBlock<'a> {
    pub(crate) number: u8,
    pub(crate) bitmap: &'a [u8],
}

/// Splits off the first window block. Returns `None` if there is no window block at the front.
pub(crate) fn split_block(octets: &[u8]) -> Option<(WindowBlock<'_>, &[u8])>
    ensures found { IfSome result (λ split. octets.now ≡ block_octets (block_of split.0) ++ split.1.now) }
    ensures form { IfSome result (λ split. IsWindowBlock (block_of split.0)) }
    ensures none { IsNone result → (block : said.WindowBlock) (rest : List ℕ) → IsWindowBlock block
        → ¬ (octets.now ≡ block_octets block ++ rest) }
{
    let (head, rest) = octets.split_first_chunk::<2>()?;
    let [number, size] = *head;
    let size = usize::from(size);
    if size == 0 || size > 32 || size > rest.len() {
        return None;
    }
    let (bitmap, rest) = rest.split_at(size);
    if bitmap[size - 1] == 0 {
        return None;
    }
    Some((WindowBlock { number, bitmap }, rest))
}

/// Whether octets are a type bitmap. It counts a turn for each window block it finds.
pub(crate) fn is_bitmap(octets: &[u8], turns: &mut Turns) -> bool
    ensures yes { IsTrue result → IsRtypeBitmap octets.now }
    ensures no { IsFalse result → ¬ IsRtypeBitmap octets.now }
    ensures turns { 3 * turns.new ≤ 3 * turns.old + length octets.now }
    ensures some { turns.old ≤ turns.new }
    ensures least { IsTrue result → turns.old + bitmap_turns octets.now ≤ turns.new }
{
    let mut rest = octets;
    let mut least = 0;
    while let Some((block, more)) = split_block(rest) {
        turns.tick();
        if u16::from(block.number) < least {
            return false;
        }
        least = u16::from(block.number) + 1;
        rest = more;
    }
    rest.is_empty()
}
