//! An iterator over the types of a bitmap.
ghost use Rattle.std.specs.Prelude.{◌≡◌, ℕ, ◌+◌, ◌*◌, ◌<◌, ◌≤◌, [], ◌∷◌, length, IfSome, MatchOption};
ghost use Rattle.octseq_dns_data.specs.OneBitmap.{one_bitmap};
ghost use Rattle.octseq_dns_data.specs.RtypeBitmap.{IsRtypeBitmap, is_listed, places_from, types_of};

use crate::iana::Rtype;
use crate::rtype_bitmap::blocks::split_block;

/// An iterator over the types of a bitmap, in ascending order.
#[derive(Clone, Copy, Debug)]
pub struct RtypeBitmapIter<'a> {
    number: u8,
    bitmap: &'a [u8],
    place: usize,
    rest: &'a [u8],
    ghost few: { length bitmap.now ≤ 32 },
    ghost ahead: { IsRtypeBitmap rest.now } by { one_bitmap rest.now },
}

impl<'a> RtypeBitmapIter<'a> {
    ghost use Rattle.octseq_dns_data.specs.RtypeBitmapOf.{rtypes_left};

    /// Iterates over the types of a type bitmap.
    pub(crate) fn new(octets: &'a [u8]) -> RtypeBitmapIter<'a>
        requires { IsRtypeBitmap octets.now }
        ensures { rtypes_left result ≡ types_of octets.now }
    {
        RtypeBitmapIter {
            number: 0,
            bitmap: &[],
            place: 0,
            rest: octets,
        }
    }
}

impl<'a> Iterator for RtypeBitmapIter<'a> {
    ghost use Rattle.std.specs.Iterator.{YieldsFirstBy, item_count};
    ghost use Rattle.octseq_dns_data.specs.RtypeBitmapOf.{rtypes_left};

    type Item = Rtype;

    ghost next_gives = { YieldsFirstBy (λ rtype. rtype) rtypes_left };

    ghost remaining = { item_count rtypes_left };

    fn next(&mut self) -> Option<Rtype> {
        loop {
            if let Some(place) = next_place(self.bitmap, self.place) {
                self.place = place + 1;
                let number = u16::from(self.number) * 256 + place as u16;
                return Some(Rtype::from_int(number));
            }
            let (block, rest) = split_block(self.rest)?;
            *self = RtypeBitmapIter {
                number: block.number,
                bitmap: block.bitmap,
                place: 0,
                rest,
            };
        }
    }
}

/// Returns the first place from `place` on whose bit is set.
fn next_place(bitmap: &[u8], place: usize) -> Option<usize>
    requires { length bitmap.now ≤ 32 }
    ensures first { MatchOption result (places_from bitmap.now place ≡ [])
        (λ next. places_from bitmap.now place ≡ next ∷ places_from bitmap.now (next + 1)) }
    ensures within { IfSome result (λ next. next < 8 * length bitmap.now) }
{
    for next in place..8 * bitmap.len() {
        if is_listed(bitmap, next) {
            return Some(next);
        }
    }
    None
}

/// Whether the bit of an offset is set.
fn is_listed(bitmap: &[u8], place: usize) -> bool
    requires { place < 8 * length bitmap.now }
    ensures { result ≡ is_listed bitmap.now place }
{
    (bitmap[place / 8] >> (7 - place % 8)) % 2 == 1
}
