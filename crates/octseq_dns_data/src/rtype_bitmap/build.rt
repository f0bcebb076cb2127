//! Type bitmaps made from types in any order.
ghost use Rattle.std.specs.Prelude.{◌≡◌, ℕ, ◌+◌, ◌<◌, ◌≤◌, ◌↔◌, true, [], ◌∷◌, ◌++◌, length, IsTrue, IsFalse, IfOk};
ghost use Rattle.std.specs.Prelude.{OnErr};
ghost use Rattle.std.specs.List.{Contains, flat_map};
ghost use Rattle.octseq.specs.Appends.{Appends};
ghost use Rattle.octseq.specs.Limit.{ExceedsLimit};
ghost use Rattle.octseq.specs.Refusal.{IsShort, IsMemory, append_error};
ghost use Rattle.octseq_dns_data.specs.RtypeBitmap.{IsRtypeBitmap, block_octets, types_of};
ghost use Rattle.octseq_dns_data.specs.RtypeBitmapMade.{bitmap_of, bitmap_size, is_among, octet_of, window_blocks};

use crate::iana::Rtype;
use crate::rtype_bitmap::RtypeBitmap;
use octseq::{
    AppendError, Array, AsOctets, EmptyBuilder, OctetsBuilder, OctetsLimit, Parser, ShortBuf,
};
use std::alloc::{AllocError, Global};

/// The maximum number of octets of a type bitmap: 256 window blocks of at most 34.
const BITMAP_MAX: usize = 8704;

impl<B: EmptyBuilder> RtypeBitmap<B> {
    ghost use Rattle.octseq_dns_data.specs.RtypeBitmapOf.{bitmap_octets, rtypes_of};

    /// Makes the bitmap of these types, which may be in any order and repeated.
    ///
    /// # Errors
    ///
    /// `Short` if the octets exceed the limit of the builder's type. Otherwise `Memory` if a request for memory was
    /// refused.
    pub fn from_rtypes(alloc: Global, rtypes: &[Rtype]) -> Result<RtypeBitmap<B>, AppendError>
        ensures octets { IfOk result (λ bitmap. bitmap_octets bitmap ≡ bitmap_of rtypes.now) }
        ensures types { IfOk result (λ bitmap. (rtype : ℕ) → rtype < 65536
            → Contains (rtypes_of bitmap) rtype ↔ Contains rtypes.now rtype) }
        ensures short { IsShort append_error result ↔ ExceedsLimit B.limit (length (bitmap_of rtypes.now)) }
        ensures memory { IsMemory append_error result → B.asks ≡ true }
    {
        let octets = octets_of(rtypes);
        if is_past::<B>(octets.len()) {
            return Err(AppendError::Short(ShortBuf));
        }
        match RtypeBitmap::copied(alloc, octets.as_ref()) {
            Ok(bitmap) => Ok(bitmap),
            Err(_) => Err(AppendError::Memory),
        }
    }

    /// Copies octets that are within the limit.
    fn copied(alloc: Global, octets: &[u8]) -> Result<RtypeBitmap<B>, AllocError>
        requires bitmap { IsRtypeBitmap octets.now }
        requires within { ¬ ExceedsLimit B.limit (length octets.now) }
        ensures ok { IfOk result (λ bitmap. bitmap_octets bitmap ≡ octets.now) }
        ensures memory { OnErr result (B.asks ≡ true) }
    {
        let mut builder = B::with_capacity(alloc, octets.len())?;
        match builder.append_slice(octets) {
            Ok(()) => Ok(RtypeBitmap::of_parser(Parser::from_ref(builder))),
            Err(_) => Err(AllocError),
        }
    }
}

/// Appends the octets of the bitmap of these types, which may be in any order and repeated.
///
/// # Errors
///
/// `Short` if the content would exceed the builder's limit. Otherwise `Memory` if a request for memory was refused. The
/// content is then unchanged.
pub fn append_rtypes<B: OctetsBuilder>(builder: &mut B, rtypes: &[Rtype]) -> Result<(), AppendError>
    ensures appended { Appends B.limit B.asks result (bitmap_of rtypes.now)
        (B.content builder.old) (B.content builder.new) }
    ensures borrows { B.borrows builder.new ≡ B.borrows builder.old }
    ensures bitmap { IsRtypeBitmap (bitmap_of rtypes.now) }
    ensures types { (rtype : ℕ) → rtype < 65536
        → Contains (types_of (bitmap_of rtypes.now)) rtype ↔ Contains rtypes.now rtype }
{
    let octets = octets_of(rtypes);
    builder.append_slice(octets.as_ref())
}

/// Whether a length exceeds the limit of a type.
fn is_past<B: OctetsLimit>(len: usize) -> bool
    ensures past { IsTrue result → ExceedsLimit B.limit len }
    ensures within { IsFalse result → ¬ ExceedsLimit B.limit len }
{
    match B::limit() {
        Some(limit) => limit < len,
        None => false,
    }
}

/// Returns the octets of the bitmap of these types.
fn octets_of(rtypes: &[Rtype]) -> Array<BITMAP_MAX>
    ensures octets { result.content ≡ bitmap_of rtypes.now }
    ensures bitmap { IsRtypeBitmap (bitmap_of rtypes.now) }
    ensures types { (rtype : ℕ) → rtype < 65536
        → Contains (types_of (bitmap_of rtypes.now)) rtype ↔ Contains rtypes.now rtype }
{
    let mut octets = Array::new();
    for number in 0..256 {
        append_block(&mut octets, rtypes, number);
    }
    octets
}

/// Appends the window block of window `number`, if one of the types is in it.
fn append_block(octets: &mut Array<BITMAP_MAX>, rtypes: &[Rtype], number: u16)
    requires window { number < 256 }
    requires room { length octets.old.content + 34 ≤ BITMAP_MAX }
    ensures octets { octets.new.content
        ≡ octets.old.content ++ flat_map block_octets (window_blocks rtypes.now number) }
    ensures most { length octets.new.content ≤ length octets.old.content + 34 }
{
    let size = bitmap_size(rtypes, number);
    if size == 0 {
        return;
    }
    push(octets, number as u8);
    push(octets, size as u8);
    for place in 0..size {
        let octet = octet_of(rtypes, 256 * number + 8 * place);
        push(octets, octet);
    }
}

/// Appends an octet. There is room for it.
fn push(octets: &mut Array<BITMAP_MAX>, octet: u8)
    requires { length octets.old.content < BITMAP_MAX }
    ensures { octets.new.content ≡ octets.old.content ++ octet ∷ [] }
{
    let _appended = octets.append_slice(&[octet]);
}

/// Returns the number of octets of a window's bitmap, as many as its highest type needs.
fn bitmap_size(rtypes: &[Rtype], number: u16) -> u16
    ensures size { result ≡ bitmap_size number rtypes.now }
    ensures most { result ≤ 32 }
{
    let mut size = 0;
    for rtype in rtypes {
        let int = rtype.to_int();
        if int / 256 == number {
            size = size.max(int % 256 / 8 + 1);
        }
    }
    size
}

/// Returns the octet of the eight types from `rtype` on.
fn octet_of(rtypes: &[Rtype], rtype: u16) -> u8
    requires { rtype + 8 ≤ 65536 }
    ensures { result ≡ octet_of rtypes.now rtype }
{
    let mut octet = 0;
    for count in 0..8 {
        octet = 2 * octet + u8::from(is_among(rtypes, rtype + count));
    }
    octet
}

/// Whether `rtype` is one of the types.
fn is_among(rtypes: &[Rtype], rtype: u16) -> bool
    ensures { result ≡ is_among rtypes.now rtype }
{
    rtypes.iter().any(|other| other.to_int() == rtype)
}
