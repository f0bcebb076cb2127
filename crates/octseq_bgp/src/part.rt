//! Parts of a value, which are written one after another.
ghost use Rattle.std.specs.Prelude.{◌≡◌, ◌≤◌, ◌+◌, ◌++◌, ◌↔◌, ℕ, Bool, List, length, map, IsSome, IfSome};
ghost use Rattle.octseq.specs.Limit.{IsWithin};
ghost use Rattle.octseq_format.specs.Row.{row_octets};
ghost use Rattle.octseq_bgp.specs.PartRow.{FitRow};
ghost use Rattle.octseq_bgp.specs.Puts.{AppendsSomeUnlimited};

use octseq::OctetsBuilder;
use std::alloc::AllocError;

/// The greatest length of the value of a path attribute: RFC 4271, 4.3.
pub(crate) const VALUE_MAX: usize = 65535;

/// A part of a value, such as a community, or a segment of an AS path.
pub trait Part {
    // What it says.
    ghost Said: { Type 0 };

    ghost says: { Self → Said };

    // Its octets, and whether it has them: with AS numbers of four octets, or of two.
    ghost octets: { Bool → Said → List ℕ };

    ghost fits: { Bool → Said → Type 0 };

    /// Returns the number of octets with AS numbers of four octets (`wide`) or of two, or `None` if it doesn't fit.
    fn part_len(&self, wide: bool) -> Option<usize>
        ensures some { IfSome result (λ len. len ≡ length (octets wide (says self.now))) }
        ensures fit { IsSome result ↔ fits wide (says self.now) };

    /// Appends the octets, which are known to fit.
    ///
    /// # Errors
    ///
    /// `AllocError` if a request for memory was refused. Some octets may then have been appended.
    fn put_part<B: OctetsBuilder>(&self, wide: bool, builder: &mut B) -> Result<(), AllocError>
        requires fit { fits wide (says self.now) }
        requires within { IsWithin B.limit (length (B.content builder.old) + length (octets wide (says self.now))) }
        ensures puts { AppendsSomeUnlimited B.asks result (octets wide (says self.now))
            (B.content builder.old) (B.content builder.new) }
        ensures borrows { B.borrows builder.new ≡ B.borrows builder.old };
}

/// Returns the number of octets of parts, or `None` if one of them doesn't fit, or if they have more than 65,535.
pub(crate) fn parts_len<P: Part>(parts: &[P], wide: bool) -> Option<usize>
    ensures some { IfSome result (λ len. len ≡ length (row_octets (P.octets wide) (map P.says parts.now))) }
    ensures fit { IsSome result ↔ FitRow (P.octets wide) (P.fits wide) (map P.says parts.now) }
{
    let mut len = 0_usize;
    let mut left = parts;
    'parts: while let Some((part, others)) = left.split_first() {
        let more = part.part_len(wide)?;
        if more > VALUE_MAX - len {
            return None;
        }
        len += more;
        left = others;
    }
    Some(len)
}

/// Appends parts, which are known to fit.
///
/// # Errors
///
/// `AllocError` if a request for memory was refused. Some octets may then have been appended.
pub(crate) fn put_parts<B: OctetsBuilder, P: Part>(
    builder: &mut B,
    parts: &[P],
    wide: bool,
) -> Result<(), AllocError>
    requires fit { FitRow (P.octets wide) (P.fits wide) (map P.says parts.now) }
    requires within { IsWithin B.limit (length (B.content builder.old)
        + length (row_octets (P.octets wide) (map P.says parts.now))) }
    ensures puts { AppendsSomeUnlimited B.asks result (row_octets (P.octets wide) (map P.says parts.now))
        (B.content builder.old) (B.content builder.new) }
    ensures borrows { B.borrows builder.new ≡ B.borrows builder.old }
{
    let mut left = parts;
    'parts: while let Some((part, others)) = left.split_first() {
        part.put_part(wide, builder)?;
        left = others;
    }
    Ok(())
}
