//! Synchronization of a parent zone with its child: RFC 7477.
ghost use Rattle.std.specs.Prelude.{◌≡◌, ⊤, Some};
ghost use Rattle.octseq_dns_data.specs.Typed.{csync_form, csync_of};

use crate::data::formed::Formed;
use crate::layout::{Field, Layout, Tail};
use crate::rtype_bitmap::RtypeBitmap;
use octseq::AsOctets;
use octseq_format::{Fields, Format, U16Be, U32Be};
use std::alloc::AllocError;
use std::fmt;

/// The types that a parent zone should copy from its child: RFC 7477, 2.1.
#[derive(Debug)]
pub struct Csync<R: AsOctets> {
    /// The serial number of the child zone from which on they may be copied.
    pub serial: u32,
    /// The flags: whether they are copied at once, and whether the serial number counts.
    pub flags: u16,
    /// The types.
    pub types: RtypeBitmap<R>,
}

impl<R: AsOctets + Copy> Copy for Csync<R> {}

impl<R: AsOctets + Copy> Clone for Csync<R> {
    ghost is_clone = { λ csync copy. copy ≡ csync };

    ghost is_infallible = { λ _. ⊤ };

    fn clone(&self) -> Result<Self, AllocError> {
        Ok(*self)
    }
}

impl<R: AsOctets + Copy> Fields<R> for Csync<R> {
    type Format = (U32Be, U16Be, Formed<RtypeBitmap<R>>);

    ghost fields = { λ csync. (csync.serial, csync.flags, csync.types) };

    fn from_fields(parts: <Self::Format as Format<R>>::Value) -> Self {
        let (serial, flags, types) = parts;
        Csync {
            serial,
            flags,
            types,
        }
    }

    fn to_fields(&self) -> <Self::Format as Format<R>>::Value {
        (self.serial, self.flags, self.types)
    }
}

/// How its text is read: RFC 7477, 2.2.
pub(crate) const LAYOUT: Layout = Layout {
    fields: &[Field::U32, Field::U16],
    tail: Tail::Types,
};

/// Prints the serial number, the flags, and each type after a space.
impl<R: AsOctets + Copy> fmt::Display for Csync<R> {
    ghost output = { λ csync. Some (csync_form.text (csync_of csync)) };

    fn fmt<W: fmt::Write>(&self, f: &mut fmt::Formatter<W>) -> fmt::Result {
        let Csync {
            serial,
            flags,
            types,
        } = self;
        write!(f, "{serial} {flags}{types}")
    }
}
