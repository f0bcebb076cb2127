//! The values of path attributes in a message.
ghost use Rattle.std.specs.Prelude.{◌≡◌, length};
ghost use Rattle.octseq_bgp.specs.WrittenValue.{FitsValue, value_octets};

use crate::attribute::ComposeAttribute;
use crate::compose::Tail;
use crate::session::SessionConfig;
use octseq::OctetsBuilder;
use std::alloc::AllocError;

/// A value, whose octets are known to be `len`.
#[derive(Drop)]
pub(crate) struct Valued<'a, A> {
    pub(crate) len: usize,
    pub(crate) session: &'a SessionConfig,
    pub(crate) value: &'a A,
}

impl<'a, A: ComposeAttribute> Tail for Valued<'a, A> {
    ghost octets = { λ v. value_octets v.session.now (A.says v.value.now) };

    ghost fits = { λ v. FitsValue v.session.now (A.says v.value.now)
        × (v.len ≡ length (value_octets v.session.now (A.says v.value.now))) };

    fn len(&self) -> usize {
        self.len
    }

    fn put<B: OctetsBuilder>(&self, builder: &mut B) -> Result<(), AllocError> {
        self.value.put_some(self.session, builder)
    }
}
