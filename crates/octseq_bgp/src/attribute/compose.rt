//! Writing the values of path attributes.
ghost use Rattle.std.specs.Prelude.{◌≡◌, ◌≤◌, ◌+◌, ◌++◌, ◌↔◌, length, IsSome, IfSome};
ghost use Rattle.octseq.specs.Limit.{IsWithin};
ghost use Rattle.octseq_bgp.specs.Puts.{AppendsUnlimited, AppendsSomeUnlimited};
ghost use Rattle.octseq_bgp.specs.WrittenValue.{WrittenValue, FitsValue, value_octets, value_type};

mod list;
mod number;
mod path;

use crate::attribute::attribute_type::AttributeType;
use crate::session::SessionConfig;
pub use number::{
    As4Aggregator, AtomicAggregate, ConventionalNextHop, LocalPref, MultiExitDisc, Origin,
    OriginType, OriginatorId,
};
use octseq::{OctetsBuilder, Truncate};
pub use path::{As4Path, PathSegment};
use std::alloc::AllocError;

/// The value of a path attribute that can be written in a session.
pub trait ComposeAttribute {
    // What it says.
    ghost says: { Self → WrittenValue };

    /// Returns the type of the attribute.
    fn attribute_type(&self) -> AttributeType
        ensures { result ≡ value_type (says self.now) };

    /// Returns the number of octets of the value, or `None` if it doesn't fit: a number, a count or its octets don't,
    /// or a list that has one item or more has none.
    fn compose_len(&self, session: &SessionConfig) -> Option<usize>
        ensures some { IfSome result (λ len. len ≡ length (value_octets session.now (says self.now))) }
        ensures fit { IsSome result ↔ FitsValue session.now (says self.now) };

    /// Appends the octets of the value, which is known to fit.
    ///
    /// # Errors
    ///
    /// `AllocError` if a request for memory was refused. Some octets may then have been appended.
    fn put_some<B: OctetsBuilder>(
        &self,
        session: &SessionConfig,
        builder: &mut B,
    ) -> Result<(), AllocError>
        requires fit { FitsValue session.now (says self.now) }
        requires within { IsWithin B.limit (length (B.content builder.old)
            + length (value_octets session.now (says self.now))) }
        ensures puts { AppendsSomeUnlimited B.asks result (value_octets session.now (says self.now))
            (B.content builder.old) (B.content builder.new) }
        ensures borrows { B.borrows builder.new ≡ B.borrows builder.old };

    /// Appends the octets of the value, which is known to fit, or nothing.
    ///
    /// # Errors
    ///
    /// `AllocError` if a request for memory was refused. The content is then unchanged.
    final fn put<B: OctetsBuilder + Truncate>(
        &self,
        session: &SessionConfig,
        builder: &mut B,
    ) -> Result<(), AllocError>
        requires fit { FitsValue session.now (says self.now) }
        requires within { IsWithin B.limit (length (B.content builder.old)
            + length (value_octets session.now (says self.now))) }
        ensures puts { AppendsUnlimited B.asks result (value_octets session.now (says self.now))
            (B.content builder.old) (B.content builder.new) }
        ensures borrows { B.borrows builder.new ≡ B.borrows builder.old }
    {
        let before = builder.len();
        let done = self.put_some(session, builder);
        if done.is_err() {
            builder.truncate(before);
        }
        done
    }
}
