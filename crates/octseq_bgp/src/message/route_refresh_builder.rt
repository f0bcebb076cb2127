//! Writing ROUTE-REFRESHs: RFC 2918, 3, RFC 7313, 3.2, and RFC 5291, 4.
ghost use Rattle.std.specs.Prelude.{◌≡◌, ◌↔◌, [], length, true, IfOk, OnOk, OnErr};
ghost use Rattle.octseq.specs.Limit.{ExceedsLimit};
ghost use Rattle.octseq.specs.Refusal.{IsShort, IsMemory, append_error};
ghost use Rattle.octseq_bgp.specs.WrittenMessage.{limit_of, max_length};
ghost use Rattle.octseq_bgp.specs.WrittenRouteRefresh.{route_refresh_octets, with_orf};

use crate::compose::{Slice, extend};
use crate::message::written::{begin, longest};
use crate::session::SessionConfig;
use octseq::builder::AsOctetsMut;
use octseq::{AppendError, AsOctets, OctetsBuilder, Truncate};
use std::marker::Model;

/// A ROUTE-REFRESH that is written. Its octets are a message at all times.
#[derive(Drop)]
pub struct RouteRefreshBuilder<B: AsOctets> {
    octets: B,
    most: usize,
}

impl<B: AsOctets> Model for RouteRefreshBuilder<B> {
    ghost use Rattle.std.specs.Coded.{codes};
    ghost use Rattle.octseq_bgp.specs.WrittenMessage.{WritingMessage};
    ghost use Rattle.octseq_bgp.specs.WrittenRouteRefresh.{IsRouteRefreshWritten, WrittenRouteRefresh};
    ghost use Rattle.octseq_bgp.specs.WrittenRouteRefresh.{route_refresh_in};

    ghost Value = { WritingMessage B WrittenRouteRefresh };

    ghost view = { λ r. record { octets = r.octets; message = route_refresh_in (B.content r.octets); most = r.most } };

    ghost invariant = { λ r. IsRouteRefreshWritten r.most (B.content r.octets) };
}

/// Returns the octets of a ROUTE-REFRESH with nothing after its SAFI.
#[tactic(auto, using(octseq::proofs::Written::written_2), unfolding(crate::specs::Composed::header_octets))]
fn front(afi: u16, subtype: u8, safi: u8) -> [u8; 23]
    ensures { result ≡ route_refresh_octets (record { afi = afi; subtype = subtype; safi = safi; orf = [] }) }
{
    let afi = afi.to_be_bytes();
    [
        255, 255, 255, 255, 255, 255, 255, 255, 255, 255, 255, 255, 255, 255, 255, 255, 0, 23, 5,
        afi[0], afi[1], subtype, safi,
    ]
}

impl<B: OctetsBuilder + Truncate + AsOctetsMut> RouteRefreshBuilder<B> {
    /// Begins a ROUTE-REFRESH with nothing after its SAFI, in place of what the builder holds.
    ///
    /// # Errors
    ///
    /// `Short` exactly if the limit of the builder's type is less than 23 octets, otherwise `Memory` if a request for
    /// memory was refused. The builder is then dropped.
    pub fn from_builder(
        octets: B,
        session: &SessionConfig,
        afi: u16,
        subtype: u8,
        safi: u8,
    ) -> Result<Self, AppendError>
        ensures message { IfOk result
            (λ r. r.message ≡ record { afi = afi; subtype = subtype; safi = safi; orf = [] }) }
        ensures most { IfOk result (λ r. r.most ≡ max_length session.now.extended_message) }
        ensures short { IsShort append_error result ↔ ExceedsLimit B.limit 23 }
        ensures memory { IsMemory append_error result → B.asks ≡ true }
        ensures borrows { IfOk result (λ r. B.borrows r.octets ≡ B.borrows octets) }
    {
        let most = longest(session);
        let octets = match begin(octets, &front(afi, subtype, safi)) {
            Ok(octets) => octets,
            Err(error) => return Err(error),
        };
        Ok(RouteRefreshBuilder { octets, most })
    }

    /// Appends octets, all or none.
    ///
    /// # Errors
    ///
    /// `Short` exactly if the message would exceed the limit of the builder's type, or the maximum of the session:
    /// 4,096 octets, or 65,535 if messages are extended. Otherwise `Memory` if a request for memory was refused. The
    /// message is then unchanged.
    pub fn push(&mut self, octets: &[u8]) -> Result<(), AppendError>
        ensures ok { OnOk result (self.new.message ≡ with_orf self.old.message octets.now) }
        ensures err { OnErr result (self.new.message ≡ self.old.message) }
        ensures short { IsShort append_error result ↔ ExceedsLimit (limit_of self.old.most B.limit)
            (length (route_refresh_octets (with_orf self.old.message octets.now))) }
        ensures memory { IsMemory append_error result → B.asks ≡ true }
        ensures most { self.new.most ≡ self.old.most }
        ensures borrows { B.borrows self.new.octets ≡ B.borrows self.old.octets }
    {
        extend(&mut self.octets, self.most, &Slice(octets))
    }

    /// Returns the message.
    pub fn as_slice(&self) -> &[u8]
        ensures { result.now ≡ route_refresh_octets self.now.message }
    {
        self.octets.as_ref()
    }

    /// Returns the builder, which holds the message.
    pub fn finish(self) -> B
        ensures octets { result ≡ self.octets }
        ensures content { B.content result ≡ route_refresh_octets self.message }
    {
        self.octets
    }
}
