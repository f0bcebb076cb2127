//! End-of-RIB markers: RFC 4724, 2.
ghost use Rattle.std.specs.Prelude.{◌≡◌, IfSome, IsNone};
ghost use Rattle.octseq_bgp.specs.EndOfRib.{IsEndOfRib, UnreachesNone};
ghost use Rattle.octseq_bgp.specs.Lists.{attributes_left};
ghost use Rattle.octseq_bgp.specs.Parsed.{update_of};
ghost use Rattle.octseq_bgp.specs.declared.family.AfiSafiType.{AfiSafiType as Family};

use crate::attribute::{MpUnreachNlri, PathAttributes};
use crate::family::AfiSafiType;
use crate::message::update::UpdateMessage;
use crate::session::SessionConfig;
use octseq::{AsOctets, Turns};

/// Returns the family of the only attribute, if it is an MP_UNREACH_NLRI without prefixes.
fn unreaches_none<R: AsOctets + Copy>(
    session: &SessionConfig,
    attributes: PathAttributes<R>,
) -> Option<AfiSafiType>
    ensures some { IfSome result (λ family. UnreachesNone session.now (attributes_left attributes) family) }
    ensures none { IsNone result → (family : Family)
        → ¬ UnreachesNone session.now (attributes_left attributes) family }
{
    let mut ahead = attributes;
    let Some(first) = ahead.next() else {
        return None;
    };
    if ahead.len() > 0 || first.type_code != 15 {
        return None;
    }
    let Ok(unreach) = MpUnreachNlri::parse_counted(first.value, session, &mut Turns::new()) else {
        return None;
    };
    if unreach.prefixes.len() > 0 {
        return None;
    }
    Some(unreach.family)
}

impl<R: AsOctets + Copy> UpdateMessage<R> {
    /// Returns the family that this End-of-RIB marker is for, or `None` if it isn't a marker.
    pub fn is_eor(&self) -> Option<AfiSafiType>
        ensures some { IfSome result (IsEndOfRib (update_of self.now)) }
        ensures none { IsNone result → (family : Family) → ¬ IsEndOfRib (update_of self.now) family }
    {
        if self.withdrawn.len() > 0 || self.announced.len() > 0 {
            return None;
        }
        if self.path_attributes.len() == 0 {
            return Some(AfiSafiType::Ipv4Unicast);
        }
        let session = self.path_attributes.session();
        unreaches_none(&session, self.path_attributes)
    }
}
