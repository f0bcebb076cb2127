//! MP_REACH_NLRI and MP_UNREACH_NLRI, prefix by prefix: RFC 4760, 3 and 4.
ghost use Rattle.std.specs.Prelude.{◌≡◌, ◌≤◌, Some, length};
ghost use Rattle.octseq_bgp.specs.Written.{IsHopOf, IsPrefixOf, prefix_octets, reach_front, typed_attribute};
ghost use Rattle.octseq_bgp.specs.Written.{unreach_front, written_prefix};
ghost use Rattle.octseq_bgp.specs.Writing.{IsReached, IsUnreached, Pushes, list_family, list_type, more_attributes};
ghost use Rattle.octseq_bgp.specs.Writing.{more_in_last};
ghost use Rattle.octseq_bgp.specs.declared.attribute.attribute_type.AttributeType.TheVariants as kind;
ghost use Rattle.octseq_bgp.specs.declared.message.update_builder.part.MpList.TheVariants as list;

use crate::attribute::NextHop;
use crate::family::AfiSafiType;
use crate::message::update_builder::front::Front;
use crate::message::update_builder::head::{Head, flags_for, head_len};
use crate::message::update_builder::part::{Attributes, MpList};
use crate::message::update_builder::prefix_octets::{PrefixOctets, is_prefix_of};
use crate::message::update_builder::{UpdateBuilder, longest};
use crate::prefix::{PathId, Prefix};
use octseq::builder::AsOctetsMut;
use octseq::{OctetsBuilder, Truncate, WriteError};

impl<B: OctetsBuilder + Truncate + AsOctetsMut> UpdateBuilder<B, Attributes> {
    /// Pushes an MP_REACH_NLRI without prefixes, whole or not at all. [`push_reached`](Self::push_reached) appends
    /// prefixes to it, until another attribute is pushed.
    ///
    /// # Errors
    ///
    /// `Malformed` exactly if the next hop is an IPv4 address and the family isn't one of IPv4. Otherwise `Short`
    /// exactly if the message would exceed the limit of the builder's type or the greatest length of the session.
    /// `Memory` if a request for memory was refused. The message is then unchanged.
    pub fn push_mp_reach(
        &mut self,
        family: AfiSafiType,
        next_hop: &NextHop,
    ) -> Result<(), WriteError>
        ensures pushed { Pushes B.limit B.asks (IsHopOf family next_hop.now) result
            (more_attributes self.old.update (typed_attribute kind.MpReachNlri (reach_front family next_hop.now)))
            (Some (list.Reach family)) self.old self.new }
        ensures borrows { B.borrows self.new.octets ≡ B.borrows self.old.octets }
    {
        let Some(front) = Front::reach(family, next_hop) else {
            return Err(WriteError::Malformed);
        };
        self.push_list(MpList::Reach(family), front.as_slice())
    }

    /// Pushes an MP_UNREACH_NLRI without prefixes, whole or not at all. Alone in a message, it is the End-of-RIB
    /// marker of the family (RFC 4724, 2). [`push_unreached`](Self::push_unreached) appends prefixes to it, until
    /// another attribute is pushed.
    ///
    /// # Errors
    ///
    /// `Short` exactly if the message would exceed the limit of the builder's type or the greatest length of the
    /// session, and `Memory` if a request for memory was refused. The message is then unchanged.
    pub fn push_mp_unreach(&mut self, family: AfiSafiType) -> Result<(), WriteError>
        ensures pushed { Pushes B.limit B.asks (Unit {0}) result
            (more_attributes self.old.update (typed_attribute kind.MpUnreachNlri (unreach_front family)))
            (Some (list.Unreach family)) self.old self.new }
        ensures borrows { B.borrows self.new.octets ≡ B.borrows self.old.octets }
    {
        let afi = family.afi_number().to_be_bytes();
        let octets = [afi[0], afi[1], family.safi_number()];
        self.push_list(MpList::Unreach(family), &octets)
    }

    /// Pushes a list of prefixes that begins with these octets.
    fn push_list(&mut self, list: MpList, octets: &[u8]) -> Result<(), WriteError>
        requires { length octets.now ≤ 37 }
        ensures pushed { Pushes B.limit B.asks (Unit {0}) result
            (more_attributes self.old.update (typed_attribute (list_type list) octets.now))
            (Some list) self.old self.new }
        ensures borrows { B.borrows self.new.octets ≡ B.borrows self.old.octets }
    {
        let at = self.octets.attributes_len();
        match self.push_attribute(list.kind(), octets) {
            Ok(()) => {
                self.open_list = Some(list);
                self.open_at = at;
                Ok(())
            }
            Err(error) => Err(error),
        }
    }

    /// Appends a prefix to the MP_REACH_NLRI that was pushed last, whole or not at all. Bits after its length are
    /// written as 0. The length of the attribute has two octets, and its flag 0x10 is set, exactly if it has more than
    /// 255.
    ///
    /// # Errors
    ///
    /// `Malformed` exactly if the last attribute isn't an MP_REACH_NLRI that [`push_mp_reach`](Self::push_mp_reach)
    /// pushed, if the prefix isn't one of its family, or if it has a path id where the session has none for the family,
    /// or none where the session has them. Otherwise `Short` exactly if the message would exceed the limit of the
    /// builder's type or the greatest length of the session. `Memory` if a request for memory was refused. The
    /// message is then unchanged.
    pub fn push_reached(
        &mut self,
        prefix: &Prefix,
        path_id: Option<PathId>,
    ) -> Result<(), WriteError>
        ensures pushed { Pushes B.limit B.asks (IsReached self.old.session self.old.open_list prefix.now path_id) result
            (more_in_last kind.MpReachNlri self.old.update (prefix_octets (written_prefix prefix.now path_id)))
            self.old.open_list self.old self.new }
        ensures borrows { B.borrows self.new.octets ≡ B.borrows self.old.octets }
    {
        match self.open_list {
            Some(MpList::Reach(family)) => {
                self.push_listed(MpList::Reach(family), prefix, path_id)
            }
            _ => Err(WriteError::Malformed),
        }
    }

    /// Appends a prefix to the MP_UNREACH_NLRI that was pushed last, as [`push_reached`](Self::push_reached) does to an
    /// MP_REACH_NLRI.
    ///
    /// # Errors
    ///
    /// Those of `push_reached`, where the last attribute must be an MP_UNREACH_NLRI that
    /// [`push_mp_unreach`](Self::push_mp_unreach) pushed.
    pub fn push_unreached(
        &mut self,
        prefix: &Prefix,
        path_id: Option<PathId>,
    ) -> Result<(), WriteError>
        ensures pushed { Pushes B.limit B.asks
            (IsUnreached self.old.session self.old.open_list prefix.now path_id) result
            (more_in_last kind.MpUnreachNlri self.old.update (prefix_octets (written_prefix prefix.now path_id)))
            self.old.open_list self.old self.new }
        ensures borrows { B.borrows self.new.octets ≡ B.borrows self.old.octets }
    {
        match self.open_list {
            Some(MpList::Unreach(family)) => {
                self.push_listed(MpList::Unreach(family), prefix, path_id)
            }
            _ => Err(WriteError::Malformed),
        }
    }

    /// Appends a prefix to the list that is open.
    fn push_listed(
        &mut self,
        list: MpList,
        prefix: &Prefix,
        path_id: Option<PathId>,
    ) -> Result<(), WriteError>
        requires { self.old.open_list ≡ Some list }
        ensures pushed { Pushes B.limit B.asks
            (IsPrefixOf self.old.session (list_family list) prefix.now path_id) result
            (more_in_last (list_type list) self.old.update (prefix_octets (written_prefix prefix.now path_id)))
            (Some list) self.old self.new }
        ensures borrows { B.borrows self.new.octets ≡ B.borrows self.old.octets }
    {
        if !is_prefix_of(&self.session, list.family(), prefix, path_id) {
            return Err(WriteError::Malformed);
        }
        let octets = PrefixOctets::new(prefix, path_id);
        self.grow_last(list, octets.as_slice())
    }

    /// Appends octets to the list that is open.
    fn grow_last(&mut self, list: MpList, more: &[u8]) -> Result<(), WriteError>
        requires list { self.old.open_list ≡ Some list }
        requires few { length more.now ≤ 21 }
        ensures pushed { Pushes B.limit B.asks (Unit {0}) result
            (more_in_last (list_type list) self.old.update more.now) (Some list) self.old self.new }
        ensures borrows { B.borrows self.new.octets ≡ B.borrows self.old.octets }
    {
        let at = self.open_at;
        let len = self.octets.attributes_len() - at;
        let old = head_len(len);
        let len = len - old + more.len();
        let kind = list.kind();
        let Some(head) = Head::new(flags_for(kind, len), kind.number(), len) else {
            return Err(WriteError::Short);
        };
        let most = longest(&self.session);
        self.octets
            .grow_attribute(most, at, old, head.as_slice(), more)
    }
}
