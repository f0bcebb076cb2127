//! What two OPENs agree on.
ghost use Rattle.std.specs.Prelude.{◌≡◌, List, ⊤};
ghost use Rattle.octseq_bgp.specs.Capability.{CapabilityValue as Value};
ghost use Rattle.octseq_bgp.specs.CapabilityOf.{capabilities_left, capability_value_of, parameter_value_of};
ghost use Rattle.octseq_bgp.specs.Items.{items_left};
ghost use Rattle.octseq_bgp.specs.Lists.{parameters_left};
ghost use Rattle.octseq_bgp.specs.Negotiated.{
  AreValues,
  SayAll,
  also_says,
  all_say,
  none_advertised,
  path_flags,
  agrees,
};
ghost use Rattle.octseq_bgp.specs.Negotiated.{IsAgreed, said_capabilities, paths_agreed};
ghost use Rattle.octseq_bgp.specs.SpokenOf.{spoken_of, paths_of};

use crate::capability::{Capabilities, CapabilityValue, FamilyTuple, ParameterValue};
use crate::family::AfiSafiType;
use crate::item::Items;
use crate::message::{OpenMessage, Parameters};
use crate::session::{AddPath, SessionConfig};
use octseq::AsOctets;
use std::alloc::AllocError;

/// What capabilities say together.
#[derive(Debug)]
struct Advertised<R: AsOctets> {
    four_octet_asn: bool,
    extended_message: bool,
    paths: Option<Items<R, FamilyTuple>>,
}

impl<R: AsOctets + Copy> Copy for Advertised<R> {}

impl<R: AsOctets + Copy> Clone for Advertised<R> {
    ghost is_clone = { λ spoken copy. copy ≡ spoken };

    ghost is_infallible = { λ _. ⊤ };

    fn clone(&self) -> Result<Self, AllocError> {
        Ok(*self)
    }
}

impl<R: AsOctets + Copy> Advertised<R> {
    /// Returns the state in which nothing was said.
    fn none_advertised() -> Advertised<R>
        ensures { spoken_of result ≡ none_advertised }
    {
        Advertised {
            four_octet_asn: false,
            extended_message: false,
            paths: None,
        }
    }

    /// Adds what one more capability says.
    fn also(self, value: CapabilityValue<R>) -> Advertised<R>
        ensures { spoken_of result ≡ also_says (spoken_of self) (capability_value_of value) }
    {
        match value {
            CapabilityValue::FourOctetAsn(_) => Advertised {
                four_octet_asn: true,
                extended_message: self.extended_message,
                paths: self.paths,
            },
            CapabilityValue::ExtendedMessage => Advertised {
                four_octet_asn: self.four_octet_asn,
                extended_message: true,
                paths: self.paths,
            },
            CapabilityValue::AddPath(paths) => Advertised {
                four_octet_asn: self.four_octet_asn,
                extended_message: self.extended_message,
                paths: Some(paths),
            },
            _ => self,
        }
    }

    /// Returns what is said of the path ids of a family, or 0 if nothing is.
    fn path_flags(&self, family: AfiSafiType) -> u8
        ensures { result ≡ path_flags family 0 (paths_of self.now.paths) }
    {
        match self.paths {
            Some(paths) => last_flags(family, paths),
            None => 0,
        }
    }

    /// Whether we receive path ids of a family, and they send them.
    fn agrees_on(&self, theirs: u8, family: AfiSafiType) -> bool
        ensures { result ≡ agrees (path_flags family 0 (paths_of self.now.paths)) theirs }
    {
        let ours = self.path_flags(family);
        (ours == 1 || ours == 3) && (theirs == 2 || theirs == 3)
    }
}

/// Returns the last flags that a list has for a family, or 0.
fn last_flags<R: AsOctets + Copy>(family: AfiSafiType, paths: Items<R, FamilyTuple>) -> u8
    ensures { result ≡ path_flags family 0 (items_left paths) }
{
    let mut flags = 0;
    let mut ahead = paths;
    'tuples: while let Some(tuple) = ahead.next() {
        if tuple.afi == family.afi_number() && tuple.safi == family.safi_number() {
            flags = tuple.flags;
        }
    }
    flags
}

/// Adds what capabilities say.
fn add_capabilities<R: AsOctets + Copy>(
    before: Advertised<R>,
    capabilities: Capabilities<R>,
) -> Advertised<R>
    ensures { (values : List Value) × AreValues (capabilities_left capabilities) values
        × (spoken_of result ≡ all_say (spoken_of before) values) }
{
    let mut spoken = before;
    let mut ahead = capabilities;
    'capabilities: while let Some(capability) = ahead.next() {
        spoken = spoken.also(capability.value());
    }
    spoken
}

/// Adds what a parameter says.
fn add_parameter<R: AsOctets + Copy>(
    before: Advertised<R>,
    value: ParameterValue<R>,
) -> Advertised<R>
    ensures { (values : List Value) × AreValues (said_capabilities (parameter_value_of value)) values
        × (spoken_of result ≡ all_say (spoken_of before) values) }
{
    match value {
        ParameterValue::Capabilities(capabilities) => add_capabilities(before, capabilities),
        ParameterValue::Opaque(_) => before,
    }
}

/// Returns what all parameters say.
fn advertised_by<R: AsOctets + Copy>(parameters: Parameters<R>) -> Advertised<R>
    ensures { (values : List Value) × SayAll (parameters_left parameters) values
        × (spoken_of result ≡ all_say none_advertised values) }
{
    let mut spoken = Advertised::none_advertised();
    let mut ahead = parameters;
    'parameters: while let Some(parameter) = ahead.next() {
        spoken = add_parameter(spoken, parameter.value());
    }
    spoken
}

impl SessionConfig {
    /// Returns how to read the messages that they send us, given our OPEN and theirs.
    pub fn negotiated<R: AsOctets + Copy, S: AsOctets + Copy>(
        ours: &OpenMessage<R>,
        theirs: &OpenMessage<S>,
    ) -> SessionConfig
        ensures { IsAgreed (parameters_left ours.now.parameters) (parameters_left theirs.now.parameters) result }
    {
        let we = advertised_by(ours.parameters);
        let they = advertised_by(theirs.parameters);
        SessionConfig {
            four_octet_asn: we.four_octet_asn && they.four_octet_asn,
            add_path: agreed_paths(&we, &they),
            extended_message: we.extended_message && they.extended_message,
        }
    }
}

/// Returns the families whose path ids we receive and they send.
fn agreed_paths<R: AsOctets + Copy, S: AsOctets + Copy>(
    ours: &Advertised<R>,
    theirs: &Advertised<S>,
) -> AddPath
    ensures { result ≡ paths_agreed (spoken_of ours.now) (spoken_of theirs.now) }
{
    let family = AfiSafiType::Ipv4Unicast;
    let ipv4_unicast = ours.agrees_on(theirs.path_flags(family), family);
    let family = AfiSafiType::Ipv4Multicast;
    let ipv4_multicast = ours.agrees_on(theirs.path_flags(family), family);
    let family = AfiSafiType::Ipv6Unicast;
    let ipv6_unicast = ours.agrees_on(theirs.path_flags(family), family);
    let family = AfiSafiType::Ipv6Multicast;
    let ipv6_multicast = ours.agrees_on(theirs.path_flags(family), family);
    AddPath {
        ipv4_unicast,
        ipv4_multicast,
        ipv6_unicast,
        ipv6_multicast,
    }
}
