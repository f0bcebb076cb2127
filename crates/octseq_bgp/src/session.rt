//! What two speakers agreed on. Octets alone don't say how messages are to be read.
ghost use Rattle.std.specs.Prelude.{◌≡◌, true, false};
ghost use Rattle.octseq_bgp.specs.Session.{adds_path};

mod negotiated;

use crate::family::AfiSafiType;

/// The families that have path ids before their prefixes: RFC 7911, 4.
#[derive(Clone, Copy, Debug, PartialEq, Eq)]
pub struct AddPath {
    /// IPv4 unicast.
    pub ipv4_unicast: bool,
    /// IPv4 multicast.
    pub ipv4_multicast: bool,
    /// IPv6 unicast.
    pub ipv6_unicast: bool,
    /// IPv6 multicast.
    pub ipv6_multicast: bool,
}

impl AddPath {
    /// Returns a value with every family, or none.
    pub fn all(has: bool) -> AddPath
        ensures { result
            ≡ record { ipv4_unicast = has; ipv4_multicast = has; ipv6_unicast = has; ipv6_multicast = has } }
    {
        AddPath {
            ipv4_unicast: has,
            ipv4_multicast: has,
            ipv6_unicast: has,
            ipv6_multicast: has,
        }
    }

    /// Whether a family has path ids.
    pub fn has(&self, family: AfiSafiType) -> bool
        ensures { result ≡ adds_path self.now family }
    {
        match family {
            AfiSafiType::Ipv4Unicast => self.ipv4_unicast,
            AfiSafiType::Ipv4Multicast => self.ipv4_multicast,
            AfiSafiType::Ipv6Unicast => self.ipv6_unicast,
            AfiSafiType::Ipv6Multicast => self.ipv6_multicast,
        }
    }
}

/// How the messages of a session are read.
#[derive(Clone, Copy, Debug, PartialEq, Eq)]
pub struct SessionConfig {
    /// Whether AS numbers have four octets: RFC 6793.
    pub four_octet_asn: bool,
    /// The families with path ids: RFC 7911.
    pub add_path: AddPath,
    /// Whether messages may have up to 65,535 octets: RFC 8654.
    pub extended_message: bool,
}

impl SessionConfig {
    /// Returns a session with four-octet AS numbers, no path ids, and messages of up to 4,096 octets.
    pub fn modern() -> SessionConfig
        ensures numbers { result.four_octet_asn ≡ true }
        ensures paths { result.add_path
            ≡ record { ipv4_unicast = false; ipv4_multicast = false; ipv6_unicast = false; ipv6_multicast = false } }
        ensures messages { result.extended_message ≡ false }
    {
        SessionConfig {
            four_octet_asn: true,
            add_path: AddPath::all(false),
            extended_message: false,
        }
    }

    /// Returns a session with two-octet AS numbers, no path ids, and messages of up to 4,096 octets.
    pub fn legacy() -> SessionConfig
        ensures numbers { result.four_octet_asn ≡ false }
        ensures paths { result.add_path
            ≡ record { ipv4_unicast = false; ipv4_multicast = false; ipv6_unicast = false; ipv6_multicast = false } }
        ensures messages { result.extended_message ≡ false }
    {
        SessionConfig {
            four_octet_asn: false,
            add_path: AddPath::all(false),
            extended_message: false,
        }
    }
}
