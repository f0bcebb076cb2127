//! Address families: RFC 4760, 5 and 6.
ghost use Rattle.std.specs.Prelude.{◌≡◌, IfSome, IsNone};
ghost use Rattle.octseq_bgp.specs.declared.family.AfiSafiType.{AfiSafiType as Family};

/// The family of an address.
#[derive(Clone, Copy, Debug, PartialEq, Eq)]
pub enum Afi {
    /// IPv4.
    Ipv4,
    /// IPv6.
    Ipv6,
}

/// An address family whose prefixes are parsed.
#[derive(Clone, Copy, Debug, PartialEq, Eq)]
pub enum AfiSafiType {
    /// IPv4 unicast.
    Ipv4Unicast,
    /// IPv4 multicast.
    Ipv4Multicast,
    /// IPv6 unicast.
    Ipv6Unicast,
    /// IPv6 multicast.
    Ipv6Multicast,
}

ghost use Rattle.octseq_bgp.specs.Family.{afi_number, safi_number, afi_of};

impl AfiSafiType {
    /// Returns the family of an AFI and a SAFI, or `None` if its prefixes aren't parsed.
    pub fn from_numbers(afi: u16, safi: u8) -> Option<AfiSafiType>
        ensures some { IfSome result (λ family. (afi_number family ≡ afi) × (safi_number family ≡ safi)) }
        ensures none { IsNone result → (family : Family) → afi_number family ≡ afi → ¬ (safi_number family ≡ safi) }
    {
        match (afi, safi) {
            (1, 1) => Some(AfiSafiType::Ipv4Unicast),
            (1, 2) => Some(AfiSafiType::Ipv4Multicast),
            (2, 1) => Some(AfiSafiType::Ipv6Unicast),
            (2, 2) => Some(AfiSafiType::Ipv6Multicast),
            _ => None,
        }
    }

    /// Returns the AFI.
    pub fn afi_number(self) -> u16
        ensures { result ≡ afi_number self }
    {
        match self {
            AfiSafiType::Ipv4Unicast | AfiSafiType::Ipv4Multicast => 1,
            AfiSafiType::Ipv6Unicast | AfiSafiType::Ipv6Multicast => 2,
        }
    }

    /// Returns the SAFI.
    pub fn safi_number(self) -> u8
        ensures { result ≡ safi_number self }
    {
        match self {
            AfiSafiType::Ipv4Unicast | AfiSafiType::Ipv6Unicast => 1,
            AfiSafiType::Ipv4Multicast | AfiSafiType::Ipv6Multicast => 2,
        }
    }

    /// Returns the family of the addresses.
    pub fn afi(self) -> Afi
        ensures { result ≡ afi_of self }
    {
        match self {
            AfiSafiType::Ipv4Unicast | AfiSafiType::Ipv4Multicast => Afi::Ipv4,
            AfiSafiType::Ipv6Unicast | AfiSafiType::Ipv6Multicast => Afi::Ipv6,
        }
    }
}
