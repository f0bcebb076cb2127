//! The codes of capabilities whose values are parsed.
ghost use Rattle.std.specs.Prelude.{◌≡◌, IfSome, IsNone};
ghost use Rattle.octseq_bgp.specs.CapabilityType.{code_number};
ghost use Rattle.octseq_bgp.specs.declared.capability.capability_type.CapabilityType.{CapabilityType as Code};

/// The code of a capability whose value is parsed.
#[derive(Clone, Copy, Debug, PartialEq, Eq)]
pub enum CapabilityType {
    /// Multiprotocol extensions: RFC 4760, 8.
    MultiProtocol,
    /// Route refresh: RFC 2918, 2.
    RouteRefresh,
    /// Extended messages: RFC 8654, 3.
    ExtendedMessage,
    /// Graceful restart: RFC 4724, 3.
    GracefulRestart,
    /// Four-octet AS numbers: RFC 6793, 3.
    FourOctetAsn,
    /// Additional paths: RFC 7911, 4.
    AddPath,
    /// Enhanced route refresh: RFC 7313, 3.1.
    EnhancedRouteRefresh,
}

impl CapabilityType {
    /// Returns the code of a number, or `None` if its values aren't parsed.
    pub fn from_number(number: u8) -> Option<CapabilityType>
        ensures some { IfSome result (λ it. code_number it ≡ number) }
        ensures none { IsNone result → (it : Code) → ¬ (code_number it ≡ number) }
    {
        match number {
            1 => Some(CapabilityType::MultiProtocol),
            2 => Some(CapabilityType::RouteRefresh),
            6 => Some(CapabilityType::ExtendedMessage),
            64 => Some(CapabilityType::GracefulRestart),
            65 => Some(CapabilityType::FourOctetAsn),
            69 => Some(CapabilityType::AddPath),
            70 => Some(CapabilityType::EnhancedRouteRefresh),
            _ => None,
        }
    }

    /// Returns the number.
    pub fn number(self) -> u8
        ensures { result ≡ code_number self }
    {
        match self {
            CapabilityType::MultiProtocol => 1,
            CapabilityType::RouteRefresh => 2,
            CapabilityType::ExtendedMessage => 6,
            CapabilityType::GracefulRestart => 64,
            CapabilityType::FourOctetAsn => 65,
            CapabilityType::AddPath => 69,
            CapabilityType::EnhancedRouteRefresh => 70,
        }
    }
}
