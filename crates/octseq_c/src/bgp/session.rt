//! The session of BGP messages, as flags.
ghost use Rattle.std.specs.Prelude.{◌≡◌, ◌≤◌};
ghost use Rattle.octseq_c.specs.BgpSession.{session_flags, is_set, session_of, weight_of};

use octseq_bgp::session::{AddPath, SessionConfig};

/// AS numbers have two octets: RFC 4271, 4.3.
const TWO_OCTET_ASN: u32 = 1;

/// Messages may have up to 65,535 octets: RFC 8654.
const EXTENDED_MESSAGE: u32 = 2;

/// Prefixes of IPv4 unicast have path ids: RFC 7911.
const ADD_PATH_IPV4_UNICAST: u32 = 4;

/// Prefixes of IPv4 multicast have them.
const ADD_PATH_IPV4_MULTICAST: u32 = 8;

/// Prefixes of IPv6 unicast have them.
const ADD_PATH_IPV6_UNICAST: u32 = 16;

/// Prefixes of IPv6 multicast have them.
const ADD_PATH_IPV6_MULTICAST: u32 = 32;

/// Whether the flag of a weight is set.
fn is_set(weight: u32, flags: u32) -> bool
    requires { 1 ≤ weight }
    ensures { result ≡ is_set weight flags }
{
    flags / weight % 2 == 1
}

/// Returns the session that flags describe.
pub fn session_of(flags: u32) -> SessionConfig
    ensures { result ≡ session_of flags }
{
    SessionConfig {
        four_octet_asn: !is_set(TWO_OCTET_ASN, flags),
        add_path: AddPath {
            ipv4_unicast: is_set(ADD_PATH_IPV4_UNICAST, flags),
            ipv4_multicast: is_set(ADD_PATH_IPV4_MULTICAST, flags),
            ipv6_unicast: is_set(ADD_PATH_IPV6_UNICAST, flags),
            ipv6_multicast: is_set(ADD_PATH_IPV6_MULTICAST, flags),
        },
        extended_message: is_set(EXTENDED_MESSAGE, flags),
    }
}

/// Returns `weight` if a flag is set, otherwise 0.
fn weight_of(set: bool, weight: u32) -> u32
    ensures value { result ≡ weight_of set weight }
    ensures most { result ≤ weight }
{
    if set { weight } else { 0 }
}

/// Returns the flags of a session.
pub fn flags_of(session: &SessionConfig) -> u32
    ensures { result ≡ session_flags session.now }
{
    let paths = session.add_path;
    let width = weight_of(!session.four_octet_asn, TWO_OCTET_ASN);
    let size = weight_of(session.extended_message, EXTENDED_MESSAGE);
    let ipv4 = weight_of(paths.ipv4_unicast, ADD_PATH_IPV4_UNICAST)
        + weight_of(paths.ipv4_multicast, ADD_PATH_IPV4_MULTICAST);
    let ipv6 = weight_of(paths.ipv6_unicast, ADD_PATH_IPV6_UNICAST)
        + weight_of(paths.ipv6_multicast, ADD_PATH_IPV6_MULTICAST);
    width + size + ipv4 + ipv6
}
