//! The keys of service parameters: RFC 9460, 14.3.2.
ghost use Rattle.std.specs.Fmt.{WritesOnOk};
ghost use Rattle.octseq_dns_data.specs.SvcParamsText.{key_text};

use crate::mnemonic::write_named;
use std::fmt;

/// The keys that a client must know: RFC 9460, 8.
pub const MANDATORY: u16 = 0;
/// The protocols of the service: RFC 9460, 7.1.
pub const ALPN: u16 = 1;
/// No protocols but those listed: RFC 9460, 7.1.
pub const NO_DEFAULT_ALPN: u16 = 2;
/// The port of the service: RFC 9460, 7.2.
pub const PORT: u16 = 3;
/// IPv4 addresses of the target: RFC 9460, 7.3.
pub const IPV4HINT: u16 = 4;
/// The Encrypted Client Hello configuration.
pub const ECH: u16 = 5;
/// IPv6 addresses of the target: RFC 9460, 7.3.
pub const IPV6HINT: u16 = 6;

/// Keys by name.
static KEY_NAMES: [(u16, &str); 7] = [
    (MANDATORY, "mandatory"),
    (ALPN, "alpn"),
    (NO_DEFAULT_ALPN, "no-default-alpn"),
    (PORT, "port"),
    (IPV4HINT, "ipv4hint"),
    (ECH, "ech"),
    (IPV6HINT, "ipv6hint"),
];

/// Writes the name of a key, or `key` and its number.
#[tactic(auto, unfolding(crate::specs::SvcParamsText::key_text))]
pub(crate) fn write_key<W: fmt::Write>(f: &mut fmt::Formatter<W>, key: u16) -> fmt::Result
    ensures { WritesOnOk W.write_str_gives f.old result (key_text key) f.new }
{
    write_named(f, &KEY_NAMES, "key", key)
}
