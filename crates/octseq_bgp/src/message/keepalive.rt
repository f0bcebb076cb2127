//! KEEPALIVE: RFC 4271, 4.4.
ghost use Rattle.std.specs.Prelude.{◌≡◌};
ghost use Rattle.octseq_bgp.specs.WrittenMessage.{keepalive_octets};

/// Returns the octets of a KEEPALIVE.
pub fn keepalive_octets() -> [u8; 19]
    ensures { result ≡ keepalive_octets }
{
    [
        255, 255, 255, 255, 255, 255, 255, 255, 255, 255, 255, 255, 255, 255, 255, 255, 0, 19, 4,
    ]
}
