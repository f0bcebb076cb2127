//! Octets, split at an octet.
ghost use Rattle.std.specs.Prelude.{◌≡◌, ◌==◌, ◌<◌, length, option_copied, IfSome};
ghost use Rattle.std.specs.List.{position};
ghost use Rattle.octseq_dns_text.specs.Split.{split_after, octets_before};

/// Splits octets at the first octet that is `at`: what is before it, and what is after it. If there is none, all octets
/// are before it.
pub(crate) fn split_first(octets: &[u8], at: u8) -> (&[u8], Option<&[u8]>)
    ensures before { result.0.now ≡ octets_before at octets.now }
    ensures after { option_copied result.1 ≡ split_after at octets.now }
{
    match first_place(octets, at) {
        Some(i) => (&octets[..i], Some(&octets[i + 1..])),
        None => (octets, None),
    }
}

/// Returns the first place of an octet that is `at`.
fn first_place(octets: &[u8], at: u8) -> Option<usize>
    ensures place { result ≡ position (λ octet. octet == at) octets.now }
    ensures within { IfSome result (λ i. i < length octets.now) }
{
    octets.iter().position(|octet| *octet == at)
}
