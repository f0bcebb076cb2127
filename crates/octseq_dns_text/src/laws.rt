//! What is shown of data is read back.
ghost use Rattle.std.specs.Prelude.{◌≡◌, ℕ, ◌^◌, ◌<◌, ◌≤◌, Option, List, [], ◌∷◌, length};
ghost use Rattle.std.specs.Fmt.{decimal};
ghost use Rattle.std.specs.List.{All, flat_map};
ghost use Rattle.std.specs.Net.Text.{ipv4_text};
ghost use Rattle.octseq.proofs.WrittenBack.{AreOctets};
ghost use Rattle.octseq.specs.Integer.{octets_be};
ghost use Rattle.octseq.specs.OctetsText.{hex_text, ipv6_address_text, opaque_text, string_text};
ghost use Rattle.octseq.specs.Window.{Window, rest};
ghost use Rattle.octseq_dns_data.specs.Data.{IsTypedData};
ghost use Rattle.octseq_dns_data.specs.Local.{IsLocal, form};
ghost use Rattle.octseq_dns_data.specs.Mnemonic.{rtype_text};
ghost use Rattle.octseq_dns_data.specs.RdataText.{rdata_text};
ghost use Rattle.octseq_dns_data.specs.Tag.{IsCaaTag};
ghost use Rattle.octseq_dns_data.specs.Typed.{ParsedRdata, salt_text};
ghost use Rattle.octseq_dns_name.specs.Name.{wire_length};
ghost use Rattle.octseq_dns_name.specs.Spelling.{AreOctetLabels};
ghost use Rattle.octseq_dns_name.specs.Text.{name_text};
ghost use Rattle.octseq_dns_name.specs.Wire.{wire, AreLabels};
ghost use Rattle.octseq_dns_scan.specs.Base32hex.{base32hex_text};
ghost use Rattle.octseq_dns_scan.specs.Base64.{base64_text, IsBase64Text};
ghost use Rattle.octseq_dns_scan.specs.Hex.{IsHexText};
ghost use Rattle.octseq_format.specs.Canonical.{IsSoundWindow};
ghost use Rattle.octseq_dns_text.specs.DataShown.{ShowsData, rdata_octets};
ghost use Rattle.octseq_dns_text.specs.Fields.{IsRtypeWord, IsNameWord, IsTagWord};
ghost use Rattle.octseq_dns_text.specs.Runs.{AreRuns};
ghost use Rattle.octseq_dns_text.specs.Scans.{AreSome};
ghost use Rattle.octseq_dns_text.specs.Tails.{IsLongString};
ghost use Rattle.octseq_dns_text.specs.Words.{
  IsNumeralWord,
  IsTimeWord,
  IsIpv6,
  IsCountedWord,
  IsStringWord,
  IsSomeBase32hex,
};
ghost use Rattle.octseq_dns_text.specs.Words.{IsSalt};
ghost use Rattle.octseq_dns_scan.specs.Address.{IsIpv4Word};

/// The text that is shown of a part of data is a word of it, so it is read back as that part.
///
/// It does nothing. Calling it brings the law into the caller's proof.
pub fn fields_are_read_as_shown()
    ensures number { (size n : ℕ) → size ≤ 4 → n < 256 ^ size → IsNumeralWord size (decimal n) (octets_be size n) }
    ensures rtype { (n : ℕ) → n < 65536 → IsRtypeWord (rtype_text n) (octets_be 2 n) }
    ensures time { (n : ℕ) → n < 2 ^ 32 → IsTimeWord (decimal n) (octets_be 4 n) }
    ensures ipv4 { (octets : List ℕ) → AreOctets octets → length octets ≡ 4 → IsIpv4Word (ipv4_text octets) octets }
    ensures ipv6 { (octets : List ℕ) → AreOctets octets → length octets ≡ 16
        → IsIpv6 (ipv6_address_text octets) octets }
    ensures name { (origin : Option (List (List ℕ))) (labels : List (List ℕ)) → AreOctetLabels labels
        → AreLabels labels → wire_length labels ≤ 255 → IsNameWord origin (name_text labels) (wire labels) }
    ensures string { (octets : List ℕ) → All (λ octet. octet < 256) octets → length octets ≤ 255
        → IsStringWord (string_text octets) (length octets ∷ octets) }
    ensures tag { (tag : List ℕ) → IsCaaTag tag → IsCountedWord IsTagWord tag (length tag ∷ tag) }
    ensures salt { (octets : List ℕ) → AreOctets octets → length octets ≤ 255
        → IsCountedWord IsSalt (salt_text octets) (length octets ∷ octets) }
    ensures hash { (octets : List ℕ) → AreOctets octets → 1 ≤ length octets → length octets ≤ 255
        → IsCountedWord IsSomeBase32hex (base32hex_text octets) (length octets ∷ octets) }
    ensures value { (octets : List ℕ) (least : ℕ) → All (λ octet. octet < 256) octets → least ≤ length octets
        → IsLongString least (string_text octets ∷ []) octets }
    ensures hex { (octets : List ℕ) → AreOctets octets
        → AreSome (AreRuns IsHexText) (flat_map hex_text octets ∷ []) octets }
    ensures base64 { (octets : List ℕ) → AreOctets octets
        → AreSome (AreRuns IsBase64Text) (base64_text octets ∷ []) octets }
{}

/// The text that is shown of data consists of words that are data of its type and class, and is read back as the octets
/// that the data says: data with the form of its type, and any octets that are shown as opaque data. Data that is read
/// without the message says its own octets.
///
/// It does nothing. Calling it brings the law into the caller's proof.
pub fn data_is_read_as_shown()
    ensures typed { (rtype class : ℕ) (w inside : Window) (rdata : ParsedRdata) → IsSoundWindow w → IsSoundWindow inside
        → IsTypedData rtype class w inside rdata → ShowsData rtype class (rdata_text rdata) (rdata_octets rdata) }
    ensures own { (rtype class k : ℕ) (inside : Window) (found : (form k).Found) → IsSoundWindow inside
        → IsLocal rtype class inside k found → rdata_octets (ParsedRdata.local k found) ≡ rest inside }
    ensures opaque { (rtype class : ℕ) (octets : List ℕ) → AreOctets octets → length octets ≤ 65535
        → ShowsData rtype class (opaque_text octets) octets }
{}
