//! Laws of compressed names. Each law is the contract of a function that does nothing: calling it brings the law into
//! the caller's proof.
ghost use Rattle.std.specs.Prelude.{◌≡◌, ◌+◌, ◌≤◌, ℕ, List, ◌++◌, length, drop};
ghost use Rattle.octseq.specs.Window.{at, whole};
ghost use Rattle.octseq_dns_compress.specs.Fits.{NameFits};
ghost use Rattle.octseq_dns_compress.specs.Names.{Names, name_octets};
ghost use Rattle.octseq_dns_compress.specs.LabelsThere.{AreNamed};
ghost use Rattle.octseq_dns_name.specs.Name.{IsName, wire_length};

/// A name that is written after a message is read as that name, label for label, whatever the header says and whatever
/// follows it, if each of the names that pointers may lead to is at its place.
pub fn a_compressed_name_is_read()
    ensures { (octets : List ℕ) (names : Names) (labels : List (List ℕ)) → 12 ≤ length octets
        → AreNamed octets names → NameFits labels → (header more : List ℕ) → length header ≡ 12
        → let all = header ++ (drop 12 (octets ++ name_octets names labels) ++ more) in
        IsName (at (length octets) (whole all)) labels
        (at (length octets + length (name_octets names labels)) (whole all)) }
{}

/// A name takes no more octets than without compression.
pub fn never_longer_than_plain()
    ensures { (names : Names) (labels : List (List ℕ)) → length (name_octets names labels) ≤ wire_length labels }
{}
