//! What was appended is read back. Each law is the contract of a function that does nothing, so that the check demands
//! its proof.
ghost use Rattle.std.specs.Prelude.{◌≡◌, ℕ, ℤ, ◌<◌, ◌≤◌, ◌^◌, ◌++◌, List, length};
ghost use Rattle.octseq.specs.Integer.{be, le, signed, octets_be, octets_le, IsSigned, unsigned};
ghost use Rattle.octseq.specs.Part.{part_of, HasPart, part, past_part};
ghost use Rattle.octseq.specs.Window.{left, rest, next, past, window_after};

/// The octets of an integer, read from the place where they begin, have its value, and what follows them is left.
pub fn integers_are_read_back()
    ensures be { (front after : List ℕ) (k n : ℕ) → n < 256 ^ k
        → (k ≤ left (window_after front (octets_be k n ++ after)))
        × (be (next k (window_after front (octets_be k n ++ after))) ≡ n)
        × (rest (past k (window_after front (octets_be k n ++ after))) ≡ after) }
    ensures le { (front after : List ℕ) (k n : ℕ) → n < 256 ^ k
        → (k ≤ left (window_after front (octets_le k n ++ after)))
        × (le (next k (window_after front (octets_le k n ++ after))) ≡ n)
        × (rest (past k (window_after front (octets_le k n ++ after))) ≡ after) }
    ensures signed { (k : ℕ) (z : ℤ) → IsSigned k z
        → (unsigned k z < 256 ^ k) × (signed k (unsigned k z) ≡ z) }
{}

/// A part, read from the place where it begins, is whole and has its octets, and what follows it is left.
pub fn parts_are_read_back()
    ensures { (front octets after : List ℕ) (k : ℕ) → length octets < 256 ^ k
        → HasPart k (window_after front (part_of k octets ++ after))
        × (rest (part k (window_after front (part_of k octets ++ after))) ≡ octets)
        × (rest (past_part k (window_after front (part_of k octets ++ after))) ≡ after) }
{}
