//! How frames begin and end.
ghost use Rattle.std.specs.Prelude.{◌≡◌, ◌++◌, ◌<◌, ◌≤◌, ℕ, Bool, List, length, take, IfOk, IfSome, OnErr, Ok, None};
ghost use Rattle.std.specs.List.{AllByRecursion, flat_map};
ghost use Rattle.octseq.specs.Code.{HasFront, IsCode};
ghost use Rattle.octseq_stream.specs.Frames.{IsFramingHeader};

use octseq::Malformed;

/// How the frames of a format begin and end: a header of a fixed number of octets says how many octets follow it.
///
/// A value says what the octets alone don't, as what two speakers agreed on.
pub trait Framing: Drop {
    // the number of octets of a header
    ghost header: { ℕ };

    // whether a header is part of what a frame holds
    ghost is_kept: { Bool };

    // the octets that a frame holds
    ghost fits: { Self → List ℕ → Type 0 };

    // the octets of a frame in a stream, by those it holds
    ghost code: { Self → List ℕ → List ℕ };

    // the number of octets of a frame, by its header
    ghost size: { Self → List ℕ → ℕ };

    // octets with which no frame begins, whatever follows them
    ghost is_misframed: { Self → List ℕ → Type 0 };

    /// Returns the number of octets of a header.
    fn header_len() -> usize
        ensures { result ≡ header };

    /// Whether a header is part of what a frame holds.
    fn keeps_header() -> bool
        ensures { result ≡ is_kept };

    /// Returns how many octets follow a header, or `None` if it isn't whole. A part of a header is what an input ends
    /// with.
    ///
    /// # Errors
    ///
    /// `Malformed` if no frame begins with these octets, whatever follows them.
    fn parse_header(&self, octets: &[u8]) -> Result<Option<usize>, Malformed>
        requires { length octets.now ≤ header }
        ensures header { IfOk result (λ more. IfSome more (λ more.
            IsFramingHeader header is_kept (fits self.now) (code self.now) octets.now more)) }
        ensures part { result ≡ Ok None → (length octets.now < header) × ¬ is_misframed self.now octets.now }
        ensures malformed { OnErr result (is_misframed self.now octets.now) };

    ghost some: { 0 < header };

    // a frame has a header, which says how many octets the frame has
    ghost whole: { (f : Self) (octets : List ℕ) → fits f octets
        → (header ≤ length (code f octets)) × (length (code f octets) ≡ size f (take header (code f octets))) };

    // a frame holds its octets in one way
    ghost one: { (f : Self) (octets others : List ℕ) → fits f octets → fits f others → code f octets ≡ code f others
        → octets ≡ others };

    ghost begins_none: { (f : Self) (octets more : List ℕ) → is_misframed f octets
        → ¬ HasFront (fits f) (code f) (octets ++ more) };
}

/// At most one frame is at the front of octets.
///
/// It does nothing. Calling it brings the law into the caller's proof.
pub fn frames_are_apart<F: Framing>()
    ensures { (f : F) → IsCode (F.fits f) (F.code f) }
{}

/// Octets are one list of frames, followed by one rest that doesn't begin with a frame.
///
/// It does nothing. Calling it brings the law into the caller's proof.
pub fn one_stream<F: Framing>()
    ensures { (f : F) (frames others : List (List ℕ)) (more less : List ℕ) → AllByRecursion (F.fits f) frames
        → AllByRecursion (F.fits f) others → ¬ HasFront (F.fits f) (F.code f) more
        → ¬ HasFront (F.fits f) (F.code f) less
        → flat_map (F.code f) frames ++ more ≡ flat_map (F.code f) others ++ less
        → (frames ≡ others) × (more ≡ less) }
{}

/// No frame begins with misframed octets, whatever follows them.
///
/// It does nothing. Calling it brings the law into the caller's proof.
pub fn misframed_begins_none<F: Framing>()
    ensures { (f : F) (octets more : List ℕ) → F.is_misframed f octets
        → ¬ HasFront (F.fits f) (F.code f) (octets ++ more) }
{}
