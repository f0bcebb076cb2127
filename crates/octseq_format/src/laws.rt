//! The laws of every format. Each law is the contract of a function that does nothing.
ghost use Rattle.std.specs.Prelude.{◌≡◌, ℕ, List, ◌++◌, length, map};
ghost use Rattle.std.specs.List.{AllByRecursion};
ghost use Rattle.octseq_format.specs.Canonical.{AreOctets};
ghost use Rattle.octseq_format.specs.Laws.{HasOctets};
ghost use Rattle.octseq_format.specs.Row.{row_octets};
ghost use Rattle.octseq_format.specs.Walk.{items_left};
ghost use Rattle.octseq.specs.Window.{Window, rest, past, whole};

use crate::answer::Yes;
use crate::format::Format;
use crate::rows::Repeated;
use crate::walk::Walk;
use octseq::AsOctets;

/// A slice holds octets.
pub fn are_octets(octets: &[u8])
    ensures { AreOctets octets.now }
{
    // A slice that is read is known to hold octets.
    let _octets = octets;
}

/// At most one value is at an offset, with one end.
pub fn one_reading<R: AsOctets + Copy, F: Format<R>>()
    ensures { (w : Window) (a b : F.Found) (u v : Window) → F.is_at w a u → F.is_at w b v → (a ≡ b) × (u ≡ v) }
{}

/// What was written is read back: all the octets of a value are read as that value.
pub fn whole_is_read_back<R: AsOctets + Copy, F: Format<R>>()
    ensures { (said : F.Said) → F.fits said → (found : F.Found) × (F.says found ≡ said)
        × F.is_at (whole (F.octets said)) found (past (length (F.octets said)) (whole (F.octets said))) }
{}

/// The same wherever the octets come next, whatever follows them, if the format shows where a value ends.
pub fn next_is_read_back<R: AsOctets + Copy, F: Format<R, SelfDelimiting = Yes>>()
    ensures { (w : Window) (said : F.Said) (more : List ℕ) → F.fits said → rest w ≡ F.octets said ++ more
        → (found : F.Found) × (F.says found ≡ said) × F.is_at w found (past (length (F.octets said)) w) }
{}

/// Reads octets that were composed of a value. It never fails, and what it reads says the same.
pub fn parse_composed<R: AsOctets + Copy, F: Format<R>>(octets: R, value: &F::Value) -> F::Value
    requires fit { HasOctets F.octets F.fits (F.says (F.found value.now)) }
    requires octets { R.content octets ≡ F.octets (F.says (F.found value.now)) }
    ensures { F.says (F.found result) ≡ F.says (F.found value.now) }
{
    match F::parse_whole(octets) {
        Ok(again) => again,
        Err(_) => unreachable!(),
    }
}

/// Reads octets that were composed of values, one after another, as [`append_all`](crate::append_all) does: a list that
/// wasn't read. It never fails, and what it reads says the same.
pub fn parse_all_composed<R: AsOctets + Copy, F: Format<R, SelfDelimiting = Yes, NonEmpty = Yes>>(
    octets: R,
    values: &[F::Value],
) -> Walk<R, F>
    requires fit { AllByRecursion F.fits (map (λ v. F.says (F.found v)) values.now) }
    requires octets { R.content octets ≡ row_octets F.octets (map (λ v. F.says (F.found v)) values.now) }
    ensures { map F.says (items_left result) ≡ map (λ v. F.says (F.found v)) values.now }
{
    match Repeated::<F>::parse_whole(octets) {
        Ok(again) => again,
        Err(_) => unreachable!(),
    }
}
