//! The pieces of a name: the root, labels and pointers.
ghost use Rattle.std.specs.Prelude.{◌≡◌, ◌≤◌, ℕ, List, [], ◌∷◌, IsErr, IfOk, IsNone, IfSome};
ghost use Rattle.octseq.specs.Parser.{sequence, window};
ghost use Rattle.octseq.specs.Window.{Window, rest};
ghost use Rattle.octseq_dns_name.specs.Name.{IsName, HasLabels};
ghost use Rattle.octseq_dns_name.specs.NextLabel.{NextLabel};
ghost use Rattle.octseq_dns_name.specs.OneName.{Ahead, Named};
ghost use Rattle.octseq_dns_name.specs.Piece.{Piece, HasPiece, piece, IsPlaced, IsLabelPiece, IsShortLabel};

use crate::error::Malformed;
use octseq::builder::infallible;
use octseq::{AsOctets, Parser};

/// A piece of a name.
#[derive(Drop)]
pub(crate) enum Step<R: AsOctets> {
    /// The root.
    Root,
    /// A label: a parser of its octets.
    Label(Parser<R>),
    /// A pointer: the offset where the name goes on.
    Pointer(usize),
}

/// Takes the next piece of a name. A pointer has to lead before `start`.
#[inline(always)]
pub(crate) fn next_step<R: AsOctets + Copy>(
    parser: &mut Parser<R>,
    start: usize,
) -> Result<Step<R>, Malformed>
    ensures step { IfOk result (λ step. HasPiece start (window parser.old) (piece step) (window parser.new)) }
    ensures label { IfOk result IsShortLabel }
    ensures place { IfOk result (IsPlaced (window parser.old)) }
    ensures malformed { IsErr result → (other : Piece) (v : Window)
        → ¬ HasPiece start (window parser.old) other v }
    ensures ordered { start ≤ (window parser.old).position → start ≤ (window parser.new).position }
    ensures same { sequence parser.new ≡ sequence parser.old }
{
    let first = parser.parse_u8()?;
    if first == 0 {
        return Ok(Step::Root);
    }
    if first <= 63 {
        return Ok(Step::Label(parser.parse_parser(usize::from(first))?));
    }
    if first < 192 {
        return Err(Malformed);
    }
    let second = parser.parse_u8()?;
    let to = usize::from(first - 192) * 256 + usize::from(second);
    if to >= start {
        return Err(Malformed);
    }
    Ok(Step::Pointer(to))
}

/// Takes the next label of a name that was read, and all pointers before it. The part of the name that is ahead began
/// at `start`.
#[inline(always)]
pub(crate) fn next_label<R: AsOctets + Copy>(
    parser: &mut Parser<R>,
    start: &mut usize,
) -> Option<Parser<R>>
    requires ordered { start.old ≤ (window parser.old).position }
    requires known { Ahead start.old (window parser.old) }
    ensures some { IfSome result (λ label. (labels : List (List ℕ)) (pointers : ℕ) (end : Window)
        → HasLabels start.old (window parser.old) labels pointers end
        → (more : List (List ℕ)) × (fewer : ℕ) × (last : Window)
        × (labels ≡ rest (window label) ∷ more) × HasLabels start.new (window parser.new) more fewer last) }
    ensures none { IsNone result → (labels : List (List ℕ)) (pointers : ℕ) (end : Window)
        → HasLabels start.old (window parser.old) labels pointers end → labels ≡ [] }
    ensures ordered { start.new ≤ (window parser.new).position }
    ensures short { IfSome result IsLabelPiece }
    ensures place { IfSome result (λ label.
        NextLabel start.old (window parser.old) (window label) start.new (window parser.new)) }
{
    'pointers: loop {
        match infallible(next_step(parser, *start)) {
            Step::Label(label) => return Some(label),
            Step::Pointer(to) => {
                infallible(parser.seek(to));
                *start = to;
            }
            Step::Root => return None,
        }
    }
}

/// Passes a name that was read, through the root or its first pointer, which it doesn't follow.
#[inline(always)]
pub(crate) fn skip_known<R: AsOctets + Copy>(parser: &mut Parser<R>)
    requires { Named (window parser.old) }
    ensures end { (labels : List (List ℕ)) (end : Window) → IsName (window parser.old) labels end
        → end ≡ window parser.new }
    ensures same { sequence parser.new ≡ sequence parser.old }
{
    let start = parser.pos();
    'labels: loop {
        match infallible(next_step(parser, start)) {
            Step::Label(_) => {}
            Step::Root => return,
            Step::Pointer(_) => return,
        }
    }
}
