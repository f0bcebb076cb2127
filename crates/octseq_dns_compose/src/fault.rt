//! Where texts are refused.
ghost use Rattle.std.specs.Prelude.{◌≡◌, ℕ, List};
ghost use Rattle.octseq_dns_compose.specs.MessageText.{IsAnyText};
ghost use Rattle.octseq_dns_compose.specs.TextLines.{IsLineFault};

/// A text that is that of no message has one place where it is refused as malformed.
///
/// It does nothing. Calling it brings the law into the caller's proof.
pub fn a_text_has_one_fault()
    ensures { (text : List ℕ) (first number offset line place : ℕ)
        → IsLineFault IsAnyText text first number offset → IsLineFault IsAnyText text first line place
        → (number ≡ line) × (offset ≡ place) }
{}
