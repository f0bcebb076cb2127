//! Laws about texts: the replies to lists of commands don't depend on how a text is stored, and octets that come in
//! pieces settle in one way.
ghost use Rattle.std.specs.Prelude.{◌≡◌, ℕ, Bool, false, Option, List, ◌++◌};
ghost use Rattle.octseq_utf8.specs.Parts.{Part, Splits};
ghost use Rattle.octseq_text.specs.Pieces.{Settles};
ghost use Rattle.octseq_text.specs.TextRun.{TextRun, IsWithoutMemory};
ghost use Rattle.octseq_text.specs.declared.str.commands.Command.{Command};
ghost use Rattle.octseq_text.specs.declared.str.commands.Reply.{Reply};

/// Texts of the same characters and the same limit reply to a list of commands alike, however they are stored: if no
/// request for memory was refused, the replies and the characters afterwards are a function of the characters, the
/// limit and the commands. A type that requests no memory never replies that a request was refused.
///
/// The function does nothing. A caller that calls it has the law in its proof, and the [`Run`](super::run) of each
/// text.
pub fn one_run()
    ensures alike { (limit : Option ℕ) (asks other_asks : Bool) (before : List ℕ) (commands : List Command)
        (replies others : List Reply) (after other_after : List ℕ)
        → TextRun limit asks before commands replies after → TextRun limit other_asks before commands others other_after
        → IsWithoutMemory replies → IsWithoutMemory others → (replies ≡ others) × (after ≡ other_after) }
    ensures without_memory { (limit : Option ℕ) (before : List ℕ) (commands : List Command)
        (replies : List Reply) (after : List ℕ)
        → TextRun limit false before commands replies after → IsWithoutMemory replies }
{}

/// Octets have exactly one list of settled parts, and one open end. The settled parts are a front of all parts.
pub fn one_settling()
    ensures exists { (octets : List ℕ)
        → (settled : List Part) × (end : List ℕ) × Settles octets settled end }
    ensures only { (octets end last : List ℕ) (settled others : List Part)
        → Settles octets settled end → Settles octets others last
        → (settled ≡ others) × (end ≡ last) }
    ensures front { (octets end : List ℕ) (settled parts : List Part)
        → Settles octets settled end → Splits octets parts
        → (others : List Part) × (parts ≡ settled ++ others) }
{}
