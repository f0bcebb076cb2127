//! Laws about windows and their runs. Each law is the contract of a function that does nothing, so that the check
//! demands its proof.
ghost use Rattle.std.specs.Prelude.{◌≡◌, ℕ, ◌≤◌, ◌++◌, Bool, List};
ghost use Rattle.octseq.specs.WindowReply.{WindowReply};
ghost use Rattle.octseq.specs.WindowRun.{IsWithoutMemory, WindowRun};
ghost use Rattle.octseq.specs.Window.{Window, left, rest, next, past};
ghost use Rattle.octseq.specs.declared.parse.commands.ParserCommand.{ParserCommand};

/// What a call takes, and what is left after it, are what was left before.
pub fn nothing_is_lost()
    ensures { (w : Window) (n : ℕ) → n ≤ left w → next n w ++ rest (past n w) ≡ rest w }
{}

/// If no reply is `Memory`, the replies are a function of the windows and the commands, however the octets are stored.
pub fn one_run()
    ensures { (asks others : Bool) (windows : List Window) (commands : List ParserCommand) (x y : List WindowReply)
        → WindowRun asks windows commands x → WindowRun others windows commands y
        → IsWithoutMemory x → IsWithoutMemory y → x ≡ y }
{}
