//! How a program ends.
use std::alloc::AllocError;

/// How a program ended that wrote its output.
#[derive(Clone, Copy, Debug, PartialEq, Eq)]
pub enum Status {
    /// The input is valid.
    Fine,
    /// The command refused the input, and said why.
    Refused,
    /// There is no command of the given name.
    Usage,
}

/// The reason why a program failed.
#[derive(Clone, Copy, Debug, PartialEq, Eq)]
pub enum ProgramFault {
    /// A request for memory was refused.
    Memory,
    /// A read failed.
    Read,
    /// A write of the output failed, or of the help text.
    Write,
    /// The whole output was written, but a note on standard error couldn't be.
    Note,
}

impl From<AllocError> for ProgramFault {
    ghost use Rattle.std.specs.Prelude.{◌≡◌};
    ghost use Rattle.octseq_cli.specs.declared.status.ProgramFault.TheVariants.{Memory};

    ghost from_gives = { λ _ fault. fault ≡ Memory };

    fn from(_e: AllocError) -> ProgramFault {
        ProgramFault::Memory
    }
}
