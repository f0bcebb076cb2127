//! Values shown at the end of a text.
ghost use Rattle.std.specs.Prelude.{◌≡◌, ◌≢◌, ◌+◌, ◌++◌, None, true, length, decimal, IsErr, OnOk, OnErr};
ghost use Rattle.octseq.specs.Limit.{ExceedsLimit};
ghost use Rattle.octseq.specs.Refusal.{IsShort, IsMemory, display_error};

use octseq::str::DisplayError;
use octseq::{OctetsBuilder, StrBuilder, Truncate};
use std::fmt::{self, Write};

/// Appends a number in decimal, by a macro. It works for a text of any builder.
///
/// # Errors
///
/// `fmt::Error` if the text has no room for it all, or memory was refused. Then the text may end with a prefix of it.
pub fn write_number<B: OctetsBuilder>(text: &mut StrBuilder<B>, n: u32) -> fmt::Result
    ensures { OnOk result (B.content text.new ≡ B.content text.old ++ decimal n) }
{
    write!(text, "{n}")
}

/// Appends a number in decimal. On an error it appends nothing.
///
/// # Errors
///
/// `Short` if the text would exceed the limit of its type, and `Memory` if a request for memory was refused. The text
/// is then unchanged.
pub fn push_number<B: OctetsBuilder + Truncate>(
    text: &mut StrBuilder<B>,
    n: u32,
) -> Result<(), DisplayError>
    ensures ok { OnOk result (B.content text.new ≡ B.content text.old ++ decimal n) }
    ensures err { OnErr result (B.content text.new ≡ B.content text.old) }
    ensures short { IsShort display_error result → B.limit ≢ None }
    ensures past { ExceedsLimit B.limit (length (B.content text.old) + length (decimal n)) → IsErr result }
    ensures memory { IsMemory display_error result → B.asks ≡ true }
    ensures borrows { B.borrows text.new ≡ B.borrows text.old }
{
    text.try_push_display(n)
}
