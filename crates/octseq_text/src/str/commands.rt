//! Lists of commands on a text.
ghost use Rattle.std.specs.Prelude.{◌≡◌, List, IfOk, OnErr};
ghost use Rattle.octseq_utf8.specs.Text.{chars};
ghost use Rattle.octseq_text.specs.TextRun.{append_reply, Cuts, TextStep, TextRun};

use super::builder::StrBuilder;
use octseq_core::builder::{AppendError, AsOctets, OctetsBuilder, OctetsLimit, Truncate};
use std::alloc::{AllocError, Global};

/// A command on a text.
#[derive(Clone, Copy)]
pub enum Command<'a> {
    /// Append a text.
    PushStr(&'a str),
    /// Append a character.
    Push(char),
    /// Keep this many octets, if that doesn't cut a character.
    Truncate(usize),
    /// Remove all characters.
    Clear,
    /// Remove the last character.
    Pop,
    /// Return the length in octets.
    Len,
    /// Return whether the text equals this one.
    Is(&'a str),
}

/// The reply to a [`Command`].
#[derive(Debug, PartialEq, Eq, Drop)]
pub enum Reply {
    /// It was done.
    Done,
    /// The text would have exceeded the limit of its type, and is unchanged.
    Short,
    /// A request for memory was refused, and the text is unchanged.
    Memory,
    /// The cut would have been within a character, and the text is unchanged.
    NoBoundary,
    /// The last character, or `None` if the text was empty.
    Popped(Option<char>),
    /// The length in octets.
    Len(usize),
    /// Whether the text equals the one in the command.
    Is(bool),
}

/// The reply for the result of an append.
fn reply_to(appended: Result<(), AppendError>) -> Reply
    ensures { result ≡ append_reply appended }
{
    match appended {
        Ok(()) => Reply::Done,
        Err(AppendError::Short(_)) => Reply::Short,
        Err(AppendError::Memory) => Reply::Memory,
    }
}

/// Cuts the text, if that doesn't cut a character.
fn truncate<B: OctetsBuilder + Truncate>(builder: &mut StrBuilder<B>, len: usize) -> Reply
    ensures step { Cuts (chars (B.content builder.old)) len result (chars (B.content builder.new)) }
    ensures borrows { B.borrows builder.new ≡ B.borrows builder.old }
{
    if len < StrBuilder::len(builder) && !builder.is_char_boundary(len) {
        return Reply::NoBoundary;
    }
    builder.truncate(len);
    Reply::Done
}

/// Carries out one command.
fn step<B: OctetsBuilder + Truncate>(builder: &mut StrBuilder<B>, command: &Command) -> Reply
    ensures step { TextStep B.limit B.asks (chars (B.content builder.old)) command.now result
        (chars (B.content builder.new)) }
    ensures borrows { B.borrows builder.new ≡ B.borrows builder.old }
{
    match *command {
        Command::PushStr(s) => reply_to(builder.try_push_str(s)),
        Command::Push(ch) => reply_to(builder.try_push(ch)),
        Command::Truncate(len) => truncate(builder, len),
        Command::Clear => {
            builder.clear();
            Reply::Done
        }
        Command::Pop => Reply::Popped(builder.pop()),
        Command::Len => Reply::Len(StrBuilder::len(builder)),
        Command::Is(s) => Reply::Is(builder.as_slice() == s.as_bytes()),
    }
}

/// Carries out the commands in order, with one reply for each. A refused command has its own reply, and the commands
/// after it are still carried out.
///
/// # Errors
///
/// `AllocError` if the memory for the replies was refused. The text is then unchanged.
pub fn run<B: OctetsBuilder + Truncate>(
    alloc: Global,
    builder: &mut StrBuilder<B>,
    commands: &[Command],
) -> Result<Vec<Reply>, AllocError>
    ensures run { IfOk result (λ replies. TextRun B.limit B.asks
        (chars (B.content builder.old)) commands.now replies.items (chars (B.content builder.new))) }
    ensures err { OnErr result (builder.new ≡ builder.old) }
    ensures borrows { B.borrows builder.new ≡ B.borrows builder.old }
{
    let mut replies = Vec::with_capacity(alloc, commands.len())?;
    for command in commands {
        replies.push(step(builder, command)).unwrap();
    }
    Ok(replies)
}
