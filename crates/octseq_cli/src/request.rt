//! What a program is asked to do.
ghost use Rattle.std.specs.Prelude.{◌≡◌, ℕ, ◌<◌, ◌≤◌, ◌∷◌, [], length, map, codes, string_bytes, List, None, IsSomeAnd};
ghost use Rattle.octseq_cli.specs.Run.{IsRequest, StandsAlone};

use crate::engine::Commands;

/// The words for help.
const HELP_WORDS: (&str, &str) = ("--help", "-h");

/// The word for the version.
const VERSION_WORD: &str = "--version";

/// The path that is standard input.
const STANDARD_INPUT: &str = "-";

/// What a program is asked to do by its first word.
#[derive(Clone, Copy, Debug, PartialEq, Eq)]
pub enum Request<C> {
    /// Run a command.
    Command(C),
    /// Write the help text.
    Help,
    /// Write the version.
    Version,
    /// The word is unknown.
    Unknown,
}

/// Returns what the word asks for.
pub fn parse_command<C: Commands>(word: &str) -> Request<C>
    ensures { IsRequest C.name_of word.now result }
{
    match C::named(word) {
        Some(command) => Request::Command(command),
        None if word == HELP_WORDS.0 || word == HELP_WORDS.1 => Request::Help,
        None if word == VERSION_WORD => Request::Version,
        None => Request::Unknown,
    }
}

/// Returns the word for the command: the program's first argument after its own name, or the default word if there is
/// none. A word for help or the version must be alone. If there are more words than a command and a file, or a second
/// word after one that must be alone, this is the empty word.
pub fn command_word<C: Commands>(args: &[String]) -> &str
    ensures none { length args.now ≤ 1 → result.now ≡ C.default_word }
    ensures one { (name word : List ℕ) → map string_bytes args.now ≡ name ∷ word ∷ [] → result.now ≡ word }
    ensures file { (name word path : List ℕ) → map string_bytes args.now ≡ name ∷ word ∷ path ∷ []
        → ¬ StandsAlone word → result.now ≡ word }
    ensures alone { (name word path : List ℕ) → map string_bytes args.now ≡ name ∷ word ∷ path ∷ []
        → StandsAlone word → result.now ≡ [] }
    ensures more { 3 < length args.now → result.now ≡ [] }
{
    match args {
        [] | [_] => C::default_word(),
        [_, word] => word.as_str(),
        [_, word, _] => unless_alone(word.as_str()),
        _ => "",
    }
}

/// Returns the word, or the empty word for one that must be alone.
fn unless_alone(word: &str) -> &str
    ensures other { ¬ StandsAlone word.now → result.now ≡ word.now }
    ensures alone { StandsAlone word.now → result.now ≡ [] }
{
    if word == HELP_WORDS.0 || word == HELP_WORDS.1 || word == VERSION_WORD {
        ""
    } else {
        word
    }
}

/// Returns the path of the file to read in place of standard input: the program's second argument after its own name,
/// if there are exactly two. The path `-` is standard input.
pub fn input_path(args: &[String]) -> Option<&str>
    ensures file { (name word path : List ℕ) → map string_bytes args.now ≡ name ∷ word ∷ path ∷ []
        → ¬ (path ≡ codes "-") → IsSomeAnd result (λ file. file.now ≡ path) }
    ensures dash { (name word : List ℕ) → map string_bytes args.now ≡ name ∷ word ∷ codes "-" ∷ [] → result ≡ None }
    ensures none { ¬ (length args.now ≡ 3) → result ≡ None }
{
    match args {
        [_, _, path] => unless_dash(path.as_str()),
        _ => None,
    }
}

/// Returns the path, or nothing for that of standard input.
fn unless_dash(path: &str) -> Option<&str>
    ensures other { ¬ (path.now ≡ codes "-") → IsSomeAnd result (λ file. file.now ≡ path.now) }
    ensures dash { path.now ≡ codes "-" → result ≡ None }
{
    if path == STANDARD_INPUT {
        None
    } else {
        Some(path)
    }
}
