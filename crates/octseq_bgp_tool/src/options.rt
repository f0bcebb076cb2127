//! How messages are to be read, by the words of a command.
ghost use Rattle.std.specs.Prelude.{◌≡◌};
ghost use Rattle.octseq_bgp_tool.specs.Words.{session_of, words_of};
ghost use Rattle.octseq_cli.specs.Run.{IsNamed};

use octseq_bgp::session::{AddPath, SessionConfig};

/// The options of a session, by the words after a command. Without any, AS numbers have four octets, there are no path
/// ids, and messages have at most 4,096 octets.
#[derive(Clone, Copy, Debug, PartialEq, Eq)]
pub struct Options {
    /// Two-octet AS numbers: `two-octet`.
    pub two_octet: bool,
    /// Path ids for all families: `add-path`.
    pub add_path: bool,
    /// Messages of up to 65,535 octets: `extended`.
    pub extended: bool,
}

impl Options {
    /// Parses options: in the order of the fields, each after a comma.
    pub fn named(words: &str) -> Option<Options>
        ensures { IsNamed words_of words.now result }
    {
        let (two_octet, add_path, extended) = match words {
            "" => (false, false, false),
            ",two-octet" => (true, false, false),
            ",add-path" => (false, true, false),
            ",extended" => (false, false, true),
            ",two-octet,add-path" => (true, true, false),
            ",two-octet,extended" => (true, false, true),
            ",add-path,extended" => (false, true, true),
            ",two-octet,add-path,extended" => (true, true, true),
            _ => return None,
        };
        Some(Options {
            two_octet,
            add_path,
            extended,
        })
    }

    /// Returns how messages are read by the options.
    pub fn session(self) -> SessionConfig
        ensures { result ≡ session_of self }
    {
        SessionConfig {
            four_octet_asn: !self.two_octet,
            add_path: AddPath::all(self.add_path),
            extended_message: self.extended,
        }
    }
}
