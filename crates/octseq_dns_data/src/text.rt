//! The text of named numbers.
ghost use Rattle.std.specs.Prelude.{Some, codes};
ghost use Rattle.std.specs.Fmt.{decimal};
ghost use Rattle.std.specs.Net.Grammar.{Parses};
ghost use Rattle.octseq_dns_data.specs.Mnemonic.{class_text, rtype_text, ReadsClass, ReadsRtype};

use crate::iana::{CLASS_NAMES, Class, FromStrError, Opcode, RTYPE_NAMES, Rcode, Rtype};
use crate::mnemonic::{read_number, write_named};
use std::error::Error;
use std::fmt;
use std::str::FromStr;

/// Prints the mnemonic of the class, or `CLASS` and its number.
impl fmt::Display for Class {
    ghost output = { λ class. Some (class_text class) };

    #[tactic(auto, unfolding(crate::specs::Mnemonic::class_text))]
    fn fmt<W: fmt::Write>(&self, f: &mut fmt::Formatter<W>) -> fmt::Result {
        write_named(f, &CLASS_NAMES, "CLASS", self.to_int())
    }
}

/// Prints the mnemonic of the type, or `TYPE` and its number.
impl fmt::Display for Rtype {
    ghost output = { λ rtype. Some (rtype_text rtype) };

    #[tactic(auto, unfolding(crate::specs::Mnemonic::rtype_text))]
    fn fmt<W: fmt::Write>(&self, f: &mut fmt::Formatter<W>) -> fmt::Result {
        write_named(f, &RTYPE_NAMES, "TYPE", self.to_int())
    }
}

/// Parses the mnemonic of a class, or `CLASS` and its number, in letters of either case: RFC 3597, 5.
impl FromStr for Class {
    type Err = FromStrError;

    ghost from_str_gives = { Parses ReadsClass };

    #[tactic(auto, unfolding(crate::specs::Mnemonic::ReadsClass))]
    fn from_str(text: &str) -> Result<Self, FromStrError> {
        match read_number(&CLASS_NAMES, "CLASS", text) {
            Some(number) => Ok(Class::from_int(number)),
            None => Err(FromStrError),
        }
    }
}

/// Parses the mnemonic of a type, or `TYPE` and its number, in letters of either case: RFC 3597, 5.
impl FromStr for Rtype {
    type Err = FromStrError;

    ghost from_str_gives = { Parses ReadsRtype };

    #[tactic(auto, unfolding(crate::specs::Mnemonic::ReadsRtype))]
    fn from_str(text: &str) -> Result<Self, FromStrError> {
        match read_number(&RTYPE_NAMES, "TYPE", text) {
            Some(number) => Ok(Rtype::from_int(number)),
            None => Err(FromStrError),
        }
    }
}

impl Error for FromStrError {}

impl fmt::Display for FromStrError {
    ghost output = { λ _. Some (codes "unknown mnemonic") };

    fn fmt<W: fmt::Write>(&self, f: &mut fmt::Formatter<W>) -> fmt::Result {
        f.write_str("unknown mnemonic")
    }
}

/// Prints the number.
impl fmt::Display for Opcode {
    ghost output = { λ opcode. Some (decimal opcode) };

    fn fmt<W: fmt::Write>(&self, f: &mut fmt::Formatter<W>) -> fmt::Result {
        let number = self.to_int();
        write!(f, "{number}")
    }
}

/// Prints the number.
impl fmt::Display for Rcode {
    ghost output = { λ rcode. Some (decimal rcode) };

    fn fmt<W: fmt::Write>(&self, f: &mut fmt::Formatter<W>) -> fmt::Result {
        let number = self.to_int();
        write!(f, "{number}")
    }
}
