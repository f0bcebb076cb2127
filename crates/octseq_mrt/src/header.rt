//! The header of a record: RFC 6396, 2.
ghost use Rattle.std.specs.Prelude.{IsErr, IfOk};
ghost use Rattle.octseq.specs.Parser.{window};
ghost use Rattle.octseq_format.specs.Laws.{NoneAt};

use octseq::{AsOctets, Malformed, Parser};
use octseq_format::{Format, U16Be, U32Be};

/// The header of a record.
#[derive(Clone, Copy, Debug, PartialEq, Eq)]
pub struct CommonHeader {
    /// The time of the record, in seconds since 1970.
    pub timestamp: u32,
    /// The type number.
    pub type_code: u16,
    /// The subtype number.
    pub subtype: u16,
    /// The number of octets after the header.
    pub length: u32,
}

impl CommonHeader {
    /// The number of octets of a header.
    pub const LEN: usize = 12;

    ghost use Rattle.octseq_mrt.specs.Header.{IsHeader};

    /// Reads the next header.
    ///
    /// # Errors
    ///
    /// `Malformed` if fewer than 12 octets are left.
    pub fn parse<R: AsOctets + Copy>(parser: &mut Parser<R>) -> Result<CommonHeader, Malformed>
        ensures header { IfOk result (λ header. IsHeader (window parser.old) header (window parser.new)) }
        ensures malformed { IsErr result → NoneAt IsHeader (window parser.old) }
    {
        let (timestamp, type_code, subtype, length) = <(U32Be, U16Be, U16Be, U32Be) as Format<
            R,
        >>::parse(parser)?;
        Ok(CommonHeader {
            timestamp,
            type_code,
            subtype,
            length,
        })
    }
}
