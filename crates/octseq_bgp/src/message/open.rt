//! OPEN: RFC 4271, 4.2, and RFC 9072, 2.
ghost use Rattle.std.specs.Prelude.{◌≡◌, ◌+◌, ◌≤◌, ◌↔◌, ℕ, List, length, IsTrue, IsErr, IfOk};
ghost use Rattle.octseq.specs.Parser.{window};
ghost use Rattle.octseq.specs.Window.{Window, left};
ghost use Rattle.octseq_bgp.specs.Open as said;
ghost use Rattle.octseq_bgp.specs.Open.{IsOpen, IsLong, HasParameters};

use crate::message::parameter::Parameters;
use crate::whole::parse_all;
use octseq::{AsOctets, Malformed, Parser, Turns};
use octseq_format::{Counted, Nested, U8, U16Be, U32Be};

/// An OPEN.
#[derive(Debug, Drop)]
pub struct OpenMessage<R: AsOctets> {
    /// The version.
    pub version: u8,
    /// The two-octet AS number.
    pub my_asn: u16,
    /// The hold time in seconds.
    pub holdtime: u16,
    /// The BGP identifier.
    pub identifier: u32,
    /// The optional parameters.
    pub parameters: Parameters<R>,
}

/// The format of the fields before the parameters, and of all that follows.
type Front = (U8, U16Be, U16Be, U32Be, Nested);

/// The format of parameters in the long form: two octets, and octets with a length before them.
type LongPart = (U8, U8, Counted<U16Be, Nested, 0>);

/// Whether a nonzero length comes next, followed by the octet 255.
pub(crate) fn is_long<R: AsOctets + Copy>(parser: &Parser<R>) -> bool
    ensures { IsTrue result ↔ IsLong (window parser.now) }
{
    let mut ahead = *parser;
    match (ahead.parse_u8(), ahead.parse_u8()) {
        (Ok(length), Ok(mark)) => length > 0 && mark == 255,
        _ => false,
    }
}

impl<R: AsOctets + Copy> OpenMessage<R> {
    ghost use Rattle.octseq_bgp.specs.Lists.{parameters_left};
    ghost use Rattle.octseq_bgp.specs.Parsed.{open_of};

    /// Reads all that a parser has left as parameters, in the short or the long form.
    fn parse_parameters(parser: Parser<R>, turns: &mut Turns) -> Result<Parameters<R>, Malformed>
        ensures parameters { IfOk result (λ row. HasParameters (window parser) (parameters_left row)) }
        ensures malformed { IsErr result → (row : List (ℕ × Window)) → ¬ HasParameters (window parser) row }
        ensures some { turns.old ≤ turns.new }
        ensures least { IfOk result (λ row. turns.old + length (parameters_left row) ≤ turns.new) }
        ensures turns { turns.new ≤ turns.old + left (window parser) }
    {
        if is_long(&parser) {
            let (_length, _mark, inside) = parse_all::<R, LongPart>(parser)?;
            let parameters = Parameters::parse_counted(inside, true, turns)?;
            Ok(parameters)
        } else {
            let inside = parse_all::<R, Counted<U8, Nested, 0>>(parser)?;
            let parameters = Parameters::parse_counted(inside, false, turns)?;
            Ok(parameters)
        }
    }

    /// Reads all that a parser has left as an OPEN without its header, and counts a turn for each parameter.
    pub(crate) fn parse_counted(
        parser: Parser<R>,
        turns: &mut Turns,
    ) -> Result<OpenMessage<R>, Malformed>
        ensures is { IfOk result (λ it. IsOpen (window parser) (open_of it)) }
        ensures malformed { IsErr result → (it : said.Open) → ¬ IsOpen (window parser) it }
        ensures some { turns.old ≤ turns.new }
        ensures least { IfOk result (λ it. turns.old + length (parameters_left it.parameters) ≤ turns.new) }
        ensures turns { turns.new ≤ turns.old + left (window parser) }
    {
        let (version, my_asn, holdtime, identifier, rest) = parse_all::<R, Front>(parser)?;
        let parameters = OpenMessage::parse_parameters(rest, turns)?;
        Ok(OpenMessage {
            version,
            my_asn,
            holdtime,
            identifier,
            parameters,
        })
    }
}
