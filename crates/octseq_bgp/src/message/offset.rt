//! Where reading stops in octets that aren't a message.
ghost use Rattle.std.specs.Prelude.{◌≡◌, ℕ, List, length, IsNone, IfSome};
ghost use Rattle.octseq.specs.Parser.{window};
ghost use Rattle.octseq_bgp.specs.Message as said;
ghost use Rattle.octseq_bgp.specs.Message.{IsMessage};
ghost use Rattle.octseq_bgp.specs.Stop.{IsStop, OpenStop, ParametersStop, CountedStop, UpdateStop, ListsStop};
ghost use Rattle.octseq_bgp.specs.Stop.{FixedStop, LastStop, PrefixFault, PrefixFilled};
ghost use Rattle.octseq_bgp.specs.declared.session.SessionConfig.{SessionConfig as Session};

use crate::attribute::AttributeFormat;
use crate::family::AfiSafiType;
use crate::list::first_fault;
use crate::message::open::is_long;
use crate::message::parameter::{LongParameter, ShortParameter};
use crate::message::parse_header;
use crate::prefix::{PathPrefixFormat, PrefixFormat};
use crate::session::SessionConfig;
use crate::whole::parse_all;
use octseq::{AsOctets, Parser};
use octseq_format::integers::Be;
use octseq_format::widths::Width;
use octseq_format::{Counted, Format, Nested, U16Be, Yes};

/// Returns the position of the first fault in octets that aren't a message of the session. It is 0 if they don't begin
/// with a header of a known type whose length is the number of octets, and is allowed in the session. Otherwise it is a
/// position after the header:
///
/// - OPEN: 19 if there are fewer than ten octets; the position of the length of the parameters, short or long, if these
///   don't end with the message; otherwise that of the first invalid parameter.
/// - UPDATE: 19 if the length of the withdrawn routes, and that many octets, aren't there; the position of the length
///   of the attributes if it, and that many octets, aren't there; otherwise that of the first invalid withdrawn prefix,
///   then attribute, then announced prefix.
/// - NOTIFICATION: 19 if there are fewer than two octets. ROUTE-REFRESH: 19 if there are fewer than four.
/// - KEEPALIVE: 19 if anything follows.
///
/// For a message it is the position of its end.
pub fn fault_offset<R: AsOctets + Copy>(octets: R, session: SessionConfig) -> usize
    ensures { IsStop session (R.content octets) result }
{
    let Ok(header) = parse_header(octets, &session) else {
        return 0;
    };
    match header.kind {
        1 => offset_in_open(header.body),
        2 => offset_in_update(header.body, &session),
        3 => offset_after(header.body, 2),
        4 => header.body.pos(),
        5 => offset_after(header.body, 4),
        _ => 0,
    }
}

/// Returns the position of a parser if fewer than `len` octets are left, otherwise its end.
fn offset_after<R: AsOctets + Copy>(parser: Parser<R>, len: usize) -> usize
    ensures { FixedStop len (λ offset. offset ≡ (window parser).end) (window parser) result }
{
    if parser.remaining() < len {
        parser.pos()
    } else {
        parser.len()
    }
}

/// Returns the position where reading stops in an OPEN, without its header.
fn offset_in_open<R: AsOctets + Copy>(parser: Parser<R>) -> usize
    ensures { OpenStop (window parser) result }
{
    let mut ahead = parser;
    if ahead.advance(9).is_err() || ahead.remaining() == 0 {
        return parser.pos();
    }
    offset_in_parameters(ahead)
}

/// Returns the position where reading stops in parameters, short or long, with their length before them.
fn offset_in_parameters<R: AsOctets + Copy>(parser: Parser<R>) -> usize
    ensures { ParametersStop (window parser) result }
{
    let mut ahead = parser;
    if is_long(&parser) && ahead.advance(2).is_ok() {
        return offset_in_counted::<R, u16, LongParameter>(ahead);
    }
    offset_in_counted::<R, u8, ShortParameter>(parser)
}

/// Returns the position where reading stops in a list with its length before it.
fn offset_in_counted<
    R: AsOctets + Copy,
    L: Width,
    F: Format<R, SelfDelimiting = Yes, NonEmpty = Yes>,
>(parser: Parser<R>) -> usize
    ensures { CountedStop L.width F.is_at (window parser) result }
{
    match parse_all::<R, Counted<Be<L>, Nested, 0>>(parser) {
        Ok(inside) => offset_in_list::<R, F>(inside),
        Err(_) => parser.pos(),
    }
}

/// Returns the position of the first value of a list that isn't there, or the end of the parser.
fn offset_in_list<R: AsOctets + Copy, F: Format<R, SelfDelimiting = Yes, NonEmpty = Yes>>(
    parser: Parser<R>,
) -> usize
    ensures { LastStop F.is_at (window parser) result }
{
    match first_fault::<R, F>(parser) {
        Some(offset) => offset,
        None => parser.len(),
    }
}

/// The format of withdrawn routes and of path attributes: octets with a length before them.
type Part = Counted<U16Be, Nested, 0>;

/// Returns the position where reading stops in an UPDATE, without its header.
fn offset_in_update<R: AsOctets + Copy>(parser: Parser<R>, session: &SessionConfig) -> usize
    ensures { UpdateStop session.now (window parser) result }
{
    let mut ahead = parser;
    let Ok(withdrawn) = Part::parse(&mut ahead) else {
        return parser.pos();
    };
    let Ok(attributes) = Part::parse(&mut ahead) else {
        return ahead.pos();
    };
    offset_in_lists(withdrawn, attributes, ahead, session)
}

/// Returns the position of the first invalid part of the three lists of an UPDATE, or the end of the last list.
fn offset_in_lists<R: AsOctets + Copy>(
    withdrawn: Parser<R>,
    attributes: Parser<R>,
    announced: Parser<R>,
    session: &SessionConfig,
) -> usize
    ensures { ListsStop session.now (window withdrawn) (window attributes) (window announced) result }
{
    let paths = session.add_path.has(AfiSafiType::Ipv4Unicast);
    if let Some(offset) = prefix_fault(withdrawn, paths) {
        return offset;
    }
    if let Some(offset) = first_fault::<R, AttributeFormat>(attributes) {
        return offset;
    }
    match prefix_fault(announced, paths) {
        Some(offset) => offset,
        None => announced.len(),
    }
}

/// Returns the position of the first invalid IPv4 prefix, with or without a path id, or `None` if prefixes fill what a
/// parser has left.
fn prefix_fault<R: AsOctets + Copy>(parser: Parser<R>, paths: bool) -> Option<usize>
    ensures stops { IfSome result (λ offset. PrefixFault paths (window parser) offset) }
    ensures filled { IsNone result → PrefixFilled paths (window parser) }
{
    if paths {
        first_fault::<R, PathPrefixFormat<32>>(parser)
    } else {
        first_fault::<R, PrefixFormat<32>>(parser)
    }
}
