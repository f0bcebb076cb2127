//! The AS numbers of an AS path as rows of numbers: RFC 4271, 4.3.
ghost use Rattle.std.specs.Prelude.{◌≡◌, ◌≢◌, ◌↔◌, ◌⊎◌, ◌+◌, ◌*◌, ◌<◌, ◌≤◌, ◌^◌, ◌++◌, List, map, take, drop, length};
ghost use Rattle.std.specs.Prelude.{IfOk, OnErr};
ghost use Rattle.octseq.specs.Window.{whole};
ghost use Rattle.octseq_bgp.specs.Path.{segment_number};
ghost use Rattle.octseq_bgp.specs.PathOf.{asns_left, path_of, segment_of};
ghost use Rattle.octseq_bgp.specs.Value.{IsPath};
ghost use Rattle.octseq_c.specs.BgpPath.{AreHopsOf, IsAsPath, hops_of, path_room, row_of_asn, rows_of_segment};
ghost use Rattle.octseq_c.specs.BgpSession.{session_of};
ghost use Rattle.octseq_c.specs.Puts.{FillsPrefix, Puts};
ghost use Rattle.octseq_c.specs.Status.{status_ok, status_no_room, status_malformed};

use crate::bgp::session::session_of;
use crate::status::{MALFORMED, NO_ROOM, OK};
use octseq::{AsOctets, Malformed, Parser};
use octseq_bgp::attribute::{
    AsPath, Asns, AttributeValue, Flags, PathAttribute, Segment, SegmentType,
};

/// The type of the attribute AS_PATH.
const AS_PATH: u8 = 2;

/// An AS number of an AS path.
#[repr(C)]
#[derive(Clone, Copy)]
pub struct BgpHop {
    /// The AS number.
    pub asn: u32,
    /// The type of its segment: 1 for a set, 2 for a sequence, 3 for a sequence of a confederation, 4 for a set of one.
    pub kind: u16,
    /// How many AS numbers its segment has.
    pub count: u16,
}

/// Writes the AS numbers of the AS path that the octets are to the front of `out`.
#[unsafe(no_mangle)]
pub extern "C" fn octseq_bgp_as_path(
    octets: &[u8],
    session: u32,
    out: &mut [BgpHop],
    count: &mut usize,
) -> u32
    ensures puts { Puts (AreHopsOf (session_of session) octets.now) result out.old out.new count.new }
    ensures malformed { (result ≡ status_malformed) ↔ ¬ IsAsPath (session_of session) octets.now }
    ensures only { (result ≡ status_ok) ⊎ (result ≡ status_no_room) ⊎ (result ≡ status_malformed) }
    ensures kept { result ≢ status_ok → out.new ≡ out.old }
{
    put_hops(octets, session, out, count)
}

/// Writes the AS numbers of the AS path that the octets are to the front of `out`.
fn put_hops<R: AsOctets + Copy>(
    octets: R,
    session: u32,
    out: &mut [BgpHop],
    count: &mut usize,
) -> u32
    requires few { length (R.content octets) < 2 ^ 64 }
    ensures puts { Puts (AreHopsOf (session_of session) (R.content octets)) result out.old out.new count.new }
    ensures malformed { (result ≡ status_malformed) ↔ ¬ IsAsPath (session_of session) (R.content octets) }
    ensures only { (result ≡ status_ok) ⊎ (result ≡ status_no_room) ⊎ (result ≡ status_malformed) }
    ensures kept { result ≢ status_ok → out.new ≡ out.old }
{
    match parse_path(octets, session) {
        Ok(path) => {
            *count = hops_count(path);
            if *count > out.len() {
                return NO_ROOM;
            }
            fill_hops(out, path);
            OK
        }
        Err(Malformed) => {
            *count = 0;
            MALFORMED
        }
    }
}

/// Reads all the octets as an AS path of the session that flags describe.
///
/// # Errors
///
/// `Malformed` if they aren't one.
fn parse_path<R: AsOctets + Copy>(octets: R, session: u32) -> Result<AsPath<R>, Malformed>
    ensures path { IfOk result (λ path.
        IsPath (session_of session).four_octet_asn (whole (R.content octets)) (path_of path)) }
    ensures malformed { OnErr result (¬ IsAsPath (session_of session) (R.content octets)) }
{
    let attribute = PathAttribute {
        flags: Flags(0),
        type_code: AS_PATH,
        value: Parser::from_ref(octets),
        session: session_of(session),
    };
    match attribute.value() {
        AttributeValue::AsPath(path) => Ok(path),
        _ => Err(Malformed),
    }
}

/// Returns the number of AS numbers of a path.
fn hops_count<R: AsOctets + Copy>(path: AsPath<R>) -> usize
    requires { path_room (path_of path) < 2 ^ 64 }
    ensures { result ≡ length (hops_of (path_of path)) }
{
    let mut ahead = path;
    let mut count = 0;
    'segments: while let Some(segment) = ahead.next() {
        count += usize::from(segment.count);
    }
    count
}

/// Writes the AS numbers of a path to the front of a buffer that has room for them.
fn fill_hops<R: AsOctets + Copy>(out: &mut [BgpHop], path: AsPath<R>)
    requires { length (hops_of (path_of path)) ≤ length out.old }
    ensures { FillsPrefix (hops_of (path_of path)) out.old out.new }
{
    let mut ahead = path;
    let mut at = 0;
    'segments: while let Some(segment) = ahead.next() {
        at = fill_segment(out, at, &segment);
    }
}

/// Writes the AS numbers of a segment from an index on. Returns the index after them.
fn fill_segment<R: AsOctets + Copy>(out: &mut [BgpHop], from: usize, segment: &Segment<R>) -> usize
    requires { from + length (rows_of_segment segment.now.wide (segment_of segment.now)) ≤ length out.old }
    ensures end { result ≡ from + length (rows_of_segment segment.now.wide (segment_of segment.now)) }
    ensures out { out.new ≡ take from out.old
        ++ (rows_of_segment segment.now.wide (segment_of segment.now) ++ drop result out.old) }
{
    let kind = segment_number(segment.kind);
    fill_asns(out, from, kind, u16::from(segment.count), segment.asns())
}

/// Writes AS numbers from an index on, of a segment of a type and a count. Returns the index after them.
fn fill_asns<R: AsOctets + Copy>(
    out: &mut [BgpHop],
    from: usize,
    kind: u16,
    count: u16,
    asns: Asns<R>,
) -> usize
    requires { from + length (asns_left asns) ≤ length out.old }
    ensures end { result ≡ from + length (asns_left asns) }
    ensures out { out.new ≡ take from out.old ++ (map (row_of_asn kind count) (asns_left asns)
        ++ drop result out.old) }
{
    let mut at = from;
    for asn in asns {
        out[at] = BgpHop {
            asn: asn.0,
            kind,
            count,
        };
        at += 1;
    }
    at
}

/// Returns the number of a type of segments.
fn segment_number(kind: SegmentType) -> u16
    ensures { result ≡ segment_number kind }
{
    match kind {
        SegmentType::Set => 1,
        SegmentType::Sequence => 2,
        SegmentType::ConfedSequence => 3,
        SegmentType::ConfedSet => 4,
    }
}
