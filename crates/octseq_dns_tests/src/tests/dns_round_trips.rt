//! Messages with data of every type, read and rewritten: with compression pointers and without.
use crate::tests::unwrap;
use arrayvec::ArrayVec;
use octseq::builder::AsOctetsMut;
use octseq::octets::Octets;
use octseq::{AppendError, Array, OctetsBuilder, ShortBuf, Truncate};
use octseq_asserts::{assert_equal, assert_true};
use octseq_dns::{
    AuthorityBuilder, Compressor, Malformed, Message, MessageBuilder, Record, RewriteError, Target,
    can_move, rewrite,
};
use std::alloc::AllocGlobal;
use std::process::Abort;

/// A question for `example.com.` and ten answers, without pointers: A, NS, MX, CNAME, PTR, SOA, TXT, SRV, AAAA, and
/// data of type 99, which is unknown. The octets are laid out by hand: RFC 1035, 4.1.
pub(super) const PLAIN: &[u8] = b"\x12\x34\x84\0\0\x01\0\x0A\0\0\0\0\
\x07example\x03com\0\0\xFF\0\x01\
\x07example\x03com\0\0\x01\0\x01\0\0\x01\x2C\0\x04\x01\x02\x03\x04\
\x07example\x03com\0\0\x02\0\x01\0\0\x01\x2C\0\x10\x02ns\x07example\x03com\0\
\x07example\x03com\0\0\x0F\0\x01\0\0\x01\x2C\0\x14\0\x0A\x04mail\x07example\x03com\0\
\x03www\x07example\x03com\0\0\x05\0\x01\0\0\x01\x2C\0\x0D\x07example\x03com\0\
\x03www\x07example\x03com\0\0\x0C\0\x01\0\0\x01\x2C\0\x10\x02ns\x07example\x03com\0\
\x07example\x03com\0\0\x06\0\x01\0\0\x01\x2C\0\x37\x02ns\x07example\x03com\0\
\x05admin\x07example\x03com\0\0\0\0\x01\0\0\0\x02\0\0\0\x03\0\0\0\x04\0\0\0\x05\
\x07example\x03com\0\0\x10\0\x01\0\0\x01\x2C\0\x06\x02hi\x02yo\
\x07example\x03com\0\0\x21\0\x01\0\0\x01\x2C\0\x16\0\x01\0\x02\x01\xBB\x02ns\x07example\x03com\0\
\x07example\x03com\0\0\x1C\0\x01\0\0\x01\x2C\0\x10\x20\x01\x0D\xB8\0\0\0\0\0\0\0\0\0\0\0\x01\
\x07example\x03com\0\0\x63\0\x01\0\0\x01\x2C\0\x03\xC0\x0C\x01";

/// The same with pointers: `example.com.` is at 12, `ns` at 57, in the NS data, and `www` at 83. The name in the SRV
/// data is plain (RFC 2782), and unknown data is unchanged.
pub(super) const COMPRESSED: &[u8] = b"\x12\x34\x84\0\0\x01\0\x0A\0\0\0\0\
\x07example\x03com\0\0\xFF\0\x01\
\xC0\x0C\0\x01\0\x01\0\0\x01\x2C\0\x04\x01\x02\x03\x04\
\xC0\x0C\0\x02\0\x01\0\0\x01\x2C\0\x05\x02ns\xC0\x0C\
\xC0\x0C\0\x0F\0\x01\0\0\x01\x2C\0\x09\0\x0A\x04mail\xC0\x0C\
\x03www\xC0\x0C\0\x05\0\x01\0\0\x01\x2C\0\x02\xC0\x0C\
\xC0\x53\0\x0C\0\x01\0\0\x01\x2C\0\x02\xC0\x39\
\xC0\x0C\0\x06\0\x01\0\0\x01\x2C\0\x1E\xC0\x39\x05admin\xC0\x0C\
\0\0\0\x01\0\0\0\x02\0\0\0\x03\0\0\0\x04\0\0\0\x05\
\xC0\x0C\0\x10\0\x01\0\0\x01\x2C\0\x06\x02hi\x02yo\
\xC0\x0C\0\x21\0\x01\0\0\x01\x2C\0\x16\0\x01\0\x02\x01\xBB\x02ns\x07example\x03com\0\
\xC0\x0C\0\x1C\0\x01\0\0\x01\x2C\0\x10\x20\x01\x0D\xB8\0\0\0\0\0\0\0\0\0\0\0\x01\
\xC0\x0C\0\x63\0\x01\0\0\x01\x2C\0\x03\xC0\x0C\x01";

/// Checks that a message is rewritten as these octets.
fn is_rewritten<R: Octets + Copy, B: OctetsBuilder + Truncate + AsOctetsMut, T: Compressor>(
    rt: &impl Abort,
    octets: R,
    builder: B,
    table: T,
    wanted: &[u8],
) {
    let message = unwrap(rt, Message::parse(octets));
    let (written, _) = unwrap(rt, rewrite(&message, builder, table)).finish();
    assert_equal!(rt, written.as_ref(), wanted);
}

#[test]
fn names_are_compressed_anew(rt: HostRuntime) {
    let alloc = rt.alloc();
    is_rewritten(
        &rt,
        PLAIN,
        Array::<252>::new(),
        ArrayVec::<Target, 6>::new(),
        COMPRESSED,
    );
    is_rewritten(&rt, PLAIN, Vec::new(alloc), Vec::new(alloc), COMPRESSED);
    is_rewritten(
        &rt,
        COMPRESSED,
        Vec::new(alloc),
        ArrayVec::<Target, 32>::new(),
        COMPRESSED,
    );
}

#[test]
fn names_are_written_plain_anew(rt: HostRuntime) {
    let alloc = rt.alloc();
    is_rewritten(
        &rt,
        COMPRESSED,
        Array::<512>::new(),
        ArrayVec::<Target, 0>::new(),
        PLAIN,
    );
    is_rewritten(
        &rt,
        PLAIN,
        Vec::new(alloc),
        ArrayVec::<Target, 0>::new(),
        PLAIN,
    );
}

/// Rewrites a message, and returns the error, if there is one.
fn refusal<R: Octets + Copy, B: OctetsBuilder + Truncate + AsOctetsMut>(
    rt: &impl Abort,
    octets: R,
    builder: B,
) -> Option<RewriteError> {
    let message = unwrap(rt, Message::parse(octets));
    rewrite(&message, builder, ArrayVec::<Target, 6>::new()).err()
}

#[test]
fn a_message_that_passes_the_limit_is_refused(rt: HostRuntime) {
    let short = Some(RewriteError::Short(ShortBuf));
    assert_equal!(&rt, refusal(&rt, PLAIN, Array::<11>::new()), short);
    assert_equal!(&rt, refusal(&rt, PLAIN, Array::<28>::new()), short);
    assert_equal!(&rt, refusal(&rt, PLAIN, Array::<251>::new()), short);
    assert_equal!(&rt, refusal(&rt, PLAIN, Array::<252>::new()), None);
}

/// An answer of the root, of type NS, whose data is the front of a pointer. It can't be moved.
const IMMOVABLE: &[u8] = b"\0\0\0\0\0\0\0\x01\0\0\0\0\0\0\x02\0\x01\0\0\0\x3C\0\x01\xC0";

/// The same answer without data, which can be moved.
const EMPTY: &[u8] = b"\0\0\0\0\0\0\0\x01\0\0\0\0\0\0\x02\0\x01\0\0\0\x3C\0\0";

/// Whether a message can be moved.
fn moves<R: Octets + Copy>(rt: &impl Abort, octets: R) -> bool {
    can_move(&unwrap(rt, Message::parse(octets)))
}

#[test]
fn a_message_that_cant_be_moved_is_refused(rt: HostRuntime) {
    assert_true!(&rt, !moves(&rt, IMMOVABLE));
    let refused = refusal(&rt, IMMOVABLE, Array::<512>::new());
    assert_equal!(&rt, refused, Some(RewriteError::Immovable));
    assert_true!(&rt, moves(&rt, EMPTY));
    is_rewritten(
        &rt,
        EMPTY,
        Array::<512>::new(),
        ArrayVec::<Target, 0>::new(),
        EMPTY,
    );
}

/// Pushes a record that was read to the answers and then to the authorities of a new message.
fn in_two_sections<R: Octets + Copy, B: OctetsBuilder + Truncate + AsOctetsMut>(
    rt: &impl Abort,
    builder: B,
    entry: &Record<R>,
) -> AuthorityBuilder<B, ArrayVec<Target, 8>> {
    let (owner, data) = (entry.owner(), entry.data());
    let (class, ttl) = (entry.class(), entry.ttl());
    let message = unwrap(
        rt,
        MessageBuilder::from_builder(builder, ArrayVec::<Target, 8>::new()),
    );
    let mut answers = message.question().answer();
    unwrap(rt, answers.push_record(&owner, class, ttl, &data));
    let mut authorities = answers.authority();
    unwrap(rt, authorities.push_record(&owner, class, ttl, &data));
    authorities
}

/// Pushes a record that was read to each section of records of a new message in turn. Returns the octets, or the
/// refusal of the last push.
fn in_each_section<R: Octets + Copy, B: OctetsBuilder + Truncate + AsOctetsMut>(
    rt: &impl Abort,
    builder: B,
    entry: &Record<R>,
) -> Result<B, AppendError> {
    let mut additionals = in_two_sections(rt, builder, entry).additional();
    let (owner, data) = (entry.owner(), entry.data());
    additionals.push_record(&owner, entry.class(), entry.ttl(), &data)?;
    Ok(additionals.finish().0)
}

/// An MX record of `example.com.` in each section. The name of the exchange is in the first data, and the others point
/// to it.
const EXCHANGES: &[u8] = b"\0\0\0\0\0\0\0\x01\0\x01\0\x01\
\x07example\x03com\0\0\x0F\0\x01\0\0\x01\x2C\0\x09\0\x0A\x04mail\xC0\x0C\
\xC0\x0C\0\x0F\0\x01\0\0\x01\x2C\0\x04\0\x0A\xC0\x25\
\xC0\x0C\0\x0F\0\x01\0\0\x01\x2C\0\x04\0\x0A\xC0\x25";

/// Pushes the third answer, an MX record, to each section, and checks the octets.
fn is_pushed_to_each_section<R: Octets + Copy>(rt: &(impl Abort + AllocGlobal), octets: R) {
    let exchange = unwrap(
        rt,
        unwrap(rt, Message::parse(octets))
            .answers()
            .nth(2)
            .ok_or(Malformed),
    );
    let octets = unwrap(rt, in_each_section(rt, Array::<76>::new(), &exchange));
    assert_equal!(rt, octets.as_slice(), EXCHANGES);
    let octets = unwrap(rt, in_each_section(rt, Vec::new(rt.alloc()), &exchange));
    assert_equal!(rt, octets.as_slice(), EXCHANGES);
    let short = Some(AppendError::Short(ShortBuf));
    assert_equal!(
        rt,
        in_each_section(rt, Array::<75>::new(), &exchange).err(),
        short
    );
}

#[test]
fn a_record_is_pushed_to_each_section(rt: HostRuntime) {
    is_pushed_to_each_section(&rt, PLAIN);
}
