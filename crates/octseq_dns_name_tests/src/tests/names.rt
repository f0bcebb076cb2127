//! The text of domain names, and how they compare.
use crate::tests::{labels_text, shown, unwrap};
use octseq::{AppendError, Array, AsOctets, EmptyBuilder, Octets, Parser, ShortBuf};
use octseq_asserts::{Case, assert_equal, over_each};
use octseq_dns_name::error::{FromLabelsError, FromTextError};
use octseq_dns_name::{Name, ParsedName};
use std::alloc::{AllocGlobal, Global};
use std::cmp::Ordering;
use std::hash::{DefaultHasher, Hash, Hasher};
use std::process::Abort;

/// Reads the name at the front of octets.
fn name_of<'a>(rt: &impl Abort, octets: &'a [u8]) -> ParsedName<&'a [u8]> {
    unwrap(rt, ParsedName::parse(&mut Parser::from_ref(octets)))
}

#[test]
fn a_name_shows_with_escapes(rt: HostRuntime) {
    for (octets, text) in [
        (b"\x00".as_slice(), "."),
        (b"\x07example\x03com\x00", "example.com."),
        (
            b"\x05a.b\\\"\x04\x00 \x7F\xFF\x00",
            "a\\.b\\\\\\\".\\000\\032\\127\\255.",
        ),
        (b"\x08\"().;\\@$\x00", "\\\"\\(\\)\\.\\;\\\\\\@\\$."),
        (b"\x06!#/~%Z\x00", "!#/~%Z."),
        (b"\x04\x1F\x80\x99\xC8\x00", "\\031\\128\\153\\200."),
    ] {
        let name = name_of(&rt, octets);
        assert_equal!(&rt, shown(&rt, &name).as_str(), text);
    }
}

/// Compares two names, and tests whether they are equal.
fn compared(rt: &impl Abort, one: &[u8], other: &[u8]) -> (Ordering, bool) {
    let (name, other_name) = (name_of(rt, one), name_of(rt, other));
    (name.name_cmp(&other_name), name.name_eq(&other_name))
}

#[test]
fn names_have_the_canonical_order(rt: HostRuntime) {
    let names = [
        b"\x07example\x00".as_slice(),
        b"\x01a\x07example\x00",
        b"\x08yljkjljk\x01a\x07example\x00",
        b"\x01Z\x01a\x07example\x00",
        b"\x04zABC\x01a\x07EXAMPLE\x00",
        b"\x01z\x07example\x00",
        b"\x01\x01\x01z\x07example\x00",
        b"\x01*\x01z\x07example\x00",
        b"\x01\xC8\x01z\x07example\x00",
    ];
    for (place, one) in names.iter().enumerate() {
        for (other_offset, other) in names.iter().enumerate() {
            let wanted = (place.cmp(&other_offset), place == other_offset);
            assert_equal!(&rt, compared(&rt, one, other), wanted);
        }
    }
}

#[test]
fn ascii_letters_alone_have_two_cases(rt: HostRuntime) {
    for (one, other, wanted) in [
        (b"\x00".as_slice(), b"\x00".as_slice(), Ordering::Equal),
        (b"\x03wWw\x00", b"\x03WwW\x00", Ordering::Equal),
        (b"\x02AZ\x00", b"\x02az\x00", Ordering::Equal),
        (b"\x01@\x00", b"\x01`\x00", Ordering::Less),
        (b"\x01[\x00", b"\x01{\x00", Ordering::Less),
        (b"\x01\xC0\x00", b"\x01\xE0\x00", Ordering::Less),
        (b"\x02ab\x00", b"\x01a\x01b\x00", Ordering::Less),
        (b"\x01b\x00", b"\x02aa\x00", Ordering::Greater),
    ] {
        let equal = wanted == Ordering::Equal;
        assert_equal!(&rt, compared(&rt, one, other), (wanted, equal));
        assert_equal!(&rt, compared(&rt, other, one), (wanted.reverse(), equal));
    }
}

/// Returns the hash of a value.
fn hash_of<T: Hash>(value: &T) -> u64 {
    let mut hasher = DefaultHasher::new();
    value.hash(&mut hasher);
    hasher.finish()
}

/// Checks that two values are equal, and have equal hashes.
fn are_equal<T: Ord + Hash>(rt: &impl Abort, one: &T, other: &T) {
    assert_equal!(rt, one == other, true);
    assert_equal!(rt, one.cmp(other), Ordering::Equal);
    assert_equal!(rt, hash_of(one), hash_of(other));
}

/// Checks that the labels of two names are equal, and have equal hashes.
fn have_equal_labels<R: Octets + Copy>(
    rt: &impl Abort,
    name: &ParsedName<R>,
    same: &ParsedName<R>,
) {
    for (label, other_label) in name.labels().zip(same.labels()) {
        are_equal(rt, &label, &other_label);
    }
}

#[derive(Drop)]
struct IsOneName;

impl<H: Abort + AllocGlobal> Case<H> for IsOneName {
    fn holds<R: Octets + Copy>(&self, rt: &H, octets: R) {
        let mut parser = Parser::from_ref(octets);
        let name = unwrap(rt, ParsedName::parse(&mut parser));
        let same = unwrap(rt, ParsedName::parse(&mut parser));
        let other = unwrap(rt, ParsedName::parse(&mut parser));
        assert_equal!(rt, (name == same, name == other), (true, false));
        assert_equal!(
            rt,
            (name.cmp(&same), name.cmp(&other)),
            (Ordering::Equal, Ordering::Less)
        );
        assert_equal!(rt, (name < same, name < other), (false, true));
        assert_equal!(rt, hash_of(&name), hash_of(&same));
        have_equal_labels(rt, &name, &same);
        assert_equal!(rt, shown(rt, &name).as_str(), "wWw.A.");
    }
}

#[test]
fn names_of_one_message_compare(rt: HostRuntime) {
    unwrap(
        &rt,
        over_each(
            &rt,
            &IsOneName,
            b"\x03wWw\x01A\x00\x03WWW\x01a\x00\x01x\xC0\x04",
        ),
    );
}

/// Checks that a copy of a name has its octets in plain form.
fn has_its_octets<R: Octets + Copy>(rt: &(impl Abort + AllocGlobal), name: &ParsedName<R>) {
    let copy = unwrap(rt, name.try_to_name::<Vec<u8>>(rt.alloc()));
    assert_equal!(
        rt,
        (copy.len(), copy.label_count(), copy.labels().count()),
        (13, 2, 2)
    );
    assert_equal!(rt, copy.as_slice(), b"\x03www\x07example\x00".as_slice());
    assert_equal!(rt, copy.is_root(), false);
}

/// Checks that a copy of a name compares, is hashed and is shown as the name is.
fn is_as_the_name<R: Octets + Copy>(rt: &(impl Abort + AllocGlobal), name: &ParsedName<R>) {
    let copy = unwrap(rt, name.try_to_name::<Vec<u8>>(rt.alloc()));
    assert_equal!(rt, copy.parsed().name_eq(name), true);
    assert_equal!(rt, hash_of(&copy), hash_of(name));
    assert_equal!(rt, shown(rt, &copy).as_str(), "www.example.");
}

/// Checks that copies of two names compare as the names do.
fn is_before<R: Octets + Copy>(
    rt: &(impl Abort + AllocGlobal),
    first: &ParsedName<R>,
    name: &ParsedName<R>,
) {
    let first = unwrap(rt, first.try_to_name::<Vec<u8>>(rt.alloc()));
    let copy = unwrap(rt, name.try_to_name::<Vec<u8>>(rt.alloc()));
    assert_equal!(
        rt,
        (first == copy, first < copy, first.cmp(&first)),
        (false, true, Ordering::Equal)
    );
}

/// Checks that a copy of a name fits an array that has room for it, and no smaller one.
fn is_held<R: Octets + Copy>(rt: &(impl Abort + AllocGlobal), name: &ParsedName<R>) {
    let held = unwrap(rt, name.try_to_name::<Array<13>>(rt.alloc())).into_octets();
    assert_equal!(rt, held.as_slice(), b"\x03www\x07example\x00".as_slice());
    let refused = name.try_to_name::<Array<12>>(rt.alloc()).err();
    assert_equal!(rt, refused, Some(AppendError::Short(ShortBuf)));
}

/// Checks that a copy of the root is the root.
fn is_root<R: Octets + Copy>(rt: &(impl Abort + AllocGlobal), name: &ParsedName<R>) {
    let root = unwrap(rt, name.try_to_name::<Array<1>>(rt.alloc()));
    assert_equal!(rt, root.is_root(), true);
    assert_equal!(rt, shown(rt, &root).as_str(), ".");
}

#[derive(Drop)]
struct IsCopied;

impl<H: Abort + AllocGlobal> Case<H> for IsCopied {
    fn holds<R: Octets + Copy>(&self, rt: &H, octets: R) {
        let mut parser = Parser::from_ref(octets);
        is_root(rt, &unwrap(rt, ParsedName::parse(&mut parser)));
        let first = unwrap(rt, ParsedName::parse(&mut parser));
        let name = unwrap(rt, ParsedName::parse(&mut parser));
        has_its_octets(rt, &name);
        is_as_the_name(rt, &name);
        is_before(rt, &first, &name);
        is_held(rt, &name);
    }
}

#[test]
fn a_name_is_copied_with_its_octets(rt: HostRuntime) {
    unwrap(
        &rt,
        over_each(&rt, &IsCopied, b"\x00\x07example\x00\x03www\xC0\x01"),
    );
}

#[test]
fn a_name_is_read_from_its_text(rt: HostRuntime) {
    for (text, octets) in [
        (".", b"\x00".as_slice()),
        ("example.com.", b"\x07example\x03com\x00"),
        (
            "a\\.b\\\\\\\".\\000\\032\\127\\255.",
            b"\x05a.b\\\"\x04\x00 \x7F\xFF\x00",
        ),
        ("\\a\\-\\097A.", b"\x04a-aA\x00"),
    ] {
        let name = unwrap(&rt, Name::from_text(text));
        assert_equal!(&rt, name.as_slice(), octets);
    }
}

#[test]
fn a_text_that_spells_no_name_is_refused_by_reason(rt: HostRuntime) {
    for (text, reason) in [
        ("", FromTextError::UnexpectedEnd),
        ("a", FromTextError::UnexpectedEnd),
        ("a.b", FromTextError::UnexpectedEnd),
        ("\\.", FromTextError::UnexpectedEnd),
        ("..", FromTextError::EmptyLabel),
        (".a.", FromTextError::EmptyLabel),
        ("a..", FromTextError::EmptyLabel),
        ("a..\"", FromTextError::EmptyLabel),
        ("\\", FromTextError::IllegalEscape),
        ("\\1.", FromTextError::IllegalEscape),
        ("\\12.", FromTextError::IllegalEscape),
        ("\\1a2.", FromTextError::IllegalEscape),
        ("a\\256.", FromTextError::IllegalEscape),
        ("\\999..", FromTextError::IllegalEscape),
        ("a b.", FromTextError::IllegalOctet),
        ("a\".", FromTextError::IllegalOctet),
        ("a@b.\\", FromTextError::IllegalOctet),
        ("é.", FromTextError::IllegalOctet),
    ] {
        assert_equal!(&rt, Name::from_text(text).err(), Some(reason));
    }
}

#[test]
fn the_refusals_of_names_are_shown(rt: HostRuntime) {
    for (reason, text) in [
        (FromTextError::UnexpectedEnd, "unexpected end of input"),
        (FromTextError::EmptyLabel, "empty label"),
        (FromTextError::LongLabel, "long label"),
        (FromTextError::LongName, "long domain name"),
        (FromTextError::IllegalEscape, "illegal escape sequence"),
        (FromTextError::IllegalOctet, "illegal octet"),
    ] {
        assert_equal!(&rt, shown(&rt, &reason).as_str(), text);
    }
    for (reason, text) in [
        (FromLabelsError::EmptyLabel, "empty label"),
        (FromLabelsError::LongLabel, "long label"),
        (FromLabelsError::LongName, "long domain name"),
        (FromLabelsError::Short, "buffer size exceeded"),
        (FromLabelsError::Memory, "out of memory"),
    ] {
        assert_equal!(&rt, shown(&rt, &reason).as_str(), text);
    }
}

#[test]
fn the_text_of_a_name_has_its_limits(rt: HostRuntime) {
    for (first, last, reason) in [
        (63, 61, None),
        (63, 62, Some(FromTextError::LongName)),
        (64, 1, Some(FromTextError::LongLabel)),
        (1, 64, Some(FromTextError::LongLabel)),
        (63, 64, Some(FromTextError::LongLabel)),
    ] {
        let text = labels_text(&rt, &[63, 63, first, last]);
        assert_equal!(&rt, Name::from_text(text.as_str()).err(), reason);
    }
}

/// Returns the plain wire form of the name made from labels, in a builder of this type.
fn made_of<B: EmptyBuilder>(rt: &(impl Abort + AllocGlobal), labels: &[&[u8]]) -> Vec<u8> {
    let name = unwrap(rt, Name::<B>::from_labels(rt.alloc(), labels));
    unwrap(rt, name.into_octets().as_ref().to_vec(rt.alloc()))
}

#[test]
fn a_name_is_made_of_labels(rt: HostRuntime) {
    let labels: &[&[u8]] = &[b"www", b"a.\x00"];
    let wire = b"\x03www\x03a.\x00\x00".as_slice();
    assert_equal!(&rt, made_of::<Vec<u8>>(&rt, labels).as_slice(), wire);
    assert_equal!(&rt, made_of::<Array<255>>(&rt, labels).as_slice(), wire);
    assert_equal!(&rt, made_of::<Array<9>>(&rt, labels).as_slice(), wire);
    let root = made_of::<Array<1>>(&rt, &[]);
    assert_equal!(&rt, root.as_slice(), b"\x00".as_slice());
}

/// Returns why labels don't make a name in a builder of this type.
fn refusal_of<B: EmptyBuilder>(alloc: Global, labels: &[&[u8]]) -> Option<FromLabelsError> {
    Name::<B>::from_labels(alloc, labels).err()
}

#[test]
fn labels_that_make_no_name_are_refused_by_reason(rt: HostRuntime) {
    let alloc = rt.alloc();
    let long = [b'a'; 64];
    let long = &long[..];
    let (none, one, last, past, most) = (
        &long[..0],
        &long[..1],
        &long[..61],
        &long[..62],
        &long[..63],
    );
    let refusal = refusal_of::<Vec<u8>>(alloc, &[one, none, long]);
    assert_equal!(&rt, refusal, Some(FromLabelsError::EmptyLabel));
    let refusal = refusal_of::<Vec<u8>>(alloc, &[one, long, none]);
    assert_equal!(&rt, refusal, Some(FromLabelsError::LongLabel));
    let refusal = refusal_of::<Vec<u8>>(alloc, &[most, most, most, past, none]);
    assert_equal!(&rt, refusal, Some(FromLabelsError::LongName));
    let refusal = refusal_of::<Vec<u8>>(alloc, &[most, most, most, last]);
    assert_equal!(&rt, refusal, None);
    let refusal = refusal_of::<Array<4>>(alloc, &[b"www"]);
    assert_equal!(&rt, refusal, Some(FromLabelsError::Short));
    let refusal = refusal_of::<Array<5>>(alloc, &[b"www"]);
    assert_equal!(&rt, refusal, None);
}
