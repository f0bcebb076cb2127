//! Relations between domain names: parents, suffixes, first and last labels, and texts with an origin.
use crate::tests::{labels_text, shown, unwrap};
use octseq::{Array, AsOctets, Octets, Parser};
use octseq_asserts::{Case, assert_equal, over_each};
use octseq_dns_name::error::FromTextError;
use octseq_dns_name::{Name, ParsedName};
use std::alloc::AllocGlobal;
use std::process::Abort;

/// Reads the name at an offset of a message.
fn name_at<R: Octets + Copy>(rt: &impl Abort, octets: R, place: usize) -> ParsedName<R> {
    let mut parser = Parser::from_ref(octets);
    unwrap(rt, parser.seek(place));
    unwrap(rt, ParsedName::parse(&mut parser))
}

/// `WWW.example.COM.` at 16, by pointers; `example.COM.` at 6, `COM.` at 1, the root at 0, and pointers alone at 22 and
/// 24.
const MESSAGE: &[u8] = b"\x00\x03COM\x00\x07example\xC0\x01\x03WWW\xC0\x06\xC0\x10\xC0\x00";

/// Checks that a name has a parent of this text, or none.
fn has_parent<R: Octets + Copy>(
    rt: &(impl Abort + AllocGlobal),
    name: &ParsedName<R>,
    text: Option<&str>,
) {
    match name.parent() {
        Some(parent) => {
            assert_equal!(rt, Some(shown(rt, &parent).as_str()), text);
            assert_equal!(rt, parent.len() < name.len(), true);
        }
        None => assert_equal!(rt, None, text),
    }
}

/// Returns the offset of the parent of the name at an offset.
fn parent_place<R: Octets + Copy>(rt: &impl Abort, octets: R, place: usize) -> Option<usize> {
    let parent = name_at(rt, octets, place).parent()?;
    Some(parent.parser().pos())
}

/// Checks that a name has suffixes of these texts.
fn has_suffixes<R: Octets + Copy>(
    rt: &(impl Abort + AllocGlobal),
    name: &ParsedName<R>,
    texts: &[&str],
) {
    assert_equal!(rt, name.iter_suffixes().count(), texts.len());
    for (suffix, text) in name.iter_suffixes().zip(texts) {
        assert_equal!(rt, shown(rt, &suffix).as_str(), *text);
    }
}

#[derive(Drop)]
struct HasParents;

impl<H: Abort + AllocGlobal> Case<H> for HasParents {
    fn holds<R: Octets + Copy>(&self, rt: &H, octets: R) {
        has_parent(rt, &name_at(rt, octets, 16), Some("example.COM."));
        has_parent(rt, &name_at(rt, octets, 22), Some("example.COM."));
        has_parent(rt, &name_at(rt, octets, 6), Some("COM."));
        has_parent(rt, &name_at(rt, octets, 1), Some("."));
        has_parent(rt, &name_at(rt, octets, 0), None);
        has_parent(rt, &name_at(rt, octets, 24), None);
    }
}

#[test]
fn a_parent_is_without_the_first_label(rt: HostRuntime) {
    unwrap(&rt, over_each(&rt, &HasParents, MESSAGE));
}

#[test]
fn a_parent_is_where_the_first_label_ends(rt: HostRuntime) {
    for (place, wanted) in [
        (0, None),
        (1, Some(5)),
        (6, Some(14)),
        (16, Some(20)),
        (22, Some(20)),
        (24, None),
    ] {
        assert_equal!(&rt, parent_place(&rt, MESSAGE, place), wanted);
    }
}

#[test]
fn a_parent_is_after_127_pointers_at_most(rt: HostRuntime) {
    let mut octets = unwrap(&rt, b"\x01a\x00\xC0\x00".to_vec(rt.alloc()));
    for count in 0..126u16 {
        for octet in (0xC003 + 2 * count).to_be_bytes() {
            unwrap(&rt, octets.push(octet));
        }
    }
    let octets = octets.as_slice();
    assert_equal!(&rt, octets.len(), 257);
    assert_equal!(&rt, parent_place(&rt, octets, 255), Some(2));
    assert_equal!(&rt, name_at(&rt, octets, 255).iter_suffixes().count(), 2);
}

#[derive(Drop)]
struct HasSuffixes;

impl<H: Abort + AllocGlobal> Case<H> for HasSuffixes {
    fn holds<R: Octets + Copy>(&self, rt: &H, octets: R) {
        let all: &[&str] = &["WWW.example.COM.", "example.COM.", "COM.", "."];
        has_suffixes(rt, &name_at(rt, octets, 16), all);
        has_suffixes(rt, &name_at(rt, octets, 22), all);
        has_suffixes(rt, &name_at(rt, octets, 24), &["."]);
    }
}

#[test]
fn suffixes_go_on_to_the_root(rt: HostRuntime) {
    unwrap(&rt, over_each(&rt, &HasSuffixes, MESSAGE));
}

/// Whether a name ends with another one, and whether it begins with it.
fn relation<R: Octets + Copy, S: Octets + Copy>(
    name: &ParsedName<R>,
    base: &ParsedName<S>,
) -> (bool, bool) {
    (name.ends_with(base), name.starts_with(base))
}

/// Whether a name of its own ends with another one, and whether it begins with it.
fn own_relation<B: AsOctets, R: Octets + Copy>(
    name: &Name<B>,
    base: &ParsedName<R>,
) -> (bool, bool) {
    (name.ends_with(base), name.starts_with(base))
}

/// Whether a name ends with the name that a text spells, and whether it begins with it.
fn relation_of<R: Octets + Copy>(
    rt: &impl Abort,
    name: &ParsedName<R>,
    text: &str,
) -> (bool, bool) {
    let base = unwrap(rt, Name::from_text(text));
    relation(name, &base.parsed())
}

#[derive(Drop)]
struct IsRelated;

impl<H: Abort + AllocGlobal> Case<H> for IsRelated {
    fn holds<R: Octets + Copy>(&self, rt: &H, octets: R) {
        let name = name_at(rt, octets, 22);
        for (text, wanted) in [
            (".", (true, true)),
            ("com.", (true, false)),
            ("EXAMPLE.com.", (true, false)),
            ("www.Example.Com.", (true, true)),
            ("www.", (false, true)),
            ("wWw.eXample.", (false, true)),
            ("example.", (false, false)),
            ("ww.", (false, false)),
            ("om.", (false, false)),
            ("wwww.example.com.", (false, false)),
            ("www.www.example.com.", (false, false)),
            ("www.example.com.com.", (false, false)),
        ] {
            assert_equal!(rt, relation_of(rt, &name, text), wanted);
        }
        assert_equal!(
            rt,
            relation_of(rt, &name_at(rt, octets, 0), "."),
            (true, true)
        );
        assert_equal!(
            rt,
            relation_of(rt, &name_at(rt, octets, 0), "com."),
            (false, false)
        );
    }
}

#[test]
fn names_end_and_begin_with_others(rt: HostRuntime) {
    unwrap(&rt, over_each(&rt, &IsRelated, MESSAGE));
}

#[test]
fn a_name_of_its_own_has_relatives_too(rt: HostRuntime) {
    let name = unwrap(&rt, Name::from_text("www.example.com."));
    let parent = unwrap(&rt, name.parent().ok_or("no parent"));
    assert_equal!(&rt, shown(&rt, &parent).as_str(), "example.com.");
    assert_equal!(
        &rt,
        unwrap(&rt, Name::from_text(".")).parent().is_none(),
        true
    );
    assert_equal!(&rt, name.iter_suffixes().count(), 4);
    let (message, first) = (name_at(&rt, MESSAGE, 6), name_at(&rt, MESSAGE, 16));
    assert_equal!(&rt, own_relation(&name, &message), (true, false));
    assert_equal!(&rt, own_relation(&name, &first), (true, true));
    has_a_copy_with_relatives(&rt, &message, &first);
}

/// Checks the relatives of a copy of `example.COM.`, which doesn't begin with a longer name.
fn has_a_copy_with_relatives<R: Octets + Copy>(
    rt: &(impl Abort + AllocGlobal),
    name: &ParsedName<R>,
    longer: &ParsedName<R>,
) {
    let copy = unwrap(rt, name.try_to_name::<Vec<u8>>(rt.alloc()));
    assert_equal!(rt, copy.ends_with(name), true);
    assert_equal!(rt, copy.starts_with(longer), false);
    assert_equal!(rt, copy.parent().is_some(), true);
    assert_equal!(rt, copy.iter_suffixes().count(), 3);
}

/// Returns the name of labels of these lengths.
fn name_of(rt: &(impl Abort + AllocGlobal), lengths: &[usize]) -> Name<Array<255>> {
    let text = labels_text(rt, lengths);
    unwrap(rt, Name::from_text(text.as_str()))
}

#[test]
fn a_name_has_127_parents_at_most(rt: HostRuntime) {
    let name = name_of(&rt, &[1; 127]);
    assert_equal!(&rt, (name.len(), name.label_count()), (255, 127));
    assert_equal!(&rt, name.iter_suffixes().count(), 128);
    for (suffix, count) in name.iter_suffixes().zip((0..128).rev()) {
        assert_equal!(&rt, suffix.label_count(), count);
        assert_equal!(&rt, name.ends_with(&suffix), true);
    }
}

#[test]
fn a_name_of_255_octets_has_relatives(rt: HostRuntime) {
    let alloc = rt.alloc();
    let name = name_of(&rt, &[63, 63, 63, 61]);
    let parent = unwrap(&rt, name.parent().ok_or("no parent"));
    assert_equal!(&rt, (name.len(), parent.len()), (255, 191));
    assert_equal!(&rt, own_relation(&name, &parent), (true, false));
    let front = name_of(&rt, &[63, 63, 63]);
    assert_equal!(&rt, own_relation(&name, &front.parsed()), (false, true));
}

/// Returns the text of the name that a text spells with an origin, or why it doesn't spell one.
fn with_origin<R: Octets + Copy>(
    rt: &(impl Abort + AllocGlobal),
    text: &str,
    origin: &ParsedName<R>,
) -> Result<String, FromTextError> {
    let name = Name::from_text_with_origin(text, origin)?;
    Ok(shown(rt, &name))
}

/// Returns why a text doesn't spell a name with an origin.
fn refusal_of<R: Octets + Copy>(text: &str, origin: &ParsedName<R>) -> Option<FromTextError> {
    Name::from_text_with_origin(text, origin).err()
}

#[derive(Drop)]
struct IsOrigin;

impl<H: Abort + AllocGlobal> Case<H> for IsOrigin {
    fn holds<R: Octets + Copy>(&self, rt: &H, octets: R) {
        let origin = name_at(rt, octets, 11);
        for (text, wanted) in [
            ("@", "ISI.EDU."),
            ("VENERA", "VENERA.ISI.EDU."),
            ("Action\\.domains", "Action\\.domains.ISI.EDU."),
            ("A.ISI.EDU.", "A.ISI.EDU."),
            ("VAXA.ISI", "VAXA.ISI.ISI.EDU."),
            (".", "."),
            ("\\@", "\\@.ISI.EDU."),
            ("a\\.", "a\\..ISI.EDU."),
            ("a\\046.", "a\\.."),
        ] {
            let spelled = unwrap(rt, with_origin(rt, text, &origin));
            assert_equal!(rt, spelled.as_str(), wanted);
        }
    }
}

#[test]
fn a_relative_name_has_the_labels_of_the_origin(rt: HostRuntime) {
    unwrap(
        &rt,
        over_each(&rt, &IsOrigin, b"\x03EDU\x00\x03ISI\xC0\x00\xC0\x05"),
    );
}

#[test]
fn the_root_may_be_the_origin(rt: HostRuntime) {
    let root = name_at(&rt, MESSAGE, 24);
    for (text, wanted) in [("@", "."), ("a", "a."), ("a.b", "a.b."), ("a.", "a.")] {
        let spelled = unwrap(&rt, with_origin(&rt, text, &root));
        assert_equal!(&rt, spelled.as_str(), wanted);
    }
}

#[test]
fn a_name_is_read_from_octets(rt: HostRuntime) {
    let origin = unwrap(&rt, Name::from_text_octets(b"example.com."));
    for (text, wanted) in [
        (b"@".as_slice(), "example.com."),
        (b"www", "www.example.com."),
        (b"\\\xFF.", "\\255."),
        (b".", "."),
    ] {
        let name = Name::from_text_octets_with_origin(text, &origin.parsed());
        assert_equal!(&rt, shown(&rt, &unwrap(&rt, name)).as_str(), wanted);
    }
}

#[test]
fn octets_that_spell_no_name_are_refused(rt: HostRuntime) {
    let root = name_at(&rt, MESSAGE, 24);
    for (text, reason) in [
        (b"a".as_slice(), FromTextError::UnexpectedEnd),
        (b"\xFF.", FromTextError::IllegalOctet),
    ] {
        assert_equal!(&rt, Name::from_text_octets(text).err(), Some(reason));
    }
    let refused = Name::from_text_octets_with_origin(b"\xFF", &root);
    assert_equal!(&rt, refused.err(), Some(FromTextError::IllegalOctet));
}

#[test]
fn a_text_with_an_origin_is_refused_by_reason(rt: HostRuntime) {
    let origin = name_at(&rt, MESSAGE, 16);
    for (text, reason) in [
        ("", FromTextError::UnexpectedEnd),
        ("..", FromTextError::EmptyLabel),
        (".a", FromTextError::EmptyLabel),
        ("a..b", FromTextError::EmptyLabel),
        ("@.", FromTextError::IllegalOctet),
        ("@@", FromTextError::IllegalOctet),
        ("a.@", FromTextError::IllegalOctet),
        ("a b", FromTextError::IllegalOctet),
        ("\\", FromTextError::IllegalEscape),
        ("a\\256", FromTextError::IllegalEscape),
    ] {
        assert_equal!(&rt, refusal_of(text, &origin), Some(reason));
    }
}

/// Returns why labels of these lengths, without a full stop after the last one, don't spell a name with an origin of 17
/// octets.
fn relative_refusal(rt: &(impl Abort + AllocGlobal), lengths: &[usize]) -> Option<FromTextError> {
    let origin = name_at(rt, MESSAGE, 16);
    let mut text = labels_text(rt, lengths);
    text.pop();
    refusal_of(text.as_str(), &origin)
}

#[test]
fn a_relative_name_has_255_octets_at_most(rt: HostRuntime) {
    let alloc = rt.alloc();
    for (last, reason) in [
        (45, None),
        (46, Some(FromTextError::LongName)),
        (63, Some(FromTextError::LongName)),
        (64, Some(FromTextError::LongLabel)),
    ] {
        assert_equal!(&rt, relative_refusal(&rt, &[63, 63, 63, last]), reason);
    }
    assert_equal!(
        &rt,
        relative_refusal(&rt, &[64]),
        Some(FromTextError::LongLabel)
    );
    assert_equal!(
        &rt,
        relative_refusal(&rt, &[63, 63, 63, 63, 1]),
        Some(FromTextError::LongName)
    );
    let whole = labels_text(&rt, &[63, 63, 63, 61]);
    let origin = name_at(&rt, MESSAGE, 16);
    assert_equal!(
        &rt,
        unwrap(&rt, Name::from_text_with_origin(whole.as_str(), &origin)).len(),
        255
    );
}
