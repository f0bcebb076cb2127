//! Entries that are removed, data after its length, and headers.
use crate::tests::compressed::{append, name_of, new_composer};
use crate::tests::unwrap;
use octseq::Turns;
use octseq_asserts::assert_equal;

#[test]
fn an_entry_is_taken_back_with_its_names(rt: HostRuntime) {
    let mut turns = Turns::new();
    let mut composer = new_composer(&rt);
    append(&rt, &mut composer, b"\x01a\x00", &mut turns);
    composer.begin_entry();
    append(&rt, &mut composer, b"\x01b\x01a\x00", &mut turns);
    append(&rt, &mut composer, b"\x01c\x00", &mut turns);
    unwrap(&rt, composer.append_slice(b"\x07"));
    composer.rollback();
    assert_equal!(&rt, composer.as_slice().len(), 15);
    append(&rt, &mut composer, b"\x01c\x00", &mut turns);
    append(&rt, &mut composer, b"\x01b\x01a\x00", &mut turns);
    assert_equal!(
        &rt,
        composer.as_slice().get(12..),
        Some(b"\x01a\x00\x01c\x00\x01b\xC0\x0C".as_slice())
    );
}

#[test]
fn data_comes_after_the_number_of_its_octets(rt: HostRuntime) {
    let mut turns = Turns::new();
    let mut composer = new_composer(&rt);
    append(&rt, &mut composer, b"\x01a\x00", &mut turns);
    composer.begin_entry();
    unwrap(&rt, composer.append_slice(b"\x07"));
    // `end_data` requires that data was begun, which `unwrap` doesn't say
    composer.begin_data().expect(&rt, "error");
    unwrap(&rt, composer.append_slice(b"\x09"));
    let name = name_of(&rt, b"\x01b\x01a\x00");
    unwrap(&rt, composer.append_name(&name, &mut turns));
    composer.end_data();
    append(&rt, &mut composer, b"\x01b\x01a\x00", &mut turns);
    assert_equal!(
        &rt,
        composer.as_slice().get(12..),
        Some(b"\x01a\x00\x07\x00\x05\x09\x01b\xC0\x0C\xC0\x13".as_slice())
    );
}

#[test]
fn a_header_is_written_over(rt: HostRuntime) {
    let mut turns = Turns::new();
    let mut composer = new_composer(&rt);
    append(&rt, &mut composer, b"\x01a\x00", &mut turns);
    composer.put_header(b"\x12\x34\x85\x80\x00\x01\x00\x00\x00\x00\x00\x00");
    append(&rt, &mut composer, b"\x01a\x00", &mut turns);
    assert_equal!(
        &rt,
        composer.as_slice(),
        b"\x12\x34\x85\x80\x00\x01\x00\x00\x00\x00\x00\x00\x01a\x00\xC0\x0C".as_slice()
    );
}

#[test]
fn a_name_of_more_than_sixteen_labels_is_compressed(rt: HostRuntime) {
    let mut turns = Turns::new();
    let mut composer = new_composer(&rt);
    let twenty =
        b"\x01a\x01b\x01c\x01d\x01e\x01f\x01g\x01h\x01i\x01j\x01k\x01l\x01m\x01n\x01o\x01p\x01q\x01r\x01s\x01t\x00";
    append(&rt, &mut composer, twenty, &mut turns);
    let more =
        b"\x01x\x01a\x01b\x01c\x01d\x01e\x01f\x01g\x01h\x01i\x01j\x01k\x01l\x01m\x01n\x01o\x01p\x01q\x01r\x01s\x01t\
            \x00";
    append(&rt, &mut composer, more, &mut turns);
    let written = composer.as_slice();
    assert_equal!(&rt, written.get(12..53), Some(twenty.as_slice()));
    assert_equal!(&rt, written.get(53..), Some(b"\x01x\xC0\x0C".as_slice()));
}
