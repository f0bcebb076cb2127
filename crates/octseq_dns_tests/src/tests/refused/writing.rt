//! Messages that are written. A refused push leaves the message and the table unchanged, so the same push afterwards
//! writes what it would have written.
use super::super::dns_writing::has_targets;
use crate::tests::unwrap;
use arrayvec::ArrayVec;
use bytes::BytesMut;
use octseq::builder::AsOctetsMut;
use octseq::{AppendError, Array, EmptyBuilder, OctetsBuilder, Truncate};
use octseq_asserts::assert_equal;
use octseq_dns::{
    AdditionalBuilder, Class, Compressor, MessageBuilder, Name, QuestionBuilder, Rtype, Target,
    Ttl, UnknownRecordData,
};
use smallvec::SmallVec;
use std::process::Abort;

/// Questions for `F.ISI.ARPA.`, `a.b.c.d.e.f.g.F.ISI.ARPA.` and `FOO.e.f.g.F.ISI.ARPA.`.
const ASKED: &[u8] = b"\0\0\0\0\0\x03\0\0\0\0\0\0\x01F\x03ISI\x04ARPA\0\0\x01\0\x01\
\x01a\x01b\x01c\x01d\x01e\x01f\x01g\xC0\x0C\0\x01\0\x01\x03FOO\xC0\x24\0\x01\0\x01";

/// Pushes a question to a message of these octets. If it is refused, it is pushed again.
fn ask<B: OctetsBuilder + Truncate + AsOctetsMut, T: Compressor>(
    rt: &impl Abort,
    questions: &mut QuestionBuilder<B, T>,
    text: &str,
    len: usize,
) -> Result<(), AppendError> {
    let name = unwrap(rt, Name::from_text(text));
    let header = questions.header();
    let pushed = questions.push_question(&name.parsed(), Rtype::A, Class::IN);
    if pushed.is_err() {
        assert_equal!(rt, pushed, Err(AppendError::Memory));
        assert_equal!(rt, questions.as_slice().get(12..), ASKED.get(12..len));
        assert_equal!(rt, questions.header(), header);
        unwrap(
            rt,
            questions.push_question(&name.parsed(), Rtype::A, Class::IN),
        );
    }
    pushed
}

/// Writes the questions, of which at most one is refused at first.
fn asks<B: OctetsBuilder + Truncate + AsOctetsMut, T: Compressor>(
    rt: &impl Abort,
    octets: B,
    table: T,
) {
    let mut questions = unwrap(rt, MessageBuilder::from_builder(octets, table)).question();
    let first = ask(rt, &mut questions, "F.ISI.ARPA.", 12);
    let second = ask(rt, &mut questions, "a.b.c.d.e.f.g.F.ISI.ARPA.", 28);
    let third = ask(rt, &mut questions, "FOO.e.f.g.F.ISI.ARPA.", 48);
    let (octets, table) = questions.answer().authority().additional().finish();
    assert_equal!(rt, octets.as_ref(), ASKED);
    let wanted = [
        (12, 0),
        (14, 0),
        (18, 0),
        (28, 1),
        (30, 1),
        (32, 1),
        (34, 1),
        (36, 1),
        (38, 1),
        (40, 1),
        (48, 2),
    ];
    has_targets(rt, &table, &wanted);
    unwrap(rt, first.and(second).and(third));
}

#[test]
fn questions_are_pushed_or_not_at_all(rt: HostRuntime) {
    let alloc = rt.alloc();
    asks(&rt, Vec::new(alloc), Vec::new(alloc));
    asks(&rt, Vec::new(alloc), ArrayVec::<Target, 11>::new());
    asks(&rt, Array::<58>::new(), Vec::new(alloc));
}

#[test]
fn questions_are_pushed_to_other_buffers(rt: HostRuntime) {
    let alloc = rt.alloc();
    asks(&rt, unwrap(&rt, BytesMut::empty(alloc)), Vec::new(alloc));
    asks(
        &rt,
        unwrap(&rt, SmallVec::<u8, 16>::empty(alloc)),
        Vec::new(alloc),
    );
}

/// Additional records of `a.b.c.d.e.f.` and `g.b.c.d.e.f.`.
const ADDED: &[u8] = b"\0\0\0\0\0\0\0\0\0\0\0\x02\
\x01a\x01b\x01c\x01d\x01e\x01f\0\0\x10\0\x01\0\0\0\x3C\0\x0B\x0A0123456789\
\x01g\xC0\x0E\0\x10\0\x01\0\0\0\x3C\0\x15\x140123456789abcdefghij";

/// Pushes a record to a message of these octets. If it is refused, it is pushed again.
fn add<B: OctetsBuilder + Truncate + AsOctetsMut, T: Compressor>(
    rt: &impl Abort,
    additionals: &mut AdditionalBuilder<B, T>,
    owner: &str,
    rdata: &[u8],
    len: usize,
) -> Result<(), AppendError> {
    let (name, ttl) = (unwrap(rt, Name::from_text(owner)), Ttl::from_secs(60));
    let header = additionals.header();
    let rdata = UnknownRecordData::new(Rtype::TXT, rdata);
    let pushed = additionals.push_record(&name.parsed(), Class::IN, ttl, &rdata);
    if pushed.is_err() {
        assert_equal!(rt, pushed, Err(AppendError::Memory));
        assert_equal!(rt, additionals.as_slice().get(12..), ADDED.get(12..len));
        assert_equal!(rt, additionals.header(), header);
        unwrap(
            rt,
            additionals.push_record(&name.parsed(), Class::IN, ttl, &rdata),
        );
    }
    pushed
}

#[test]
fn records_are_pushed_or_not_at_all(rt: HostRuntime) {
    let alloc = rt.alloc();
    let message = unwrap(
        &rt,
        MessageBuilder::from_builder(Vec::new(alloc), Vec::<Target>::new(alloc)),
    );
    let mut additionals = message.question().answer().authority().additional();
    let first = add(&rt, &mut additionals, "a.b.c.d.e.f.", b"\x0A0123456789", 12);
    let rdata = b"\x140123456789abcdefghij";
    let second = add(&rt, &mut additionals, "g.b.c.d.e.f.", rdata, 46);
    let (octets, table) = additionals.finish();
    assert_equal!(&rt, octets.as_slice(), ADDED);
    let wanted = [
        (12, 0),
        (14, 0),
        (16, 0),
        (18, 0),
        (20, 0),
        (22, 0),
        (46, 1),
    ];
    has_targets(&rt, &table, &wanted);
    unwrap(&rt, first.and(second));
}

/// Adds a target to a table, as its first one. If it is refused, the table stays.
fn is_added(rt: &impl Abort, table: &mut Vec<Target>, at: u16) {
    let target = Target {
        at,
        next: 0,
        pointers: 3,
        digest: 0,
    };
    let before = table.len();
    if Compressor::is_full(table) {
        panic!(rt; "full");
    }
    let added = Compressor::insert(table, 0, target);
    let first = table.first().copied();
    if added.is_ok() {
        assert_equal!(
            rt,
            (table.len(), first),
            (before.saturating_add(1), Some(target))
        );
    } else {
        assert_equal!(rt, table.len(), before);
    }
    unwrap(rt, added);
}

#[test]
fn a_target_is_added_or_the_table_stays(rt: HostRuntime) {
    let mut table = Vec::new(rt.alloc());
    for at in [12, 14, 16, 18, 20, 22, 24, 26, 28] {
        is_added(&rt, &mut table, at);
    }
}
