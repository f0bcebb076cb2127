//! Messages and texts at their limits.
use crate::tests::octets::message;
use crate::tests::unwrap;
use octseq::str::DisplayError;
use octseq::{Array, AsOctets, Malformed, OctetsBuilder, StrBuilder, Truncate};
use octseq_asserts::{assert_equal, assert_true};
use octseq_bgp::message::Message;
use octseq_bgp::session::{AddPath, SessionConfig};
use std::alloc::AllocGlobal;
use std::process::Abort;

/// Returns a session with extended messages.
pub fn extended() -> SessionConfig {
    SessionConfig {
        four_octet_asn: true,
        add_path: AddPath::all(false),
        extended_message: true,
    }
}

/// Returns an UPDATE of this many octets, with prefixes of no bits.
pub fn zeros(rt: &(impl AllocGlobal + Abort), count: u16) -> Vec<u8> {
    let mut octets = Vec::new(rt.alloc());
    for _ in 0..16 {
        unwrap(rt, octets.push(0xFF));
    }
    unwrap(rt, octets.extend_from_slice(&count.to_be_bytes()));
    unwrap(rt, octets.push(2));
    for _ in 19..count {
        unwrap(rt, octets.push(0));
    }
    octets
}

/// Returns how many prefixes a message announces.
fn announced<R: AsOctets + Copy>(octets: R, session: SessionConfig) -> Result<usize, Malformed> {
    match Message::parse(octets, session)? {
        Message::Update(update) => Ok(update.announced.len()),
        _ => Err(Malformed),
    }
}

#[test]
fn a_message_may_have_65535_octets(rt: HostRuntime) {
    let octets = zeros(&rt, 65535);
    assert_equal!(&rt, octets.len(), 65535);
    assert_equal!(&rt, announced(&octets, extended()), Ok(65512));
    let modern = announced(&octets, SessionConfig::modern());
    assert_equal!(&rt, modern, Err(Malformed));
}

#[test]
fn a_message_may_have_4096_octets(rt: HostRuntime) {
    let octets = zeros(&rt, 4096);
    let modern = announced(&octets, SessionConfig::modern());
    assert_equal!(&rt, modern, Ok(4073));
    let longer = zeros(&rt, 4097);
    let modern = announced(&longer, SessionConfig::modern());
    assert_equal!(&rt, modern, Err(Malformed));
    assert_equal!(&rt, announced(&longer, extended()), Ok(4074));
}

/// Appends the text of a message.
fn append<R: AsOctets + Copy, B: OctetsBuilder + Truncate>(
    text: &mut StrBuilder<B>,
    octets: R,
) -> Result<(), DisplayError> {
    match Message::parse(octets, SessionConfig::modern()) {
        Ok(message) => message.append_text(text),
        Err(_) => Err(DisplayError::Display),
    }
}

#[test]
fn a_text_is_appended_whole_or_not_at_all(rt: HostRuntime) {
    let octets = message(&rt, "001f 02 0004 18090909 0000 18090908");
    // `update`, `withdrawn 9.9.9.0/24` and `announced 9.9.8.0/24`, with line feeds.
    let mut whole = unwrap(&rt, StrBuilder::<Array<51>>::new(rt.alloc()));
    unwrap(&rt, whole.try_push_str("> "));
    assert_equal!(&rt, append(&mut whole, &octets), Ok(()));
    assert_equal!(
        &rt,
        whole.as_str(),
        "> update\nwithdrawn 9.9.9.0/24\nannounced 9.9.8.0/24\n"
    );
    let mut short = unwrap(&rt, StrBuilder::<Array<50>>::new(rt.alloc()));
    unwrap(&rt, short.try_push_str("> "));
    assert_equal!(&rt, append(&mut short, &octets), Err(DisplayError::Short));
    assert_equal!(&rt, short.as_str(), "> ");
    assert_true!(&rt, short.len() == 2);
}
