//! The text of octets: that of a message, or `malformed`.
use crate::tests::unwrap;
use octseq::{AsOctets, StrBuilder};
use octseq_bgp::message::Message;
use octseq_bgp::session::SessionConfig;
use std::alloc::AllocGlobal;
use std::process::Abort;

/// Appends the text of a message.
fn append_message<R: AsOctets + Copy>(
    rt: &impl Abort,
    text: &mut StrBuilder<Vec<u8>>,
    message: &Message<R>,
) {
    unwrap(rt, message.append_text(text));
}

/// Appends `malformed`.
fn append_malformed(rt: &impl Abort, text: &mut StrBuilder<Vec<u8>>) {
    unwrap(rt, text.try_push_str("malformed\n"));
}

/// Appends the text of octets, or `malformed`.
fn append_read<R: AsOctets + Copy>(
    rt: &impl Abort,
    text: &mut StrBuilder<Vec<u8>>,
    octets: R,
    session: SessionConfig,
) {
    match Message::parse(octets, session) {
        Ok(message) => append_message(rt, text, &message),
        Err(_) => append_malformed(rt, text),
    }
}

/// Returns the text of octets, or `malformed`.
pub fn text_of(
    rt: &(impl AllocGlobal + Abort),
    octets: &[u8],
    session: SessionConfig,
) -> StrBuilder<Vec<u8>> {
    let mut text = unwrap(rt, StrBuilder::new(rt.alloc()));
    append_read(rt, &mut text, octets, session);
    text
}

/// Splits lines that are joined by semicolons. Each ends with a line feed.
pub fn lines_of(rt: &(impl AllocGlobal + Abort), joined: &str) -> String {
    let mut lines = String::new(rt.alloc());
    for c in joined.chars() {
        unwrap(rt, lines.push(if c == ';' { '\n' } else { c }));
    }
    unwrap(rt, lines.push('\n'));
    lines
}
