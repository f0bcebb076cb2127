//! What two OPENs agree on, and how an UPDATE must be handled.
use crate::tests::octets::message;
use crate::tests::unwrap;
use octseq::{AsOctets, Malformed};
use octseq_asserts::assert_equal;
use octseq_bgp::family::AfiSafiType;
use octseq_bgp::message::{Handling, Message};
use octseq_bgp::session::SessionConfig;
use std::alloc::AllocGlobal;
use std::process::Abort;

/// Returns what two messages agree on, if both are OPENs.
fn agreed<R: AsOctets + Copy>(ours: R, theirs: R) -> Result<SessionConfig, Malformed> {
    let modern = SessionConfig::modern();
    match (
        Message::parse(ours, modern)?,
        Message::parse(theirs, modern)?,
    ) {
        (Message::Open(ours), Message::Open(theirs)) => Ok(SessionConfig::negotiated(
            &ours, &theirs,
        )),
        _ => Err(Malformed),
    }
}

#[test]
fn path_ids_are_agreed_on(rt: HostRuntime) {
    let ours = message(
        &rt,
        "0031 01 04 fdfc 005a 0a000001 14 0212 41040000fdfc 4508 00010101 00020103 0600",
    );
    let theirs = message(
        &rt,
        "002b 01 04 fdfc 005a 0a000002 0e 020c 41040000fdfc 4504 00010102",
    );
    let session = unwrap(&rt, agreed(&ours, &theirs));
    assert_equal!(&rt, session.four_octet_asn, true);
    assert_equal!(&rt, session.extended_message, false);
    assert_equal!(&rt, session.add_path.has(AfiSafiType::Ipv4Unicast), true);
    assert_equal!(&rt, session.add_path.has(AfiSafiType::Ipv6Unicast), false);
}

/// Returns the handling of a message, if it is an UPDATE.
fn handling<R: AsOctets + Copy>(octets: R, external: bool) -> Result<Handling, Malformed> {
    match Message::parse(octets, SessionConfig::modern())? {
        Message::Update(update) => Ok(update.handling(external)),
        _ => Err(Malformed),
    }
}

/// Checks the handling of an UPDATE.
fn is_handled(rt: &(impl AllocGlobal + Abort), octets: &str, external: bool, wanted: Handling) {
    let all = message(rt, octets);
    assert_equal!(rt, unwrap(rt, handling(&all, external)), wanted);
}

#[test]
fn updates_are_handled(rt: HostRuntime) {
    is_handled(&rt, "0017 02 0000 0000", true, Handling::Accept);
    is_handled(
        &rt,
        "001b 02 0000 0000 18090909",
        true,
        Handling::TreatAsWithdraw,
    );
    is_handled(
        &rt,
        "001b 02 0000 0004 40010103",
        true,
        Handling::TreatAsWithdraw,
    );
    is_handled(
        &rt,
        "001a 02 0000 0003 c00700",
        true,
        Handling::AttributeDiscard,
    );
    is_handled(
        &rt,
        "001f 02 0000 0008 40010100 40010100",
        true,
        Handling::AttributeDiscard,
    );
    is_handled(
        &rt,
        "001a 02 0000 0003 800e00",
        true,
        Handling::SessionReset,
    );
    is_handled(
        &rt,
        "001a 02 0000 0003 406300",
        true,
        Handling::SessionReset,
    );
    is_handled(
        &rt,
        "001e 02 0000 0007 40050400000064",
        true,
        Handling::AttributeDiscard,
    );
    is_handled(
        &rt,
        "001e 02 0000 0007 40050400000064",
        false,
        Handling::Accept,
    );
}
