//! The faults of an UPDATE: each one with its attribute, and the worst of them.
use crate::tests::octets::message;
use crate::tests::unwrap;
use octseq::AsOctets;
use octseq_asserts::assert_equal;
use octseq_bgp::message::{Fault, Handling, Message, UpdateMessage};
use octseq_bgp::session::SessionConfig;
use std::alloc::AllocGlobal;
use std::process::Abort;

/// Returns the type of the attribute of a fault, or 0 for a missing one.
fn type_code<R: AsOctets + Copy>(fault: &Fault<R>) -> u8 {
    match &fault.attribute {
        Some(attribute) => attribute.type_code,
        None => 0,
    }
}

/// Returns the type of each faulty attribute, or 0 for a missing one, and its handling.
fn faults<R: AsOctets + Copy>(
    rt: &(impl AllocGlobal + Abort),
    update: &UpdateMessage<R>,
    external: bool,
) -> Vec<(u8, Handling)> {
    let mut all = Vec::new(rt.alloc());
    for fault in update.faults(external) {
        unwrap(rt, all.push((type_code(&fault), fault.handling)));
    }
    all
}

/// Does the same for octets, with the worst handling.
fn judged<R: AsOctets + Copy>(
    rt: &(impl AllocGlobal + Abort),
    octets: R,
    external: bool,
) -> (Vec<(u8, Handling)>, Handling) {
    match unwrap(rt, Message::parse(octets, SessionConfig::modern())) {
        Message::Update(update) => (faults(rt, &update, external), update.handling(external)),
        _ => panic!(rt; "no UPDATE"),
    }
}

/// Checks the faults of an UPDATE, and the worst one.
fn has_faults(
    rt: &(impl AllocGlobal + Abort),
    text: &str,
    external: bool,
    wanted: &[(u8, Handling)],
    worst: Handling,
) {
    let octets = message(rt, text);
    let (found, handling) = judged(rt, &octets, external);
    assert_equal!(rt, found.as_slice(), wanted);
    assert_equal!(rt, handling, worst);
}

#[test]
fn an_update_may_have_no_fault(rt: HostRuntime) {
    let whole = "002f 02 0000 0014 40010100 40020602010000fdfc 4003040a000001 18090909";
    has_faults(&rt, whole, true, &[], Handling::Accept);
}

#[test]
fn each_fault_has_its_attribute(rt: HostRuntime) {
    // An AGGREGATOR of no octets, an ORIGIN of 3, a second ORIGIN, and neither AS_PATH nor NEXT_HOP.
    has_faults(
        &rt,
        "0026 02 0000 000b c00700 40010103 40010100 18090909",
        true,
        &[
            (7, Handling::AttributeDiscard),
            (1, Handling::TreatAsWithdraw),
            (1, Handling::AttributeDiscard),
            (0, Handling::TreatAsWithdraw),
        ],
        Handling::TreatAsWithdraw,
    );
}

#[test]
fn the_worst_may_come_last_or_first(rt: HostRuntime) {
    has_faults(
        &rt,
        "001d 02 0000 0006 c00700 800e00",
        true,
        &[
            (7, Handling::AttributeDiscard),
            (14, Handling::SessionReset),
        ],
        Handling::SessionReset,
    );
    has_faults(
        &rt,
        "001d 02 0000 0006 800e00 c00700",
        true,
        &[
            (14, Handling::SessionReset),
            (7, Handling::AttributeDiscard),
        ],
        Handling::SessionReset,
    );
}

#[test]
fn an_external_peer_is_judged_otherwise(rt: HostRuntime) {
    let preference = "001d 02 0000 0006 400503 000064";
    has_faults(
        &rt,
        preference,
        true,
        &[(5, Handling::AttributeDiscard)],
        Handling::AttributeDiscard,
    );
    has_faults(
        &rt,
        preference,
        false,
        &[(5, Handling::TreatAsWithdraw)],
        Handling::TreatAsWithdraw,
    );
}
