//! Values with parts: next hops, the bits of a graceful restart, the data of a NOTIFICATION.
use crate::tests::octets::{message, octets};
use crate::tests::text::text_of;
use crate::tests::unwrap;
use octseq::{AsOctets, Malformed, Parser};
use octseq_asserts::{assert_equal, assert_true};
use octseq_bgp::attribute::NextHop;
use octseq_bgp::capability::{CapabilityValue, GracefulRestart, ParameterValue};
use octseq_bgp::family::AfiSafiType;
use octseq_bgp::message::{Message, NotificationData, OpenMessage};
use octseq_bgp::session::SessionConfig;
use std::alloc::AllocGlobal;
use std::process::Abort;

/// Checks that octets are these next hops of a family.
fn is_next_hop(
    rt: &(impl AllocGlobal + Abort),
    family: AfiSafiType,
    text: &str,
    wanted: Result<NextHop, Malformed>,
) {
    let all = octets(rt, text);
    assert_equal!(rt, NextHop::parse(Parser::from_ref(&all), family), wanted);
}

#[test]
fn next_hops_have_4_or_16_or_32_octets(rt: HostRuntime) {
    let v4 = AfiSafiType::Ipv4Unicast;
    let v6 = AfiSafiType::Ipv6Unicast;
    let zeros = [0; 16];
    is_next_hop(&rt, v4, "0a000001", Ok(NextHop::Ipv4([10, 0, 0, 1])));
    is_next_hop(&rt, v6, "0a000001", Err(Malformed));
    let sixteen = "00000000 00000000 00000000 00000000";
    is_next_hop(&rt, v4, sixteen, Ok(NextHop::Ipv6(zeros)));
    is_next_hop(&rt, v6, sixteen, Ok(NextHop::Ipv6(zeros)));
    let both = "00000000 00000000 00000000 00000000 00000000 00000000 00000000 00000000";
    is_next_hop(&rt, v6, both, Ok(NextHop::Ipv6LinkLocal(zeros, zeros)));
    is_next_hop(&rt, v4, "", Err(Malformed));
    is_next_hop(&rt, v6, "00000000 00000000", Err(Malformed));
}

/// Whether the state of the first family of a graceful restart was kept, if there is one.
fn keeps_first<R: AsOctets + Copy>(restart: GracefulRestart<R>) -> Option<bool> {
    let tuple = restart.families.into_iter().next()?;
    Some(tuple.forwards())
}

/// Returns the bits of the first capability of an OPEN, if it is a graceful restart: restarted, takes notifications,
/// seconds, and whether the state of its first family was kept.
fn restart<R: AsOctets + Copy>(open: OpenMessage<R>) -> Option<(bool, bool, u16, Option<bool>)> {
    let parameter = open.parameters.into_iter().next()?;
    let ParameterValue::Capabilities(capabilities) = parameter.value() else {
        return None;
    };
    let capability = capabilities.into_iter().next()?;
    match capability.value() {
        CapabilityValue::GracefulRestart(it) => Some((
            it.restarted(),
            it.takes_notifications(),
            it.restart_time(),
            keeps_first(it),
        )),
        _ => None,
    }
}

/// Does the same for octets.
fn restart_of<R: AsOctets + Copy>(
    octets: R,
) -> Result<Option<(bool, bool, u16, Option<bool>)>, Malformed> {
    match Message::parse(octets, SessionConfig::modern())? {
        Message::Open(open) => Ok(restart(open)),
        _ => Ok(None),
    }
}

#[test]
fn a_graceful_restart_has_bits(rt: HostRuntime) {
    let kept = message(
        &rt,
        "0027 01 04 fdfc 005a 0a000001 0a 0208 4006 c078 00010180",
    );
    assert_equal!(
        &rt,
        unwrap(&rt, restart_of(&kept)),
        Some((true, true, 120, Some(true)))
    );
    let lost = message(
        &rt,
        "0027 01 04 fdfc 005a 0a000001 0a 0208 4006 8fff 0001017f",
    );
    assert_equal!(
        &rt,
        unwrap(&rt, restart_of(&lost)),
        Some((true, false, 4095, Some(false)))
    );
    let none = message(&rt, "0023 01 04 fdfc 005a 0a000001 06 0204 4002 4001");
    assert_equal!(
        &rt,
        unwrap(&rt, restart_of(&none)),
        Some((false, true, 1, None))
    );
    let text = text_of(&rt, &kept, SessionConfig::modern());
    assert_equal!(
        &rt,
        text.as_str(),
        "open version 4 as 65020 hold 90 id 10.0.0.1\n\
         capability graceful-restart RN 120 IPv4/unicast F\n"
    );
}

/// Returns the number of octets of the shutdown communication of a message, if it has one.
fn communicated<R: AsOctets + Copy>(octets: R) -> Result<Option<usize>, Malformed> {
    match Message::parse(octets, SessionConfig::modern())? {
        Message::Notification(it) => match it.value() {
            NotificationData::ShutdownCommunication(text) => Ok(Some(text.remaining())),
            NotificationData::Opaque(_) => Ok(None),
        },
        _ => Ok(None),
    }
}

#[test]
fn a_shutdown_says_why(rt: HostRuntime) {
    for (text, wanted) in [
        ("0019 03 06 02 03 627965", Some(3)),
        ("0019 03 06 04 03 627965", Some(3)),
        ("0016 03 06 02 00", Some(0)),
        ("0019 03 06 03 03 627965", None),
        ("0019 03 05 02 03 627965", None),
        ("0019 03 06 02 02 627965", None),
        ("0019 03 06 02 04 627965", None),
        ("0019 03 06 02 03 fffefd", None),
        ("0015 03 06 02", None),
    ] {
        let all = message(&rt, text);
        assert_equal!(&rt, unwrap(&rt, communicated(&all)), wanted);
    }
    let quoted = message(&rt, "001d 03 06 02 07 22 5c c3a9 0a 7f 7e");
    let text = text_of(&rt, &quoted, SessionConfig::modern());
    assert_equal!(
        &rt,
        text.as_str(),
        "notification 6 2 \"\\\"\\\\\\195\\169\\010\\127~\"\n"
    );
    assert_true!(&rt, text.len() > 0);
}
