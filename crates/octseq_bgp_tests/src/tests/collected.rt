//! A route collector keeps what it read: ranges of shared octets, without copies.
use crate::tests::octets::message;
use crate::tests::unwrap;
use bytes::Bytes;
use octseq::octets::Octets;
use octseq::{AsOctets, Malformed};
use octseq_asserts::{assert_equal, assert_true};
use octseq_bgp::attribute::{AttributeValue, PathAttributes};
use octseq_bgp::message::{Message, UpdateMessage};
use octseq_bgp::prefix::Prefix;
use octseq_bgp::session::SessionConfig;
use std::alloc::AllocGlobal;
use std::net::Ipv4Addr;
use std::process::Abort;

/// A route: a prefix, and its attributes, by their types and octets.
#[derive(Drop)]
struct Route<T: Drop> {
    prefix: Prefix,
    attributes: Vec<(u8, T)>,
}

/// Returns the types of attributes, and their octets, which a `Bytes` shares.
fn attributes_of<R: Octets + Copy>(
    rt: &(impl AllocGlobal + Abort),
    attributes: PathAttributes<R>,
) -> Vec<(u8, R::Range)> {
    let mut kept = Vec::new(rt.alloc());
    for attribute in attributes {
        let mut value = attribute.value;
        let octets = unwrap(rt, value.parse_octets(value.remaining()));
        unwrap(rt, kept.push((attribute.type_code, octets)));
    }
    kept
}

/// Returns the routes that an UPDATE announces.
fn announced<R: Octets + Copy>(
    rt: &(impl AllocGlobal + Abort),
    update: &UpdateMessage<R>,
) -> Vec<Route<R::Range>> {
    let mut routes = Vec::new(rt.alloc());
    for nlri in update.announced {
        let attributes = attributes_of(rt, update.path_attributes);
        let prefix = nlri.prefix();
        unwrap(rt, routes.push(Route { prefix, attributes }));
    }
    routes
}

/// Returns the routes that a message announces.
fn routes_of<R: Octets + Copy>(rt: &(impl AllocGlobal + Abort), octets: R) -> Vec<Route<R::Range>> {
    match unwrap(rt, Message::parse(octets, SessionConfig::modern())) {
        Message::Update(update) => announced(rt, &update),
        _ => panic!(rt; "no UPDATE"),
    }
}

/// Checks that the attribute is the next hop 10.0.0.1.
fn is_next_hop(rt: &impl Abort, attribute: Option<&(u8, Bytes)>) {
    match attribute {
        Some((type_code, octets)) => {
            assert_equal!(rt, *type_code, 3);
            assert_equal!(rt, octets.as_ref(), b"\x0A\0\0\x01".as_slice());
        }
        None => assert_true!(rt, false),
    }
}

/// Checks that the route has 24 bits, and three attributes.
fn is_route(rt: &impl Abort, route: Option<&Route<Bytes>>) {
    match route {
        Some(route) => {
            assert_equal!(rt, route.prefix.len, 24);
            assert_equal!(rt, route.attributes.len(), 3);
            is_next_hop(rt, route.attributes.get(2));
        }
        None => assert_true!(rt, false),
    }
}

#[test]
fn routes_share_the_octets_of_their_message(rt: HostRuntime) {
    let octets = message(
        &rt,
        "0033 02 0000 0014 40010100 40020602010000fdfc 4003040a000001 18090909 18090908",
    );
    let shared = unwrap(&rt, Bytes::from_vec(octets));
    assert_true!(&rt, shared.is_unique());
    let routes = routes_of(&rt, &shared);
    assert_true!(&rt, !shared.is_unique());
    drop(shared);
    assert_equal!(&rt, routes.len(), 2);
    is_route(&rt, routes.get(1));
}

/// Returns the next hop of the routes that a message announces, or `None` if it announces none.
fn next_hop_of<R: Octets + Copy>(octets: R) -> Result<Option<Ipv4Addr>, Malformed> {
    let Message::Update(update) = Message::parse(octets, SessionConfig::modern())? else {
        return Ok(None);
    };
    for attribute in update.path_attributes {
        if let AttributeValue::NextHop(address) = attribute.value() {
            return Ok(Some(Ipv4Addr::from_bits(address)));
        }
    }
    Ok(None)
}

#[test]
fn a_reader_finds_a_next_hop(rt: HostRuntime) {
    let octets = message(
        &rt,
        "002f 02 0000 0014 40010100 40020602010000fdfc 4003040a000001 18090909",
    );
    let next_hop = unwrap(&rt, next_hop_of(&octets));
    assert_equal!(&rt, next_hop, Some(Ipv4Addr::new(10, 0, 0, 1)));
}
