//! Addresses of std as data, and back.
use octseq::Array;
use octseq_asserts::assert_equal;
use octseq_dns_data::Data;
use std::net::{Ipv4Addr, Ipv6Addr};

#[test]
fn an_ipv4_address_is_data(rt: HostRuntime) {
    let address = Ipv4Addr::new(192, 0, 2, 1);
    let found: Data<Array<16>> = Data::from(address);
    assert_equal!(&rt, found.ipv4_addr(), Some(address));
    assert_equal!(&rt, found.ipv6_addr(), None);
}

#[test]
fn an_ipv6_address_is_data(rt: HostRuntime) {
    let address = Ipv6Addr::new(0x2001, 0xDB8, 0, 0, 0, 0, 0, 1);
    let found: Data<Array<16>> = Data::from(address);
    assert_equal!(&rt, found.ipv6_addr(), Some(address));
    assert_equal!(&rt, found.ipv4_addr(), None);
}
