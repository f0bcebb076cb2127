//! Formats of public standards, written with `octseq_format`, as examples to copy.
#![tactic(auto)]

pub mod bgp;
pub mod bitcoin;
pub mod cbor;
pub mod der;
pub mod dhcp;
pub mod ipv4;
pub mod ipv6;
pub mod mqtt;
pub mod mqtt5;
pub mod msgpack;
pub mod ntp;
pub mod png;
pub mod protobuf;
pub mod quic;
pub mod rtp;
pub mod socks5;
pub mod tcp;
pub mod tftp;
pub mod tls;
pub mod wasm;
pub mod websocket;
