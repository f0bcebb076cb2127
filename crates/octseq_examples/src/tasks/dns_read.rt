//! Reading a DNS message.
use octseq_dns::{Data, Message, Rtype};
use std::alloc::Global;

/// Returns the IPv4 addresses of the name that was asked for, or of the name that it is an alias of.
pub fn addresses(alloc: Global, octets: &[u8]) -> anyhow::Result<Vec<[u8; 4]>> {
    let mut addresses = Vec::new(alloc);
    let answer = Message::parse(octets)?;
    let Some(name) = answer.canonical_name() else {
        return Ok(addresses);
    };
    for record in answer.answers().limit_to(Rtype::A) {
        if let Data::A(address) = record.data() {
            if record.owner().name_eq(&name) {
                addresses.push(address)?;
            }
        }
    }
    Ok(addresses)
}
