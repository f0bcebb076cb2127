//! Reading a BGP message.
use octseq::AsOctets;
use octseq_bgp::message::Message;
use octseq_bgp::prefix::Prefix;
use octseq_bgp::session::SessionConfig;
use std::alloc::Global;

/// Returns the prefixes that an UPDATE announces, and none for other messages.
pub fn announced<R: AsOctets + Copy>(alloc: Global, octets: R) -> anyhow::Result<Vec<Prefix>> {
    let mut prefixes = Vec::new(alloc);
    if let Message::Update(update) = Message::parse(octets, SessionConfig::modern())? {
        for nlri in update.announced {
            prefixes.push(nlri.prefix())?;
        }
    }
    Ok(prefixes)
}
