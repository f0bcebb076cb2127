//! Writing BGP messages.
use octseq::Array;
use octseq_bgp::attribute::{
    Asn, ConventionalNextHop, Origin, OriginType, PathSegment, SegmentType,
};
use octseq_bgp::message::UpdateBuilder;
use octseq_bgp::prefix::{PathId, Prefix};
use octseq_bgp::session::SessionConfig;
use std::alloc::Global;

/// Returns the UPDATEs that announce prefixes, one after another. They are as few as take them all.
pub fn announcements(
    alloc: Global,
    prefixes: &[(Prefix, Option<PathId>)],
    next_hop: u32,
) -> anyhow::Result<Vec<u8>> {
    let asns = [Asn(64500)];
    let path = [PathSegment {
        kind: SegmentType::Sequence,
        asns: &asns,
    }];
    let mut stream = Vec::new(alloc);
    let mut left = prefixes;
    for _ in prefixes {
        let update = UpdateBuilder::from_builder(Array::<4096>::new(), SessionConfig::modern())?;
        let mut update = update.attributes();
        update.push_value(&Origin(OriginType::Igp))?;
        update.push_value(&path.as_slice())?;
        update.push_value(&ConventionalNextHop(next_hop))?;
        let mut update = update.announced();
        let count = update.fill_announced(left)?;
        stream.extend_from_slice(update.finish().as_slice())?;
        match left.split_at_checked(count) {
            Some((_, others)) if !others.is_empty() => left = others,
            _ => break,
        }
    }
    Ok(stream)
}
