//! Peer index tables, written: RFC 6396, 4.3.1.
ghost use Rattle.std.specs.Prelude.{◌≡◌, ◌≤◌, ◌<◌, ◌+◌, ◌↔◌, ◌⊎◌, [], length, true, IsTrue, IfOk, OnOk, OnErr};
ghost use Rattle.octseq.specs.Limit.{ExceedsLimit};
ghost use Rattle.octseq.specs.Refusal.{IsShort, IsMemory, IsMalformed, append_error, write_error};
ghost use Rattle.octseq_mrt.specs.Building.{TableWritten, table_once, with_peer};
ghost use Rattle.octseq_mrt.specs.Joined.{body_limit, parts_joined};
ghost use Rattle.octseq_mrt.specs.Parsed.{peer_of};
ghost use Rattle.octseq_mrt.specs.Written.{FitsPeer, FitsPeerTable, peer_octets, peer_table_octets};

use crate::address::address_octets;
use crate::builder::parts::{BODY_MAX, append_parts, asn_octets, push_item};
use crate::peer::PeerEntry;
use octseq::builder::AsOctetsMut;
use octseq::{AppendError, AsOctets, OctetsBuilder, ShortBuf, Truncate, WriteError};

/// The octets of a peer index table that is being written: those of a record of the kind
/// [`PeerIndexTable`](crate::RecordKind::PeerIndexTable), after its header. They are a table at all times.
#[derive(Drop)]
pub struct PeerTableBuilder<B: AsOctets> {
    octets: B,
    count_at: usize,
    count: u16,
    ghost table: { TableWritten (B.content octets) count_at count } by { table_once _ _ _ },
}

impl<B: OctetsBuilder + Truncate + AsOctetsMut> PeerTableBuilder<B> {
    ghost use Rattle.octseq_mrt.specs.Builders.{table_in, table_octets};

    /// Begins a table without peers. What the builder holds is removed.
    ///
    /// # Errors
    ///
    /// `Short` if the name of the view has more than 65,535 octets or the table would exceed the limit of the builder's
    /// type, otherwise `Memory` if a request for memory was refused. The builder is then dropped.
    pub fn new(
        octets: B,
        collector_bgp_id: u32,
        view_name: &[u8],
    ) -> Result<PeerTableBuilder<B>, AppendError>
        ensures table { IfOk result (λ it. table_in it
            ≡ record { collector_bgp_id = collector_bgp_id; view_name = view_name.now; peers = [] }) }
        ensures short { IsShort append_error result ↔ (65535 < length view_name.now)
            ⊎ ExceedsLimit B.limit (8 + length view_name.now) }
        ensures memory { IsMemory append_error result → B.asks ≡ true }
        ensures borrows { IfOk result (λ it. B.borrows (table_octets it) ≡ B.borrows octets) }
    {
        let Ok(len) = u16::try_from(view_name.len()) else {
            return Err(AppendError::Short(ShortBuf));
        };
        let mut octets = octets;
        octets.truncate(0);
        let head: [&[u8]; 4] = [
            &collector_bgp_id.to_be_bytes(),
            &len.to_be_bytes(),
            view_name,
            &[0, 0],
        ];
        match append_parts(&mut octets, &head, BODY_MAX) {
            Ok(()) => Ok(PeerTableBuilder {
                octets,
                count_at: 6 + view_name.len(),
                count: 0,
            }),
            Err(error) => Err(error),
        }
    }

    /// Pushes a peer, whole or not at all. RIB entries refer to it by its number, from 0.
    ///
    /// # Errors
    ///
    /// `Malformed` if its type doesn't say the family of its address, or its AS number doesn't fit the two octets that
    /// its type says. Otherwise `Short` if the table already has 65,535 peers, or would exceed the limit of the
    /// builder's type. Otherwise `Memory` if a request for memory was refused. The table is then unchanged.
    #[tactic(auto, using(octseq::proofs::Written::written_1, octseq::proofs::Written::written_4))]
    pub fn push_peer(&mut self, peer: &PeerEntry) -> Result<(), WriteError>
        ensures ok { OnOk result (table_in self.new ≡ with_peer (table_in self.old) (peer_of peer.now)) }
        ensures err { OnErr result (table_in self.new ≡ table_in self.old) }
        ensures malformed { IsMalformed write_error result ↔ ¬ FitsPeer (peer_of peer.now) }
        ensures short { IsShort write_error result ↔ FitsPeer (peer_of peer.now)
            × ((65535 ≤ length (table_in self.old).peers) ⊎ ExceedsLimit (body_limit B.limit)
            (length (peer_table_octets (with_peer (table_in self.old) (peer_of peer.now))))) }
        ensures memory { IsMemory write_error result → B.asks ≡ true }
        ensures borrows { B.borrows (table_octets self.new) ≡ B.borrows (table_octets self.old) }
    {
        if !peer.fits() {
            return Err(WriteError::Malformed);
        }
        let (addr, addr_len) = address_octets(peer.addr);
        let asn = peer.asn.0.to_be_bytes();
        let parts: [&[u8]; 4] = [
            &peer.peer_type.to_be_bytes(),
            &peer.bgp_id.to_be_bytes(),
            &addr[..addr_len],
            asn_octets(&asn, peer.has_wide_asn()),
        ];
        self.push_parts(peer, &parts)?;
        Ok(())
    }

    /// Pushes a peer with these octets.
    fn push_parts(&mut self, peer: &PeerEntry, parts: &[&[u8]]) -> Result<(), AppendError>
        requires fits { FitsPeer (peer_of peer.now) }
        requires octets { parts_joined parts.now ≡ peer_octets (peer_of peer.now) }
        ensures ok { OnOk result (table_in self.new ≡ with_peer (table_in self.old) (peer_of peer.now)) }
        ensures err { OnErr result (table_in self.new ≡ table_in self.old) }
        ensures short { IsShort append_error result ↔ (65535 ≤ length (table_in self.old).peers)
            ⊎ ExceedsLimit (body_limit B.limit)
            (length (peer_table_octets (with_peer (table_in self.old) (peer_of peer.now)))) }
        ensures memory { IsMemory append_error result → B.asks ≡ true }
        ensures borrows { B.borrows (table_octets self.new) ≡ B.borrows (table_octets self.old) }
    {
        match push_item(&mut self.octets, self.count_at, self.count, parts) {
            Ok(count) => {
                self.count = count;
                Ok(())
            }
            Err(error) => Err(error),
        }
    }

    /// Returns the number of peers.
    pub fn count(&self) -> u16
        ensures { result ≡ length (table_in self.now).peers }
    {
        self.count
    }

    /// Returns the octets of the table so far.
    pub fn as_slice(&self) -> &[u8]
        ensures octets { result.now ≡ peer_table_octets (table_in self.now) }
        ensures fits { FitsPeerTable (table_in self.now) }
    {
        self.octets.as_ref()
    }

    /// Returns the builder, which holds the octets of the table.
    pub fn finish(self) -> B
        ensures octets { result ≡ table_octets self }
        ensures content { B.content result ≡ peer_table_octets (table_in self) }
        ensures fits { FitsPeerTable (table_in self) }
        ensures few { length (B.content result) ≤ 4294967295 }
    {
        self.octets
    }
}
