//! What was written is read back. Each law is the contract of a function that does nothing.
ghost use Rattle.std.specs.Prelude.{ℕ, ◌<◌, ◌≤◌, ◌^◌, length, true, false};
ghost use Rattle.std.specs.List.{AllByRecursion};
ghost use Rattle.octseq_bgp.specs.Family.{afi_of};
ghost use Rattle.octseq_bgp.specs.declared.family.AfiSafiType.{AfiSafiType as Family};
ghost use Rattle.std.specs.Prelude.{Bool};
ghost use Rattle.octseq_bgp.specs.Prefix.{most_bits};
ghost use Rattle.octseq_mrt.specs.Bgp4Mp.{Bgp4Mp};
ghost use Rattle.octseq_mrt.specs.Kind.{kind_type, kind_subtype};
ghost use Rattle.octseq_mrt.specs.ReadBack.{AreAttributes, IsReadAs, SaysBgp4Mp, SaysRib, SaysTable, bgp4mp_kind};
ghost use Rattle.octseq_mrt.specs.Written.{FitsBgp4Mp, FitsPeerTable, FitsRib, FitsRoute, PeerTable, Routes};
ghost use Rattle.octseq_mrt.specs.Written.{bgp4mp_octets, peer_table_octets, record_octets, rib_octets};
ghost use Rattle.octseq_mrt.specs.declared.kind.Bgp4MpSubtype.{Bgp4MpSubtype as Subtype};
ghost use Rattle.octseq_mrt.specs.declared.kind.RecordKind.TheVariants as kind;

/// A peer index table that was written is read back: its octets, after a header, are a record whose value says the
/// same.
#[tactic(auto, using(crate::proofs::ReadBack::tables))]
pub fn tables_are_read_back()
    ensures { (time : ℕ) (t : PeerTable) → time < 2 ^ 32 → FitsPeerTable t → length (peer_table_octets t) < 2 ^ 32
        → IsReadAs time kind.PeerIndexTable (SaysTable t) (record_octets time 13 1 (peer_table_octets t)) }
{}

/// So is a RIB, if the octets of its entries are path attributes.
#[tactic(auto, using(crate::proofs::ReadBack::ribs))]
pub fn ribs_are_read_back()
    ensures { (time : ℕ) (family : Family) (paths : Bool) (r : Routes) → time < 2 ^ 32
        → FitsRib (most_bits (afi_of family)) (FitsRoute paths) r
        → AllByRecursion (λ e. AreAttributes e.attributes) r.entries → length (rib_octets r) < 2 ^ 32
        → IsReadAs time (kind.Rib family paths) (SaysRib r)
        (record_octets time 13 (kind_subtype (kind.Rib family paths)) (rib_octets r)) }
{}

/// So is a message or a state change. Its message has the session that the subtype says.
#[tactic(auto, using(crate::proofs::ReadBack::events))]
pub fn events_are_read_back()
    ensures { (time : ℕ) (s : Subtype) (b : Bgp4Mp) → time < 2 ^ 32 → FitsBgp4Mp s b
        → length (bgp4mp_octets s b) < 2 ^ 32 → IsReadAs time (bgp4mp_kind s b) (SaysBgp4Mp s b)
        (record_octets time (kind_type (bgp4mp_kind s b)) (kind_subtype (bgp4mp_kind s b)) (bgp4mp_octets s b)) }
{}
