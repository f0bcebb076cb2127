//! Record data, read by the record's type and class: RFC 1035, 3.3 and 3.4.
ghost use Rattle.std.specs.Prelude.{◌≡◌, ◌≢◌, ℕ, ◌+◌, ◌-◌, ◌≤◌, List, Some, true, false, IsTrue, IsErr, IfOk, OnOk, ⊤};
ghost use Rattle.std.specs.Prelude.{Result, option_map};
ghost use Rattle.std.specs.Net.Addr.{IsIpv4Mapped, segments_of};
ghost use Rattle.octseq.specs.Parser.{window};
ghost use Rattle.octseq.specs.Window.{Window, left};
ghost use Rattle.octseq_dns_data.specs.Data.{ParsedRdata, FitsForm, HasRdata, IsTypedData, SaysData, is_in_message};
ghost use Rattle.octseq_dns_data.specs.Data.{form_octets, is_by_form, rtype_of};
ghost use Rattle.octseq_dns_data.specs.Local.{HasNoData, IsOfClass, TakesWindow, NoneLocal};
ghost use Rattle.octseq_dns_data.specs.RdataText.{rdata_text};
ghost use Rattle.octseq_dns_data.specs.Layout.{layout_value};
ghost use Rattle.octseq_dns_data.specs.Typed.{all_types, layout_of, rdata_of, reading_in};
ghost use Rattle.octseq_format.specs.Turns.{TakesTurns};
ghost use Rattle.octseq_dns_data.specs.DataTurns.{rdata_turns};
ghost use Rattle.octseq.specs.OctetsText.{is_compatible, ipv6_address_text};
ghost use Rattle.octseq_dns_data.specs.DataText.{IsGroupsText};

use crate::iana::{Class, Rtype};
use crate::layout::{Layout, NAME};
use octseq::octets_text::{write_ipv4, write_ipv6, write_opaque};
use octseq::{AppendError, AsOctets, Parser, Turns};
use octseq_dns_name::name::a_name_has_labels;
use octseq_dns_name::{DomainName, Malformed, ParsedName};
use octseq_format::{Fields, Format, OctetArray, Of};
use std::alloc::AllocError;
use std::fmt;

mod addresses;
mod caa;
mod csync;
mod denial;
mod dhcid;
mod dnssec;
mod formed;
mod hinfo;
mod keys;
mod mx;
mod naptr;
mod openpgpkey;
mod soa;
mod some_octets;
mod srv;
mod string;
mod svcb;
mod txt;
mod uncompressed_name;
mod uri;

pub use crate::data::caa::Caa;
pub use crate::data::csync::Csync;
pub use crate::data::denial::{Nsec, Nsec3, Nsec3param};
pub use crate::data::dhcid::Dhcid;
pub use crate::data::dnssec::{Dnskey, Ds, Rrsig};
pub use crate::data::formed::{Formed, FormedOctets};
pub use crate::data::hinfo::Hinfo;
pub use crate::data::keys::{Sshfp, Tlsa};
pub use crate::data::mx::Mx;
pub use crate::data::naptr::Naptr;
pub use crate::data::openpgpkey::Openpgpkey;
pub use crate::data::soa::Soa;
pub use crate::data::some_octets::{CaaTag, OwnerHash, SomeOctets};
pub use crate::data::srv::Srv;
pub use crate::data::svcb::Svcb;
pub use crate::data::txt::{CharStr, Strings, Txt};
pub use crate::data::uncompressed_name::UncompressedName;
pub use crate::data::uri::Uri;

/// Data says at most one thing.
///
/// It does nothing. Calling it brings the law into the caller's proof.
pub fn one_reading_of_data()
    ensures { (rtype class : ℕ) (w inside : Window) (rdata other : ParsedRdata) → SaysData rtype class w inside rdata
        → SaysData rtype class w inside other → rdata ≡ other }
{}

/// What data says has the record's type.
///
/// It does nothing. Calling it brings the law into the caller's proof.
pub fn data_has_the_records_type()
    ensures { (rtype class : ℕ) (w inside : Window) (rdata : ParsedRdata) → SaysData rtype class w inside rdata
        → rtype_of rdata ≡ rtype }
{}

/// An IPv6 address without an IPv4 address in it is shown as its eight groups, with `::` for the first of the longest
/// runs of two or more zero groups: RFC 5952, 4.2.
///
/// It does nothing. Calling it brings the law into the caller's proof.
pub fn zero_groups_are_shortened()
    ensures { (octets : List ℕ) → ¬ IsTrue (is_compatible octets) → ¬ IsIpv4Mapped (segments_of octets)
        → IsGroupsText (segments_of octets) (ipv6_address_text octets) }
{}

/// What data is written by: a value in the format of its type, in one piece.
pub trait FormWriter<R: AsOctets + Copy> {
    ghost use Rattle.octseq.specs.declared.AppendError.{AppendError};

    /// What it is written to.
    type Target;

    // `writes octets old result new`: the octets are written to the target, or it says why they aren't.
    ghost writes: { List ℕ → Self.Target → Result (Unit {0}) AppendError → Self.Target → Type 0 };

    /// Writes the octets of a value in a format.
    ///
    /// # Errors
    ///
    /// `Short` if there is no room, `Memory` if a request for memory was refused.
    fn write<F: Format<R>>(target: &mut Self::Target, value: &F::Value) -> Result<(), AppendError>
        requires { F.fits (F.says (F.found value.now)) }
        ensures { writes (F.octets (F.says (F.found value.now))) target.old result target.new };
}

/// The data of a record. Names in it stay in the message, and no octet of them is copied.
#[derive(Debug)]
pub enum Data<R: AsOctets> {
    /// An IPv4 address, in class IN: RFC 1035, 3.4.1.
    A([u8; 4]),
    /// An IPv6 address, in class IN: RFC 3596, 2.2.
    Aaaa([u8; 16]),
    /// A name server: RFC 1035, 3.3.11.
    Ns(ParsedName<R>),
    /// The canonical name of an alias: RFC 1035, 3.3.1.
    Cname(ParsedName<R>),
    /// A pointer to another name: RFC 1035, 3.3.12.
    Ptr(ParsedName<R>),
    /// A mail exchange: RFC 1035, 3.3.9.
    Mx(Mx<R>),
    /// The start of authority: RFC 1035, 3.3.13.
    Soa(Soa<R>),
    /// Character strings: RFC 1035, 3.3.14.
    Txt(Txt<R>),
    /// The location of a service, in class IN: RFC 2782.
    Srv(Srv<R>),
    /// A naming authority pointer, in class IN: RFC 3403.
    Naptr(Naptr<R>),
    /// Host information: RFC 1035, 3.3.2.
    Hinfo(Hinfo<R>),
    /// The name that replaces the owner for all names below it: RFC 6672.
    Dname(ParsedName<R>),
    /// The digest of a key of a child zone: RFC 4034, 5.
    Ds(Ds<R>),
    /// The fingerprint of a host's SSH key: RFC 4255.
    Sshfp(Sshfp<R>),
    /// A signature of a record set: RFC 4034, 3.
    Rrsig(Rrsig<R>),
    /// The next name of a zone, and the types that the owner has: RFC 4034, 4.
    Nsec(Nsec<R>),
    /// A public key of a zone: RFC 4034, 2.
    Dnskey(Dnskey<R>),
    /// Which DHCP client a name belongs to, in class IN: RFC 4701.
    Dhcid(Dhcid<R>),
    /// The next hashed owner name of a zone, and the types that the name has: RFC 5155, 3.
    Nsec3(Nsec3<R>),
    /// The parameters by which a zone hashes its names: RFC 5155, 4.
    Nsec3param(Nsec3param<R>),
    /// A certificate association of a TLS server: RFC 6698.
    Tlsa(Tlsa<R>),
    /// A certificate association of a mailbox: RFC 8162.
    Smimea(Tlsa<R>),
    /// The DS that a child zone wants in its parent: RFC 7344.
    Cds(Ds<R>),
    /// The key whose DS a child zone wants in its parent: RFC 7344.
    Cdnskey(Dnskey<R>),
    /// The OpenPGP key of a mailbox: RFC 7929.
    Openpgpkey(Openpgpkey<R>),
    /// The types that a parent zone should copy from its child: RFC 7477.
    Csync(Csync<R>),
    /// Who may issue certificates: RFC 8659.
    Caa(Caa<R>),
    /// A service binding, in class IN: RFC 9460.
    Svcb(Svcb<R>),
    /// A service binding of HTTPS, in class IN: RFC 9460.
    Https(Svcb<R>),
    /// The location of a service, as a URI: RFC 7553.
    Uri(Uri<R>),
    /// Data of an unknown form: the record's type, and a parser of the message limited to the data (RFC 3597).
    Unknown(Rtype, Parser<R>),
}

impl<R: AsOctets + Copy> Copy for Data<R> {}

impl<R: AsOctets + Copy> Clone for Data<R> {
    ghost is_clone = { λ found copy. copy ≡ found };

    ghost is_infallible = { λ _. ⊤ };

    fn clone(&self) -> Result<Self, AllocError> {
        Ok(*self)
    }
}

impl<R: AsOctets + Copy> Data<R> {
    ghost use Rattle.octseq_dns_data.specs.Typed.{AreStringsAt};

    /// Returns the type of the record.
    pub fn rtype(&self) -> Rtype
        ensures { result ≡ rtype_of (rdata_of self.now) }
    {
        match self {
            Data::A(_) => Rtype::A,
            Data::Aaaa(_) => Rtype::AAAA,
            Data::Ns(_) => Rtype::NS,
            Data::Cname(_) => Rtype::CNAME,
            Data::Ptr(_) => Rtype::PTR,
            Data::Mx(_) => Rtype::MX,
            Data::Soa(_) => Rtype::SOA,
            Data::Txt(_) => Rtype::TXT,
            Data::Srv(_) => Rtype::SRV,
            Data::Naptr(_) => Rtype::NAPTR,
            Data::Hinfo(_) => Rtype::HINFO,
            Data::Dname(_) => Rtype::DNAME,
            Data::Ds(_) => Rtype::DS,
            Data::Sshfp(_) => Rtype::SSHFP,
            Data::Rrsig(_) => Rtype::RRSIG,
            Data::Nsec(_) => Rtype::NSEC,
            Data::Dnskey(_) => Rtype::DNSKEY,
            Data::Dhcid(_) => Rtype::DHCID,
            Data::Nsec3(_) => Rtype::NSEC3,
            Data::Nsec3param(_) => Rtype::NSEC3PARAM,
            Data::Tlsa(_) => Rtype::TLSA,
            Data::Smimea(_) => Rtype::SMIMEA,
            Data::Cds(_) => Rtype::CDS,
            Data::Cdnskey(_) => Rtype::CDNSKEY,
            Data::Openpgpkey(_) => Rtype::OPENPGPKEY,
            Data::Csync(_) => Rtype::CSYNC,
            Data::Caa(_) => Rtype::CAA,
            Data::Svcb(_) => Rtype::SVCB,
            Data::Https(_) => Rtype::HTTPS,
            Data::Uri(_) => Rtype::URI,
            Data::Unknown(rtype, _) => *rtype,
        }
    }

    /// Data that is written by its form, rather than by fields some of which are compressed, has octets: its parts fit.
    ///
    /// It does nothing. Calling it brings the law into the caller's proof.
    #[tactic(auto, unfolding(octseq_format::specs::Pair::both_say))]
    pub fn has_octets(&self)
        ensures { FitsForm (rdata_of self.now) }
    {
        match self {
            Data::Naptr(naptr) => {
                drop(naptr.to_fields());
                // A name has at most 255 octets: its length tells it, here and below.
                let _len = naptr.replacement.len();
                a_name_has_labels(&naptr.replacement);
            }
            Data::Hinfo(hinfo) => drop(hinfo.to_fields()),
            Data::Ds(ds) => drop(ds.to_fields()),
            Data::Sshfp(sshfp) => drop(sshfp.to_fields()),
            Data::Rrsig(sig) => {
                drop(sig.to_fields());
                let _len = sig.signer_name.len();
                a_name_has_labels(&sig.signer_name);
            }
            Data::Nsec(nsec) => {
                drop(nsec.to_fields());
                let _len = nsec.next_name.len();
                a_name_has_labels(&nsec.next_name);
            }
            Data::Dnskey(key) => drop(key.to_fields()),
            Data::Dhcid(dhcid) => drop(dhcid.to_fields()),
            Data::Nsec3(nsec) => drop(nsec.to_fields()),
            Data::Nsec3param(param) => drop(param.to_fields()),
            Data::Tlsa(tlsa) => drop(tlsa.to_fields()),
            Data::Smimea(tlsa) => drop(tlsa.to_fields()),
            Data::Cds(ds) => drop(ds.to_fields()),
            Data::Cdnskey(key) => drop(key.to_fields()),
            Data::Openpgpkey(key) => drop(key.to_fields()),
            Data::Csync(csync) => drop(csync.to_fields()),
            Data::Caa(caa) => drop(caa.to_fields()),
            Data::Svcb(svcb) => {
                drop(svcb.to_fields());
                let _len = svcb.target.len();
                a_name_has_labels(&svcb.target);
            }
            Data::Https(svcb) => {
                drop(svcb.to_fields());
                let _len = svcb.target.len();
                a_name_has_labels(&svcb.target);
            }
            Data::Uri(uri) => drop(uri.to_fields()),
            Data::Dname(name) => {
                let _len = name.len();
                a_name_has_labels(name);
            }
            _ => {}
        }
    }

    /// Writes data by the form of its type: NAPTR, and data that is read by itself. Its octets are written at once.
    ///
    /// # Errors
    ///
    /// Those of the writer.
    #[inline(always)]
    pub fn write_form<W: FormWriter<R>>(&self, target: &mut W::Target) -> Result<(), AppendError>
        requires { is_by_form (rdata_of self.now) ≡ true }
        ensures { W.writes (form_octets (rdata_of self.now)) target.old result target.new }
    {
        self.has_octets();
        match self {
            Data::Naptr(naptr) => W::write::<Of<Naptr<R>>>(target, naptr),
            Data::Hinfo(hinfo) => W::write::<Of<Hinfo<R>>>(target, hinfo),
            Data::Dname(name) => W::write::<UncompressedName>(target, name),
            Data::Ds(ds) => W::write::<Of<Ds<R>>>(target, ds),
            Data::Sshfp(sshfp) => W::write::<Of<Sshfp<R>>>(target, sshfp),
            Data::Rrsig(sig) => W::write::<Of<Rrsig<R>>>(target, sig),
            Data::Nsec(nsec) => W::write::<Of<Nsec<R>>>(target, nsec),
            Data::Dnskey(key) => W::write::<Of<Dnskey<R>>>(target, key),
            Data::Dhcid(dhcid) => W::write::<Of<Dhcid<R>>>(target, dhcid),
            Data::Nsec3(nsec) => W::write::<Of<Nsec3<R>>>(target, nsec),
            Data::Nsec3param(param) => W::write::<Of<Nsec3param<R>>>(target, param),
            Data::Tlsa(tlsa) => W::write::<Of<Tlsa<R>>>(target, tlsa),
            Data::Smimea(tlsa) => W::write::<Of<Tlsa<R>>>(target, tlsa),
            Data::Cds(ds) => W::write::<Of<Ds<R>>>(target, ds),
            Data::Cdnskey(key) => W::write::<Of<Dnskey<R>>>(target, key),
            Data::Openpgpkey(key) => W::write::<Of<Openpgpkey<R>>>(target, key),
            Data::Csync(csync) => W::write::<Of<Csync<R>>>(target, csync),
            Data::Caa(caa) => W::write::<Of<Caa<R>>>(target, caa),
            Data::Svcb(svcb) => W::write::<Of<Svcb<R>>>(target, svcb),
            Data::Https(svcb) => W::write::<Of<Svcb<R>>>(target, svcb),
            Data::Uri(uri) => W::write::<Of<Uri<R>>>(target, uri),
            _ => unreachable!(),
        }
    }

    /// Reads data of a type and a class, given where it is in the message, and its own window. It counts the turns of
    /// the names, strings, window blocks and parameters in it.
    ///
    /// # Errors
    ///
    /// `Malformed` if it doesn't have the form of its type.
    pub fn parse(
        message: Parser<R>,
        inside: Parser<R>,
        rtype: Rtype,
        class: Class,
        turns: &mut Turns,
    ) -> Result<Data<R>, Malformed>
        ensures rdata { IfOk result (λ found.
            IsTypedData rtype class (window message) (window inside) (rdata_of found)) }
        ensures place { IfOk result (AreStringsAt (window message)) }
        ensures malformed { IsErr result → (rdata : ParsedRdata)
            → ¬ IsTypedData rtype class (window message) (window inside) rdata }
        ensures some { turns.old ≤ turns.new }
        ensures least { IfOk result (λ found. turns.old + rdata_turns (rdata_of found) ≤ turns.new) }
        ensures turns { (window message).position ≡ (window inside).position
            → turns.new ≤ turns.old + 510 + left (window inside) }
        ensures names { is_in_message rtype ≡ true → rtype ≢ 16 → turns.new ≤ turns.old + 510 }
    {
        if is_in_message(rtype) {
            let mut parser = message;
            let end = inside.len();
            let found = Data::parse_in_message(&mut parser, rtype, class, end, turns)?;
            return Ok(found);
        }
        let found = Data::parse_local(inside, rtype, class, turns)?;
        Ok(found)
    }

    /// Reads data of a type and a class that ends at `end` in the message. It counts the turns of the names and strings
    /// in it.
    fn parse_in_message(
        parser: &mut Parser<R>,
        rtype: Rtype,
        class: Class,
        end: usize,
        turns: &mut Turns,
    ) -> Result<Data<R>, Malformed>
        ensures rdata { IfOk result (λ found.
            HasRdata rtype class (window parser.old) (rdata_of found) (window parser.new)) }
        ensures place { IfOk result (AreStringsAt (window parser.old)) }
        ensures ends { OnOk result ((window parser.new).position ≡ end) }
        ensures malformed { IsErr result → (rdata : ParsedRdata) (v : Window)
            → HasRdata rtype class (window parser.old) rdata v → ¬ (v.position ≡ end) }
        ensures some { turns.old ≤ turns.new }
        ensures least { IfOk result (λ found. turns.old + rdata_turns (rdata_of found) ≤ turns.new) }
        ensures turns { turns.new ≤ turns.old + 510 + (end - (window parser.old).position) }
        ensures names { rtype ≢ 16 → turns.new ≤ turns.old + 510 }
    {
        if rtype == Rtype::TXT {
            return Ok(Data::Txt(Txt::parse(parser, end, turns)?));
        }
        let found = Data::take(parser, rtype, class, turns)?;
        if parser.pos() != end {
            return Err(Malformed);
        }
        Ok(found)
    }

    /// Reads data of a type and a class that shows its own end: any type but TXT.
    fn take(
        parser: &mut Parser<R>,
        rtype: Rtype,
        class: Class,
        turns: &mut Turns,
    ) -> Result<Data<R>, Malformed>
        ensures rdata { IfOk result (λ found.
            HasRdata rtype class (window parser.old) (rdata_of found) (window parser.new)) }
        ensures place { IfOk result (AreStringsAt (window parser.old)) }
        ensures malformed { IsErr result → rtype ≢ 16 → (rdata : ParsedRdata) (v : Window)
            → ¬ HasRdata rtype class (window parser.old) rdata v }
        ensures some { turns.old ≤ turns.new }
        ensures least { IfOk result (λ found. turns.old + rdata_turns (rdata_of found) ≤ turns.new) }
        ensures turns { turns.new ≤ turns.old + 510 }
    {
        if rtype == Rtype::NS {
            return Ok(Data::Ns(DomainName::parse_counted(parser, turns)?));
        }
        if rtype == Rtype::CNAME {
            return Ok(Data::Cname(DomainName::parse_counted(parser, turns)?));
        }
        if rtype == Rtype::PTR {
            return Ok(Data::Ptr(DomainName::parse_counted(parser, turns)?));
        }
        if rtype == Rtype::MX {
            return Ok(Data::Mx(Of::<Mx<R>>::parse_counted(parser, turns)?));
        }
        if rtype == Rtype::SOA {
            return Ok(Data::Soa(Of::<Soa<R>>::parse_counted(parser, turns)?));
        }
        if class != Class::IN {
            return Err(Malformed);
        }
        if rtype == Rtype::A {
            return Ok(Data::A(OctetArray::<4>::parse(parser)?));
        }
        if rtype == Rtype::AAAA {
            return Ok(Data::Aaaa(OctetArray::<16>::parse(parser)?));
        }
        if rtype == Rtype::SRV {
            return Ok(Data::Srv(Of::<Srv<R>>::parse_counted(parser, turns)?));
        }
        if rtype == Rtype::NAPTR {
            return Ok(Data::Naptr(Of::<Naptr<R>>::parse_counted(parser, turns)?));
        }
        Err(Malformed)
    }

    /// Reads data of a type and a class from its own window.
    fn parse_local(
        inside: Parser<R>,
        rtype: Rtype,
        class: Class,
        turns: &mut Turns,
    ) -> Result<Data<R>, Malformed>
        ensures rdata { IfOk result (λ found. (w : Window)
            → IsTypedData rtype class w (window inside) (rdata_of found)) }
        ensures place { IfOk result (λ found. (w : Window) → AreStringsAt w found) }
        ensures malformed { IsErr result → NoneLocal rtype class (window inside) }
        ensures some { turns.old ≤ turns.new }
        ensures least { IfOk result (λ found. turns.old + rdata_turns (rdata_of found) ≤ turns.new) }
        ensures turns { turns.new ≤ turns.old + 510 + left (window inside) }
    {
        match rtype {
            Rtype::HINFO => Ok(Data::Hinfo(record(Rtype::HINFO, inside, turns)?)),
            Rtype::DNAME => Ok(Data::Dname(typed::<R, UncompressedName>(
                Rtype::DNAME,
                inside,
                turns,
            )?)),
            Rtype::DS => Ok(Data::Ds(record(Rtype::DS, inside, turns)?)),
            Rtype::SSHFP => Ok(Data::Sshfp(record(Rtype::SSHFP, inside, turns)?)),
            Rtype::RRSIG => Ok(Data::Rrsig(record(Rtype::RRSIG, inside, turns)?)),
            Rtype::NSEC => Ok(Data::Nsec(record(Rtype::NSEC, inside, turns)?)),
            Rtype::DNSKEY => Ok(Data::Dnskey(record(Rtype::DNSKEY, inside, turns)?)),
            Rtype::DHCID => Ok(Data::Dhcid(record_in(Rtype::DHCID, inside, class, turns)?)),
            Rtype::NSEC3 => Ok(Data::Nsec3(record(Rtype::NSEC3, inside, turns)?)),
            Rtype::NSEC3PARAM => Ok(Data::Nsec3param(record(Rtype::NSEC3PARAM, inside, turns)?)),
            Rtype::TLSA => Ok(Data::Tlsa(record(Rtype::TLSA, inside, turns)?)),
            Rtype::SMIMEA => Ok(Data::Smimea(record(Rtype::SMIMEA, inside, turns)?)),
            Rtype::CDS => Ok(Data::Cds(record(Rtype::CDS, inside, turns)?)),
            Rtype::CDNSKEY => Ok(Data::Cdnskey(record(Rtype::CDNSKEY, inside, turns)?)),
            Rtype::OPENPGPKEY => Ok(Data::Openpgpkey(record(Rtype::OPENPGPKEY, inside, turns)?)),
            Rtype::CSYNC => Ok(Data::Csync(record(Rtype::CSYNC, inside, turns)?)),
            Rtype::CAA => Ok(Data::Caa(record(Rtype::CAA, inside, turns)?)),
            Rtype::SVCB => Ok(Data::Svcb(record_in(Rtype::SVCB, inside, class, turns)?)),
            Rtype::HTTPS => Ok(Data::Https(record_in(Rtype::HTTPS, inside, class, turns)?)),
            Rtype::URI => Ok(Data::Uri(record(Rtype::URI, inside, turns)?)),
            _ => Err(Malformed),
        }
    }
}

/// Prints the data in its text form: an address as in RFC 5952, and octets of an unknown form as in RFC 3597, 5.
impl<R: AsOctets + Copy> fmt::Display for Data<R> {
    ghost output = { λ found. Some (rdata_text (rdata_of found)) };

    fn fmt<W: fmt::Write>(&self, f: &mut fmt::Formatter<W>) -> fmt::Result {
        match self {
            Data::A(octets) => write_ipv4(f, *octets),
            Data::Aaaa(octets) => write_ipv6(f, *octets),
            Data::Ns(name) => write!(f, "{name}"),
            Data::Cname(name) => write!(f, "{name}"),
            Data::Ptr(name) => write!(f, "{name}"),
            Data::Mx(mx) => write!(f, "{mx}"),
            Data::Soa(soa) => write!(f, "{soa}"),
            Data::Txt(txt) => write!(f, "{txt}"),
            Data::Srv(srv) => write!(f, "{srv}"),
            Data::Naptr(naptr) => write!(f, "{naptr}"),
            Data::Hinfo(hinfo) => write!(f, "{hinfo}"),
            Data::Dname(name) => write!(f, "{name}"),
            Data::Ds(ds) => write!(f, "{ds}"),
            Data::Sshfp(sshfp) => write!(f, "{sshfp}"),
            Data::Rrsig(sig) => write!(f, "{sig}"),
            Data::Nsec(nsec) => write!(f, "{nsec}"),
            Data::Dnskey(key) => write!(f, "{key}"),
            Data::Dhcid(dhcid) => write!(f, "{dhcid}"),
            Data::Nsec3(nsec) => write!(f, "{nsec}"),
            Data::Nsec3param(param) => write!(f, "{param}"),
            Data::Tlsa(tlsa) => write!(f, "{tlsa}"),
            Data::Smimea(tlsa) => write!(f, "{tlsa}"),
            Data::Cds(ds) => write!(f, "{ds}"),
            Data::Cdnskey(key) => write!(f, "{key}"),
            Data::Openpgpkey(key) => write!(f, "{key}"),
            Data::Csync(csync) => write!(f, "{csync}"),
            Data::Caa(caa) => write!(f, "{caa}"),
            Data::Svcb(svcb) => write!(f, "{svcb}"),
            Data::Https(svcb) => write!(f, "{svcb}"),
            Data::Uri(uri) => write!(f, "{uri}"),
            Data::Unknown(_, parser) => write_opaque(f, parser.peek_all()),
        }
    }
}

/// Returns how the text of data of a type and a class is read, or `None` if such data has no form: its text is then
/// that of data of an unknown type alone (RFC 3597, 5).
pub fn layout_of(rtype: Rtype, class: Class) -> Option<Layout>
    ensures { option_map (λ layout. layout_value layout.fields.now layout.tail) result ≡ layout_of rtype class }
{
    match rtype {
        Rtype::A => in_class_in(Rtype::A, class, addresses::A_LAYOUT),
        Rtype::NS => in_any_class(Rtype::NS, class, NAME),
        Rtype::CNAME => in_any_class(Rtype::CNAME, class, NAME),
        Rtype::SOA => in_any_class(Rtype::SOA, class, soa::LAYOUT),
        Rtype::PTR => in_any_class(Rtype::PTR, class, NAME),
        Rtype::HINFO => in_any_class(Rtype::HINFO, class, hinfo::LAYOUT),
        Rtype::MX => in_any_class(Rtype::MX, class, mx::LAYOUT),
        Rtype::TXT => in_any_class(Rtype::TXT, class, txt::LAYOUT),
        Rtype::AAAA => in_class_in(Rtype::AAAA, class, addresses::AAAA_LAYOUT),
        Rtype::SRV => in_class_in(Rtype::SRV, class, srv::LAYOUT),
        Rtype::NAPTR => in_class_in(Rtype::NAPTR, class, naptr::LAYOUT),
        Rtype::DNAME => in_any_class(Rtype::DNAME, class, NAME),
        Rtype::DS => in_any_class(Rtype::DS, class, dnssec::DS_LAYOUT),
        Rtype::SSHFP => in_any_class(Rtype::SSHFP, class, keys::SSHFP_LAYOUT),
        Rtype::RRSIG => in_any_class(Rtype::RRSIG, class, dnssec::RRSIG_LAYOUT),
        Rtype::NSEC => in_any_class(Rtype::NSEC, class, denial::NSEC_LAYOUT),
        Rtype::DNSKEY => in_any_class(Rtype::DNSKEY, class, dnssec::DNSKEY_LAYOUT),
        Rtype::DHCID => in_class_in(Rtype::DHCID, class, dhcid::LAYOUT),
        Rtype::NSEC3 => in_any_class(Rtype::NSEC3, class, denial::NSEC3_LAYOUT),
        Rtype::NSEC3PARAM => in_any_class(Rtype::NSEC3PARAM, class, denial::NSEC3PARAM_LAYOUT),
        Rtype::TLSA => in_any_class(Rtype::TLSA, class, keys::TLSA_LAYOUT),
        Rtype::SMIMEA => in_any_class(Rtype::SMIMEA, class, keys::TLSA_LAYOUT),
        Rtype::CDS => in_any_class(Rtype::CDS, class, dnssec::DS_LAYOUT),
        Rtype::CDNSKEY => in_any_class(Rtype::CDNSKEY, class, dnssec::DNSKEY_LAYOUT),
        Rtype::OPENPGPKEY => in_any_class(Rtype::OPENPGPKEY, class, openpgpkey::LAYOUT),
        Rtype::CSYNC => in_any_class(Rtype::CSYNC, class, csync::LAYOUT),
        Rtype::CAA => in_any_class(Rtype::CAA, class, caa::LAYOUT),
        Rtype::SVCB => in_class_in(Rtype::SVCB, class, svcb::LAYOUT),
        Rtype::HTTPS => in_class_in(Rtype::HTTPS, class, svcb::LAYOUT),
        Rtype::URI => in_any_class(Rtype::URI, class, uri::LAYOUT),
        _ => None,
    }
}

/// Returns how the text of a type is read, in any class.
#[tactic(auto, unfolding(crate::specs::Typed::layout_of))]
fn in_any_class(rtype: Rtype, class: Class, layout: Layout) -> Option<Layout>
    requires { reading_in all_types rtype ≡ Some (false, layout_value layout.fields.now layout.tail) }
    ensures { option_map (λ layout. layout_value layout.fields.now layout.tail) result ≡ layout_of rtype class }
{
    Some(layout)
}

/// Returns how the text of a type is read, in class IN only.
#[tactic(auto, unfolding(crate::specs::Typed::layout_of))]
fn in_class_in(rtype: Rtype, class: Class, layout: Layout) -> Option<Layout>
    requires { reading_in all_types rtype ≡ Some (true, layout_value layout.fields.now layout.tail) }
    ensures { option_map (λ layout. layout_value layout.fields.now layout.tail) result ≡ layout_of rtype class }
{
    match class {
        Class::IN => Some(layout),
        _ => None,
    }
}

/// Reads the record of a type, which is of class IN only, from its own window.
fn record_in<R: AsOctets + Copy, S: Fields<R>>(
    rtype: Rtype,
    inside: Parser<R>,
    class: Class,
    turns: &mut Turns,
) -> Result<S, Malformed>
    requires agrees { HasNoData rtype S.Format.is_at }
    requires only { (other : ℕ) → IsOfClass rtype other → other ≡ 1 }
    ensures class { OnOk result (class ≡ 1) }
    ensures value { IfOk result (λ value.
        TakesWindow S.Format.is_at (window inside) (S.Format.found (S.fields value))) }
    ensures malformed { IsErr result → NoneLocal rtype class (window inside) }
    ensures least { IfOk result (λ value. turns.old + S.Format.turns_of (S.Format.found (S.fields value))
        ≤ turns.new) }
    ensures turns { TakesTurns S.Format.base S.Format.rate (left (window inside)) turns.old turns.new }
{
    if class != Class::IN {
        return Err(Malformed);
    }
    record(rtype, inside, turns)
}

/// Reads the record of a type from its own window.
fn record<R: AsOctets + Copy, S: Fields<R>>(
    rtype: Rtype,
    inside: Parser<R>,
    turns: &mut Turns,
) -> Result<S, Malformed>
    requires agrees { HasNoData rtype S.Format.is_at }
    ensures value { IfOk result (λ value.
        TakesWindow S.Format.is_at (window inside) (S.Format.found (S.fields value))) }
    ensures malformed { IsErr result → (class : ℕ) → NoneLocal rtype class (window inside) }
    ensures least { IfOk result (λ value. turns.old + S.Format.turns_of (S.Format.found (S.fields value))
        ≤ turns.new) }
    ensures turns { TakesTurns S.Format.base S.Format.rate (left (window inside)) turns.old turns.new }
{
    typed::<R, Of<S>>(rtype, inside, turns)
}

/// Reads data of a type, which has this format, from its own window.
fn typed<R: AsOctets + Copy, F: Format<R>>(
    rtype: Rtype,
    inside: Parser<R>,
    turns: &mut Turns,
) -> Result<F::Value, Malformed>
    requires agrees { HasNoData rtype F.is_at }
    ensures value { IfOk result (λ value. TakesWindow F.is_at (window inside) (F.found value)) }
    ensures malformed { IsErr result → (class : ℕ) → NoneLocal rtype class (window inside) }
    ensures least { IfOk result (λ value. turns.old + F.turns_of (F.found value) ≤ turns.new) }
    ensures turns { TakesTurns F.base F.rate (left (window inside)) turns.old turns.new }
{
    whole::<R, F>(inside, turns)
}

/// Reads a value that takes the whole window.
fn whole<R: AsOctets + Copy, F: Format<R>>(
    inside: Parser<R>,
    turns: &mut Turns,
) -> Result<F::Value, Malformed>
    ensures value { IfOk result (λ value. TakesWindow F.is_at (window inside) (F.found value)) }
    ensures malformed { IsErr result → (other : F.Found) → ¬ TakesWindow F.is_at (window inside) other }
    ensures least { IfOk result (λ value. turns.old + F.turns_of (F.found value) ≤ turns.new) }
    ensures turns { TakesTurns F.base F.rate (left (window inside)) turns.old turns.new }
{
    let mut ahead = inside;
    let value = F::parse_counted(&mut ahead, turns)?;
    if ahead.remaining() > 0 {
        return Err(Malformed);
    }
    Ok(value)
}

/// Whether data of a type is read in the message: types whose names may have pointers, and A, AAAA and TXT.
fn is_in_message(rtype: Rtype) -> bool
    ensures { result ≡ is_in_message rtype }
{
    matches!(rtype.to_int(), 1 | 2 | 5 | 6 | 12 | 15 | 16 | 28 | 33 | 35)
}
