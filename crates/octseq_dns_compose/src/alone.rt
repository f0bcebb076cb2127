//! Data of octets that stand alone: no message is around them, so no name in them has a pointer.
ghost use Rattle.std.specs.Prelude.{◌≡◌, ◌↔◌, IsTrue};
ghost use Rattle.octseq_dns_data.specs.Data.{rtype_of};
ghost use Rattle.octseq_dns_data.specs.Typed.{rdata_of};
ghost use Rattle.octseq_dns_name.specs.Read.{name_of};
ghost use Rattle.octseq_dns_compose.specs.Alone.{ArePlain, IsPlain, SaysAlone};

use octseq::{Parser, Turns};
use octseq_dns_data::data::{UncompressedName, data_has_the_records_type, one_reading_of_data};
use octseq_dns_data::{Class, Data, Rtype};
use octseq_dns_name::ParsedName;
use octseq_format::Format;

/// Returns what octets say by themselves, by a type and a class.
pub(crate) fn data_of(octets: &[u8], rtype: Rtype, class: Class) -> Data<&[u8]>
    ensures says { SaysAlone rtype class octets.now (rdata_of result) }
    ensures rtype { rtype_of (rdata_of result) ≡ rtype }
{
    data_has_the_records_type();
    one_reading_of_data();
    let inside = Parser::from_ref(octets);
    match Data::parse(inside, inside, rtype, class, &mut Turns::new()) {
        Ok(found) if are_plain(&found) => found,
        _ => Data::Unknown(rtype, inside),
    }
}

/// Whether no name in data has a pointer.
fn are_plain(value: &Data<&[u8]>) -> bool
    ensures { IsTrue result ↔ ArePlain (rdata_of value.now) }
{
    match value {
        Data::Ns(name) => is_plain(name),
        Data::Cname(name) => is_plain(name),
        Data::Ptr(name) => is_plain(name),
        Data::Mx(mx) => is_plain(&mx.exchange),
        Data::Soa(soa) => is_plain(&soa.mname) && is_plain(&soa.rname),
        Data::Srv(srv) => is_plain(&srv.target),
        Data::Naptr(naptr) => is_plain(&naptr.replacement),
        _ => true,
    }
}

/// Whether a name has no pointers.
fn is_plain(name: &ParsedName<&[u8]>) -> bool
    ensures { IsTrue result ↔ IsPlain (name_of name.now) }
{
    let mut parser = name.parser();
    UncompressedName::parse_counted(&mut parser, &mut Turns::new()).is_ok()
}
