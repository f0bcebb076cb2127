//! Writing record data: RFC 1035, 3.3, and RFC 3597.
ghost use Rattle.std.specs.Prelude.{◌≡◌, ◌≤◌, ◌+◌, ◌*◌, ◌⊎◌, ◌++◌, [], ◌∷◌, length, true, OnOk};
ghost use Rattle.std.specs.List.{AllByRecursion};
ghost use Rattle.octseq.specs.Integer.{octets_be};
ghost use Rattle.octseq_dns_compress.specs.Composed.{Composes, message_limit};
ghost use Rattle.octseq_dns_compress.specs.Fits.{FitsField};
ghost use Rattle.octseq_dns_compress.specs.State.{Field, label_count, with_fields};
ghost use Rattle.octseq_dns.specs.Rdata.{bare_rdata, rdata_fields, rtype_of};
ghost use Rattle.octseq_dns_data.specs.Data.{ParsedRdata};
ghost use Rattle.octseq_dns_data.specs.Typed.{rdata_of, mx_of, soa_of, srv_of};

use octseq::builder::{AsOctetsMut, infallible};
use octseq::{AppendError, Array, AsOctets, OctetsBuilder, Truncate, Turns};
use octseq_dns_compress::{Composer, Compressor};
use octseq_dns_data::data::{FormWriter, Mx, Soa, Srv};
use octseq_dns_data::{Data, Rtype};
use octseq_dns_name::DomainName;
use octseq_dns_name::name::a_name_has_labels;
use octseq_format::Format;
use std::marker::PhantomData;

/// Record data that can be written: its type, and its fields, each of which is a name that may be compressed, or
/// octets.
pub trait ComposeRecordData {
    ghost use Rattle.std.specs.Prelude.{ℕ, List};

    // The number of its type.
    ghost rtype_of: { Self → ℕ };

    // Its fields.
    ghost fields: { Self → List Field };

    /// Returns its type.
    fn rtype(&self) -> Rtype
        ensures { result ≡ rtype_of self.now };

    /// Appends its fields to a message, one after another.
    ///
    /// # Errors
    ///
    /// `Short` if the message would exceed the limit of the builder's type or 65,535 octets, and `Memory` if a request
    /// for memory was refused. Some of the octets may then have been appended.
    fn compose<B: OctetsBuilder + Truncate + AsOctetsMut, T: Compressor>(
        &self,
        message: &mut Composer<B, T>,
        turns: &mut Turns,
    ) -> Result<(), AppendError>
        ensures composed { Composes (message_limit B.limit) ((B.asks ≡ true) ⊎ (T.asks ≡ true)) result
            (with_fields T.most message.old.state (fields self.now)) message.old message.new }
        ensures fits { OnOk result (AllByRecursion FitsField (fields self.now)) }
        ensures borrows { B.borrows message.new.octets ≡ B.borrows message.old.octets }
        ensures on { turns.old ≤ turns.new }
        ensures turns { turns.new ≤ turns.old + 17 * label_count (fields self.now) }
        ensures least { OnOk result (turns.old + label_count (fields self.now) + length message.old.state.octets
            ≤ turns.new + length message.new.state.octets) };
}

/// Data of a type given by its number, as opaque octets: RFC 3597.
#[derive(Clone, Copy, Debug)]
pub struct UnknownRecordData<'a> {
    rtype: Rtype,
    octets: &'a [u8],
}

impl<'a> UnknownRecordData<'a> {
    /// Returns data of a type with these octets.
    pub fn new(rtype: Rtype, octets: &'a [u8]) -> Self
        ensures rtype { result.rtype ≡ rtype }
        ensures octets { result.octets.now ≡ octets.now }
    {
        UnknownRecordData { rtype, octets }
    }
}

impl<'a> ComposeRecordData for UnknownRecordData<'a> {
    ghost rtype_of = { λ unknown. unknown.rtype };

    ghost fields = { λ unknown. Field.octets unknown.octets.now ∷ [] };

    fn rtype(&self) -> Rtype {
        self.rtype
    }

    fn compose<B: OctetsBuilder + Truncate + AsOctetsMut, T: Compressor>(
        &self,
        message: &mut Composer<B, T>,
        _turns: &mut Turns,
    ) -> Result<(), AppendError> {
        message.append_slice(self.octets)
    }
}

impl<R: AsOctets + Copy> ComposeRecordData for Data<R> {
    ghost rtype_of = { λ rdata. rtype_of (bare_rdata (rdata_of rdata)) };

    ghost fields = { λ rdata. rdata_fields (bare_rdata (rdata_of rdata)) };

    fn rtype(&self) -> Rtype {
        Data::rtype(self)
    }

    fn compose<B: OctetsBuilder + Truncate + AsOctetsMut, T: Compressor>(
        &self,
        message: &mut Composer<B, T>,
        turns: &mut Turns,
    ) -> Result<(), AppendError> {
        match self {
            Data::A(address) => message.append_slice(address),
            Data::Aaaa(address) => message.append_slice(address),
            Data::Ns(name) => message.append_name(name, turns),
            Data::Cname(name) => message.append_name(name, turns),
            Data::Ptr(name) => message.append_name(name, turns),
            Data::Mx(mx) => compose_mx(message, mx, turns),
            Data::Soa(soa) => compose_soa(message, soa, turns),
            Data::Txt(txt) => message.append_slice(txt.as_slice()),
            Data::Srv(srv) => compose_srv(message, srv),
            Data::Unknown(_, octets) => message.append_slice(octets.peek_all()),
            _ => self.write_form::<ToMessage<B, T>>(message),
        }
    }
}

/// Writes the values of forms to a message.
struct ToMessage<B, T> {
    message: PhantomData<(B, T)>,
}

impl<R: AsOctets + Copy, B: OctetsBuilder + Truncate + AsOctetsMut, T: Compressor> FormWriter<R>
    for ToMessage<B, T> {
    ghost use Rattle.octseq_dns_compress.specs.State.{with_octets};

    type Target = Composer<B, T>;

    ghost writes = { λ octets old result new. Composes (message_limit B.limit) (B.asks ≡ true) result
        (with_octets old.state octets) old new × (B.borrows new.octets ≡ B.borrows old.octets) };

    #[inline(always)]
    fn write<F: Format<R>>(
        message: &mut Composer<B, T>,
        value: &F::Value,
    ) -> Result<(), AppendError> {
        message.append_value::<R, F>(value)
    }
}

/// Appends the fields of MX data: RFC 1035, 3.3.9.
fn compose_mx<B: OctetsBuilder + Truncate + AsOctetsMut, T: Compressor, R: AsOctets + Copy>(
    message: &mut Composer<B, T>,
    mx: &Mx<R>,
    turns: &mut Turns,
) -> Result<(), AppendError>
    ensures composed { Composes (message_limit B.limit) ((B.asks ≡ true) ⊎ (T.asks ≡ true)) result
        (with_fields T.most message.old.state (rdata_fields (bare_rdata (ParsedRdata.mx (mx_of mx.now)))))
        message.old message.new }
    ensures fits { OnOk result (AllByRecursion FitsField (rdata_fields (bare_rdata (ParsedRdata.mx (mx_of mx.now))))) }
    ensures borrows { B.borrows message.new.octets ≡ B.borrows message.old.octets }
    ensures on { turns.old ≤ turns.new }
    ensures turns { turns.new ≤ turns.old
        + 17 * label_count (rdata_fields (bare_rdata (ParsedRdata.mx (mx_of mx.now)))) }
    ensures least { OnOk result (turns.old + label_count (rdata_fields (bare_rdata (ParsedRdata.mx (mx_of mx.now))))
        + length message.old.state.octets ≤ turns.new + length message.new.state.octets) }
{
    if let Err(error) = message.append_slice(&mx.preference.to_be_bytes()) {
        return Err(error);
    }
    message.append_name(&mx.exchange, turns)
}

/// Returns the octets of the five numbers of SOA data.
#[tactic(auto, using(octseq::proofs::Written::written_4))]
fn soa_numbers<R: AsOctets>(soa: &Soa<R>) -> [u8; 20]
    ensures { result ≡ octets_be 4 soa.now.serial ++ (octets_be 4 soa.now.refresh ++ (octets_be 4 soa.now.retry
        ++ (octets_be 4 soa.now.expire ++ octets_be 4 soa.now.minimum))) }
{
    let serial = soa.serial.to_be_bytes();
    let refresh = soa.refresh.to_be_bytes();
    let retry = soa.retry.to_be_bytes();
    let expire = soa.expire.to_be_bytes();
    let minimum = soa.minimum.to_be_bytes();
    [
        serial[0], serial[1], serial[2], serial[3], refresh[0], refresh[1], refresh[2], refresh[3],
        retry[0], retry[1], retry[2], retry[3], expire[0], expire[1], expire[2], expire[3],
        minimum[0], minimum[1], minimum[2], minimum[3],
    ]
}

/// Appends the fields of SOA data: RFC 1035, 3.3.13.
fn compose_soa<B: OctetsBuilder + Truncate + AsOctetsMut, T: Compressor, R: AsOctets + Copy>(
    message: &mut Composer<B, T>,
    soa: &Soa<R>,
    turns: &mut Turns,
) -> Result<(), AppendError>
    ensures composed { Composes (message_limit B.limit) ((B.asks ≡ true) ⊎ (T.asks ≡ true)) result
        (with_fields T.most message.old.state (rdata_fields (bare_rdata (ParsedRdata.soa (soa_of soa.now)))))
        message.old message.new }
    ensures fits { OnOk result (AllByRecursion FitsField (rdata_fields (bare_rdata (ParsedRdata.soa (soa_of
        soa.now))))) }
    ensures borrows { B.borrows message.new.octets ≡ B.borrows message.old.octets }
    ensures on { turns.old ≤ turns.new }
    ensures turns { turns.new ≤ turns.old
        + 17 * label_count (rdata_fields (bare_rdata (ParsedRdata.soa (soa_of soa.now)))) }
    ensures least { OnOk result (turns.old + label_count (rdata_fields (bare_rdata (ParsedRdata.soa (soa_of soa.now))))
        + length message.old.state.octets ≤ turns.new + length message.new.state.octets) }
{
    message.append_name(&soa.mname, turns)?;
    message.append_name(&soa.rname, turns)?;
    message.append_slice(&soa_numbers(soa))
}

/// Returns the octets of the three numbers of SRV data.
#[tactic(auto, using(octseq::proofs::Written::written_2))]
fn srv_numbers<R: AsOctets>(srv: &Srv<R>) -> [u8; 6]
    ensures { result ≡ octets_be 2 srv.now.priority ++ (octets_be 2 srv.now.weight ++ octets_be 2 srv.now.port) }
{
    let priority = srv.priority.to_be_bytes();
    let weight = srv.weight.to_be_bytes();
    let port = srv.port.to_be_bytes();
    [
        priority[0],
        priority[1],
        weight[0],
        weight[1],
        port[0],
        port[1],
    ]
}

/// Appends the fields of SRV data. Its name is never compressed: RFC 2782.
fn compose_srv<B: OctetsBuilder + Truncate + AsOctetsMut, T: Compressor, R: AsOctets + Copy>(
    message: &mut Composer<B, T>,
    srv: &Srv<R>,
) -> Result<(), AppendError>
    ensures composed { Composes (message_limit B.limit) ((B.asks ≡ true) ⊎ (T.asks ≡ true)) result
        (with_fields T.most message.old.state (rdata_fields (bare_rdata (ParsedRdata.srv (srv_of srv.now)))))
        message.old message.new }
    ensures borrows { B.borrows message.new.octets ≡ B.borrows message.old.octets }
{
    message.append_slice(&srv_numbers(srv))?;
    a_name_has_labels(&srv.target);
    // A name has at most 255 octets.
    let _len = srv.target.len();
    let mut target = Array::<255>::new();
    infallible(DomainName::put(&mut target, &srv.target));
    message.append_slice(target.as_slice())
}
