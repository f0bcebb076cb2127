//! The fields of the data of DNS records, by its type.
ghost use Rattle.std.specs.Prelude.{◌≡◌, ◌≢◌, ◌↔◌, ◌⊎◌, ◌+◌, ◌*◌, ◌<◌, ◌≤◌, ◌^◌, ◌++◌, ◌∷◌, [], ℕ, List, map, take};
ghost use Rattle.std.specs.Prelude.{drop, length};
ghost use Rattle.std.specs.Prelude.{OnErr, IfOk, IfSome, IfNone, IsErr, IsNone, IsTrue, IsFalse};
ghost use Rattle.octseq.specs.Parser.{window};
ghost use Rattle.octseq.specs.Window.{Window, left};
ghost use Rattle.octseq_dns_data.specs.Layout.{layout_value};
ghost use Rattle.octseq_format.specs.Walk.{items_left};
ghost use Rattle.octseq_c.specs.Fields.{AreFieldRows, AreFieldsIn, AreFieldsOf, AreKnownFields, AreLayoutRows};
ghost use Rattle.octseq_c.specs.Fields.{AreParameters};
ghost use Rattle.octseq_c.specs.Fields.{AreStringRows, AreTailRows, AreTypedFields, IsAddressField, IsField};
ghost use Rattle.octseq_c.specs.Fields.{IsNameField};
ghost use Rattle.octseq_c.specs.Fields.{IsNumberField, IsStringField, name_row, number_row, parameter_row, range_row};
ghost use Rattle.octseq_c.specs.Puts.{Copies, FillsPrefix, Puts};
ghost use Rattle.octseq_c.specs.Status.{status_ok, status_no_room, status_malformed};

use crate::data::place_of;
use crate::room::put;
use crate::status::{MALFORMED, NO_ROOM, OK};
use octseq::{AsOctets, Malformed, Parser, Turns};
use octseq_dns::{Class, Data, DomainName, Rtype};
use octseq_dns_data::layout::{Field, Layout, Tail};
use octseq_dns_data::layout_of;
use octseq_format::walk::Walk;
use octseq_format::{Counted, Format, Nested, Repeated, U8, U16Be, U32Be};

/// A number.
const NUMBER: u32 = 0;

/// A domain name.
const NAME: u32 = 1;

/// An IPv4 or IPv6 address.
const ADDRESS: u32 = 2;

/// A character string.
const STRING: u32 = 3;

/// Octets that are no other field.
const OCTETS: u32 = 4;

/// A set of record types: RFC 4034, 4.1.2.
const TYPES: u32 = 5;

/// A parameter of SVCB and HTTPS, or an option of OPT.
const PARAMETER: u32 = 6;

/// The type OPT: RFC 6891, 6.1.1.
pub const OPT: u16 = 41;

/// One more than the maximum number of fields before the last part of data.
const FRONT: usize = 9;

/// Options, as the data of OPT has them: RFC 6891, 6.1.2.
const OPTIONS: Layout = Layout {
    fields: &[],
    tail: Tail::Params,
};

/// A field of data.
#[repr(C)]
#[derive(Clone, Copy)]
pub struct FieldRow {
    /// Where its octets begin, from the first octet of the message, or 0 for a number. Those of a character string and
    /// of a parameter's value begin after their length.
    pub at: usize,
    /// How many octets there are, or 0 for a number. Those of a name are the octets at its offset, with the pointer
    /// that may end them.
    pub len: usize,
    /// The number, or the key of a parameter, otherwise 0.
    pub number: u32,
    /// 0 for a number, 1 for a name, 2 for an address, 3 for a character string, 4 for octets, 5 for a set of types, 6
    /// for a parameter.
    pub kind: u32,
}

/// A character string: RFC 1035, 3.3.
type CharacterString = Counted<U8, Nested, 0>;

/// A parameter: its key, and its value.
type Parameter = (U16Be, Counted<U16Be, Nested, 0>);

/// Writes the fields of data to the front of `out`.
#[unsafe(no_mangle)]
pub extern "C" fn octseq_dns_data_fields(
    octets: &[u8],
    data_at: usize,
    data_len: usize,
    rtype: u16,
    class: u16,
    out: &mut [FieldRow],
    count: &mut usize,
) -> u32
    ensures puts { Puts (AreFieldsOf octets.now data_at data_len rtype class) result out.old out.new count.new }
    ensures malformed { (result ≡ status_malformed) ↔ (length octets.now < data_at + data_len) }
    ensures only { (result ≡ status_ok) ⊎ (result ≡ status_no_room) ⊎ (result ≡ status_malformed) }
    ensures kept { result ≢ status_ok → out.new ≡ out.old }
{
    match place_of(octets, data_at, data_len) {
        Some((message, inside)) => put_fields(message, inside, rtype, class, out, count),
        None => {
            *count = 0;
            MALFORMED
        }
    }
}

/// Writes the fields of data to the front of `out`.
fn put_fields<R: AsOctets + Copy>(
    message: Parser<R>,
    inside: Parser<R>,
    rtype: u16,
    class: u16,
    out: &mut [FieldRow],
    count: &mut usize,
) -> u32
    requires few { left (window inside) < 2 ^ 63 }
    ensures { (rows : List FieldRow) × AreFieldsIn (window message) (window inside) rtype class rows
        × Copies rows result out.old out.new count.new }
{
    match put_known(message, inside, rtype, class, out, count) {
        Some(status) => status,
        None => put(&[range_row(OCTETS, &inside)], out, count),
    }
}

/// Writes the fields of data that has a known form to the front of `out`.
fn put_known<R: AsOctets + Copy>(
    message: Parser<R>,
    inside: Parser<R>,
    rtype: u16,
    class: u16,
    out: &mut [FieldRow],
    count: &mut usize,
) -> Option<u32>
    requires few { left (window inside) < 2 ^ 63 }
    ensures some { IfSome result (λ status. (rows : List FieldRow)
        × AreKnownFields (window message) (window inside) rtype class rows
        × Copies rows status out.old out.new count.new) }
    ensures none { IsNone result → (rows : List FieldRow)
        → ¬ AreKnownFields (window message) (window inside) rtype class rows }
    ensures kept { IfNone result (out.new ≡ out.old) }
{
    if rtype == OPT {
        return put_layout(&OPTIONS, inside, out, count);
    }
    let (rtype, class) = (Rtype::from_int(rtype), Class::from_int(class));
    let Ok(_) = Data::parse(message, inside, rtype, class, &mut Turns::new()) else {
        return None;
    };
    let Some(layout) = layout_of(rtype, class) else {
        return None;
    };
    put_layout(&layout, inside, out, count)
}

/// Writes the rows of a layout to the front of `out`.
fn put_layout<R: AsOctets + Copy>(
    layout: &Layout,
    inside: Parser<R>,
    out: &mut [FieldRow],
    count: &mut usize,
) -> Option<u32>
    requires fields { length layout.now.fields.now ≤ 8 }
    requires few { left (window inside) < 2 ^ 63 }
    ensures some { IfSome result (λ status. (rows : List FieldRow)
        × AreLayoutRows (layout_value layout.now.fields.now layout.now.tail) (window inside) rows
        × Copies rows status out.old out.new count.new) }
    ensures none { IsNone result → (rows : List FieldRow)
        → ¬ AreLayoutRows (layout_value layout.now.fields.now layout.now.tail) (window inside) rows }
    ensures kept { IfNone result (out.new ≡ out.old) }
{
    let mut front = [number_row(0); FRONT];
    let mut ahead = inside;
    let fields = layout.fields;
    let Ok(()) = take_fields(fields, &mut ahead, &mut front) else {
        return None;
    };
    put_tail(&mut front, fields.len(), ahead, layout.tail, out, count)
}

/// Takes fields, and writes their rows to the front of a buffer that has room for them.
fn take_fields<R: AsOctets + Copy>(
    fields: &[Field],
    parser: &mut Parser<R>,
    front: &mut [FieldRow],
) -> Result<(), Malformed>
    requires room { length fields.now ≤ length front.old }
    ensures ok { IfOk result (λ _. (rows : List FieldRow)
        × AreFieldRows fields.now (window parser.old) rows (window parser.new) × (length rows ≡ length fields.now)
        × (front.new ≡ rows ++ drop (length fields.now) front.old)) }
    ensures malformed { IsErr result → (rows : List FieldRow) (end : Window)
        → ¬ AreFieldRows fields.now (window parser.old) rows end }
    ensures onward { left (window parser.new) ≤ left (window parser.old) }
{
    let mut at = 0;
    for field in fields {
        front[at] = take_field(*field, parser)?;
        at += 1;
    }
    Ok(())
}

/// Takes a field, and returns its row.
fn take_field<R: AsOctets + Copy>(
    field: Field,
    parser: &mut Parser<R>,
) -> Result<FieldRow, Malformed>
    ensures ok { IfOk result (λ row. IsField field (window parser.old) row (window parser.new)) }
    ensures malformed { IsErr result → (row : FieldRow) (end : Window) → ¬ IsField field (window parser.old) row end }
    ensures onward { left (window parser.new) ≤ left (window parser.old) }
{
    match field {
        Field::U8 => take_u8(parser),
        Field::U16 | Field::Rtype => take_u16(parser),
        Field::U32 | Field::Time => take_u32(parser),
        Field::Ipv4 => take_address(parser, 4),
        Field::Ipv6 => take_address(parser, 16),
        Field::Name => take_name(parser),
        Field::String | Field::Tag | Field::Salt | Field::OwnerHash => take_string(parser),
    }
}

/// Takes a number of one octet.
fn take_u8<R: AsOctets + Copy>(parser: &mut Parser<R>) -> Result<FieldRow, Malformed>
    ensures ok { IfOk result (λ row. IsNumberField 1 (window parser.old) row (window parser.new)) }
    ensures malformed { IsErr result → (row : FieldRow) (end : Window) → ¬ IsNumberField 1 (window parser.old) row end }
    ensures onward { left (window parser.new) ≤ left (window parser.old) }
{
    let number = U8::parse(parser)?;
    Ok(number_row(u32::from(number)))
}

/// Takes a number of two octets.
fn take_u16<R: AsOctets + Copy>(parser: &mut Parser<R>) -> Result<FieldRow, Malformed>
    ensures ok { IfOk result (λ row. IsNumberField 2 (window parser.old) row (window parser.new)) }
    ensures malformed { IsErr result → (row : FieldRow) (end : Window) → ¬ IsNumberField 2 (window parser.old) row end }
    ensures onward { left (window parser.new) ≤ left (window parser.old) }
{
    let number = U16Be::parse(parser)?;
    Ok(number_row(u32::from(number)))
}

/// Takes a number of four octets.
fn take_u32<R: AsOctets + Copy>(parser: &mut Parser<R>) -> Result<FieldRow, Malformed>
    ensures ok { IfOk result (λ row. IsNumberField 4 (window parser.old) row (window parser.new)) }
    ensures malformed { IsErr result → (row : FieldRow) (end : Window) → ¬ IsNumberField 4 (window parser.old) row end }
    ensures onward { left (window parser.new) ≤ left (window parser.old) }
{
    let number = U32Be::parse(parser)?;
    Ok(number_row(number))
}

/// Takes an address of `len` octets.
fn take_address<R: AsOctets + Copy>(
    parser: &mut Parser<R>,
    len: usize,
) -> Result<FieldRow, Malformed>
    ensures ok { IfOk result (λ row. IsAddressField len (window parser.old) row (window parser.new)) }
    ensures malformed { IsErr result → (row : FieldRow) (end : Window)
        → ¬ IsAddressField len (window parser.old) row end }
    ensures onward { left (window parser.new) ≤ left (window parser.old) }
{
    let inside = parser.parse_parser(len)?;
    Ok(range_row(ADDRESS, &inside))
}

/// Takes a domain name.
fn take_name<R: AsOctets + Copy>(parser: &mut Parser<R>) -> Result<FieldRow, Malformed>
    ensures ok { IfOk result (λ row. IsNameField (window parser.old) row (window parser.new)) }
    ensures malformed { IsErr result → (row : FieldRow) (end : Window) → ¬ IsNameField (window parser.old) row end }
    ensures onward { left (window parser.new) ≤ left (window parser.old) }
{
    let before = *parser;
    let _name = DomainName::parse(parser)?;
    Ok(FieldRow {
        at: before.pos(),
        len: before.remaining() - parser.remaining(),
        number: 0,
        kind: NAME,
    })
}

/// Takes a character string.
fn take_string<R: AsOctets + Copy>(parser: &mut Parser<R>) -> Result<FieldRow, Malformed>
    ensures ok { IfOk result (λ row. IsStringField (window parser.old) row (window parser.new)) }
    ensures malformed { IsErr result → (row : FieldRow) (end : Window) → ¬ IsStringField (window parser.old) row end }
    ensures onward { left (window parser.new) ≤ left (window parser.old) }
{
    let inside = CharacterString::parse(parser)?;
    Ok(range_row(STRING, &inside))
}

/// Writes rows, followed by those of the last part of data, to the front of `out`.
fn put_tail<R: AsOctets + Copy>(
    front: &mut [FieldRow; FRONT],
    len: usize,
    ahead: Parser<R>,
    tail: Tail,
    out: &mut [FieldRow],
    count: &mut usize,
) -> Option<u32>
    requires fields { len ≤ 8 }
    requires few { left (window ahead) < 2 ^ 63 }
    ensures some { IfSome result (λ status. (rows : List FieldRow) × AreTailRows tail (window ahead) rows
        × Copies (take len front.old ++ rows) status out.old out.new count.new) }
    ensures none { IsNone result → (rows : List FieldRow) → ¬ AreTailRows tail (window ahead) rows }
    ensures kept { IfNone result (out.new ≡ out.old) }
{
    match tail {
        Tail::Nothing => Some(put(&front[..len], out, count)),
        Tail::Strings => put_strings(&front[..len], ahead, out, count),
        Tail::Params => put_parameters(&front[..len], ahead, out, count),
        Tail::Types => Some(put_last(front, len, range_row(TYPES, &ahead), out, count)),
        Tail::Value | Tail::Target | Tail::Hex | Tail::Base64 => {
            Some(put_last(front, len, range_row(OCTETS, &ahead), out, count))
        }
    }
}

/// Writes rows, followed by another, to the front of `out`.
fn put_last(
    front: &mut [FieldRow; FRONT],
    len: usize,
    last: FieldRow,
    out: &mut [FieldRow],
    count: &mut usize,
) -> u32
    requires { len ≤ 8 }
    ensures { Copies (take len front.old ++ last ∷ []) result out.old out.new count.new }
{
    front[len] = last;
    put(&front[..len + 1], out, count)
}

/// Writes rows, followed by those of character strings, to the front of `out`.
fn put_strings<R: AsOctets + Copy>(
    front: &[FieldRow],
    ahead: Parser<R>,
    out: &mut [FieldRow],
    count: &mut usize,
) -> Option<u32>
    requires fields { length front.now ≤ 8 }
    requires few { left (window ahead) < 2 ^ 63 }
    ensures some { IfSome result (λ status. (rows : List FieldRow) × AreStringRows (window ahead) rows
        × Copies (front.now ++ rows) status out.old out.new count.new) }
    ensures none { IsNone result → (rows : List FieldRow) → ¬ AreStringRows (window ahead) rows }
    ensures kept { IfNone result (out.new ≡ out.old) }
{
    let mut parser = ahead;
    let Ok(strings) = Repeated::<CharacterString>::parse(&mut parser) else {
        return None;
    };
    if !put_first(front, strings.len(), out, count) {
        return Some(NO_ROOM);
    }
    fill_strings(out, front.len(), strings);
    Some(OK)
}

/// Writes rows, followed by those of parameters, to the front of `out`.
fn put_parameters<R: AsOctets + Copy>(
    front: &[FieldRow],
    ahead: Parser<R>,
    out: &mut [FieldRow],
    count: &mut usize,
) -> Option<u32>
    requires fields { length front.now ≤ 8 }
    requires few { left (window ahead) < 2 ^ 63 }
    ensures some { IfSome result (λ status. (rows : List FieldRow) × AreParameters (window ahead) rows
        × Copies (front.now ++ rows) status out.old out.new count.new) }
    ensures none { IsNone result → (rows : List FieldRow) → ¬ AreParameters (window ahead) rows }
    ensures kept { IfNone result (out.new ≡ out.old) }
{
    let mut parser = ahead;
    let Ok(params) = Repeated::<Parameter>::parse(&mut parser) else {
        return None;
    };
    if !put_first(front, params.len(), out, count) {
        return Some(NO_ROOM);
    }
    fill_parameters(out, front.len(), params);
    Some(OK)
}

/// Copies rows to the front of a buffer, if they and as many more fit. Reports how many they all are.
fn put_first(front: &[FieldRow], more: usize, out: &mut [FieldRow], count: &mut usize) -> bool
    requires few { length front.now + more < 2 ^ 64 }
    ensures count { count.new ≡ length front.now + more }
    ensures fits { IsTrue result → (length front.now + more ≤ length out.old)
        × FillsPrefix front.now out.old out.new }
    ensures short { IsFalse result → (length out.old < length front.now + more) × (out.new ≡ out.old) }
{
    *count = front.len() + more;
    if *count > out.len() {
        return false;
    }
    out[..front.len()].copy_from_slice(front);
    true
}

/// Writes the rows of character strings from an index on.
fn fill_strings<R: AsOctets + Copy>(
    out: &mut [FieldRow],
    from: usize,
    strings: Walk<R, CharacterString>,
)
    requires { from + length (items_left strings) ≤ length out.old }
    ensures { out.new ≡ take from out.old ++ (map (range_row 3) (items_left strings)
        ++ drop (from + length (items_left strings)) out.old) }
{
    let mut at = from;
    for string in strings {
        out[at] = range_row(STRING, &string);
        at += 1;
    }
}

/// Writes the rows of parameters from an index on.
fn fill_parameters<R: AsOctets + Copy>(
    out: &mut [FieldRow],
    from: usize,
    params: Walk<R, Parameter>,
)
    requires { from + length (items_left params) ≤ length out.old }
    ensures { out.new ≡ take from out.old ++ (map parameter_row (items_left params)
        ++ drop (from + length (items_left params)) out.old) }
{
    let mut at = from;
    for param in params {
        out[at] = parameter_row(param.0, &param.1);
        at += 1;
    }
}

/// Returns the row of a number.
fn number_row(number: u32) -> FieldRow
    ensures { result ≡ number_row number }
{
    FieldRow {
        at: 0,
        len: 0,
        number,
        kind: NUMBER,
    }
}

/// Returns the row of the octets that a parser has left.
fn range_row<R: AsOctets + Copy>(kind: u32, inside: &Parser<R>) -> FieldRow
    ensures { result ≡ range_row kind (window inside.now) }
{
    FieldRow {
        at: inside.pos(),
        len: inside.remaining(),
        number: 0,
        kind,
    }
}

/// Returns the row of a parameter.
fn parameter_row<R: AsOctets + Copy>(key: u16, value: &Parser<R>) -> FieldRow
    ensures { result ≡ parameter_row (key, window value.now) }
{
    FieldRow {
        at: value.pos(),
        len: value.remaining(),
        number: u32::from(key),
        kind: PARAMETER,
    }
}
