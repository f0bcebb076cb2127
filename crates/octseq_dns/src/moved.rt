//! Whether a message can be rewritten.
ghost use Rattle.std.specs.Prelude.{◌≡◌, ◌↔◌, IsTrue};
ghost use Rattle.octseq_dns.specs.Moved.{may_have_names, CanMoveRecord, CanMove};
ghost use Rattle.octseq_dns_message.specs.Parsed.{records_of};
ghost use Rattle.octseq_dns_data.specs.Typed.{rdata_of};
ghost use Rattle.octseq_dns_message.specs.RecordData.{IsDataOf};
ghost use Rattle.octseq_dns_message.specs.Said.{record_of};

use octseq::AsOctets;
use octseq_dns_data::{Class, Data, Rtype};
use octseq_dns_message::message::{Message, Record};

/// The numbers of the types whose data has names in any class: RFC 1035, 3.3, RFC 1183, RFC 2163, RFC 2535, RFC 3403,
/// RFC 4034 and RFC 6672.
const TYPES_WITH_NAMES: [u16; 21] = [
    2, 3, 4, 5, 6, 7, 8, 9, 12, 14, 15, 17, 18, 21, 24, 26, 30, 35, 39, 46, 47,
];

/// The numbers of the types whose data has names in class IN: RFC 2782 and RFC 9460.
const TYPES_WITH_NAMES_IN: [u16; 3] = [33, 64, 65];

/// Whether data of a type and a class may have names, and so compression pointers.
pub fn data_may_have_names(rtype: Rtype, class: Class) -> bool
    ensures { result ≡ may_have_names rtype class }
{
    TYPES_WITH_NAMES.contains(&rtype.to_int())
        || (TYPES_WITH_NAMES_IN.contains(&rtype.to_int()) && class == Class::IN)
}

/// Whether a record can be moved to another message. Data that isn't parsed as its type's may have pointers, which
/// would point elsewhere there.
pub fn can_move_record<R: AsOctets + Copy>(entry: &Record<R>) -> bool
    ensures { IsTrue result ↔ CanMoveRecord (record_of entry.now) }
{
    is_movable(entry, &entry.data())
}

/// Whether a record with this data can be moved.
pub(crate) fn is_movable<R: AsOctets + Copy>(entry: &Record<R>, found: &Data<R>) -> bool
    requires { IsDataOf (record_of entry.now) (rdata_of found.now) }
    ensures { IsTrue result ↔ CanMoveRecord (record_of entry.now) }
{
    match found {
        Data::Unknown(rtype, octets) => {
            octets.remaining() == 0 || !data_may_have_names(*rtype, entry.class())
        }
        _ => true,
    }
}

/// Whether a message can be rewritten: whether all its records can be moved.
pub fn can_move<R: AsOctets + Copy>(message: &Message<R>) -> bool
    ensures { IsTrue result ↔ CanMove (records_of message.now) }
{
    for listed in message.records() {
        if !can_move_record(&listed.0) {
            return false;
        }
    }
    true
}
