//! Laws of written messages. Each law is the contract of a function that does nothing: calling it brings the law into
//! the caller's proof.
ghost use Rattle.std.specs.Prelude.{◌≡◌, ◌≤◌, ℕ, List, length};
ghost use Rattle.octseq_dns_data.specs.Data.{ParsedRdata};
ghost use Rattle.octseq_dns_message.specs.RecordData.{IsDataOf};
ghost use Rattle.octseq_dns_message.specs.Entry.{Question as Asked, Record as Entry};
ghost use Rattle.octseq_dns_message.specs.declared.header.Header.{Header as Fields};
ghost use Rattle.octseq_dns.specs.Contents.{Message, MessageFits, message_octets};
ghost use Rattle.octseq_dns.specs.Rdata.{Rdata, FitsRdata, IsOfType, bare_rdata, rdata_fields};
ghost use Rattle.octseq_dns.specs.ReadBack.{HasFields, ReadsBack};
ghost use Rattle.octseq_dns.specs.Rewritten.{IsMessageOf};

/// A message that was written is read back: the octets are a message with that header, those questions and those
/// records in their order, with their names octet for octet.
pub fn a_written_message_is_read()
    ensures { (most : ℕ) (m : Message) → MessageFits m → length (message_octets most m) ≤ 65535
        → ReadsBack (message_octets most m) m }
{}

/// A message takes no more octets than without compression.
pub fn never_longer_than_uncompressed()
    ensures { (most : ℕ) (m : Message) → length (message_octets most m) ≤ length (message_octets 0 m) }
{}

/// Data that was written is read as that data, if its record has the type and the class of the data:
/// [`Record::data`](crate::Record::data) returns the same values. Data of an unknown type is read as its octets.
pub fn data_is_read_as_written()
    ensures { (r : Entry) (said : Rdata) → HasFields r (rdata_fields said) → FitsRdata said → IsOfType r said
        → (parsed : ParsedRdata) × (bare_rdata parsed ≡ said) × IsDataOf r parsed }
{}

/// A message that was read is rewritten as one message only.
pub fn one_message_of()
    ensures { (header : Fields) (questions : List Asked) (answers authorities additionals : List Entry)
        (m n : Message) → IsMessageOf header questions answers authorities additionals m
        → IsMessageOf header questions answers authorities additionals n → m ≡ n }
{}
