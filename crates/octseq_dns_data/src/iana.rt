//! Named numbers: types, classes, opcodes and response codes.
//!
//! Numbers without a name here are valid: nothing is refused because of its number. Contracts see the number.
ghost use Rattle.std.specs.Prelude.{◌≡◌, ◌↔◌, ℕ, ◌<◌, ◌≤◌, List, IfSome, IsNone};
ghost use Rattle.octseq_dns_data.specs.Mnemonic.{class_text, rtype_text, ReadsClass, ReadsRtype};

use std::marker::Model;

/// The text of a type is read as that type, and a text is read as at most one type.
///
/// It does nothing. Calling it brings the law into the caller's proof.
pub fn types_are_read_from_their_text()
    ensures shown { (number : ℕ) → number < 65536 → ReadsRtype (rtype_text number) number }
    ensures one { (text : List ℕ) (a b : ℕ) → ReadsRtype text a → ReadsRtype text b → a ≡ b }
{}

/// The text of a class is read as that class, and a text is read as at most one class.
///
/// It does nothing. Calling it brings the law into the caller's proof.
pub fn classes_are_read_from_their_text()
    ensures shown { (number : ℕ) → number < 65536 → ReadsClass (class_text number) number }
    ensures one { (text : List ℕ) (a b : ℕ) → ReadsClass text a → ReadsClass text b → a ≡ b }
{}

/// The error for text that isn't a type, or a class: neither a mnemonic nor a word and a number of 16 bits.
#[derive(Clone, Copy, Debug, PartialEq, Eq)]
pub struct FromStrError;

/// The type of a record, or of the records that a question asks for: RFC 1035, 3.2.2 and 3.2.3.
#[derive(Clone, Copy, Debug, PartialEq, Eq, PartialOrd, Ord, Hash)]
pub struct Rtype {
    number: u16,
}

impl Model for Rtype {
    ghost use Rattle.std.specs.Prelude.{ℕ};

    ghost Value = { ℕ };

    ghost view = { λ rtype. rtype.number };

    ghost inverse = { λ n. record { number = n } };
}

impl Rtype {
    /// An IPv4 address.
    pub const A: Self = Rtype { number: 1 };
    /// A name server.
    pub const NS: Self = Rtype { number: 2 };
    /// The canonical name of an alias.
    pub const CNAME: Self = Rtype { number: 5 };
    /// The start of authority.
    pub const SOA: Self = Rtype { number: 6 };
    /// A pointer to another name.
    pub const PTR: Self = Rtype { number: 12 };
    /// Host information.
    pub const HINFO: Self = Rtype { number: 13 };
    /// A mail exchange.
    pub const MX: Self = Rtype { number: 15 };
    /// Character strings.
    pub const TXT: Self = Rtype { number: 16 };
    /// The person responsible for a name: RFC 1183, 2.2.
    pub const RP: Self = Rtype { number: 17 };
    /// An IPv6 address: RFC 3596.
    pub const AAAA: Self = Rtype { number: 28 };
    /// A geographical location: RFC 1876.
    pub const LOC: Self = Rtype { number: 29 };
    /// The location of a service: RFC 2782.
    pub const SRV: Self = Rtype { number: 33 };
    /// A naming authority pointer: RFC 3403.
    pub const NAPTR: Self = Rtype { number: 35 };
    /// A redirection of all names below one: RFC 6672.
    pub const DNAME: Self = Rtype { number: 39 };
    /// The EDNS options: RFC 6891.
    pub const OPT: Self = Rtype { number: 41 };
    /// The digest of a key of a child zone: RFC 4034, 5.
    pub const DS: Self = Rtype { number: 43 };
    /// The fingerprint of an SSH key: RFC 4255.
    pub const SSHFP: Self = Rtype { number: 44 };
    /// A signature of a record set: RFC 4034, 3.
    pub const RRSIG: Self = Rtype { number: 46 };
    /// The next name, and the types that the owner has: RFC 4034, 4.
    pub const NSEC: Self = Rtype { number: 47 };
    /// A public key of a zone: RFC 4034, 2.
    pub const DNSKEY: Self = Rtype { number: 48 };
    /// Which DHCP client a name belongs to: RFC 4701.
    pub const DHCID: Self = Rtype { number: 49 };
    /// The next hashed owner name, and the types that the name has: RFC 5155, 3.
    pub const NSEC3: Self = Rtype { number: 50 };
    /// The parameters by which a zone hashes its names: RFC 5155, 4.
    pub const NSEC3PARAM: Self = Rtype { number: 51 };
    /// A certificate association of a TLS server: RFC 6698.
    pub const TLSA: Self = Rtype { number: 52 };
    /// A certificate association for S/MIME: RFC 8162.
    pub const SMIMEA: Self = Rtype { number: 53 };
    /// The DS that a zone wants in its parent: RFC 7344.
    pub const CDS: Self = Rtype { number: 59 };
    /// The DNSKEY whose DS a zone wants in its parent: RFC 7344.
    pub const CDNSKEY: Self = Rtype { number: 60 };
    /// An OpenPGP key: RFC 7929.
    pub const OPENPGPKEY: Self = Rtype { number: 61 };
    /// The types that a parent zone should copy from its child: RFC 7477.
    pub const CSYNC: Self = Rtype { number: 62 };
    /// The digest of a zone: RFC 8976.
    pub const ZONEMD: Self = Rtype { number: 63 };
    /// A service binding: RFC 9460.
    pub const SVCB: Self = Rtype { number: 64 };
    /// A service binding of HTTPS: RFC 9460, 9.
    pub const HTTPS: Self = Rtype { number: 65 };
    /// The Sender Policy Framework, in a type that TXT replaced: RFC 7208, 3.1.
    pub const SPF: Self = Rtype { number: 99 };
    /// A key exchange: RFC 2930.
    pub const TKEY: Self = Rtype { number: 249 };
    /// A signature of a message: RFC 8945.
    pub const TSIG: Self = Rtype { number: 250 };
    /// A request for the changes of a zone: RFC 1995.
    pub const IXFR: Self = Rtype { number: 251 };
    /// A request for a whole zone.
    pub const AXFR: Self = Rtype { number: 252 };
    /// A request for all records.
    pub const ANY: Self = Rtype { number: 255 };
    /// A URI: RFC 7553.
    pub const URI: Self = Rtype { number: 256 };
    /// Who may issue certificates: RFC 8659.
    pub const CAA: Self = Rtype { number: 257 };

    /// Makes the type of a number.
    pub fn from_int(number: u16) -> Self
        ensures { result ≡ number }
    {
        Rtype { number }
    }

    /// Returns the number.
    pub fn to_int(self) -> u16
        ensures { result ≡ self }
    {
        self.number
    }
}

/// The class of a record or a question: RFC 1035, 3.2.4 and 3.2.5.
#[derive(Clone, Copy, Debug, PartialEq, Eq, PartialOrd, Ord, Hash)]
pub struct Class {
    number: u16,
}

impl Model for Class {
    ghost use Rattle.std.specs.Prelude.{ℕ};

    ghost Value = { ℕ };

    ghost view = { λ class. class.number };

    ghost inverse = { λ n. record { number = n } };
}

impl Class {
    /// The Internet.
    pub const IN: Self = Class { number: 1 };
    /// Chaosnet.
    pub const CH: Self = Class { number: 3 };
    /// Hesiod.
    pub const HS: Self = Class { number: 4 };
    /// No class, in updates: RFC 2136, 1.3.
    pub const NONE: Self = Class { number: 254 };
    /// A request for any class.
    pub const ANY: Self = Class { number: 255 };

    /// Makes the class of a number.
    pub fn from_int(number: u16) -> Self
        ensures { result ≡ number }
    {
        Class { number }
    }

    /// Returns the number.
    pub fn to_int(self) -> u16
        ensures { result ≡ self }
    {
        self.number
    }
}

/// The kind of query: RFC 1035, 4.1.1. It has four bits.
#[derive(Clone, Copy, Debug, PartialEq, Eq, PartialOrd, Ord, Hash)]
pub struct Opcode {
    number: u8,
}

impl Model for Opcode {
    ghost use Rattle.std.specs.Prelude.{ℕ, ◌<◌};

    ghost Value = { ℕ };

    ghost view = { λ opcode. opcode.number };

    ghost inverse = { λ n. record { number = n } };

    ghost invariant = { λ opcode. opcode.number < 16 };
}

impl Opcode {
    /// A standard query.
    pub const QUERY: Self = Opcode { number: 0 };
    /// An inverse query.
    pub const IQUERY: Self = Opcode { number: 1 };
    /// A request for the status of a server.
    pub const STATUS: Self = Opcode { number: 2 };
    /// A notification that a zone changed: RFC 1996.
    pub const NOTIFY: Self = Opcode { number: 4 };
    /// A dynamic update of a zone: RFC 2136.
    pub const UPDATE: Self = Opcode { number: 5 };

    /// Makes the opcode of a number below 16.
    pub fn from_int(number: u8) -> Self
        requires { number < 16 }
        ensures { result ≡ number }
    {
        Opcode { number }
    }

    /// Makes the opcode of a number, or returns `None` if the number isn't below 16.
    pub fn checked_from_int(number: u8) -> Option<Self>
        ensures some { IfSome result (λ opcode. opcode ≡ number) }
        ensures none { IsNone result ↔ 16 ≤ number }
    {
        match number {
            0..=15 => Some(Opcode { number }),
            _ => None,
        }
    }

    /// Returns the number, which is below 16.
    pub fn to_int(self) -> u8
        ensures number { result ≡ self }
        ensures most { result < 16 }
    {
        self.number
    }
}

/// The response code: RFC 1035, 4.1.1. It has four bits.
#[derive(Clone, Copy, Debug, PartialEq, Eq, PartialOrd, Ord, Hash)]
pub struct Rcode {
    number: u8,
}

impl Model for Rcode {
    ghost use Rattle.std.specs.Prelude.{ℕ, ◌<◌};

    ghost Value = { ℕ };

    ghost view = { λ rcode. rcode.number };

    ghost inverse = { λ n. record { number = n } };

    ghost invariant = { λ rcode. rcode.number < 16 };
}

impl Rcode {
    /// No error.
    pub const NOERROR: Self = Rcode { number: 0 };
    /// The server couldn't interpret the query.
    pub const FORMERR: Self = Rcode { number: 1 };
    /// The server failed.
    pub const SERVFAIL: Self = Rcode { number: 2 };
    /// The name doesn't exist.
    pub const NXDOMAIN: Self = Rcode { number: 3 };
    /// The server doesn't support this kind of query.
    pub const NOTIMP: Self = Rcode { number: 4 };
    /// The server refuses the query.
    pub const REFUSED: Self = Rcode { number: 5 };

    /// Makes the response code of a number below 16.
    pub fn from_int(number: u8) -> Self
        requires { number < 16 }
        ensures { result ≡ number }
    {
        Rcode { number }
    }

    /// Makes the response code of a number, or returns `None` if the number isn't below 16.
    pub fn checked_from_int(number: u8) -> Option<Self>
        ensures some { IfSome result (λ rcode. rcode ≡ number) }
        ensures none { IsNone result ↔ 16 ≤ number }
    {
        match number {
            0..=15 => Some(Rcode { number }),
            _ => None,
        }
    }

    /// Returns the number, which is below 16.
    pub fn to_int(self) -> u8
        ensures number { result ≡ self }
        ensures most { result < 16 }
    {
        self.number
    }
}

/// Types by name.
pub(crate) static RTYPE_NAMES: [(u16, &str); 40] = [
    (Rtype::A.number, "A"),
    (Rtype::NS.number, "NS"),
    (Rtype::CNAME.number, "CNAME"),
    (Rtype::SOA.number, "SOA"),
    (Rtype::PTR.number, "PTR"),
    (Rtype::HINFO.number, "HINFO"),
    (Rtype::MX.number, "MX"),
    (Rtype::TXT.number, "TXT"),
    (Rtype::RP.number, "RP"),
    (Rtype::AAAA.number, "AAAA"),
    (Rtype::LOC.number, "LOC"),
    (Rtype::SRV.number, "SRV"),
    (Rtype::NAPTR.number, "NAPTR"),
    (Rtype::DNAME.number, "DNAME"),
    (Rtype::OPT.number, "OPT"),
    (Rtype::DS.number, "DS"),
    (Rtype::SSHFP.number, "SSHFP"),
    (Rtype::RRSIG.number, "RRSIG"),
    (Rtype::NSEC.number, "NSEC"),
    (Rtype::DNSKEY.number, "DNSKEY"),
    (Rtype::DHCID.number, "DHCID"),
    (Rtype::NSEC3.number, "NSEC3"),
    (Rtype::NSEC3PARAM.number, "NSEC3PARAM"),
    (Rtype::TLSA.number, "TLSA"),
    (Rtype::SMIMEA.number, "SMIMEA"),
    (Rtype::CDS.number, "CDS"),
    (Rtype::CDNSKEY.number, "CDNSKEY"),
    (Rtype::OPENPGPKEY.number, "OPENPGPKEY"),
    (Rtype::CSYNC.number, "CSYNC"),
    (Rtype::ZONEMD.number, "ZONEMD"),
    (Rtype::SVCB.number, "SVCB"),
    (Rtype::HTTPS.number, "HTTPS"),
    (Rtype::SPF.number, "SPF"),
    (Rtype::TKEY.number, "TKEY"),
    (Rtype::TSIG.number, "TSIG"),
    (Rtype::IXFR.number, "IXFR"),
    (Rtype::AXFR.number, "AXFR"),
    (Rtype::ANY.number, "ANY"),
    (Rtype::URI.number, "URI"),
    (Rtype::CAA.number, "CAA"),
];

/// Classes by name.
pub(crate) static CLASS_NAMES: [(u16, &str); 5] = [
    (Class::IN.number, "IN"),
    (Class::CH.number, "CH"),
    (Class::HS.number, "HS"),
    (Class::NONE.number, "NONE"),
    (Class::ANY.number, "ANY"),
];

// The numbers that IANA assigned to these names. A constant with another number doesn't compile.
const _: () = prove!(
    Opcode::QUERY.number == 0
        && Opcode::IQUERY.number == 1
        && Opcode::STATUS.number == 2
        && Opcode::NOTIFY.number == 4
        && Opcode::UPDATE.number == 5
);

const _: () = prove!(
    Rcode::NOERROR.number == 0
        && Rcode::FORMERR.number == 1
        && Rcode::SERVFAIL.number == 2
        && Rcode::NXDOMAIN.number == 3
        && Rcode::NOTIMP.number == 4
        && Rcode::REFUSED.number == 5
);
