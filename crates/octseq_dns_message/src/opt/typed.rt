//! The data of EDNS options, by their codes.
ghost use Rattle.std.specs.Prelude.{◌≡◌, ◌+◌, ◌/◌, ◌^◌, ◌<◌, ◌≤◌, ◌↔◌, ℕ, length, IsTrue, IsNone, IfSome, ⊤};
ghost use Rattle.std.specs.Str.{IsUtf8};
ghost use Rattle.octseq.specs.Parser.{window};
ghost use Rattle.octseq.specs.Window.{rest};
ghost use Rattle.octseq_dns_message.specs.OptionData as said;
ghost use Rattle.octseq_dns_message.specs.OptionData.{IsWithoutZero, IsClientSubnet, IsCookie};
ghost use Rattle.octseq_dns_message.specs.OptionData.{IsExtendedError, IsTypedOption, IsOptionData};
ghost use Rattle.octseq_dns_message.specs.OptionData.{HasAddressesOf, HoldsBits, IsSubnet};
ghost use Rattle.octseq_dns_message.specs.Opt.{EdnsOption as Found};

use crate::opt::EdnsOption;
use octseq::builder::infallible;
use octseq::{AsOctets, Parser};
use octseq_format::{Format, Nested, OctetArray, U8, U16Be};
use std::alloc::AllocError;

/// The name server identifier: RFC 5001, 4.1.
const NSID: u16 = 3;
/// The client subnet: RFC 7871, 6.
const CLIENT_SUBNET: u16 = 8;
/// A cookie: RFC 7873, 4.
const COOKIE: u16 = 10;
/// Padding: RFC 7830, 3.
const PADDING: u16 = 12;
/// An extended error: RFC 8914, 2.
const EXTENDED_ERROR: u16 = 15;

/// An EDNS option says at most one thing.
///
/// It does nothing. Calling it brings the law into the caller's proof.
pub fn one_reading_of_an_option()
    ensures { (option : Found) (one other : said.OptionData) → IsOptionData option one → IsOptionData option other
        → one ≡ other }
{}

/// The client subnet: RFC 7871, 6.
#[derive(Debug)]
pub struct ClientSubnet<R: AsOctets> {
    /// The family of the address: 1 for IPv4, 2 for IPv6.
    pub family: u16,
    /// The source prefix length: the number of bits of the address that are given.
    pub source_prefix_len: u8,
    /// The scope prefix length: the number of bits of the address that an answer is for. It is 0 in a query.
    pub scope_prefix_len: u8,
    /// The address, as a parser of the message limited to it: as few octets as hold the bits that are given. The bits
    /// after those are 0.
    pub address: Parser<R>,
}

/// A cookie: RFC 7873, 4.
#[derive(Debug)]
pub struct Cookie<R: AsOctets> {
    /// The client cookie.
    pub client: [u8; 8],
    /// The server cookie, as a parser of the message limited to it: 8 to 32 octets, or none.
    pub server: Parser<R>,
}

/// An extended error: RFC 8914, 2.
#[derive(Debug)]
pub struct ExtendedError<R: AsOctets> {
    code: u16,
    text: Parser<R>,
    ghost utf8: { ∥ IsUtf8 (rest (window text)) ∥₁ },
}

/// The data of an EDNS option.
#[derive(Debug)]
pub enum OptionData<R: AsOctets> {
    /// The name server identifier, any octets: RFC 5001, 2.3.
    Nsid(Parser<R>),
    /// The client subnet.
    ClientSubnet(ClientSubnet<R>),
    /// A cookie.
    Cookie(Cookie<R>),
    /// Padding, any octets: RFC 7830, 3.
    Padding(Parser<R>),
    /// An extended error.
    ExtendedError(ExtendedError<R>),
    /// Data of an unknown form: the code, and a parser of the message limited to the octets.
    Unknown(u16, Parser<R>),
}

impl<R: AsOctets + Copy> Copy for ClientSubnet<R> {}

impl<R: AsOctets + Copy> Clone for ClientSubnet<R> {
    ghost is_clone = { λ subnet copy. copy ≡ subnet };

    ghost is_infallible = { λ _. ⊤ };

    fn clone(&self) -> Result<Self, AllocError> {
        Ok(*self)
    }
}

impl<R: AsOctets + Copy> Copy for Cookie<R> {}

impl<R: AsOctets + Copy> Clone for Cookie<R> {
    ghost is_clone = { λ cookie copy. copy ≡ cookie };

    ghost is_infallible = { λ _. ⊤ };

    fn clone(&self) -> Result<Self, AllocError> {
        Ok(*self)
    }
}

impl<R: AsOctets + Copy> Copy for ExtendedError<R> {}

impl<R: AsOctets + Copy> Clone for ExtendedError<R> {
    ghost is_clone = { λ found copy. copy ≡ found };

    ghost is_infallible = { λ _. ⊤ };

    fn clone(&self) -> Result<Self, AllocError> {
        Ok(*self)
    }
}

impl<R: AsOctets + Copy> Copy for OptionData<R> {}

impl<R: AsOctets + Copy> Clone for OptionData<R> {
    ghost is_clone = { λ found copy. copy ≡ found };

    ghost is_infallible = { λ _. ⊤ };

    fn clone(&self) -> Result<Self, AllocError> {
        Ok(*self)
    }
}

impl<R: AsOctets + Copy> EdnsOption<R> {
    ghost use Rattle.octseq_dns_message.specs.Edns.{option_of};
    ghost use Rattle.octseq_dns_message.specs.TypedOption.{option_data_of};

    /// Reads the data by the code. Octets that don't have the form of their code are unknown, and so is an option of a
    /// code without a form here.
    pub fn data(&self) -> OptionData<R>
        ensures { IsOptionData (option_of self.now) (option_data_of result) }
    {
        match self.typed() {
            Some(found) => found,
            None => OptionData::Unknown(self.code, self.octets),
        }
    }

    /// Reads the data, if it has the form of its code.
    fn typed(&self) -> Option<OptionData<R>>
        ensures typed { IfSome result (λ found. IsTypedOption (option_of self.now) (option_data_of found)) }
        ensures none { IsNone result → (found : said.OptionData) → ¬ IsTypedOption (option_of self.now) found }
    {
        match self.code {
            NSID => Some(OptionData::Nsid(self.octets)),
            CLIENT_SUBNET => Some(OptionData::ClientSubnet(ClientSubnet::read(self.octets)?)),
            COOKIE => Some(OptionData::Cookie(Cookie::read(self.octets)?)),
            PADDING => Some(OptionData::Padding(self.octets)),
            EXTENDED_ERROR => Some(OptionData::ExtendedError(ExtendedError::read(self.octets)?)),
            _ => None,
        }
    }
}

impl<R: AsOctets + Copy> ClientSubnet<R> {
    ghost use Rattle.octseq_dns_message.specs.TypedOption.{client_subnet_of};

    /// Reads a client subnet.
    fn read(octets: Parser<R>) -> Option<ClientSubnet<R>>
        ensures subnet { IfSome result (λ it. IsClientSubnet (window octets) (client_subnet_of it)) }
        ensures none { IsNone result → (it : said.ClientSubnet) → ¬ IsClientSubnet (window octets) it }
    {
        let mut ahead = octets;
        let Ok(parts) = <(U16Be, U8, U8, Nested)>::parse(&mut ahead) else {
            return None;
        };
        let (family, source, scope, address) = parts;
        let subnet = ClientSubnet {
            family,
            source_prefix_len: source,
            scope_prefix_len: scope,
            address,
        };
        if !subnet.is_prefix() {
            return None;
        }
        Some(subnet)
    }

    /// Whether neither prefix is longer than an address of the family, and the address is as few octets as hold the
    /// source prefix, with zero bits after it.
    fn is_prefix(&self) -> bool
        ensures { IsTrue result ↔ IsSubnet (client_subnet_of self.now) }
    {
        match bits_of_family(self.family) {
            Some(bits) => {
                self.source_prefix_len <= bits
                    && self.scope_prefix_len <= bits
                    && holds_bits(self.address.peek_all(), self.source_prefix_len)
            }
            None => false,
        }
    }
}

/// Returns the number of bits of the addresses of a family.
fn bits_of_family(family: u16) -> Option<u8>
    ensures some { IfSome result (HasAddressesOf family) }
    ensures none { IsNone result → (bits : ℕ) → ¬ HasAddressesOf family bits }
{
    match family {
        1 => Some(32),
        2 => Some(128),
        _ => None,
    }
}

/// Whether octets are as few as hold a number of bits, and the bits after those, in the last octet, are 0.
fn holds_bits(octets: &[u8], bits: u8) -> bool
    ensures { IsTrue result ↔ HoldsBits bits octets.now }
{
    if octets.len() != (usize::from(bits) + 7) / 8 {
        return false;
    }
    match octets.split_last() {
        Some((last, _)) => last % weight(8 * octets.len() - usize::from(bits)) == 0,
        None => true,
    }
}

/// Returns the weight of a bit of an octet, by the number of bits below it.
fn weight(below: usize) -> u8
    requires { below < 8 }
    ensures { result ≡ 2 ^ below }
{
    1 << below
}

impl<R: AsOctets + Copy> Cookie<R> {
    ghost use Rattle.octseq_dns_message.specs.TypedOption.{cookie_of};

    /// Reads a cookie.
    fn read(octets: Parser<R>) -> Option<Cookie<R>>
        ensures cookie { IfSome result (λ it. IsCookie (window octets) (cookie_of it)) }
        ensures none { IsNone result → (it : said.Cookie) → ¬ IsCookie (window octets) it }
    {
        let mut ahead = octets;
        let Ok(parts) = <(OctetArray<8>, Nested)>::parse(&mut ahead) else {
            return None;
        };
        let (client, server) = parts;
        let count = server.remaining();
        if count != 0 && (count < 8 || 32 < count) {
            return None;
        }
        Some(Cookie { client, server })
    }
}

impl<R: AsOctets + Copy> ExtendedError<R> {
    ghost use Rattle.octseq_dns_message.specs.TypedOption.{extended_error_of};

    /// Reads an extended error.
    fn read(octets: Parser<R>) -> Option<ExtendedError<R>>
        ensures extended_error { IfSome result (λ it. IsExtendedError (window octets) (extended_error_of it)) }
        ensures none { IsNone result → (it : said.ExtendedError) → ¬ IsExtendedError (window octets) it }
    {
        let mut ahead = octets;
        let Ok(parts) = <(U16Be, Nested)>::parse(&mut ahead) else {
            return None;
        };
        let (code, extra) = parts;
        let text = without_zero(extra);
        match str::from_utf8(text.peek_all()) {
            Ok(_) => Some(ExtendedError { code, text }),
            Err(_) => None,
        }
    }

    /// Returns the code: RFC 8914, 4.
    pub fn code(&self) -> u16
        ensures { result ≡ (extended_error_of self.now).code }
    {
        self.code
    }

    /// Returns the extra text, for people, without a 0 at its end.
    pub fn text(&self) -> &str
        ensures { result.now ≡ (extended_error_of self.now).text }
    {
        match str::from_utf8(self.text.peek_all()) {
            Ok(text) => text,
            Err(_) => "",
        }
    }
}

/// Returns the octets without a 0 at their end, if there is one.
fn without_zero<R: AsOctets + Copy>(octets: Parser<R>) -> Parser<R>
    ensures { IsWithoutZero (rest (window octets)) (rest (window result)) }
{
    let Some((last, front)) = octets.peek_all().split_last() else {
        return octets;
    };
    let (last, count) = (*last, front.len());
    if last != 0 {
        return octets;
    }
    let mut ahead = octets;
    infallible(ahead.parse_parser(count))
}
