//! How the text of data is read, by its type: RFC 1035, 5.1.

/// A part of data that is one word of its text.
#[derive(Clone, Copy, Debug, PartialEq, Eq)]
pub enum Field {
    /// A number of 8 bits.
    U8,
    /// A number of 16 bits.
    U16,
    /// A number of 32 bits.
    U32,
    /// A record type.
    Rtype,
    /// A time: RFC 4034, 3.2.
    Time,
    /// An IPv4 address.
    Ipv4,
    /// An IPv6 address.
    Ipv6,
    /// A domain name.
    Name,
    /// A character string.
    String,
    /// A property tag: RFC 8659, 4.1.
    Tag,
    /// A salt: RFC 5155, 3.3.
    Salt,
    /// A hashed owner name: RFC 5155, 3.3.
    OwnerHash,
}

/// What comes after the fields, up to the end of the text.
#[derive(Clone, Copy, Debug, PartialEq, Eq)]
pub enum Tail {
    /// Nothing.
    Nothing,
    /// A string of any length.
    Value,
    /// A string of one or more octets.
    Target,
    /// One or more character strings.
    Strings,
    /// Octets in hexadecimal, in one or more runs.
    Hex,
    /// Octets in base 64, in one or more runs.
    Base64,
    /// A set of record types.
    Types,
    /// Service parameters.
    Params,
}

/// What the text of data consists of.
#[derive(Clone, Copy, Debug)]
pub struct Layout {
    /// The fields in their order.
    pub fields: &'static [Field],
    /// What comes after them.
    pub tail: Tail,
}

/// A name alone.
pub(crate) const NAME: Layout = Layout {
    fields: &[Field::Name],
    tail: Tail::Nothing,
};
