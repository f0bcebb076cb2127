//! A TLS record with a ClientHello: RFC 8446, 5.1 and 4.1.2.
use octseq::AsOctets;
use octseq_format::{
    At, Const, Counted, Fields, Format, Of, Repeated, Rest, Sized, U8, U16Be, U24Be, Walk, Window,
};

/// An extension: its type, and its data with a length prefix.
pub type Extension = (U16Be, Counted<U16Be, Rest, 0>);

/// A ClientHello, with its lists as `S` and `E`.
#[derive(Clone, Copy, Debug, Drop)]
pub struct ClientHello<R: AsOctets + Copy, S, E> {
    /// The legacy version.
    pub version: u16,
    /// 32 random octets.
    pub random: Window<R>,
    /// The id of the session to resume.
    pub session: Window<R>,
    /// The cipher suites.
    pub suites: S,
    /// The compression methods.
    pub compression: Window<R>,
    /// The extensions.
    pub extensions: E,
}

/// A ClientHello that was read: its lists are walks.
pub type Hello<R> = ClientHello<R, Walk<R, U16Be>, Walk<R, Extension>>;

impl<R: AsOctets + Copy> Fields<R> for Hello<R> {
    type Format = (
        U16Be,
        At<32, Sized<Rest, 0>>,
        Counted<U8, Rest, 0>,
        Counted<U16Be, Repeated<U16Be>, 0>,
        Counted<U8, Rest, 0>,
        Counted<U16Be, Repeated<Extension>, 0>,
    );

    ghost fields = { λ hello. (
      hello.version,
      hello.random,
      hello.session,
      hello.suites,
      hello.compression,
      hello.extensions,
    ) };

    fn from_fields(parts: <Self::Format as Format<R>>::Value) -> Self {
        let (version, random, session, suites, compression, extensions) = parts;
        ClientHello {
            version,
            random,
            session,
            suites,
            compression,
            extensions,
        }
    }

    fn to_fields(&self) -> <Self::Format as Format<R>>::Value {
        (
            self.version,
            self.random,
            self.session,
            self.suites,
            self.compression,
            self.extensions,
        )
    }
}

/// A record of type 22 (handshake): a version, and with a length prefix a message of type 1 (ClientHello) that has a
/// length of its own.
pub type Record<R> = (
    Const<U8, 22>,
    U16Be,
    Counted<U16Be, (Const<U8, 1>, Counted<U24Be, Of<Hello<R>>, 0>), 0>,
);
