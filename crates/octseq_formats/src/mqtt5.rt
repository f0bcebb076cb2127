//! Packets of MQTT 5.0, as a server reads them: its standard, 1.5, 2, 3.1 and 3.3.
use crate::mqtt::{
    Field, HasPassword, HasUser, HasWill, IsAcknowledged, IsOther, IsUnacknowledged, Length,
};
use octseq_format::{
    Any, Case, Counted, If, Itself, Key, Keyed, Minimal, Rest, Then, U8, U16Be, When, Within,
};

/// Properties: octets after their length.
pub type Properties = Counted<Length, Rest, 0>;

/// CONNECT, which has properties before the client's identifier, and before the will.
pub type Connect = Keyed<
    (Field, U8, Key<U8, Itself>, U16Be),
    Then<
        Any<(Properties, Field)>,
        Then<
            If<HasWill, (Properties, Field, Field)>,
            Then<If<HasUser, Field>, If<HasPassword, Field>>,
        >,
    >,
>;

/// What follows the first octet and the length: CONNECT and PUBLISH, with their properties, or the octets of another
/// packet.
pub type Body = (
    Case<0x10, Connect>,
    When<IsUnacknowledged, Any<(Field, Properties, Rest)>>,
    When<IsAcknowledged, Any<(Field, U16Be, Properties, Rest)>>,
    When<IsOther, Any<Rest>>,
);

/// A packet. Which version of MQTT it has, its connection's CONNECT says.
pub type Packet = Keyed<Key<U8, Itself>, Within<Minimal<Length>, Body>>;
