//! Packets of MQTT 3.1.1, as a server reads them: its standard, 1.5, 2, 3.1, 3.3 and 3.8.
ghost use Rattle.std.specs.Prelude.{◌≡◌, ◌≤◌, ◌<◌, ◌*◌, ◌/◌, ◌%◌, nat_eq};

use octseq_format::{
    Any, Case, Counted, If, Itself, Key, Keyed, Leb128, Repeated, Rest, Switch, Test, Then, U8,
    U16Be, When, Within,
};

/// A string or octets after their length.
pub type Field = Counted<U16Be, Rest, 0>;

/// A remaining length, in at most four octets. It is written in the fewest.
pub type Length = Leb128<4, 28>;

/// Whether there is a will.
#[derive(Debug)]
pub struct HasWill;

impl Switch for HasWill {
    ghost on = { λ flags. nat_eq (flags / 4 % 2) 1 };

    fn is_on(flags: usize) -> bool {
        flags / 4 % 2 == 1
    }
}

/// Whether there is a password.
#[derive(Debug)]
pub struct HasPassword;

impl Switch for HasPassword {
    ghost on = { λ flags. nat_eq (flags / 64 % 2) 1 };

    fn is_on(flags: usize) -> bool {
        flags / 64 % 2 == 1
    }
}

/// Whether there is a user's name.
#[derive(Debug)]
pub struct HasUser;

impl Switch for HasUser {
    ghost on = { λ flags. nat_eq (flags / 128 % 2) 1 };

    fn is_on(flags: usize) -> bool {
        flags / 128 % 2 == 1
    }
}

/// CONNECT: the protocol's name and level, flags, and seconds; a client's identifier; then a will's topic and message,
/// a user's name and a password, as the flags say.
pub type Connect = Keyed<
    (Field, U8, Key<U8, Itself>, U16Be),
    Then<
        Any<Field>,
        Then<If<HasWill, (Field, Field)>, Then<If<HasUser, Field>, If<HasPassword, Field>>>,
    >,
>;

/// The first octet of a PUBLISH whose messages aren't acknowledged.
#[derive(Debug)]
pub struct IsUnacknowledged;

impl Test for IsUnacknowledged {
    ghost holds = { λ first. (first / 16 ≡ 3) × (first / 2 % 4 ≡ 0) };

    fn test(first: usize) -> bool {
        first / 16 == 3 && first / 2 % 4 == 0
    }
}

/// The first octet of a PUBLISH whose messages are acknowledged.
#[derive(Debug)]
pub struct IsAcknowledged;

impl Test for IsAcknowledged {
    ghost holds = { λ first. (first / 16 ≡ 3) × ((0 < first / 2 % 4) × (first / 2 % 4 < 3)) };

    fn test(first: usize) -> bool {
        first / 16 == 3 && first / 2 % 4 > 0 && first / 2 % 4 < 3
    }
}

/// The first octet of a packet of another type than PUBLISH.
#[derive(Debug)]
pub struct IsOther;

impl Test for IsOther {
    ghost holds = { λ first. first / 16 ≡ 3 → ⊥ };

    fn test(first: usize) -> bool {
        first / 16 != 3
    }
}

/// What follows the first octet and the length: CONNECT, PUBLISH (a topic, a packet's number if it is acknowledged, and
/// a message), SUBSCRIBE (a packet's number, and topics with what is asked for), or the octets of another packet.
pub type Body = (
    Case<0x10, Connect>,
    Case<0x82, (U16Be, Repeated<(Field, U8)>)>,
    When<IsUnacknowledged, Any<(Field, Rest)>>,
    When<IsAcknowledged, Any<(Field, U16Be, Rest)>>,
    When<IsOther, Any<Rest>>,
);

/// A packet: its first octet, with its type and flags, and its body after its length.
pub type Packet = Keyed<Key<U8, Itself>, Within<Length, Body>>;
