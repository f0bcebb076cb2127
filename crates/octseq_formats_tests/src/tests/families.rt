//! What a head decides: octets by hand, from the standards.
ghost use Rattle.std.specs.Prelude.{◌≡◌, ◌/◌, ◌%◌, nat_eq};

use crate::tests::{is_said, is_unwritten, isnt_said};
use octseq_format::{
    After, Any, Case, Counted, Flag, Format, Itself, Key, KeyBits, Keyed, Leb128, OctetArray,
    OneOf2, OneOf3, OneOf4, Reckoning, Sized, Switch, Tagged, Test, Then, Through, U8, U16Be,
    U24Be, U32Be, U32Le, U64Le, UInt, When, Within, WithinBy,
};

/// A frame of HTTP/2 with a payload of eight octets: length, type, flags and stream, and the payload (RFC 9113, 4.1).
type Frame = Keyed<(Key<U24Be, Itself>, U8, U8, U32Be), Sized<OctetArray<8>, 0>>;

#[test]
fn a_head_may_have_the_length(rt: HostRuntime) {
    is_said::<Frame>(
        &rt,
        b"\0\0\x08\x06\x01\0\0\0\012345678",
        ((8, 6, 1, 0), *b"12345678"),
    );
    isnt_said::<Frame>(&rt, b"\0\0\x08\x06\x01\0\0\0\01234567");
    isnt_said::<Frame>(&rt, b"\0\0\x07\x06\x01\0\0\0\01234567");
    is_unwritten::<Frame>(&rt, ((7, 6, 1, 0), *b"12345678"));
}

/// The same frame, whose value has no length: it is that of the payload.
type Measured = Tagged<U24Be, After<(U8, U8, U32Be), Sized<OctetArray<8>, 0>>>;

/// A datagram of UDP: ports, a length that counts the header too, a checksum, and a payload of two octets (RFC 768).
type Datagram = (
    U16Be,
    U16Be,
    Tagged<U16Be, After<U16Be, Sized<OctetArray<2>, 8>>>,
);

#[test]
fn a_length_before_other_fields_is_computed(rt: HostRuntime) {
    is_said::<Measured>(
        &rt,
        b"\0\0\x08\x06\x01\0\0\0\012345678",
        ((6, 1, 0), *b"12345678"),
    );
    isnt_said::<Measured>(&rt, b"\0\0\x07\x06\x01\0\0\0\01234567");
    is_said::<Datagram>(
        &rt,
        b"\0\x35\xC0\x01\0\x0A\x12\x34hi",
        (53, 49153, (0x1234, *b"hi")),
    );
    isnt_said::<Datagram>(&rt, b"\0\x35\xC0\x01\0\x0B\x12\x34hi");
    isnt_said::<Datagram>(&rt, b"\0\x35\xC0\x01\0\x07\x12\x34hi");
}

/// The wire type of a field of Protocol Buffers: the lowest three bits.
struct WireType;

impl Reckoning for WireType {
    ghost of = { λ number. number % 8 };

    fn of(number: usize) -> usize {
        number % 8
    }
}

/// A field of Protocol Buffers: its number and wire type, and its value.
type Field = Keyed<
    KeyBits<Leb128<10, 64>, (UInt<29>, UInt<3>), WireType>,
    (
        Case<0, Key<Leb128<10, 64>, Itself>>,
        Case<1, U64Le>,
        Case<2, Counted<Leb128<10, 64>, OctetArray<7>, 0>>,
        Case<5, U32Le>,
    ),
>;

/// The first two are the examples of the page on the encoding of Protocol Buffers.
#[test]
fn bits_of_a_head_may_tell_what_comes(rt: HostRuntime) {
    is_said::<Field>(&rt, b"\x08\x96\x01", ((1, 0), OneOf4::First(150)));
    is_said::<Field>(
        &rt,
        b"\x12\x07testing",
        ((2, 2), OneOf4::Third(*b"testing")),
    );
    is_said::<Field>(&rt, b"\x1D\x02\x01\0\0", ((3, 5), OneOf4::Fourth(258)));
    isnt_said::<Field>(&rt, b"\x08\x96");
    isnt_said::<Field>(&rt, b"\x0B\x01");
    is_unwritten::<Field>(&rt, ((1, 5), OneOf4::First(150)));
}

/// The lowest seven bits.
struct LowSeven;

impl Reckoning for LowSeven {
    ghost of = { λ number. number % 128 };

    fn of(number: usize) -> usize {
        number % 128
    }
}

/// The eighth bit is set.
struct Masked;

impl Test for Masked {
    ghost holds = { λ number. number / 128 % 2 ≡ 1 };

    fn test(number: usize) -> bool {
        number / 128 % 2 == 1
    }
}

/// Octets of a message, as many as the lowest seven bits say.
type Payload = Through<LowSeven, Sized<OctetArray<5>, 0>>;

/// A frame of a WebSocket: FIN, three reserved bits, an opcode, whether it is masked and a length; if it is masked, a
/// key of four octets; and the octets (RFC 6455, 5.2).
type Message = Keyed<
    KeyBits<U16Be, (Flag, UInt<3>, UInt<4>, (Flag, UInt<7>)), Itself>,
    (When<Masked, Then<Any<OctetArray<4>>, Payload>>, Payload),
>;

/// The two frames are the first of RFC 6455, 5.7.
#[test]
fn a_part_may_be_there_by_a_bit(rt: HostRuntime) {
    is_said::<Message>(
        &rt,
        b"\x81\x05Hello",
        ((true, 0, 1, (false, 5)), OneOf2::Second(*b"Hello")),
    );
    is_said::<Message>(
        &rt,
        b"\x81\x85\x37\xFA\x21\x3D\x7F\x9F\x4D\x51\x58",
        (
            (true, 0, 1, (true, 5)),
            OneOf2::First((*b"\x37\xFA\x21\x3D", *b"\x7F\x9F\x4D\x51\x58")),
        ),
    );
    isnt_said::<Message>(&rt, b"\x81\x05Hell");
    isnt_said::<Message>(&rt, b"\x81\x85\x37\xFA\x21\x3D\x7F\x9F\x4D\x51");
    is_unwritten::<Message>(&rt, ((true, 0, 1, (true, 5)), OneOf2::Second(*b"Hello")));
    is_unwritten::<Message>(&rt, ((true, 0, 1, (false, 4)), OneOf2::Second(*b"Hello")));
}

/// An option of DHCP: its code, and its length before its value. 53 is the type of a message, 51 a time of lease, and
/// other ones here are of two octets, as 57, a size (RFC 2132, 9).
type DhcpOption = Keyed<Key<U8, Itself>, Within<U8, (Case<53, U8>, Case<51, U32Be>, Any<U16Be>)>>;

#[test]
fn a_length_may_come_between(rt: HostRuntime) {
    is_said::<DhcpOption>(&rt, b"\x35\x01\x05", (53, OneOf3::First(5)));
    is_said::<DhcpOption>(&rt, b"\x33\x04\0\x01\x51\x80", (51, OneOf3::Second(86_400)));
    is_said::<DhcpOption>(&rt, b"\x39\x02\x05\xDC", (57, OneOf3::Third(1_500)));
    isnt_said::<DhcpOption>(&rt, b"\x33\x04\0\x01\x51");
    isnt_said::<DhcpOption>(&rt, b"\x33\x05\0\x01\x51\x80\0");
    is_unwritten::<DhcpOption>(&rt, (53, OneOf3::Third(1_500)));
}

/// The length has two octets.
struct Extended;

impl Switch for Extended {
    ghost on = { λ flags. nat_eq (flags / 16 % 2) 1 };

    fn is_on(number: usize) -> bool {
        number / 16 % 2 == 1
    }
}

/// A path attribute of BGP with a value of four octets: flags, a type, and a length of one or two octets before the
/// value (RFC 4271, 4.3).
type Attribute = Keyed<(Key<U8, Itself>, U8), WithinBy<Extended, U16Be, U8, Any<U32Be>>>;

#[test]
fn a_length_may_be_of_two_forms(rt: HostRuntime) {
    is_said::<Attribute>(&rt, b"\x40\x05\x04\0\0\0\x64", ((0x40, 5), 100));
    is_said::<Attribute>(&rt, b"\x50\x05\0\x04\0\0\0\x64", ((0x50, 5), 100));
    isnt_said::<Attribute>(&rt, b"\x50\x05\x04\0\0\0\x64");
    isnt_said::<Attribute>(&rt, b"\x40\x05\x04\0\0\0");
    isnt_said::<Attribute>(&rt, b"\x40\x05\x05\0\0\0\x64\0");
}
