//! The form of parameters, and of the value of each key: RFC 9460, 2.2, 7 and 8.
ghost use Rattle.std.specs.Prelude.{◌≡◌, ◌+◌, ◌≤◌, length, Some, None, IsTrue, IsFalse, IsErr, IfOk, OnErr};
ghost use Rattle.octseq.specs.Parser.{window};
ghost use Rattle.octseq.specs.Window.{rest};
ghost use Rattle.octseq_dns_data.specs.Pieces.{split_number, split_octets, split_part};
ghost use Rattle.octseq_dns_data.specs.SvcParams.{AreAddresses, AreIds, AreKeys, IsSvcParams, IsValueOf};
ghost use Rattle.octseq_dns_data.specs.SvcParams.{ids_of, keys_of, params_turns, split_param, value_turns};

use crate::svc_params::key::{ALPN, IPV4HINT, IPV6HINT, MANDATORY, NO_DEFAULT_ALPN, PORT};
use octseq::{AsOctets, Malformed, Parser, Turns};
use octseq_format::{Format, OctetArray, are_octets};

/// Reads the next parameter, whatever its value.
pub(crate) fn take_param<R: AsOctets + Copy>(
    parser: &mut Parser<R>,
) -> Result<(u16, Parser<R>), Malformed>
    ensures param { IfOk result (λ param. split_param (rest (window parser.old))
        ≡ Some ((param.0, rest (window param.1)), rest (window parser.new))) }
    ensures none { IsErr result → split_param (rest (window parser.old)) ≡ None }
    ensures kept { OnErr result (window parser.new ≡ window parser.old) }
{
    let mut ahead = *parser;
    let key = ahead.parse_u16_be()?;
    let octets = ahead.parse_part_u16_be()?;
    *parser = ahead;
    Ok((key, octets))
}

/// Reads the next protocol id.
pub(crate) fn take_id<R: AsOctets + Copy>(parser: &mut Parser<R>) -> Result<Parser<R>, Malformed>
    ensures id { IfOk result (λ id. split_part 1 (rest (window parser.old))
        ≡ Some (rest (window id), rest (window parser.new))) }
    ensures none { IsErr result → split_part 1 (rest (window parser.old)) ≡ None }
    ensures kept { OnErr result (window parser.new ≡ window parser.old) }
{
    Ok(parser.parse_part_u8()?)
}

/// Reads the next key of a list.
pub(crate) fn take_key<R: AsOctets + Copy>(parser: &mut Parser<R>) -> Result<u16, Malformed>
    ensures key { IfOk result (λ key. split_number 2 (rest (window parser.old))
        ≡ Some (key, rest (window parser.new))) }
    ensures none { IsErr result → split_number 2 (rest (window parser.old)) ≡ None }
    ensures kept { OnErr result (window parser.new ≡ window parser.old) }
{
    Ok(parser.parse_u16_be()?)
}

/// Reads the next `N` octets.
pub(crate) fn take_octets<R: AsOctets + Copy, const N: usize>(
    parser: &mut Parser<R>,
) -> Result<[u8; N], Malformed>
    ensures octets { IfOk result (λ octets. split_octets N (rest (window parser.old))
        ≡ Some (octets, rest (window parser.new))) }
    ensures none { IsErr result → split_octets N (rest (window parser.old)) ≡ None }
    ensures kept { OnErr result (window parser.new ≡ window parser.old) }
{
    let octets = OctetArray::<N>::parse(parser)?;
    Ok(octets)
}

/// Whether octets are parameters. It counts a turn for each parameter, key and id.
pub(crate) fn is_svc_params(octets: &[u8], turns: &mut Turns) -> bool
    ensures yes { IsTrue result → IsSvcParams octets.now }
    ensures no { IsFalse result → ¬ IsSvcParams octets.now }
    ensures some { turns.old ≤ turns.new }
    ensures least { IsTrue result → turns.old + params_turns octets.now ≤ turns.new }
    ensures turns { turns.new ≤ turns.old + length octets.now }
{
    are_octets(octets);
    let mut ahead = Parser::from_ref(octets);
    let mut least = 0_u32;
    'params: while ahead.remaining() > 0 {
        turns.tick();
        let Ok((key, value)) = take_param(&mut ahead) else {
            return false;
        };
        if u32::from(key) < least {
            return false;
        }
        if !is_value_of(key, value.peek_all(), turns) {
            return false;
        }
        least = u32::from(key) + 1;
    }
    true
}

/// Whether a value has the form of its key.
fn is_value_of(key: u16, octets: &[u8], turns: &mut Turns) -> bool
    ensures yes { IsTrue result → IsValueOf key octets.now }
    ensures no { IsFalse result → ¬ IsValueOf key octets.now }
    ensures some { turns.old ≤ turns.new }
    ensures least { IsTrue result → turns.old + value_turns (key, octets.now) ≤ turns.new }
    ensures turns { turns.new ≤ turns.old + length octets.now }
{
    match key {
        MANDATORY => are_keys(octets, turns),
        ALPN => are_ids(octets, turns),
        NO_DEFAULT_ALPN => octets.is_empty(),
        PORT => octets.len() == 2,
        IPV4HINT => are_addresses(4, octets),
        IPV6HINT => are_addresses(16, octets),
        _ => true,
    }
}

/// Whether octets are one or more addresses of `size` octets each.
fn are_addresses(size: usize, octets: &[u8]) -> bool
    requires { 1 ≤ size }
    ensures yes { IsTrue result → AreAddresses size octets.now }
    ensures no { IsFalse result → ¬ AreAddresses size octets.now }
{
    !octets.is_empty() && octets.len() % size == 0
}

/// Whether octets are one or more ascending keys, none of them 0.
fn are_keys(octets: &[u8], turns: &mut Turns) -> bool
    ensures yes { IsTrue result → AreKeys octets.now (keys_of octets.now) }
    ensures no { IsFalse result → ¬ AreKeys octets.now (keys_of octets.now) }
    ensures some { turns.old ≤ turns.new }
    ensures least { IsTrue result → turns.old + length (keys_of octets.now) ≤ turns.new }
    ensures turns { turns.new ≤ turns.old + length octets.now }
{
    are_octets(octets);
    let mut ahead = Parser::from_ref(octets);
    let mut least = 1_u32;
    'keys: while ahead.remaining() > 0 {
        turns.tick();
        let Ok(key) = take_key(&mut ahead) else {
            return false;
        };
        if u32::from(key) < least {
            return false;
        }
        least = u32::from(key) + 1;
    }
    !octets.is_empty()
}

/// Whether octets are one or more protocol ids, none of them empty.
fn are_ids(octets: &[u8], turns: &mut Turns) -> bool
    ensures yes { IsTrue result → AreIds octets.now (ids_of octets.now) }
    ensures no { IsFalse result → ¬ AreIds octets.now (ids_of octets.now) }
    ensures some { turns.old ≤ turns.new }
    ensures least { IsTrue result → turns.old + length (ids_of octets.now) ≤ turns.new }
    ensures turns { turns.new ≤ turns.old + length octets.now }
{
    are_octets(octets);
    let mut ahead = Parser::from_ref(octets);
    'ids: while ahead.remaining() > 0 {
        turns.tick();
        let Ok(id) = take_id(&mut ahead) else {
            return false;
        };
        if id.remaining() == 0 {
            return false;
        }
    }
    !octets.is_empty()
}
