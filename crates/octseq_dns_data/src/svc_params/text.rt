//! The text of service parameters: RFC 9460, 2.1 and A.1.
ghost use Rattle.std.specs.Prelude.{◌≡◌, Some, length};
ghost use Rattle.std.specs.Fmt.{WritesOnOk, decimal};
ghost use Rattle.std.specs.List.{flat_map};
ghost use Rattle.std.specs.Net.Text.{ipv4_text};
ghost use Rattle.octseq.specs.Integer.{be};
ghost use Rattle.octseq.specs.Parser.{window};
ghost use Rattle.octseq.specs.Window.{rest};
ghost use Rattle.octseq.specs.OctetsText.{ipv6_address_text, string_octet_text};
ghost use Rattle.octseq_dns_data.specs.Pieces.{pieces, split_octets};
ghost use Rattle.octseq_dns_data.specs.SvcParams.{IsValueOf, ids_of, keys_of};
ghost use Rattle.octseq_dns_data.specs.SvcParamsRead.{param_of, params_place};
ghost use Rattle.octseq_dns_data.specs.SvcParamsText.{ids_text, is_listed_quoted, key_text, listed_octet};
ghost use Rattle.octseq_dns_data.specs.SvcParamsText.{param_text, svc_params_text, value_text, with_commas};

use crate::base_text::write_base64;
use crate::svc_params::form::{take_key, take_octets};
use crate::svc_params::key::{ALPN, ECH, IPV4HINT, IPV6HINT, MANDATORY, PORT, write_key};
use crate::svc_params::{AlpnIds, SvcParam, SvcParams};
use octseq::octets_text::{write_ipv4, write_ipv6, write_string_octet};
use octseq::{AsOctets, Parser};
use std::fmt;

/// Prints each parameter after a space.
impl<R: AsOctets + Copy> fmt::Display for SvcParams<R> {
    ghost output = { λ params. Some (svc_params_text (rest (params_place params))) };

    fn fmt<W: fmt::Write>(&self, f: &mut fmt::Formatter<W>) -> fmt::Result {
        for param in self.iter() {
            write!(f, " {param}")?;
        }
        Ok(())
    }
}

/// Prints the key, and for a value that isn't empty `=` and the value in `"`.
impl<R: AsOctets> fmt::Display for SvcParam<R> {
    ghost output = { λ param. Some (param_text (param_of param)) };

    fn fmt<W: fmt::Write>(&self, f: &mut fmt::Formatter<W>) -> fmt::Result {
        write_key(f, self.key)?;
        let octets = self.octets.peek_all();
        if octets.is_empty() {
            return Ok(());
        }
        f.write_str("=\"")?;
        write_value(f, self.key, octets)?;
        f.write_char('"')
    }
}

/// Writes a value, by its key.
#[tactic(auto, unfolding(crate::specs::SvcParamsText::value_text))]
fn write_value<W: fmt::Write>(f: &mut fmt::Formatter<W>, key: u16, octets: &[u8]) -> fmt::Result
    requires { IsValueOf key octets.now }
    ensures { WritesOnOk W.write_str_gives f.old result (value_text key octets.now) f.new }
{
    match key {
        MANDATORY => write_keys(f, octets),
        ALPN => write_ids(f, octets),
        PORT => write_port(f, octets),
        IPV4HINT => write_ipv4_hints(f, octets),
        ECH => write_base64(f, octets),
        IPV6HINT => write_ipv6_hints(f, octets),
        _ => write_octets(f, octets),
    }
}

/// Writes keys, separated by commas.
fn write_keys<W: fmt::Write>(f: &mut fmt::Formatter<W>, octets: &[u8]) -> fmt::Result
    ensures { WritesOnOk W.write_str_gives f.old result (with_commas key_text (keys_of octets.now)) f.new }
{
    let mut ahead = Parser::from_ref(octets);
    let Ok(first) = take_key(&mut ahead) else {
        return Ok(());
    };
    write_key(f, first)?;
    'keys: while let Ok(key) = take_key(&mut ahead) {
        f.write_char(',')?;
        write_key(f, key)?;
    }
    Ok(())
}

/// Writes IPv4 addresses, separated by commas.
fn write_ipv4_hints<W: fmt::Write>(f: &mut fmt::Formatter<W>, octets: &[u8]) -> fmt::Result
    ensures { WritesOnOk W.write_str_gives f.old result
        (with_commas ipv4_text (pieces (split_octets 4) octets.now)) f.new }
{
    let mut ahead = Parser::from_ref(octets);
    let Ok(first) = take_octets::<&[u8], 4>(&mut ahead) else {
        return Ok(());
    };
    write_ipv4(f, first)?;
    'hints: while let Ok(hint) = take_octets::<&[u8], 4>(&mut ahead) {
        f.write_char(',')?;
        write_ipv4(f, hint)?;
    }
    Ok(())
}

/// Writes IPv6 addresses, separated by commas.
fn write_ipv6_hints<W: fmt::Write>(f: &mut fmt::Formatter<W>, octets: &[u8]) -> fmt::Result
    ensures { WritesOnOk W.write_str_gives f.old result
        (with_commas ipv6_address_text (pieces (split_octets 16) octets.now)) f.new }
{
    let mut ahead = Parser::from_ref(octets);
    let Ok(first) = take_octets::<&[u8], 16>(&mut ahead) else {
        return Ok(());
    };
    write_ipv6(f, first)?;
    'hints: while let Ok(hint) = take_octets::<&[u8], 16>(&mut ahead) {
        f.write_char(',')?;
        write_ipv6(f, hint)?;
    }
    Ok(())
}

/// Writes ids, separated by commas, as the octets of a string.
fn write_ids<W: fmt::Write>(f: &mut fmt::Formatter<W>, octets: &[u8]) -> fmt::Result
    ensures { WritesOnOk W.write_str_gives f.old result (ids_text (ids_of octets.now)) f.new }
{
    let mut ids = AlpnIds::from_value(Parser::from_ref(octets));
    let Some(first) = ids.next() else {
        return Ok(());
    };
    write_id(f, first.peek_all())?;
    for id in ids {
        f.write_char(',')?;
        write_id(f, id.peek_all())?;
    }
    Ok(())
}

/// Writes an id of a list, as the octets of a string.
fn write_id<W: fmt::Write>(f: &mut fmt::Formatter<W>, octets: &[u8]) -> fmt::Result
    ensures { WritesOnOk W.write_str_gives f.old result
        (flat_map string_octet_text (flat_map listed_octet octets.now)) f.new }
{
    for octet in octets {
        if needs_backslash(*octet) {
            write_string_octet(f, b'\\')?;
        }
        write_string_octet(f, *octet)?;
    }
    Ok(())
}

/// Whether an octet of an id is written after a backslash in a list.
fn needs_backslash(octet: u8) -> bool
    ensures { result ≡ is_listed_quoted octet }
{
    matches!(octet, b'\\' | b',')
}

/// Writes a port number of 2 octets.
fn write_port<W: fmt::Write>(f: &mut fmt::Formatter<W>, octets: &[u8]) -> fmt::Result
    requires { length octets.now ≡ 2 }
    ensures { WritesOnOk W.write_str_gives f.old result (decimal (be octets.now)) f.new }
{
    match Parser::from_ref(octets).parse_u16_be() {
        Ok(port) => write!(f, "{port}"),
        Err(_) => Err(fmt::Error),
    }
}

/// Writes octets as those of a string, without `"`.
fn write_octets<W: fmt::Write>(f: &mut fmt::Formatter<W>, octets: &[u8]) -> fmt::Result
    ensures { WritesOnOk W.write_str_gives f.old result (flat_map string_octet_text octets.now) f.new }
{
    for octet in octets {
        write_string_octet(f, *octet)?;
    }
    Ok(())
}
