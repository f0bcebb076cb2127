//! Names without compression pointers.
ghost use Rattle.std.specs.Prelude.{◌≡◌, ℕ, List, false};
ghost use Rattle.std.proofs.Common.{rules};
ghost use Rattle.octseq_dns_data.specs.UncompressedName.{HasUncompressedName, one_plain, onward_plain, delimited_plain};
ghost use Rattle.octseq_dns_data.specs.UncompressedName.{plain_read_back};
ghost use Rattle.octseq_dns_name.specs.Name.{Name as Named};
ghost use Rattle.octseq_dns_name.specs.NameFormat.{NameFits, least_turns, name_code, name_labels};
ghost use Rattle.octseq_dns_name.specs.Read.{name_of};
ghost use Rattle.octseq_dns_name.specs.Wire.{wire};
ghost use Rattle.octseq_format.specs.Canonical.{not_one_way};
ghost use Rattle.octseq_format.specs.Stop.{stops_here};

use octseq::{AsOctets, Malformed, OctetsBuilder, Parser, Truncate, Turns};
use octseq_dns_name::name::a_name_has_labels;
use octseq_dns_name::{DomainName, ParsedName};
use octseq_format::{Format, Yes, are_octets};
use std::alloc::AllocError;

/// A domain name without compression pointers. A name with a pointer is refused. Data of types later than RFC 1035 has
/// such names: RFC 3597, 4.
#[derive(Debug)]
pub struct UncompressedName;

impl<R: AsOctets + Copy> Format<R> for UncompressedName {
    type Value = ParsedName<R>;

    type SelfDelimiting = Yes;

    type NonEmpty = Yes;

    ghost Found = { Named };

    ghost found = { λ name. name_of name };

    ghost is_at = { HasUncompressedName };

    ghost Said = { List (List ℕ) };

    ghost says = { name_labels };

    ghost octets = { wire };

    ghost fits = { NameFits };

    ghost one = { one_plain };

    ghost found_code = { name_code };

    ghost least = { 1 };

    ghost turns_of = { least_turns };

    ghost base = { 255 };

    ghost rate = { 0 };

    ghost key = { λ _. 0 };

    ghost stops = { stops_here };

    // (if the octets of a name are as many as its wire form, it has no pointer: a pointer takes two octets, and no name
    // has two in wire form)
    fn parse_counted(
        parser: &mut Parser<R>,
        turns: &mut Turns,
    ) -> Result<ParsedName<R>, Malformed> {
        let mut ahead = *parser;
        let sequence = ahead.octets_ref();
        are_octets(sequence.as_ref());
        let name = DomainName::parse_counted(&mut ahead, turns)?;
        a_name_has_labels(&name);
        if ahead.pos() - parser.pos() != name.len() {
            return Err(Malformed);
        }
        *parser = ahead;
        Ok(name)
    }

    fn fault(parser: &Parser<R>) -> usize {
        parser.pos()
    }

    #[inline(always)]
    fn least_len() -> usize {
        1
    }

    #[inline(always)]
    fn key_of(_value: &Self::Value) -> usize {
        0
    }

    #[inline(always)]
    fn is_canonical() -> bool {
        false
    }

    #[inline(always)]
    fn compose_len(value: &ParsedName<R>) -> Option<usize> {
        <DomainName as Format<R>>::compose_len(value)
    }

    #[inline(always)]
    fn put<B: OctetsBuilder + Truncate>(
        builder: &mut B,
        value: &ParsedName<R>,
    ) -> Result<(), AllocError> {
        <DomainName as Format<R>>::put(builder, value)
    }

    ghost one_way = { false };

    ghost canonical = { not_one_way };

    ghost onward = { onward_plain };

    ghost read_back = { plain_read_back };

    ghost delimited = { λ _. delimited_plain };

    ghost moving = { λ _. Prim.search rules };
}
