//! A domain name as a format.
ghost use Rattle.std.specs.Prelude.{◌≡◌, ◌≤◌, ◌+◌, List, ℕ, length, false};
ghost use Rattle.std.proofs.Common.{rules};
ghost use Rattle.octseq_dns_name.specs.Name.{Name as Named, HasName};
ghost use Rattle.octseq_dns_name.specs.NameFormat.{NameFits, delimited_name, least_turns, name_code, name_labels};
ghost use Rattle.octseq_dns_name.specs.NameFormat.{name_read_back, one_named, onward_name};
ghost use Rattle.octseq_dns_name.specs.Read.{name_of};
ghost use Rattle.octseq_dns_name.specs.Wire.{wire};
ghost use Rattle.octseq_format.specs.Canonical.{not_one_way};
ghost use Rattle.octseq_format.specs.Stop.{stops_here};

use crate::error::Malformed;
use crate::name::ParsedName;
use crate::name::wire::append_labels;
use octseq::builder::infallible;
use octseq::{Array, AsOctets, OctetsBuilder, Parser, Truncate, Turns};
use octseq_format::{Format, Yes};
use std::alloc::AllocError;

/// A domain name: read with its compression pointers, and written without any.
#[derive(Debug)]
pub struct DomainName;

impl<R: AsOctets + Copy> Format<R> for DomainName {
    type Value = ParsedName<R>;

    type SelfDelimiting = Yes;

    type NonEmpty = Yes;

    ghost Found = { Named };

    ghost found = { λ name. name_of name };

    ghost is_at = { HasName };

    ghost Said = { List (List ℕ) };

    ghost says = { name_labels };

    ghost octets = { wire };

    ghost fits = { NameFits };

    ghost one = { one_named };

    ghost found_code = { name_code };

    ghost least = { 1 };

    ghost turns_of = { least_turns };

    ghost base = { 255 };

    ghost rate = { 0 };

    ghost key = { λ _. 0 };

    ghost stops = { stops_here };

    #[inline(always)]
    fn parse_counted(
        parser: &mut Parser<R>,
        turns: &mut Turns,
    ) -> Result<ParsedName<R>, Malformed> {
        let name = ParsedName::parse_counted(parser, turns)?;
        Ok(name)
    }

    fn fault(parser: &Parser<R>) -> usize {
        parser.pos()
    }

    #[inline(always)]
    fn least_len() -> usize {
        1
    }

    #[inline(always)]
    fn key_of(_value: &Self::Value) -> usize {
        0
    }

    #[inline(always)]
    fn is_canonical() -> bool {
        false
    }

    #[inline(always)]
    fn compose_len(value: &ParsedName<R>) -> Option<usize> {
        Some(value.len())
    }

    fn put<B: OctetsBuilder + Truncate>(
        builder: &mut B,
        value: &ParsedName<R>,
    ) -> Result<(), AllocError> {
        let mut octets = Array::<255>::new();
        infallible(append_labels(&mut octets, value.labels()));
        builder
            .append_slice(octets.as_slice())
            .map_err(|_| AllocError)
    }

    ghost one_way = { false };

    ghost canonical = { not_one_way };

    ghost onward = { onward_name };

    ghost read_back = { name_read_back };

    ghost delimited = { λ _. delimited_name };

    ghost moving = { λ _. Prim.search rules };
}
