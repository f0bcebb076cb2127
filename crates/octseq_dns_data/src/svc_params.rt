//! The service parameters of SVCB and HTTPS: RFC 9460, 2.2, 7 and 8.
ghost use Rattle.std.specs.Prelude.{◌≡◌, ℕ, ◌+◌, ◌≤◌, List, IsErr, IsOk, IfOk, ⊤};
ghost use Rattle.octseq.specs.Parser.{window};
ghost use Rattle.octseq.specs.Window.{left, rest, whole};
ghost use Rattle.octseq_dns_data.specs.SvcParams.{AreIds, AreKeys, AreParams, IsSvcParams, IsValueOf, Param};
ghost use Rattle.octseq_dns_data.specs.SvcParams.{ids_of, keys_of, params_of, params_turns};

use crate::data::FormedOctets;
use crate::svc_params::form::{is_svc_params, take_id, take_param};
use octseq::{AsOctets, Malformed, Parser, Turns};
use octseq_format::are_octets;
use std::alloc::AllocError;

mod form;
pub mod key;
mod text;

/// Octets are parameters in at most one way: as the parameters that they are split into.
///
/// It does nothing. Calling it brings the law into the caller's proof.
pub fn one_reading_of_params()
    ensures { (octets : List ℕ) (params : List Param) → AreParams octets params → params ≡ params_of octets }
{}

/// A list of keys is read in at most one way.
///
/// It does nothing. Calling it brings the law into the caller's proof.
pub fn one_reading_of_keys()
    ensures { (value keys : List ℕ) → AreKeys value keys → keys ≡ keys_of value }
{}

/// A list of ids is read in at most one way.
///
/// It does nothing. Calling it brings the law into the caller's proof.
pub fn one_reading_of_ids()
    ensures { (value : List ℕ) (ids : List (List ℕ)) → AreIds value ids → ids ≡ ids_of value }
{}

/// A service parameter: RFC 9460, 2.2. Its value has the form of its key.
#[derive(Debug)]
pub struct SvcParam<R: AsOctets> {
    /// The key.
    pub key: u16,
    /// The value, as a parser limited to its octets.
    pub octets: Parser<R>,
    ghost value: { IsValueOf key (rest (window octets)) },
}

impl<R: AsOctets + Copy> Copy for SvcParam<R> {}

impl<R: AsOctets + Copy> Clone for SvcParam<R> {
    ghost is_clone = { λ param copy. copy ≡ param };

    ghost is_infallible = { λ _. ⊤ };

    fn clone(&self) -> Result<Self, AllocError> {
        Ok(*self)
    }
}

impl<R: AsOctets + Copy> SvcParam<R> {
    ghost use Rattle.std.specs.Prelude.{◌↔◌, IsSome, IfSome};
    ghost use Rattle.octseq_dns_data.specs.SvcParamsRead.{ids_left};

    /// Returns an iterator over the protocol ids, if the key is [`ALPN`](key::ALPN).
    pub fn alpn_ids(&self) -> Option<AlpnIds<R>>
        ensures some { IsSome result ↔ (self.now.key ≡ 1) }
        ensures ids { IfSome result (λ ids. ids_left ids ≡ ids_of (rest (window self.now.octets))) }
        ensures form { IfSome result (λ ids. AreIds (rest (window self.now.octets)) (ids_left ids)) }
    {
        if self.key == key::ALPN {
            return Some(AlpnIds::from_value(self.octets));
        }
        None
    }
}

/// Any number of service parameters: RFC 9460, 2.2. Their keys ascend, and each value has the form of its key.
#[derive(Debug)]
pub struct SvcParams<R: AsOctets> {
    parser: Parser<R>,
    ghost params: { IsSvcParams (rest (window parser)) },
}

impl<R: AsOctets + Copy> Copy for SvcParams<R> {}

impl<R: AsOctets + Copy> Clone for SvcParams<R> {
    ghost is_clone = { λ params copy. copy ≡ params };

    ghost is_infallible = { λ _. ⊤ };

    fn clone(&self) -> Result<Self, AllocError> {
        Ok(*self)
    }
}

impl<R: AsOctets + Copy> SvcParams<R> {
    ghost use Rattle.std.specs.Option.{option_map};
    ghost use Rattle.std.specs.Prelude.{◌==◌, find};
    ghost use Rattle.octseq_dns_data.specs.SvcParamsRead.{param_of, params_place, params_left};

    /// Reads all the octets as parameters.
    ///
    /// # Errors
    ///
    /// `Malformed` if the octets aren't parameters.
    pub fn from_octets(octets: R) -> Result<SvcParams<R>, Malformed>
        ensures place { IfOk result (λ params. params_place params ≡ whole (R.content octets)) }
        ensures params { IsOk result → IsSvcParams (R.content octets) }
        ensures malformed { IsErr result → ¬ IsSvcParams (R.content octets) }
    {
        SvcParams::parse(Parser::from_ref(octets), &mut Turns::new())
    }

    /// Reads the octets that a parser has left as parameters. It counts the turns that they take.
    fn parse(parser: Parser<R>, turns: &mut Turns) -> Result<SvcParams<R>, Malformed>
        ensures place { IfOk result (λ params. params_place params ≡ window parser) }
        ensures params { IsOk result → IsSvcParams (rest (window parser)) }
        ensures malformed { IsErr result → ¬ IsSvcParams (rest (window parser)) }
        ensures some { turns.old ≤ turns.new }
        ensures least { IsOk result → turns.old + params_turns (rest (window parser)) ≤ turns.new }
        ensures turns { turns.new ≤ turns.old + left (window parser) }
    {
        if is_svc_params(parser.peek_all(), turns) {
            Ok(SvcParams { parser })
        } else {
            Err(Malformed)
        }
    }

    /// Returns the octets of all the parameters.
    pub fn as_slice(&self) -> &[u8]
        ensures octets { result.now ≡ rest (params_place self.now) }
        ensures params { IsSvcParams result.now }
    {
        self.parser.peek_all()
    }

    /// Returns the parameter of a key, if there is one.
    pub fn get(&self, key: u16) -> Option<SvcParam<R>>
        ensures { option_map param_of result
            ≡ find (λ param. param.0 == key) (params_of (rest (params_place self.now))) }
    {
        for param in self.iter() {
            if param.key == key {
                return Some(param);
            }
        }
        None
    }

    /// Returns an iterator over the parameters.
    pub fn iter(&self) -> SvcParamIter<R>
        ensures { params_left result ≡ params_of (rest (params_place self.now)) }
    {
        SvcParamIter {
            parser: self.parser,
        }
    }
}

impl<R: AsOctets + Copy> FormedOctets<R> for SvcParams<R> {
    ghost use Rattle.octseq_dns_data.specs.SvcParamsRead.{params_place};

    ghost has_form = { IsSvcParams };

    ghost place = { params_place };

    ghost turns_of = { params_turns };

    ghost rate = { 1 };

    #[inline(always)]
    fn from_parser(parser: &Parser<R>, turns: &mut Turns) -> Result<SvcParams<R>, Malformed> {
        SvcParams::parse(*parser, turns)
    }

    #[inline(always)]
    fn parser(&self) -> Parser<R> {
        self.parser
    }
}

/// An iterator over service parameters.
#[derive(Debug)]
pub struct SvcParamIter<R: AsOctets> {
    parser: Parser<R>,
    ghost params: { IsSvcParams (rest (window parser)) },
}

impl<R: AsOctets + Copy> Copy for SvcParamIter<R> {}

impl<R: AsOctets + Copy> Clone for SvcParamIter<R> {
    ghost is_clone = { λ params copy. copy ≡ params };

    ghost is_infallible = { λ _. ⊤ };

    fn clone(&self) -> Result<Self, AllocError> {
        Ok(*self)
    }
}

impl<R: AsOctets + Copy> Iterator for SvcParamIter<R> {
    ghost use Rattle.std.specs.Iterator.{YieldsFirstBy, item_count};
    ghost use Rattle.octseq_dns_data.specs.SvcParamsRead.{param_of, params_left};

    type Item = SvcParam<R>;

    ghost next_gives = { YieldsFirstBy param_of params_left };

    ghost remaining = { item_count params_left };

    fn next(&mut self) -> Option<SvcParam<R>> {
        let mut parser = self.parser;
        are_octets(parser.peek_all());
        match take_param(&mut parser) {
            Ok((key, octets)) => {
                *self = SvcParamIter { parser };
                Some(SvcParam { key, octets })
            }
            Err(_) => None,
        }
    }
}

/// An iterator over protocol ids: RFC 9460, 7.1.1.
#[derive(Debug)]
pub struct AlpnIds<R: AsOctets> {
    parser: Parser<R>,
}

impl<R: AsOctets + Copy> Copy for AlpnIds<R> {}

impl<R: AsOctets + Copy> Clone for AlpnIds<R> {
    ghost is_clone = { λ ids copy. copy ≡ ids };

    ghost is_infallible = { λ _. ⊤ };

    fn clone(&self) -> Result<Self, AllocError> {
        Ok(*self)
    }
}

impl<R: AsOctets + Copy> AlpnIds<R> {
    ghost use Rattle.octseq_dns_data.specs.SvcParamsRead.{ids_left};

    /// Iterates over the ids that a value is split into.
    pub(crate) fn from_value(parser: Parser<R>) -> AlpnIds<R>
        ensures { ids_left result ≡ ids_of (rest (window parser)) }
    {
        AlpnIds { parser }
    }
}

impl<R: AsOctets + Copy> Iterator for AlpnIds<R> {
    ghost use Rattle.std.specs.Iterator.{YieldsFirstBy, item_count};
    ghost use Rattle.octseq_dns_data.specs.SvcParamsRead.{ids_left};

    type Item = Parser<R>;

    ghost next_gives = { YieldsFirstBy (λ id. rest (window id)) ids_left };

    ghost remaining = { item_count ids_left };

    fn next(&mut self) -> Option<Parser<R>> {
        let mut parser = self.parser;
        match take_id(&mut parser) {
            Ok(id) => {
                *self = AlpnIds { parser };
                Some(id)
            }
            Err(_) => None,
        }
    }
}
