//! One or more octets of data: digests, keys, signatures, hashes.
ghost use Rattle.std.specs.Prelude.{◌≡◌, ◌≤◌, ⊤, ℕ, length, IsErr, IfOk};
ghost use Rattle.octseq.specs.Parser.{window};
ghost use Rattle.octseq.specs.Window.{left, rest, whole};
ghost use Rattle.octseq_dns_data.specs.Formed.{IsSome, IsSomeString};
ghost use Rattle.octseq_dns_data.specs.Tag.{IsCaaTag};

use crate::data::formed::FormedOctets;
use crate::tag::is_tag;
use octseq::{AsOctets, Malformed, Parser, Turns};
use std::alloc::AllocError;

/// One or more octets up to the end of the data.
#[derive(Debug)]
pub struct SomeOctets<R: AsOctets> {
    parser: Parser<R>,
    ghost some: { IsSome (rest (window parser)) },
}

impl<R: AsOctets + Copy> Copy for SomeOctets<R> {}

impl<R: AsOctets + Copy> Clone for SomeOctets<R> {
    ghost is_clone = { λ some copy. copy ≡ some };

    ghost is_infallible = { λ _. ⊤ };

    fn clone(&self) -> Result<Self, AllocError> {
        Ok(*self)
    }
}

impl<R: AsOctets + Copy> SomeOctets<R> {
    ghost use Rattle.octseq_dns_data.specs.Places.{some_place};

    /// Reads all the octets.
    ///
    /// # Errors
    ///
    /// `Malformed` if there are none.
    pub fn from_octets(octets: R) -> Result<SomeOctets<R>, Malformed>
        ensures place { IfOk result (λ some. some_place some ≡ whole (R.content octets)) }
        ensures malformed { IsErr result → ¬ IsSome (R.content octets) }
    {
        SomeOctets::from_parser(&Parser::from_ref(octets), &mut Turns::new())
    }

    /// Returns the octets.
    pub fn as_slice(&self) -> &[u8]
        ensures octets { result.now ≡ rest (some_place self.now) }
        ensures some { 1 ≤ length result.now }
    {
        self.parser.peek_all()
    }
}

impl<R: AsOctets + Copy> FormedOctets<R> for SomeOctets<R> {
    ghost use Rattle.octseq_dns_data.specs.Places.{some_place};

    ghost has_form = { IsSome };

    ghost place = { some_place };

    ghost turns_of = { λ _. 0 };

    ghost rate = { 0 };

    #[inline(always)]
    fn from_parser(parser: &Parser<R>, _turns: &mut Turns) -> Result<SomeOctets<R>, Malformed> {
        if parser.peek_all().is_empty() {
            return Err(Malformed);
        }
        Ok(SomeOctets { parser: *parser })
    }

    #[inline(always)]
    fn parser(&self) -> Parser<R> {
        self.parser
    }
}

/// A hashed owner name: 1 to 255 octets with a length prefix.
#[derive(Debug)]
pub struct OwnerHash<R: AsOctets> {
    parser: Parser<R>,
    ghost string: { IsSomeString (rest (window parser)) },
}

impl<R: AsOctets + Copy> Copy for OwnerHash<R> {}

impl<R: AsOctets + Copy> Clone for OwnerHash<R> {
    ghost is_clone = { λ hash copy. copy ≡ hash };

    ghost is_infallible = { λ _. ⊤ };

    fn clone(&self) -> Result<Self, AllocError> {
        Ok(*self)
    }
}

impl<R: AsOctets + Copy> OwnerHash<R> {
    ghost use Rattle.octseq_dns_data.specs.Places.{hash_place};

    /// Reads all the octets.
    ///
    /// # Errors
    ///
    /// `Malformed` if there are none, or more than 255.
    pub fn from_octets(octets: R) -> Result<OwnerHash<R>, Malformed>
        ensures place { IfOk result (λ hash. hash_place hash ≡ whole (R.content octets)) }
        ensures malformed { IsErr result → ¬ IsSomeString (R.content octets) }
    {
        OwnerHash::from_parser(&Parser::from_ref(octets), &mut Turns::new())
    }

    /// Returns the octets.
    pub fn as_slice(&self) -> &[u8]
        ensures octets { result.now ≡ rest (hash_place self.now) }
        ensures string { IsSomeString result.now }
    {
        self.parser.peek_all()
    }
}

impl<R: AsOctets + Copy> FormedOctets<R> for OwnerHash<R> {
    ghost use Rattle.octseq_dns_data.specs.Places.{hash_place};

    ghost has_form = { IsSomeString };

    ghost place = { hash_place };

    ghost turns_of = { λ _. 0 };

    ghost rate = { 0 };

    #[inline(always)]
    fn from_parser(parser: &Parser<R>, _turns: &mut Turns) -> Result<OwnerHash<R>, Malformed> {
        let len = parser.peek_all().len();
        if len == 0 || len > 255 {
            return Err(Malformed);
        }
        Ok(OwnerHash { parser: *parser })
    }

    #[inline(always)]
    fn parser(&self) -> Parser<R> {
        self.parser
    }
}

/// A property tag of CAA: 1 to 255 ASCII letters and digits.
#[derive(Debug)]
pub struct CaaTag<R: AsOctets> {
    parser: Parser<R>,
    ghost tag: { IsCaaTag (rest (window parser)) },
}

impl<R: AsOctets + Copy> Copy for CaaTag<R> {}

impl<R: AsOctets + Copy> Clone for CaaTag<R> {
    ghost is_clone = { λ tag copy. copy ≡ tag };

    ghost is_infallible = { λ _. ⊤ };

    fn clone(&self) -> Result<Self, AllocError> {
        Ok(*self)
    }
}

impl<R: AsOctets + Copy> CaaTag<R> {
    ghost use Rattle.octseq_dns_data.specs.Places.{tag_place};

    /// Reads all the octets.
    ///
    /// # Errors
    ///
    /// `Malformed` if there are none, or more than 255, or one isn't an ASCII letter or digit.
    pub fn from_octets(octets: R) -> Result<CaaTag<R>, Malformed>
        ensures place { IfOk result (λ tag. tag_place tag ≡ whole (R.content octets)) }
        ensures malformed { IsErr result → ¬ IsCaaTag (R.content octets) }
    {
        CaaTag::from_parser(&Parser::from_ref(octets), &mut Turns::new())
    }

    /// Returns the octets.
    pub fn as_slice(&self) -> &[u8]
        ensures octets { result.now ≡ rest (tag_place self.now) }
        ensures tag { IsCaaTag result.now }
    {
        self.parser.peek_all()
    }
}

impl<R: AsOctets + Copy> FormedOctets<R> for CaaTag<R> {
    ghost use Rattle.octseq_dns_data.specs.Places.{tag_place};

    ghost has_form = { IsCaaTag };

    ghost place = { tag_place };

    ghost turns_of = { λ _. 0 };

    ghost rate = { 0 };

    #[inline(always)]
    fn from_parser(parser: &Parser<R>, _turns: &mut Turns) -> Result<CaaTag<R>, Malformed> {
        let octets = parser.peek_all();
        if octets.len() > 255 || !is_tag(octets) {
            return Err(Malformed);
        }
        Ok(CaaTag { parser: *parser })
    }

    #[inline(always)]
    fn parser(&self) -> Parser<R> {
        self.parser
    }
}
