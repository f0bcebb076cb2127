//! Integers read from the next octets.
ghost use Rattle.std.specs.Prelude.{◌≡◌, ◌<◌, ◌≤◌, ◌↔◌, length, take, IsSome, IfSome, IfOk};
ghost use Rattle.std.specs.List.{AllByRecursion};
ghost use Rattle.octseq.specs.Window.{next};
ghost use Rattle.octseq.specs.Integer.{be, le, signed, octets_be, octets_le, unsigned};
ghost use Rattle.octseq.specs.Parser.{window, Takes};

use super::{Parser, ShortInput};
use octseq_core::builder::AsOctets;

/// The first `N` of the octets.
fn first_octets<const N: usize>(octets: &[u8]) -> Option<[u8; N]>
    ensures variant { IsSome result ↔ (N ≤ length octets.now) }
    ensures some { IfSome result (λ first. first ≡ take N octets.now) }
    ensures each { IfSome result (λ first. AllByRecursion (λ octet. octet < 256) first) }
{
    Some(*octets.first_chunk()?)
}

/// Each call takes the octets of its integer and returns their value in the byte order that its name gives: the octets
/// that the call of that name in [`compose`](crate::compose) appends for that value.
///
/// # Errors
///
/// `ShortInput` if fewer octets are left. The parser is then unchanged.
impl<R: AsOctets> Parser<R> {
    /// The next `N` octets.
    #[tactic(auto, using(crate::proofs::Windows::next_of_rest))]
    fn parse_array<const N: usize>(&mut self) -> Result<[u8; N], ShortInput>
        ensures taken { Takes result N self.old self.new }
        ensures value { IfOk result (λ octets. octets ≡ next N (window self.old)) }
        ensures each { IfOk result (λ octets. AllByRecursion (λ octet. octet < 256) octets) }
    {
        let Some(octets) = first_octets(self.peek_all()) else {
            return Err(ShortInput);
        };
        self.pos += N;
        Ok(octets)
    }

    /// The next octet, signed.
    #[tactic(auto, using(crate::proofs::WrittenBack::read_1, crate::proofs::Windows::next_of_rest))]
    pub fn parse_i8(&mut self) -> Result<i8, ShortInput>
        ensures taken { Takes result 1 self.old self.new }
        ensures value { IfOk result (λ value. value ≡ signed 1 (be (next 1 (window self.old)))) }
        ensures octets { IfOk result (λ value. octets_be 1 (unsigned 1 value) ≡ next 1 (window self.old)) }
    {
        Ok(self.parse_u8()?.cast_signed())
    }

    /// The next octet, unsigned.
    ///
    /// # Examples
    ///
    /// ```
    /// // crates/octseq_callers/src/note.rt
    /// if parser.parse_u8()? != MARK {
    ///     return Err(ReadError::Malformed);
    /// }
    /// Ok(())
    /// ```
    #[tactic(auto, using(crate::proofs::WrittenBack::read_1, crate::proofs::Windows::next_of_rest))]
    pub fn parse_u8(&mut self) -> Result<u8, ShortInput>
        ensures taken { Takes result 1 self.old self.new }
        ensures value { IfOk result (λ value. value ≡ be (next 1 (window self.old))) }
        ensures octets { IfOk result (λ value. octets_be 1 value ≡ next 1 (window self.old)) }
    {
        Ok(u8::from_be_bytes(self.parse_array()?))
    }

    /// The next 2 octets, big-endian, signed.
    #[tactic(auto, using(crate::proofs::WrittenBack::read_2, crate::proofs::Windows::next_of_rest))]
    pub fn parse_i16_be(&mut self) -> Result<i16, ShortInput>
        ensures taken { Takes result 2 self.old self.new }
        ensures value { IfOk result (λ value. value ≡ signed 2 (be (next 2 (window self.old)))) }
        ensures octets { IfOk result (λ value. octets_be 2 (unsigned 2 value) ≡ next 2 (window self.old)) }
    {
        Ok(self.parse_u16_be()?.cast_signed())
    }

    /// The next 2 octets, little-endian, signed.
    #[tactic(auto, using(crate::proofs::WrittenBack::read_2, crate::proofs::Windows::next_of_rest))]
    pub fn parse_i16_le(&mut self) -> Result<i16, ShortInput>
        ensures taken { Takes result 2 self.old self.new }
        ensures value { IfOk result (λ value. value ≡ signed 2 (le (next 2 (window self.old)))) }
        ensures octets { IfOk result (λ value. octets_le 2 (unsigned 2 value) ≡ next 2 (window self.old)) }
    {
        Ok(self.parse_u16_le()?.cast_signed())
    }

    /// The next 2 octets, big-endian, unsigned.
    ///
    /// # Examples
    ///
    /// ```
    /// // crates/octseq_examples/src/parsing.rt
    /// let mut parser = Parser::from_static(b"\x12\x34\x03abc\xFE\xFF\xFF\xFF");
    /// let number = parser.parse_u16_be()?; // 0x1234
    /// let name = parser.parse_part_u8()?; // a parser of "abc"
    /// let balance = parser.parse_i32_le()?; // -2
    /// ```
    #[tactic(auto, using(crate::proofs::WrittenBack::read_2, crate::proofs::Windows::next_of_rest))]
    pub fn parse_u16_be(&mut self) -> Result<u16, ShortInput>
        ensures taken { Takes result 2 self.old self.new }
        ensures value { IfOk result (λ value. value ≡ be (next 2 (window self.old))) }
        ensures octets { IfOk result (λ value. octets_be 2 value ≡ next 2 (window self.old)) }
    {
        Ok(u16::from_be_bytes(self.parse_array()?))
    }

    /// The next 2 octets, little-endian, unsigned.
    #[tactic(auto, using(crate::proofs::WrittenBack::read_2, crate::proofs::Windows::next_of_rest))]
    pub fn parse_u16_le(&mut self) -> Result<u16, ShortInput>
        ensures taken { Takes result 2 self.old self.new }
        ensures value { IfOk result (λ value. value ≡ le (next 2 (window self.old))) }
        ensures octets { IfOk result (λ value. octets_le 2 value ≡ next 2 (window self.old)) }
    {
        Ok(u16::from_le_bytes(self.parse_array()?))
    }

    /// The next 3 octets, big-endian, unsigned.
    #[tactic(auto, using(crate::proofs::WrittenBack::read_3, crate::proofs::Windows::next_of_rest))]
    pub fn parse_u24_be(&mut self) -> Result<u32, ShortInput>
        ensures taken { Takes result 3 self.old self.new }
        ensures value { IfOk result (λ value. value ≡ be (next 3 (window self.old))) }
        ensures octets { IfOk result (λ value. octets_be 3 value ≡ next 3 (window self.old)) }
    {
        let octets: [u8; 3] = self.parse_array()?;
        Ok(u32::from_be_bytes([0, octets[0], octets[1], octets[2]]))
    }

    /// The next 3 octets, little-endian, unsigned.
    #[tactic(auto, using(crate::proofs::WrittenBack::read_3, crate::proofs::Windows::next_of_rest))]
    pub fn parse_u24_le(&mut self) -> Result<u32, ShortInput>
        ensures taken { Takes result 3 self.old self.new }
        ensures value { IfOk result (λ value. value ≡ le (next 3 (window self.old))) }
        ensures octets { IfOk result (λ value. octets_le 3 value ≡ next 3 (window self.old)) }
    {
        let octets: [u8; 3] = self.parse_array()?;
        Ok(u32::from_le_bytes([octets[0], octets[1], octets[2], 0]))
    }

    /// The next 4 octets, big-endian, signed.
    #[tactic(auto, using(crate::proofs::WrittenBack::read_4, crate::proofs::Windows::next_of_rest))]
    pub fn parse_i32_be(&mut self) -> Result<i32, ShortInput>
        ensures taken { Takes result 4 self.old self.new }
        ensures value { IfOk result (λ value. value ≡ signed 4 (be (next 4 (window self.old)))) }
        ensures octets { IfOk result (λ value. octets_be 4 (unsigned 4 value) ≡ next 4 (window self.old)) }
    {
        Ok(self.parse_u32_be()?.cast_signed())
    }

    /// The next 4 octets, little-endian, signed.
    #[tactic(auto, using(crate::proofs::WrittenBack::read_4, crate::proofs::Windows::next_of_rest))]
    pub fn parse_i32_le(&mut self) -> Result<i32, ShortInput>
        ensures taken { Takes result 4 self.old self.new }
        ensures value { IfOk result (λ value. value ≡ signed 4 (le (next 4 (window self.old)))) }
        ensures octets { IfOk result (λ value. octets_le 4 (unsigned 4 value) ≡ next 4 (window self.old)) }
    {
        Ok(self.parse_u32_le()?.cast_signed())
    }

    /// The next 4 octets, big-endian, unsigned.
    #[tactic(auto, using(crate::proofs::WrittenBack::read_4, crate::proofs::Windows::next_of_rest))]
    pub fn parse_u32_be(&mut self) -> Result<u32, ShortInput>
        ensures taken { Takes result 4 self.old self.new }
        ensures value { IfOk result (λ value. value ≡ be (next 4 (window self.old))) }
        ensures octets { IfOk result (λ value. octets_be 4 value ≡ next 4 (window self.old)) }
    {
        Ok(u32::from_be_bytes(self.parse_array()?))
    }

    /// The next 4 octets, little-endian, unsigned.
    #[tactic(auto, using(crate::proofs::WrittenBack::read_4, crate::proofs::Windows::next_of_rest))]
    pub fn parse_u32_le(&mut self) -> Result<u32, ShortInput>
        ensures taken { Takes result 4 self.old self.new }
        ensures value { IfOk result (λ value. value ≡ le (next 4 (window self.old))) }
        ensures octets { IfOk result (λ value. octets_le 4 value ≡ next 4 (window self.old)) }
    {
        Ok(u32::from_le_bytes(self.parse_array()?))
    }

    /// The next 6 octets, big-endian, unsigned.
    #[tactic(auto, using(crate::proofs::WrittenBack::read_6, crate::proofs::Windows::next_of_rest))]
    pub fn parse_u48_be(&mut self) -> Result<u64, ShortInput>
        ensures taken { Takes result 6 self.old self.new }
        ensures value { IfOk result (λ value. value ≡ be (next 6 (window self.old))) }
        ensures octets { IfOk result (λ value. octets_be 6 value ≡ next 6 (window self.old)) }
    {
        let octets: [u8; 6] = self.parse_array()?;
        Ok(u64::from_be_bytes([
            0, 0, octets[0], octets[1], octets[2], octets[3], octets[4], octets[5],
        ]))
    }

    /// The next 6 octets, little-endian, unsigned.
    #[tactic(auto, using(crate::proofs::WrittenBack::read_6, crate::proofs::Windows::next_of_rest))]
    pub fn parse_u48_le(&mut self) -> Result<u64, ShortInput>
        ensures taken { Takes result 6 self.old self.new }
        ensures value { IfOk result (λ value. value ≡ le (next 6 (window self.old))) }
        ensures octets { IfOk result (λ value. octets_le 6 value ≡ next 6 (window self.old)) }
    {
        let octets: [u8; 6] = self.parse_array()?;
        Ok(u64::from_le_bytes([
            octets[0], octets[1], octets[2], octets[3], octets[4], octets[5], 0, 0,
        ]))
    }

    /// The next 8 octets, big-endian, signed.
    #[tactic(auto, using(crate::proofs::WrittenBack::read_8, crate::proofs::Windows::next_of_rest))]
    pub fn parse_i64_be(&mut self) -> Result<i64, ShortInput>
        ensures taken { Takes result 8 self.old self.new }
        ensures value { IfOk result (λ value. value ≡ signed 8 (be (next 8 (window self.old)))) }
        ensures octets { IfOk result (λ value. octets_be 8 (unsigned 8 value) ≡ next 8 (window self.old)) }
    {
        Ok(self.parse_u64_be()?.cast_signed())
    }

    /// The next 8 octets, little-endian, signed.
    #[tactic(auto, using(crate::proofs::WrittenBack::read_8, crate::proofs::Windows::next_of_rest))]
    pub fn parse_i64_le(&mut self) -> Result<i64, ShortInput>
        ensures taken { Takes result 8 self.old self.new }
        ensures value { IfOk result (λ value. value ≡ signed 8 (le (next 8 (window self.old)))) }
        ensures octets { IfOk result (λ value. octets_le 8 (unsigned 8 value) ≡ next 8 (window self.old)) }
    {
        Ok(self.parse_u64_le()?.cast_signed())
    }

    /// The next 8 octets, big-endian, unsigned.
    #[tactic(auto, using(crate::proofs::WrittenBack::read_8, crate::proofs::Windows::next_of_rest))]
    pub fn parse_u64_be(&mut self) -> Result<u64, ShortInput>
        ensures taken { Takes result 8 self.old self.new }
        ensures value { IfOk result (λ value. value ≡ be (next 8 (window self.old))) }
        ensures octets { IfOk result (λ value. octets_be 8 value ≡ next 8 (window self.old)) }
    {
        Ok(u64::from_be_bytes(self.parse_array()?))
    }

    /// The next 8 octets, little-endian, unsigned.
    #[tactic(auto, using(crate::proofs::WrittenBack::read_8, crate::proofs::Windows::next_of_rest))]
    pub fn parse_u64_le(&mut self) -> Result<u64, ShortInput>
        ensures taken { Takes result 8 self.old self.new }
        ensures value { IfOk result (λ value. value ≡ le (next 8 (window self.old))) }
        ensures octets { IfOk result (λ value. octets_le 8 value ≡ next 8 (window self.old)) }
    {
        Ok(u64::from_le_bytes(self.parse_array()?))
    }

    /// The next 16 octets, big-endian, signed.
    #[tactic(auto, using(crate::proofs::WrittenBack::read_16, crate::proofs::Windows::next_of_rest))]
    pub fn parse_i128_be(&mut self) -> Result<i128, ShortInput>
        ensures taken { Takes result 16 self.old self.new }
        ensures value { IfOk result (λ value. value ≡ signed 16 (be (next 16 (window self.old)))) }
        ensures octets { IfOk result (λ value. octets_be 16 (unsigned 16 value) ≡ next 16 (window self.old)) }
    {
        Ok(self.parse_u128_be()?.cast_signed())
    }

    /// The next 16 octets, little-endian, signed.
    #[tactic(auto, using(crate::proofs::WrittenBack::read_16, crate::proofs::Windows::next_of_rest))]
    pub fn parse_i128_le(&mut self) -> Result<i128, ShortInput>
        ensures taken { Takes result 16 self.old self.new }
        ensures value { IfOk result (λ value. value ≡ signed 16 (le (next 16 (window self.old)))) }
        ensures octets { IfOk result (λ value. octets_le 16 (unsigned 16 value) ≡ next 16 (window self.old)) }
    {
        Ok(self.parse_u128_le()?.cast_signed())
    }

    /// The next 16 octets, big-endian, unsigned.
    #[tactic(auto, using(crate::proofs::WrittenBack::read_16, crate::proofs::Windows::next_of_rest))]
    pub fn parse_u128_be(&mut self) -> Result<u128, ShortInput>
        ensures taken { Takes result 16 self.old self.new }
        ensures value { IfOk result (λ value. value ≡ be (next 16 (window self.old))) }
        ensures octets { IfOk result (λ value. octets_be 16 value ≡ next 16 (window self.old)) }
    {
        Ok(u128::from_be_bytes(self.parse_array()?))
    }

    /// The next 16 octets, little-endian, unsigned.
    #[tactic(auto, using(crate::proofs::WrittenBack::read_16, crate::proofs::Windows::next_of_rest))]
    pub fn parse_u128_le(&mut self) -> Result<u128, ShortInput>
        ensures taken { Takes result 16 self.old self.new }
        ensures value { IfOk result (λ value. value ≡ le (next 16 (window self.old))) }
        ensures octets { IfOk result (λ value. octets_le 16 value ≡ next 16 (window self.old)) }
    {
        Ok(u128::from_le_bytes(self.parse_array()?))
    }
}
