//! Parts: a length followed by its octets.
ghost use Rattle.std.specs.Prelude.{◌≡◌, IfOk};
ghost use Rattle.octseq.specs.Parser.{window, sequence};
ghost use Rattle.octseq.specs.Part.{part, TakesPart};

use super::{Parser, ShortInput};
use octseq_core::builder::AsOctets;

/// Each call takes a length, and returns a parser of that many octets after it. It reads the same sequence, so its
/// position and its end are counted from the start of that sequence.
///
/// # Errors
///
/// `ShortInput` if fewer octets are left than the length has, or fewer after it than it says. The parser is then
/// unchanged.
impl<R: AsOctets + Copy> Parser<R> {
    /// The next part, whose length is one octet.
    pub fn parse_part_u8(&mut self) -> Result<Self, ShortInput>
        ensures taken { TakesPart result 1 self.old self.new }
        ensures window { IfOk result (λ parser. window parser ≡ part 1 (window self.old)) }
        ensures sequence { IfOk result (λ parser. sequence parser ≡ sequence self.old) }
    {
        let mut after = *self;
        let len = after.parse_u8()?;
        let part = after.parse_parser(usize::from(len))?;
        *self = after;
        Ok(part)
    }

    /// The next part, whose length is 2 octets, big-endian.
    pub fn parse_part_u16_be(&mut self) -> Result<Self, ShortInput>
        ensures taken { TakesPart result 2 self.old self.new }
        ensures window { IfOk result (λ parser. window parser ≡ part 2 (window self.old)) }
        ensures sequence { IfOk result (λ parser. sequence parser ≡ sequence self.old) }
    {
        let mut after = *self;
        let len = after.parse_u16_be()?;
        let part = after.parse_parser(usize::from(len))?;
        *self = after;
        Ok(part)
    }

    /// The next part, whose length is 4 octets, big-endian.
    pub fn parse_part_u32_be(&mut self) -> Result<Self, ShortInput>
        ensures taken { TakesPart result 4 self.old self.new }
        ensures window { IfOk result (λ parser. window parser ≡ part 4 (window self.old)) }
        ensures sequence { IfOk result (λ parser. sequence parser ≡ sequence self.old) }
    {
        let mut after = *self;
        let len = after.parse_u32_be()?;
        let part = after.parse_parser(len as usize)?;
        *self = after;
        Ok(part)
    }
}
