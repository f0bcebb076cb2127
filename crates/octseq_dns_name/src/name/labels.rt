//! The labels of a name.
ghost use Rattle.std.specs.Prelude.{◌≡◌, ◌≤◌, ⊤};
ghost use Rattle.octseq.specs.Parser.{window};
ghost use Rattle.octseq.specs.Window.{left};
ghost use Rattle.octseq_dns_name.specs.Name.{wire_length};
ghost use Rattle.octseq_dns_name.specs.OneName.{Named, Ahead, ahead_once};

use crate::name::step::next_label;
use octseq::{AsOctets, Parser};
use std::alloc::AllocError;

/// A label of a name: 1 to 63 octets, where they are in the message.
#[derive(Debug)]
pub struct Label<R: AsOctets> {
    parser: Parser<R>,
    ghost some: { 1 ≤ left (window parser) },
    ghost short: { left (window parser) ≤ 63 },
}

impl<R: AsOctets + Copy> Copy for Label<R> {}

impl<R: AsOctets + Copy> Clone for Label<R> {
    ghost is_clone = { λ label copy. copy ≡ label };

    ghost is_infallible = { λ _. ⊤ };

    fn clone(&self) -> Result<Self, AllocError> {
        Ok(*self)
    }
}

impl<R: AsOctets> Label<R> {
    ghost use Rattle.std.specs.Prelude.{length};
    ghost use Rattle.octseq_dns_name.specs.Read.{label_place, label_octets};

    /// Returns the octets.
    pub fn as_slice(&self) -> &[u8]
        ensures octets { result.now ≡ label_octets self.now }
        ensures some { 1 ≤ length result.now }
        ensures most { length result.now ≤ 63 }
    {
        self.parser.peek_all()
    }

    /// Returns the number of octets.
    pub fn len(&self) -> usize
        ensures { result ≡ length (label_octets self.now) }
    {
        self.parser.remaining()
    }

    /// Returns the offset of the first octet, counted from the first octet of the message.
    pub fn pos(&self) -> usize
        ensures { result ≡ (label_place self.now).position }
    {
        self.parser.pos()
    }
}

/// An iterator over the labels of a name, from the first one on.
#[derive(Debug)]
pub struct Labels<R: AsOctets> {
    parser: Parser<R>,
    start: usize,
    ghost ahead: { Ahead start (window parser) } by { ahead_once start (window parser) },
    ghost ordered: { start ≤ (window parser).position },
    ghost short: { wire_length ahead.0 ≤ 255 },
}

impl<R: AsOctets + Copy> Copy for Labels<R> {}

impl<R: AsOctets + Copy> Clone for Labels<R> {
    ghost is_clone = { λ labels copy. copy ≡ labels };

    ghost is_infallible = { λ _. ⊤ };

    fn clone(&self) -> Result<Self, AllocError> {
        Ok(*self)
    }
}

impl<R: AsOctets + Copy> Labels<R> {
    ghost use Rattle.octseq_dns_name.specs.NextLabel.{ahead_of};
    ghost use Rattle.octseq_dns_name.specs.Read.{labels_left};

    /// Returns the labels of the name at a parser's position.
    pub(crate) fn at(parser: Parser<R>) -> Labels<R>
        requires { Named (window parser) }
        ensures labels { (named : Named (window parser)) → labels_left result ≡ named.0 }
        ensures ahead { ahead_of result ≡ window parser }
    {
        let start = parser.pos();
        Labels { parser, start }
    }
}

impl<R: AsOctets + Copy> Iterator for Labels<R> {
    ghost use Rattle.std.specs.Iterator.{item_count};
    ghost use Rattle.octseq_dns_name.specs.NextLabel.{YieldsNextLabel};
    ghost use Rattle.octseq_dns_name.specs.Read.{labels_left};

    type Item = Label<R>;

    ghost next_gives = { YieldsNextLabel };

    ghost remaining = { item_count labels_left };

    fn next(&mut self) -> Option<Label<R>> {
        let mut ahead = self.parser;
        let mut start = self.start;
        let parser = next_label(&mut ahead, &mut start)?;
        *self = Labels {
            parser: ahead,
            start,
        };
        Some(Label { parser })
    }
}
