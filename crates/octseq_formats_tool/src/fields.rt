//! The line of a packet: its fields, as JSON has them.
use octseq::{AsOctets, Malformed, Parser, StrBuilder};
use octseq_format::Format;
use std::alloc::{AllocError, Global};

/// Why a packet isn't shown.
#[derive(Clone, Copy, Debug, PartialEq, Eq)]
pub enum Unshown {
    /// It isn't of the format.
    Malformed,
    /// A request for memory was refused.
    Memory,
}

impl From<Malformed> for Unshown {
    fn from(_: Malformed) -> Unshown {
        Unshown::Malformed
    }
}

impl From<AllocError> for Unshown {
    fn from(_: AllocError) -> Unshown {
        Unshown::Memory
    }
}

/// Reads a value from all the octets. A call of this is proved sooner than one of the format, whose contract says what
/// the octets are.
pub fn value<F: Format<R>, R: AsOctets + Copy>(octets: R) -> Result<F::Value, Malformed> {
    F::parse_whole(octets)
}

/// Reads the value at the parser's position.
pub fn next<F: Format<R>, R: AsOctets + Copy>(
    parser: &mut Parser<R>,
) -> Result<F::Value, Malformed> {
    F::parse(parser)
}

/// The fields of a packet, which grow: `"name": number` or `"name": "text"`.
#[derive(Drop)]
pub struct Fields {
    text: StrBuilder<Vec<u8>>,
    names: usize,
    items: usize,
}

impl Fields {
    /// Returns a line without fields.
    pub fn new(alloc: Global) -> Result<Fields, Unshown> {
        let mut text = StrBuilder::new(alloc).map_err(|_| Unshown::Memory)?;
        text.try_push_str("{").map_err(|_| Unshown::Memory)?;
        Ok(Fields {
            text,
            names: 0,
            items: 0,
        })
    }

    /// Appends a text as it is.
    pub fn push(&mut self, text: &str) -> Result<(), Unshown> {
        self.text.try_push_str(text).map_err(|_| Unshown::Memory)
    }

    /// Appends a number in decimal.
    pub fn decimal(&mut self, number: u64) -> Result<(), Unshown> {
        self.text
            .try_push_display(number)
            .map_err(|_| Unshown::Memory)
    }

    /// Appends octets in hexadecimal, or `-` if there are none.
    pub fn hex(&mut self, octets: &[u8]) -> Result<(), Unshown> {
        if octets.is_empty() {
            return self.push("-");
        }
        for octet in octets {
            let digits = [digit(*octet / 16), digit(*octet % 16)];
            for each in digits {
                self.text.try_push(each).map_err(|_| Unshown::Memory)?;
            }
        }
        Ok(())
    }

    /// Begins a field.
    fn name(&mut self, name: &str) -> Result<(), Unshown> {
        if self.names > 0 {
            self.push(", ")?;
        }
        self.names = self.names.saturating_add(1);
        self.push("\"")?;
        self.push(name)?;
        self.push("\": ")
    }

    /// Appends a field that is a number.
    pub fn number(&mut self, name: &str, number: u64) -> Result<(), Unshown> {
        self.name(name)?;
        self.decimal(number)
    }

    /// Appends a field that is octets.
    pub fn octets(&mut self, name: &str, octets: &[u8]) -> Result<(), Unshown> {
        self.begin(name)?;
        self.hex(octets)?;
        self.push("\"")
    }

    /// Begins a field that is a list.
    pub fn begin(&mut self, name: &str) -> Result<(), Unshown> {
        self.name(name)?;
        self.items = 0;
        self.push("\"")
    }

    /// Begins an item of a list.
    pub fn item(&mut self) -> Result<(), Unshown> {
        if self.items > 0 {
            self.push(",")?;
        }
        self.items = self.items.saturating_add(1);
        Ok(())
    }

    /// Ends a list, which is `-` if it has no items.
    pub fn end(&mut self) -> Result<(), Unshown> {
        if self.items == 0 {
            self.push("-")?;
        }
        self.push("\"")
    }

    /// Returns the line.
    pub fn finish(mut self) -> Result<StrBuilder<Vec<u8>>, Unshown> {
        self.push("}\n")?;
        Ok(self.text)
    }
}

/// A digit of hexadecimal.
fn digit(number: u8) -> char {
    match number {
        0..=9 => char::from(b'0' + number),
        10..=15 => char::from(b'a' + (number - 10)),
        _ => '?',
    }
}

/// The octets between two positions of a parser.
pub fn between<'a, R: AsOctets + Copy>(before: &'a Parser<R>, after: &Parser<R>) -> &'a [u8] {
    let octets = before.peek_all();
    let len = octets.len().saturating_sub(after.remaining());
    match octets.get(..len) {
        Some(taken) => taken,
        None => octets,
    }
}
