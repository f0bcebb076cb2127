//! The text of TTLs, headers and questions.
ghost use Rattle.std.specs.Prelude.{Some, ◌++◌, codes};
ghost use Rattle.std.specs.Fmt.{WritesOnOk, decimal};
ghost use Rattle.octseq_dns_message.specs.HeaderText.{flag_text, flags_text, header_text, question_text};
ghost use Rattle.octseq_dns_message.specs.Said.{question_of};

use crate::header::{Flags, Header};
use crate::message::Question;
use crate::ttl::Ttl;
use octseq::AsOctets;
use std::fmt;

/// Prints the number of seconds.
impl fmt::Display for Ttl {
    ghost output = { λ ttl. Some (decimal ttl) };

    fn fmt<W: fmt::Write>(&self, f: &mut fmt::Formatter<W>) -> fmt::Result {
        let secs = self.as_secs();
        write!(f, "{secs}")
    }
}

/// Prints the identifier of the message, the opcode, the response code, and the flags that are set, as
/// `id 4660 opcode 0 rcode 0 flags QR AA RD`.
impl fmt::Display for Header {
    ghost output = { λ header. Some (header_text header) };

    fn fmt<W: fmt::Write>(&self, f: &mut fmt::Formatter<W>) -> fmt::Result {
        let Header {
            id,
            flags,
            opcode,
            rcode,
        } = *self;
        write!(f, "id {id} opcode {opcode} rcode {rcode} flags")?;
        write_flags(f, flags)
    }
}

/// Writes a space and the name of each flag that is set, from the highest bit to the lowest, except the reserved one.
fn write_flags<W: fmt::Write>(f: &mut fmt::Formatter<W>, flags: Flags) -> fmt::Result
    ensures { WritesOnOk W.write_str_gives f.old result (flags_text flags) f.new }
{
    write_flag(f, flags.qr, "QR")?;
    write_flag(f, flags.aa, "AA")?;
    write_flag(f, flags.tc, "TC")?;
    write_low_flags(f, flags)
}

/// Writes those of the four lowest flags with names: RD, RA, AD and CD.
fn write_low_flags<W: fmt::Write>(f: &mut fmt::Formatter<W>, flags: Flags) -> fmt::Result
    ensures { WritesOnOk W.write_str_gives f.old result
        (flag_text flags.rd (codes "RD") ++ flag_text flags.ra (codes "RA")
        ++ flag_text flags.ad (codes "AD") ++ flag_text flags.cd (codes "CD")) f.new }
{
    write_flag(f, flags.rd, "RD")?;
    write_flag(f, flags.ra, "RA")?;
    write_flag(f, flags.ad, "AD")?;
    write_flag(f, flags.cd, "CD")
}

/// Writes a space and the name of a flag, if it is set.
fn write_flag<W: fmt::Write>(f: &mut fmt::Formatter<W>, is_set: bool, name: &str) -> fmt::Result
    ensures { WritesOnOk W.write_str_gives f.old result (flag_text is_set name.now) f.new }
{
    if is_set {
        return write!(f, " {name}");
    }
    Ok(())
}

/// Prints the name, the class and the type, as `example.com. IN A`.
impl<R: AsOctets + Copy> fmt::Display for Question<R> {
    ghost output = { λ question. Some (question_text (question_of question)) };

    fn fmt<W: fmt::Write>(&self, f: &mut fmt::Formatter<W>) -> fmt::Result {
        let (qname, qtype, qclass) = (self.qname(), self.qtype(), self.qclass());
        write!(f, "{qname} {qclass} {qtype}")
    }
}
