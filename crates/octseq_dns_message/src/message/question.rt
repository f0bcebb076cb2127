//! Questions: RFC 1035, 4.1.2.
ghost use Rattle.std.specs.Prelude.{◌≡◌, ◌+◌, ◌≤◌, IsErr, IfOk, OnOk, OnErr, ⊤};
ghost use Rattle.octseq.specs.Parser.{sequence, window};
ghost use Rattle.octseq.specs.Window.{Window};
ghost use Rattle.octseq_dns_message.specs.Entry.{IsAfterName};
ghost use Rattle.octseq_format.specs.Laws.{NoneAt};

use octseq::builder::infallible;
use octseq::{AsOctets, Parser, Turns};
use octseq_dns_data::{Class, Rtype};
use octseq_dns_name::{Malformed, ParsedName};
use std::alloc::AllocError;

/// A question of a message: the name, the type and the class that are asked for.
#[derive(Debug)]
pub struct Question<R: AsOctets> {
    qname: ParsedName<R>,
    qtype: u16,
    qclass: u16,
}

impl<R: AsOctets + Copy> Copy for Question<R> {}

impl<R: AsOctets + Copy> Clone for Question<R> {
    ghost is_clone = { λ question copy. copy ≡ question };

    ghost is_infallible = { λ _. ⊤ };

    fn clone(&self) -> Result<Self, AllocError> {
        Ok(*self)
    }
}

impl<R: AsOctets + Copy> Question<R> {
    ghost use Rattle.octseq_dns_message.specs.Entry as said;
    ghost use Rattle.octseq_dns_message.specs.Entry.{IsQuestion};
    ghost use Rattle.octseq_dns_message.specs.Said.{question_of};
    ghost use Rattle.octseq_dns_name.specs.NameTurns.{CountsName};
    ghost use Rattle.octseq_dns_name.specs.Read.{name_of};

    /// Reads the next question of a message.
    ///
    /// # Errors
    ///
    /// `Malformed` if no question comes next. The parser is then unchanged.
    #[inline(always)]
    pub fn parse(parser: &mut Parser<R>) -> Result<Question<R>, Malformed>
        ensures question { IfOk result (λ question.
            IsQuestion (window parser.old) (question_of question) (window parser.new)) }
        ensures malformed { IsErr result → (question : said.Question) (v : Window)
            → ¬ IsQuestion (window parser.old) question v }
        ensures kept { OnErr result (window parser.new ≡ window parser.old) }
        ensures same { sequence parser.new ≡ sequence parser.old }
    {
        Question::parse_counted(parser, &mut Turns::new())
    }

    /// Reads the next question as [`parse`](Self::parse) does, and counts the turns that its name takes.
    ///
    /// # Errors
    ///
    /// As `parse`.
    #[inline(always)]
    pub fn parse_counted(
        parser: &mut Parser<R>,
        turns: &mut Turns,
    ) -> Result<Question<R>, Malformed>
        ensures question { IfOk result (λ question.
            IsQuestion (window parser.old) (question_of question) (window parser.new)) }
        ensures malformed { IsErr result → (question : said.Question) (v : Window)
            → ¬ IsQuestion (window parser.old) question v }
        ensures kept { OnErr result (window parser.new ≡ window parser.old) }
        ensures same { sequence parser.new ≡ sequence parser.old }
        ensures counted { OnOk result (CountsName (window parser.old) turns.old turns.new) }
        ensures turns { turns.new ≤ turns.old + 255 }
        ensures some { turns.old + 1 ≤ turns.new }
    {
        let mut ahead = *parser;
        let qname = ParsedName::parse_counted(&mut ahead, turns)?;
        let (qtype, qclass) = parse_after_name(&mut ahead)?;
        *parser = ahead;
        Ok(Question {
            qname,
            qtype,
            qclass,
        })
    }

    /// Reads the next question of a checked message, which is known to be there. No pointer is followed.
    #[inline(always)]
    pub(crate) fn parse_known(parser: &mut Parser<R>) -> Question<R>
        requires { ∥ ((question : said.Question) × (v : Window) × IsQuestion (window parser.old) question v) ∥₁ }
        ensures question { ∥ IsQuestion (window parser.old) (question_of result) (window parser.new) ∥₁ }
    {
        let qname = ParsedName::parse_known(parser);
        let (qtype, qclass) = infallible(parse_after_name(parser));
        Question {
            qname,
            qtype,
            qclass,
        }
    }

    /// Returns the name that is asked for.
    pub fn qname(&self) -> ParsedName<R>
        ensures { name_of result ≡ (question_of self.now).qname }
    {
        self.qname
    }

    /// Returns the type that is asked for.
    pub fn qtype(&self) -> Rtype
        ensures { result ≡ (question_of self.now).qtype }
    {
        Rtype::from_int(self.qtype)
    }

    /// Returns the class that is asked for.
    pub fn qclass(&self) -> Class
        ensures { result ≡ (question_of self.now).qclass }
    {
        Class::from_int(self.qclass)
    }
}

/// Reads what follows the name of a question: a type and a class, which are read at once.
#[inline(always)]
fn parse_after_name<R: AsOctets + Copy>(parser: &mut Parser<R>) -> Result<(u16, u16), Malformed>
    ensures value { IfOk result (λ found. IsAfterName (window parser.old) (found.0, found.1) (window parser.new)) }
    ensures malformed { IsErr result → NoneAt IsAfterName (window parser.old) }
    ensures same { sequence parser.new ≡ sequence parser.old }
{
    let numbers = parser.parse_u32_be()?;
    Ok(((numbers >> 16) as u16, (numbers % 65_536) as u16))
}
