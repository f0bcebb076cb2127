//! The OPT record of a message.
ghost use Rattle.std.specs.Prelude.{Option, IsErr, IfOk, option_map};
ghost use Rattle.octseq_dns_message.specs.Edns.{opt_of};
ghost use Rattle.octseq_dns_message.specs.MessageOpt.{HaveOpt};
ghost use Rattle.octseq_dns_message.specs.Opt as said;

use crate::message::Message;
use crate::opt::Opt;
use octseq::AsOctets;
use octseq_dns_data::Rtype;
use octseq_dns_name::Malformed;

impl<R: AsOctets + Copy> Message<R> {
    ghost use Rattle.octseq_dns_message.specs.Parsed.{additionals_of};

    /// Reads the additional record of type OPT, if there is one: RFC 6891, 6.1.1.
    ///
    /// # Errors
    ///
    /// `Malformed` if more than one additional record is of type OPT, if the owner of the only one isn't the root, or
    /// if its data isn't options one after another up to its end.
    pub fn opt(&self) -> Result<Option<Opt<R>>, Malformed>
        ensures opt { IfOk result (λ found. HaveOpt (additionals_of self.now) (option_map opt_of found)) }
        ensures malformed { IsErr result → (opt : Option said.Opt) → ¬ HaveOpt (additionals_of self.now) opt }
    {
        let mut records = self.additionals().limit_to(Rtype::OPT);
        let Some(entry) = records.next() else {
            return Ok(None);
        };
        if !entry.owner().is_root() || records.next().is_some() {
            return Err(Malformed);
        }
        Ok(Some(Opt::from_record(&entry)?))
    }
}
