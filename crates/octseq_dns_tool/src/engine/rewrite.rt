//! Rewriting messages, and composing them of their texts.
ghost use Rattle.std.specs.Prelude.{IfOk};
ghost use Rattle.octseq_dns.specs.Parsed.{header_of, questions_of, answers_of, authorities_of, additionals_of};
ghost use Rattle.octseq_dns_tool.specs.Composed.{IsComposing};
ghost use Rattle.octseq_dns_tool.specs.Rewritten.{IsRewriting};

use octseq_dns::{Message, RewriteError, Target, rewrite};
use octseq_dns_compose::{ComposeError, Place, compose_text};
use std::alloc::{AllocError, Global};
use std::mem;

/// Whether a message was rewritten, or why it is left out.
#[derive(Clone, Copy, Debug, PartialEq, Eq)]
pub(super) enum Rewriting {
    /// It was.
    Written,
    /// Its data may have pointers, which would point elsewhere.
    Immovable,
    /// It takes more than 65,535 octets.
    Long,
}

/// Whether the message of a text was composed, or why the text is left out.
#[derive(Clone, Copy, Debug, PartialEq, Eq)]
pub(super) enum Composing {
    /// It was.
    Written,
    /// The text of no message goes on as it does from this place on.
    Malformed(Place),
    /// The message takes more than 65,535 octets.
    Long,
}

/// Rewrites or composes one message after another. It holds the octets of the last one, and a table that is used for
/// each.
#[derive(Drop)]
pub(super) struct Writer {
    pub(super) octets: Vec<u8>,
    table: Vec<Target>,
}

impl Writer {
    /// Returns a writer that holds no memory yet.
    pub(super) fn new(alloc: Global) -> Writer {
        Writer {
            octets: Vec::new(alloc),
            table: Vec::new(alloc),
        }
    }

    /// Takes out the octets and the table, to be written anew.
    fn take(&mut self, alloc: Global) -> (Vec<u8>, Vec<Target>) {
        let octets = mem::replace(&mut self.octets, Vec::new(alloc));
        let table = mem::replace(&mut self.table, Vec::new(alloc));
        (octets, table)
    }

    /// Rewrites a message with its names compressed, in place of the last one. Returns whether it was written, or why
    /// not.
    pub(super) fn rewrite(
        &mut self,
        alloc: Global,
        message: &Message<&[u8]>,
    ) -> Result<Rewriting, AllocError>
        ensures { IfOk result (λ rewriting. IsRewriting (header_of message.now) (questions_of message.now)
            (answers_of message.now) (authorities_of message.now) (additionals_of message.now) rewriting
            self.new.octets.items) }
    {
        let (octets, table) = self.take(alloc);
        match rewrite(message, octets, table) {
            Ok(written) => {
                let (octets, table) = written.finish();
                self.octets = octets;
                self.table = table;
                Ok(Rewriting::Written)
            }
            Err(RewriteError::Immovable) => Ok(Rewriting::Immovable),
            Err(RewriteError::Short(_)) => Ok(Rewriting::Long),
            Err(RewriteError::Memory) => Err(AllocError),
        }
    }

    /// Composes the message of a text with its names compressed, in place of the last one. Returns whether it was
    /// written, or why not.
    pub(super) fn compose(&mut self, alloc: Global, text: &[u8]) -> Result<Composing, AllocError>
        ensures { IfOk result (λ composing. IsComposing text.now composing self.new.octets.items) }
    {
        let (octets, table) = self.take(alloc);
        match compose_text(alloc, text, octets, table) {
            Ok(composed) => {
                let (octets, table) = composed.finish();
                *self = Writer { octets, table };
                Ok(Composing::Written)
            }
            Err(ComposeError::Malformed(place)) => Ok(Composing::Malformed(place)),
            Err(ComposeError::Short) => Ok(Composing::Long),
            Err(ComposeError::Memory) => Err(AllocError),
        }
    }
}
