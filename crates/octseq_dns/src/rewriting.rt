//! Rewriting messages: RFC 1035, 4.1.
ghost use Rattle.std.specs.Prelude.{◌≡◌, ◌≤◌, ◌+◌, ◌*◌, ◌⊎◌, ◌↔◌, length, true, Some, IfOk};
ghost use Rattle.octseq.specs.Limit.{ExceedsLimit};
ghost use Rattle.octseq.specs.Refusal.{IsShort, IsMemory, IsMalformed};
ghost use Rattle.octseq_dns_compress.specs.Composed.{message_limit};
ghost use Rattle.octseq_dns_message.specs.Parsed.{records_of};
ghost use Rattle.octseq_dns.specs.Contents.{Message as Contents, message_octets};
ghost use Rattle.octseq_dns.specs.Labels.{labels_in};
ghost use Rattle.octseq_dns.specs.Moved.{CanMove};
ghost use Rattle.octseq_dns.specs.Rewritten.{IsContentsOf, IsRewritten, rewrite_error};

use crate::builder::AdditionalBuilder;
use crate::builder::anew::compose_anew;
use crate::moved::can_move;
use octseq::builder::AsOctetsMut;
use octseq::{AppendError, AsOctets, OctetsBuilder, ShortBuf, Truncate, Turns};
use octseq_dns_compress::Compressor;
use octseq_dns_message::Message;
use std::error::Error;
use std::fmt;

/// Why a message wasn't rewritten.
#[derive(Clone, Copy, Debug, PartialEq, Eq)]
pub enum RewriteError {
    /// Data that isn't parsed as its type's may have pointers, which would point elsewhere in another message.
    Immovable,
    /// The message would have exceeded the limit of the builder's type or 65,535 octets.
    Short(ShortBuf),
    /// A request for memory was refused.
    Memory,
}

impl Error for RewriteError {}

impl fmt::Display for RewriteError {
    ghost use Rattle.octseq_dns.specs.RewriteShown.{rewrite_error_text};

    ghost output = { λ e. Some (rewrite_error_text e) };

    fn fmt<W: fmt::Write>(&self, f: &mut fmt::Formatter<W>) -> fmt::Result {
        match self {
            RewriteError::Immovable => f.write_str("data that can't be moved"),
            RewriteError::Short(_) => f.write_str("buffer size exceeded"),
            RewriteError::Memory => f.write_str("out of memory"),
        }
    }
}

impl From<AppendError> for RewriteError {
    ghost use Rattle.octseq.specs.Refusal.{append_error};

    ghost from_gives = { λ error made. rewrite_error made ≡ append_error error };

    fn from(error: AppendError) -> Self {
        match error {
            AppendError::Short(error) => RewriteError::Short(error),
            AppendError::Memory => RewriteError::Memory,
        }
    }
}

/// Rewrites a message, in place of what a builder and a table hold: its header, its questions, and its records in their
/// order, each with its parsed data.
///
/// Names are compressed with the table, whether or not they have pointers in the message read. With a table of
/// `Uncompressed`, no name has pointers. Data of an unknown type is written as its octets. No push limit is set, and an
/// OPT record of the message counts: [`push_opt`](AdditionalBuilder::push_opt) refuses another.
///
/// # Errors
///
/// `Immovable` exactly if the message can't be rewritten: [`can_move`]. Otherwise `Short` if the rewritten message
/// would exceed the limit of the builder's type or 65,535 octets, and `Memory` if a request for memory was refused. The
/// builder and the table are then dropped.
///
/// # Examples
///
/// ```
/// // crates/octseq_dns_tool/src/engine/rewrite.rt
/// match rewrite(message, octets, table) {
///     Ok(written) => {
///         let (octets, table) = written.finish();
///         self.octets = octets;
///         self.table = table;
///         Ok(Rewriting::Written)
///     }
///     Err(RewriteError::Immovable) => Ok(Rewriting::Immovable),
///     Err(RewriteError::Short(_)) => Ok(Rewriting::Long),
///     Err(RewriteError::Memory) => Err(AllocError),
/// }
/// ```
pub fn rewrite<B: OctetsBuilder + Truncate + AsOctetsMut, T: Compressor, R: AsOctets + Copy>(
    message: &Message<R>,
    octets: B,
    table: T,
) -> Result<AdditionalBuilder<B, T>, RewriteError>
    ensures rewritten { IfOk result (λ b. IsRewritten T.most (message_limit B.limit) message.now b) }
    ensures immovable { IsMalformed rewrite_error result ↔ ¬ CanMove (records_of message.now) }
    ensures short { IsShort rewrite_error result → (m : Contents) → IsContentsOf message.now m
        → ExceedsLimit (message_limit B.limit) (length (message_octets T.most m)) }
    ensures memory { IsMemory rewrite_error result → (B.asks ≡ true) ⊎ (T.asks ≡ true) }
    ensures borrows { IfOk result (λ b. B.borrows b.octets ≡ B.borrows octets) }
{
    rewrite_counted(message, octets, table, &mut Turns::new())
}

/// Rewrites a message as [`rewrite`] does, and counts turns: at most 17 for each label of the names that may be
/// compressed, whatever names the message has. The turns and the written octets are together at least as many as these
/// labels.
///
/// # Errors
///
/// As `rewrite`.
pub fn rewrite_counted<
    B: OctetsBuilder + Truncate + AsOctetsMut,
    T: Compressor,
    R: AsOctets + Copy,
>(
    message: &Message<R>,
    octets: B,
    table: T,
    turns: &mut Turns,
) -> Result<AdditionalBuilder<B, T>, RewriteError>
    ensures rewritten { IfOk result (λ b. IsRewritten T.most (message_limit B.limit) message.now b) }
    ensures immovable { IsMalformed rewrite_error result ↔ ¬ CanMove (records_of message.now) }
    ensures short { IsShort rewrite_error result → (m : Contents) → IsContentsOf message.now m
        → ExceedsLimit (message_limit B.limit) (length (message_octets T.most m)) }
    ensures memory { IsMemory rewrite_error result → (B.asks ≡ true) ⊎ (T.asks ≡ true) }
    ensures borrows { IfOk result (λ b. B.borrows b.octets ≡ B.borrows octets) }
    ensures on { turns.old ≤ turns.new }
    ensures turns { (m : Contents) → IsContentsOf message.now m → turns.new ≤ turns.old + 17 * labels_in m }
    ensures least { IfOk result (λ b. (m : Contents) → IsContentsOf message.now m
        → turns.old + labels_in m ≤ turns.new + length b.state.octets) }
{
    match compose_anew(message, octets, table, turns) {
        Ok(builder) => Ok(builder),
        Err(error) => {
            if !can_move(message) {
                return Err(RewriteError::Immovable);
            }
            Err(error)
        }
    }
}
