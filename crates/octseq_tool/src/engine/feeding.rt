//! Octets that are consumed as they are read.
ghost use Rattle.std.specs.Prelude.{◌≡◌, ◌≢◌, ℕ, ◌<◌, ◌^◌, List, [], ◌++◌, length, IsFalse, IfOk, IfErr, OnOk, OnErr};
ghost use Rattle.std.specs.Io.KnownBytes.{Consumes, IsAtEnd};
ghost use Rattle.octseq.specs.FaultSearch.{HasSearched};
ghost use Rattle.octseq.specs.Pieces.{HasRead};

use super::ToolFault;
use super::streams::failed_read;
use octseq::str::LossyPieces;
use octseq::utf8::FaultPieces;
use std::alloc::Global;
use std::io::{ErrorKind, Read};

/// How many octets a read asks for.
const PIECE: usize = 64 * 1024;

/// A consumer of octets that come in pieces.
pub trait Feed {
    // what it is after these octets
    ghost has_read: { Self → List ℕ → Type 0 };

    /// Takes the next piece.
    ///
    /// # Errors
    ///
    /// `Memory` if a request for memory was refused, `Read` if there are more octets than can be counted.
    fn take_in(&mut self, piece: &[u8]) -> Result<(), ToolFault>
        ensures ok { OnOk result ((octets : List ℕ)
            → has_read self.old octets → has_read self.new (octets ++ piece.now)) }
        ensures err { IfErr result (λ fault. fault ≢ ToolFault.Write) };
}

impl Feed for LossyPieces<Vec<u8>> {
    ghost has_read = { λ pieces octets. HasRead pieces octets };

    fn take_in(&mut self, piece: &[u8]) -> Result<(), ToolFault> {
        // (a vector has no limit, so it refuses only for lack of memory)
        self.feed(piece).map_err(|_| ToolFault::Memory)
    }
}

/// A search for the first fault, and the number of octets it was fed.
#[derive(Drop)]
pub struct Searched {
    /// The search.
    pub search: FaultPieces,
    /// How many octets there were.
    pub len: u64,
}

impl Searched {
    /// A search of no octets yet.
    pub fn new() -> Self
        ensures search { HasSearched result.search [] }
        ensures len { result.len ≡ 0 }
    {
        Searched {
            search: FaultPieces::new(),
            len: 0,
        }
    }
}

impl Feed for Searched {
    ghost has_read = { λ searched octets.
        HasSearched searched.search octets × (searched.len ≡ length octets) × (length octets < 2 ^ 64) };

    fn take_in(&mut self, piece: &[u8]) -> Result<(), ToolFault> {
        let Some(len) = self.len.checked_add(piece.len() as u64) else {
            return Err(ToolFault::Read);
        };
        self.search.feed(piece);
        self.len = len;
        Ok(())
    }
}

/// Feeds all that the reader has left, piece by piece as it is read.
///
/// # Errors
///
/// `Memory` if a request for memory was refused, `Read` if a read failed.
pub fn feed_all<R: Read, F: Feed>(
    alloc: Global,
    reader: &mut R,
    fed: &mut F,
) -> Result<(), ToolFault>
    requires { F.has_read fed.old [] }
    ensures ok { OnOk result ((input : List ℕ) × F.has_read fed.new input
        × Consumes (R.remaining reader.old) (R.remaining reader.new) input) }
    ensures end { OnOk result (IsAtEnd (R.remaining reader.new)) }
    ensures err { IfErr result (λ fault. fault ≢ ToolFault.Write) }
    ensures lost { OnErr result ((read : List ℕ) × Consumes (R.remaining reader.old) (R.remaining reader.new) read) }
{
    let mut piece = Vec::from_elem(alloc, 0, PIECE)?;
    for _ in 0..u64::MAX {
        if !feed_next(reader, piece.as_mut_slice(), fed)? {
            return Ok(());
        }
    }
    Err(ToolFault::Read)
}

/// Feeds the octets of one read. Returns whether there may be more.
fn feed_next<R: Read, F: Feed>(
    reader: &mut R,
    room: &mut [u8],
    fed: &mut F,
) -> Result<bool, ToolFault>
    requires { 0 < length room.old }
    ensures room { length room.new ≡ length room.old }
    ensures fed { OnOk result ((octets : List ℕ)
        × Consumes (R.remaining reader.old) (R.remaining reader.new) octets
        × ((before : List ℕ) → F.has_read fed.old before → F.has_read fed.new (before ++ octets))) }
    ensures end { IfOk result (λ is_more. IsFalse is_more → IsAtEnd (R.remaining reader.new)) }
    ensures err { IfErr result (λ fault. fault ≢ ToolFault.Write) }
    ensures lost { OnErr result ((read : List ℕ) × Consumes (R.remaining reader.old) (R.remaining reader.new) read) }
{
    match reader.read(room) {
        Ok(count) => {
            fed.take_in(&room[..count])?;
            Ok(count > 0)
        }
        Err(e) if e.kind() == ErrorKind::Interrupted => Ok(true),
        Err(e) => Err(failed_read(&e)),
    }
}
