//! Text of octets that comes in runs, read octet by octet.
ghost use Rattle.std.specs.Prelude.{ℕ, List, [], ◌∷◌};
ghost use Rattle.octseq_dns_scan.specs.TextReader.{TakesOctet, Feeds};

use octseq::{OctetsBuilder, WriteError};

/// A reader of a text of octets.
pub(crate) trait DigitReader: Copy {
    // The text is one of these octets.
    ghost is_text: { List ℕ → List ℕ → Type 0 };

    // The reader has read this text so far, and made these octets of it.
    ghost has_read: { Self → List ℕ → List ℕ → Type 0 };

    /// Reads one octet of the text: the reader after it, and the octet that it makes whole.
    fn take(self, octet: u8) -> Option<(Self, Option<u8>)>
        ensures { TakesOctet is_text has_read self octet result };
}

/// Reads a run, and appends the octets that it makes whole.
pub(crate) fn feed<R: DigitReader, B: OctetsBuilder>(
    reader: R,
    run: &[u8],
    target: &mut B,
) -> Result<R, WriteError>
    ensures { Feeds R.is_text R.has_read B.limit B.asks result reader run.now
        (B.content target.old) (B.content target.new) }
{
    let mut reader = reader;
    for octet in run {
        reader = feed_one(reader, *octet, target)?;
    }
    Ok(reader)
}

/// Reads one octet, and appends the octet that it makes whole.
fn feed_one<R: DigitReader, B: OctetsBuilder>(
    reader: R,
    octet: u8,
    target: &mut B,
) -> Result<R, WriteError>
    ensures { Feeds R.is_text R.has_read B.limit B.asks result reader (octet ∷ [])
        (B.content target.old) (B.content target.new) }
{
    let Some((next, made)) = reader.take(octet) else {
        return Err(WriteError::Malformed);
    };
    if let Some(made) = made {
        target.append_slice(&[made])?;
    }
    Ok(next)
}
