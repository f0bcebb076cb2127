//! Octets that are appended to a content as far as they fit.
ghost use Rattle.std.specs.Prelude.{◌≡◌, Bool, true, false, ◌++◌, take, length, IfOk, IfErr, OnOk, OnErr};
ghost use Rattle.octseq_dns_text.specs.Output.{Adds, Grows, unless_full};

use crate::error::ScanError;
use octseq::{AppendError, OctetsBuilder, Truncate};

/// Appends octets to a content that may be full. Returns whether it is then full: with them it would exceed its limit.
pub(crate) fn append<B: OctetsBuilder>(
    target: &mut B,
    octets: &[u8],
    full: bool,
) -> Result<bool, ScanError>
    ensures ok { IfOk result (λ past. Adds B.limit full (B.content target.old) past (B.content target.new)
        octets.now) }
    ensures memory { IfErr result (λ error. error ≡ ScanError.Memory) }
    ensures asks { OnErr result (B.asks ≡ true) }
    ensures grows { Grows (B.content target.old) (B.content target.new) }
    ensures borrows { B.borrows target.new ≡ B.borrows target.old }
{
    match target.append_slice(octets) {
        Ok(()) => Ok(full),
        Err(AppendError::Short(_)) => Ok(true),
        Err(AppendError::Memory) => Err(ScanError::Memory),
    }
}

/// Says that a text was read, unless the content was full before its end.
pub(crate) fn unless_full(full: bool, scanned: Result<(), ScanError>) -> Result<(), ScanError>
    ensures { result ≡ unless_full full scanned }
{
    match scanned {
        Ok(()) => {
            if full {
                return Err(ScanError::Short);
            }
            Ok(())
        }
        Err(error) => Err(error),
    }
}

/// Cuts a content to its length before, if a text was refused.
pub(crate) fn kept<B: OctetsBuilder + Truncate>(
    target: &mut B,
    before: usize,
    scanned: Result<(), ScanError>,
) -> Result<(), ScanError>
    ensures same { result ≡ scanned }
    ensures ok { OnOk scanned (B.content target.new ≡ B.content target.old) }
    ensures err { OnErr scanned (B.content target.new ≡ take before (B.content target.old)) }
    ensures borrows { B.borrows target.new ≡ B.borrows target.old }
{
    if scanned.is_err() {
        target.truncate(before);
    }
    scanned
}
