//! The value of the MRT record that octets are.
ghost use Rattle.std.specs.Prelude.{◌≤◌, length, IfOk, OnErr};
ghost use Rattle.octseq_mrt.specs.Parsed.{value_of};
ghost use Rattle.octseq_mrt.specs.ReadTurns.{record_turns};
ghost use Rattle.octseq_mrt.specs.Records.{IsRecordOctets};
ghost use Rattle.octseq_c.specs.MrtRows.{IsMrtRecord};

use octseq::{AsOctets, Malformed, Turns};
use octseq_mrt::{Record, RecordValue};

/// Reads all the octets as a record, and returns its value.
///
/// # Errors
///
/// `Malformed` if they aren't one.
pub fn record_value<R: AsOctets + Copy>(octets: R) -> Result<RecordValue<R>, Malformed>
    ensures value { IfOk result (λ value. IsMrtRecord (R.content octets) (value_of value)) }
    ensures few { IfOk result (λ value. record_turns (value_of value) ≤ length (R.content octets)) }
    ensures malformed { OnErr result (¬ IsRecordOctets (R.content octets)) }
{
    let record = Record::parse(octets)?;
    Ok(record.value_counted(&mut Turns::new()))
}
