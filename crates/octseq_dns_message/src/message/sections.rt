//! The sections of a message, when they are passed for the first time.
ghost use Rattle.std.specs.Prelude.{◌≡◌, ◌+◌, ◌*◌, ◌≤◌, ℕ, List, IsErr, OnOk};
ghost use Rattle.octseq.specs.Parser.{sequence, window};
ghost use Rattle.octseq.specs.Window.{Window, left};
ghost use Rattle.octseq_dns_message.specs.Entry as said;
ghost use Rattle.octseq_dns_message.specs.Entry.{IsQuestion, IsRecord};
ghost use Rattle.octseq_dns_message.specs.EntryTurns.{questions_turns, records_turns};
ghost use Rattle.octseq_format.specs.Row.{Many};

use crate::message::question::Question;
use crate::message::record::Record;
use octseq::{AsOctets, Parser, Turns};
use octseq_dns_name::Malformed;

/// Passes `count` questions.
#[inline(always)]
pub(crate) fn read_questions<R: AsOctets + Copy>(
    parser: &mut Parser<R>,
    count: u16,
    turns: &mut Turns,
) -> Result<(), Malformed>
    ensures all { OnOk result ((row : List said.Question)
        × Many count IsQuestion (window parser.old) row (window parser.new)) }
    ensures malformed { IsErr result → (row : List said.Question) (v : Window)
        → ¬ Many count IsQuestion (window parser.old) row v }
    ensures turns { turns.new ≤ turns.old + 51 * left (window parser.old) + 255 }
    ensures some { turns.old ≤ turns.new }
    ensures whole { OnOk result (turns.new + 51 * left (window parser.new)
        ≤ turns.old + 51 * left (window parser.old)) }
    ensures least { OnOk result ((row : List said.Question) (end : Window)
        → Many count IsQuestion (window parser.old) row end → turns.old + questions_turns row ≤ turns.new) }
    ensures entries { OnOk result (turns.new ≤ turns.old + 255 * count) }
    ensures same { sequence parser.new ≡ sequence parser.old }
{
    for taken in 0..count {
        let _entry = Question::parse_counted(parser, turns)?;
    }
    Ok(())
}

/// Passes `count` records.
#[inline(always)]
pub(crate) fn read_records<R: AsOctets + Copy>(
    parser: &mut Parser<R>,
    count: u16,
    turns: &mut Turns,
) -> Result<(), Malformed>
    ensures all { OnOk result ((row : List said.Record)
        × Many count IsRecord (window parser.old) row (window parser.new)) }
    ensures malformed { IsErr result → (row : List said.Record) (v : Window)
        → ¬ Many count IsRecord (window parser.old) row v }
    ensures turns { turns.new ≤ turns.old + 51 * left (window parser.old) + 255 }
    ensures some { turns.old ≤ turns.new }
    ensures whole { OnOk result (turns.new + 51 * left (window parser.new)
        ≤ turns.old + 51 * left (window parser.old)) }
    ensures least { OnOk result ((row : List said.Record) (end : Window)
        → Many count IsRecord (window parser.old) row end → turns.old + records_turns row ≤ turns.new) }
    ensures entries { OnOk result (turns.new ≤ turns.old + 255 * count) }
    ensures same { sequence parser.new ≡ sequence parser.old }
{
    for taken in 0..count {
        let _entry = Record::parse_counted(parser, turns)?;
    }
    Ok(())
}
