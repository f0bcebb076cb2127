//! Files of records.
ghost use Rattle.std.specs.Prelude.{◌≡◌, ◌++◌, ℕ, List, Bool, IfOk, codes};
ghost use Rattle.octseq_bgp_tool.specs.Out.{as_they_are};
ghost use Rattle.octseq_bgp_tool.specs.Records.{IsRecordPiece, IsRecordsEnd, IsRecordsRest};
ghost use Rattle.octseq_bgp_tool.specs.Records.{IsEventNote, IsTakenEvent, IsTakenValue, IsValueNote, IsRecordOutput};
ghost use Rattle.octseq_bgp_tool.specs.declared.engine.records.Records.{Records};
ghost use Rattle.octseq_mrt.specs.Parsed.{event_of, record_of, value_of};
ghost use Rattle.octseq_mrt.specs.Record.{AreRecord};
ghost use Rattle.octseq_mrt.specs.RecordText.{IsRecordText};
ghost use Rattle.octseq_mrt.specs.Records.{IsRecordOctets};

use crate::engine::shown::{is_message, note_on, one_message_piece};
use octseq::{AsOctets, StrBuilder};
use octseq_cli::streams::failed_read;
use octseq_cli::{Ending, FrameCommand, FrameOutput, Next, ProgramFault, StreamCommand};
use octseq_mrt::{
    Event, Record, RecordError, RecordValue, one_record, one_record_text, one_record_value,
    read_record, records_are_apart,
};
use std::alloc::{AllocError, Global};
use std::io::Read;

/// A record makes one piece, and so does a rest.
///
/// It does nothing. Calling it brings the law into the caller's proof.
pub(super) fn one_record_piece()
    ensures piece { (command : Records) (number : ℕ) (octets x y e f : List ℕ) (a b : Bool)
        → IsRecordPiece command number octets a x e → IsRecordPiece command number octets b y f
        → (a ≡ b) × (x ≡ y) × (e ≡ f) }
    ensures end { (command : Records) (number : ℕ) (rest x y e f : List ℕ) (a b : Bool)
        → IsRecordsEnd command number rest a x e → IsRecordsEnd command number rest b y f
        → (a ≡ b) × (x ≡ y) × (e ≡ f) }
{
    one_message_piece();
    one_record();
    one_record_value();
    one_record_text();
}

/// How the records of a file are processed: shown, or reduced to their messages.
#[derive(Clone, Copy)]
pub(super) enum Records {
    /// The text of each record.
    Shown,
    /// The message in each record, as it is.
    Taken,
}

/// Returns the message of an event as it is, or nothing if its octets aren't one.
fn taken_event<R: AsOctets + Copy>(event: &Event<R>) -> &[u8]
    ensures { IsTakenEvent (event_of event.now) result.now }
{
    match event {
        Event::StateChange(_, _) => &[],
        Event::Message(message) => {
            let octets = message.octets.peek_all();
            if is_message(octets, message.session) {
                octets
            } else {
                &[]
            }
        }
    }
}

/// Returns the message in a record as it is, or nothing.
fn taken_value<R: AsOctets + Copy>(value: &RecordValue<R>) -> &[u8]
    ensures { IsTakenValue (value_of value.now) result.now }
{
    match value {
        RecordValue::Bgp4Mp(it) => taken_event(&it.event),
        _ => &[],
    }
}

/// Returns the note about an event, by the number of its record.
fn note_on_event<R: AsOctets + Copy>(
    alloc: Global,
    number: u64,
    event: &Event<R>,
) -> Result<Vec<u8>, AllocError>
    ensures { IfOk result (λ note. IsEventNote number (event_of event.now) note.items) }
{
    match event {
        Event::StateChange(_, _) => Ok(Vec::new(alloc)),
        Event::Message(message) => {
            let (octets, session) = (message.octets.peek_all(), message.session);
            let is_fine = is_message(octets, session);
            note_on(alloc, "message of record", number, octets, session, is_fine)
        }
    }
}

/// Returns the note about a record of this number.
fn note_on_value<R: AsOctets + Copy>(
    alloc: Global,
    number: u64,
    value: &RecordValue<R>,
) -> Result<Vec<u8>, AllocError>
    ensures { IfOk result (λ note. IsValueNote number (value_of value.now) note.items) }
{
    match value {
        RecordValue::Bgp4Mp(it) => note_on_event(alloc, number, &it.event),
        _ => Ok(Vec::new(alloc)),
    }
}

/// Returns the text of a record, and an empty line.
fn shown_record<R: AsOctets + Copy>(alloc: Global, it: &Record<R>) -> Result<Vec<u8>, AllocError>
    ensures { IfOk result (λ written. (text : List ℕ) × IsRecordText (record_of it.now) text
        × (written.items ≡ text ++ codes "\n")) }
{
    let mut text = StrBuilder::<Vec<u8>>::new(alloc)?;
    match it.append_text(&mut text) {
        // (a vector has no limit, so it refuses only for lack of memory)
        Ok(()) => {
            text.push_str("\n")?;
            Ok(text.into_octets_builder())
        }
        Err(_) => Err(AllocError),
    }
}

/// Returns the output for a record.
fn written_of<R: AsOctets + Copy>(
    command: Records,
    alloc: Global,
    it: &Record<R>,
    value: &RecordValue<R>,
) -> Result<Vec<u8>, AllocError>
    ensures { IfOk result (λ written. IsRecordOutput command (record_of it.now) (value_of value.now) written.items) }
{
    match command {
        Records::Shown => shown_record(alloc, it),
        Records::Taken => {
            let mut output = Vec::new(alloc);
            output.extend_from_slice(taken_value(value))?;
            Ok(output)
        }
    }
}

/// Makes a piece of a record.
fn piece_of<R: AsOctets + Copy>(
    command: Records,
    alloc: Global,
    number: u64,
    it: &Record<R>,
) -> Result<FrameOutput, AllocError>
    ensures { IfOk result (λ piece. (octets : List ℕ) → AreRecord octets (record_of it.now)
        → IsRecordPiece command number octets piece.is_fine piece.output.items piece.note.items) }
{
    let value = it.value();
    let note = note_on_value(alloc, number, &value)?;
    let output = written_of(command, alloc, it, &value)?;
    Ok(FrameOutput {
        output,
        note,
        is_fine: true,
    })
}

/// Makes a piece of the octets of a record.
fn piece_of_octets<R: AsOctets + Copy>(
    command: Records,
    alloc: Global,
    number: u64,
    octets: R,
) -> Result<FrameOutput, AllocError>
    requires { IsRecordOctets (R.content octets) }
    ensures { IfOk result (λ piece. IsRecordPiece command number (R.content octets) piece.is_fine piece.output.items
        piece.note.items) }
{
    match Record::parse(octets) {
        Ok(it) => piece_of(command, alloc, number, &it),
        Err(_) => unreachable!(),
    }
}

impl FrameCommand for Records {
    type Tools = ();

    ghost fits = { λ _. IsRecordOctets };

    ghost is_piece = { IsRecordPiece };

    fn one_piece(self) {
        one_record_piece();
    }

    fn tools(self, _alloc: Global) {}

    fn take(
        self,
        alloc: Global,
        _tools: &mut (),
        number: u64,
        octets: &[u8],
    ) -> Result<FrameOutput, AllocError> {
        piece_of_octets(self, alloc, number, octets)
    }
}

impl StreamCommand for Records {
    ghost code = { λ _. as_they_are };

    ghost is_rest = { λ _. IsRecordsRest };

    ghost is_end = { IsRecordsEnd };

    fn one_end(self) {
        one_record_piece();
        records_are_apart();
    }

    fn read_next<R: Read>(
        self,
        reader: &mut R,
        octets: &mut Vec<u8>,
    ) -> Result<Next, ProgramFault> {
        match read_record(reader, octets) {
            Ok(true) => Ok(Next::Frame),
            Ok(false) => Ok(Next::End(Ending::Whole)),
            Err(RecordError::Short) => Ok(Next::End(Ending::Cut)),
            // (any octets are a header)
            Err(RecordError::Malformed) => unreachable!(),
            Err(RecordError::Memory) => Err(ProgramFault::Memory),
            Err(RecordError::Read(error)) => Err(failed_read(&error)),
        }
    }

    fn take_end(
        self,
        alloc: Global,
        _number: u64,
        ending: Ending,
    ) -> Result<FrameOutput, AllocError> {
        let text = match self {
            Records::Shown => "unexpected end of input\n",
            Records::Taken => "",
        };
        match ending {
            Ending::Whole => FrameOutput::plain(alloc, "", true),
            Ending::Cut | Ending::Misframed => FrameOutput::plain(alloc, text, false),
        }
    }
}
