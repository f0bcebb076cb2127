//! What the text of a message says.
ghost use Rattle.std.specs.Prelude.{◌≡◌, ◌↔◌, ℕ, List};
ghost use Rattle.octseq.proofs.WrittenBack.{AreOctets};
ghost use Rattle.octseq.specs.Window.{Window};
ghost use Rattle.octseq_dns.specs.Contents.{Message, Question as Asked};
ghost use Rattle.octseq_dns.specs.Rewritten as rewritten;
ghost use Rattle.octseq_dns_data.specs.Data.{ParsedRdata};
ghost use Rattle.octseq_dns_message.specs.Entry.{IsQuestion, IsRecord, Question, Record};
ghost use Rattle.octseq_dns_message.specs.HeaderText.{question_text};
ghost use Rattle.octseq_dns_message.specs.Message.{IsMessage};
ghost use Rattle.octseq_dns_message.specs.MessageText as shown;
ghost use Rattle.octseq_dns_message.specs.MessageText.{record_text};
ghost use Rattle.octseq_dns_message.specs.RecordData.{IsDataOf};
ghost use Rattle.octseq_dns_message.specs.declared.header.Header.{Header};
ghost use Rattle.octseq_format.specs.Canonical.{IsSoundWindow};
ghost use Rattle.octseq_dns_compose.specs.MessageShown.{
  IsMessageOfLines,
  AreRecordWords,
  SaysLines,
  ShowsMessage,
  ShowsWords,
};
ghost use Rattle.octseq_dns_compose.specs.MessageShown.{entries_said, header_said, said_of};
ghost use Rattle.octseq_dns_compose.specs.MessageText.{IsTextOfMessage, RecordLine};
ghost use Rattle.octseq_dns_compose.specs.QuestionText.{IsQuestionText};

/// A text is that of one message at most.
///
/// It does nothing. Calling it brings the law into the caller's proof.
pub fn a_text_is_of_one_message()
    ensures { (text : List ℕ) (m other : Message) → IsTextOfMessage text m → IsTextOfMessage text other → m ≡ other }
{}

/// The text that is shown of a record consists of words that are read back as the record: its owner, its TTL, its class
/// and its type, and the octets that its data says. The same holds of a question.
///
/// It does nothing. Calling it brings the law into the caller's proof.
pub fn records_are_read_as_shown()
    ensures record { (w : Window) (r : Record) (v : Window) (rdata : ParsedRdata) → IsSoundWindow w → IsRecord w r v
        → IsDataOf r rdata → ShowsWords (AreRecordWords (said_of r rdata)) (record_text r rdata) }
    ensures question { (w : Window) (q : Question) (v : Window) → IsSoundWindow w → IsQuestion w q v
        → ShowsWords (IsQuestionText q.qname.labels q.qclass q.qtype) (question_text q) }
{}

/// The text that is shown of a message is read back as the lines of its header, but for the reserved bit, which isn't
/// shown, and of its questions and its records, section by section: each record has its labels, type, class and TTL and
/// the octets that its data says.
///
/// It does nothing. Calling it brings the law into the caller's proof.
pub fn messages_are_read_as_shown()
    ensures { (octets text : List ℕ) (header : Header) (questions : List Question)
        (answers authorities additionals : List Record) → AreOctets octets
        → IsMessage octets header questions answers authorities additionals
        → shown.IsMessageText header questions answers authorities additionals text
        → ShowsMessage header questions answers authorities additionals text }
{}

/// If a text consists of the lines of a header, of questions and of records, it is the text of a message exactly if
/// that has the header, the questions, and the record of each line.
///
/// It does nothing. Calling it brings the law into the caller's proof.
pub fn a_message_is_what_its_lines_say()
    ensures { (text : List ℕ) (header : Header) (questions : List Asked)
        (answers authorities additionals : List RecordLine)
        (m : Message) → SaysLines text header (entries_said questions answers authorities additionals)
        → IsTextOfMessage text m ↔ IsMessageOfLines header questions answers authorities additionals m }
{}

/// The text that is shown of a message is the text of that message without the reserved bit.
///
/// It does nothing. Calling it brings the law into the caller's proof.
pub fn a_shown_message_is_composed_again()
    ensures { (octets text : List ℕ) (header : Header) (questions : List Question)
        (answers authorities additionals : List Record) (m : Message) → AreOctets octets
        → IsMessage octets header questions answers authorities additionals
        → shown.IsMessageText header questions answers authorities additionals text
        → rewritten.IsMessageOf (header_said header) questions answers authorities additionals m
        → IsTextOfMessage text m }
{}
