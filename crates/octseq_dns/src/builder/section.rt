//! The sections of a message. The builder's type says which one is being written, and so what may be pushed next: RFC
//! 1035, 4.1.
ghost use Rattle.std.specs.Prelude.{◌≡◌, ◌+◌, ◌<◌, ◌≤◌, IfSome, IsNone};

use octseq_dns_message::HeaderCounts;

/// A section up to which a message is written.
pub trait Section {
    ghost use Rattle.octseq_dns_message.specs.declared.header.HeaderCounts.{HeaderCounts};

    // The counts of a message have nothing after the section.
    ghost reaches: { HeaderCounts → Type 0 };
}

/// A section of records.
pub trait RecordSection: Section {
    ghost use Rattle.std.specs.Prelude.{ℕ};
    ghost use Rattle.octseq_dns.specs.Contents.{Message, Record};
    ghost use Rattle.octseq_dns.specs.Writes.{TakesRecords};
    ghost use Rattle.octseq_dns_message.specs.declared.header.HeaderCounts.{HeaderCounts};

    // The number of records in the section.
    ghost count: { HeaderCounts → ℕ };

    // The counts with another number of records in the section.
    ghost counted: { HeaderCounts → ℕ → HeaderCounts };

    // The message with one more record in the section.
    ghost more: { Message → Record → Message };

    /// Returns the counts with one more record, or `None` if there are 65,535 already.
    fn count_one_more(counts: HeaderCounts) -> Option<HeaderCounts>
        ensures some { IfSome result (λ c. (c ≡ counted counts (count counts + 1)) × (count counts < 65535)) }
        ensures none { IsNone result → 65535 ≤ count counts };

    ghost takes_records: { TakesRecords Self.reaches count counted more };
}

/// No section yet: the message has only its header.
#[derive(Clone, Copy)]
pub enum NoSection {}

impl Section for NoSection {
    ghost use Rattle.octseq_dns.specs.Writes.{NothingYet};

    ghost reaches = { NothingYet };
}

/// The question section.
#[derive(Clone, Copy)]
pub enum Questions {}

impl Section for Questions {
    ghost use Rattle.octseq_dns.specs.Writes.{UpToQuestions};

    ghost reaches = { UpToQuestions };
}

/// The answer section.
#[derive(Clone, Copy)]
pub enum Answers {}

impl Section for Answers {
    ghost use Rattle.octseq_dns.specs.Writes.{UpToAnswers};

    ghost reaches = { UpToAnswers };
}

impl RecordSection for Answers {
    ghost use Rattle.octseq_dns.specs.Writes.{more_answers};
    ghost use Rattle.octseq_dns.specs.Sections.{takes_answers};

    ghost count = { λ counts. counts.ancount };

    ghost counted = { λ counts n. record counts { ancount = n } };

    ghost more = { more_answers };

    fn count_one_more(counts: HeaderCounts) -> Option<HeaderCounts> {
        let ancount = counts.ancount.checked_add(1)?;
        Some(HeaderCounts { ancount, ..counts })
    }

    ghost takes_records = { takes_answers };
}

/// The authority section.
#[derive(Clone, Copy)]
pub enum Authorities {}

impl Section for Authorities {
    ghost use Rattle.octseq_dns.specs.Writes.{UpToAuthorities};

    ghost reaches = { UpToAuthorities };
}

impl RecordSection for Authorities {
    ghost use Rattle.octseq_dns.specs.Writes.{more_authorities};
    ghost use Rattle.octseq_dns.specs.Sections.{takes_authorities};

    ghost count = { λ counts. counts.nscount };

    ghost counted = { λ counts n. record counts { nscount = n } };

    ghost more = { more_authorities };

    fn count_one_more(counts: HeaderCounts) -> Option<HeaderCounts> {
        let nscount = counts.nscount.checked_add(1)?;
        Some(HeaderCounts { nscount, ..counts })
    }

    ghost takes_records = { takes_authorities };
}

/// The additional section.
#[derive(Clone, Copy)]
pub enum Additionals {}

impl Section for Additionals {
    ghost use Rattle.octseq_dns.specs.Writes.{UpToAdditionals};

    ghost reaches = { UpToAdditionals };
}

impl RecordSection for Additionals {
    ghost use Rattle.octseq_dns.specs.Writes.{more_additionals};
    ghost use Rattle.octseq_dns.specs.Sections.{takes_additionals};

    ghost count = { λ counts. counts.arcount };

    ghost counted = { λ counts n. record counts { arcount = n } };

    ghost more = { more_additionals };

    fn count_one_more(counts: HeaderCounts) -> Option<HeaderCounts> {
        let arcount = counts.arcount.checked_add(1)?;
        Some(HeaderCounts { arcount, ..counts })
    }

    ghost takes_records = { takes_additionals };
}
