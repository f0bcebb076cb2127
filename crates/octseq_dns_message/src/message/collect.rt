//! The entries of a message, as lists.
ghost use Rattle.std.specs.Prelude.{◌≡◌, map, IfOk};
ghost use Rattle.octseq_dns_message.specs.Said.{question_of, record_of};
ghost use Rattle.octseq_dns_message.specs.Walk.{questions_left, records_left};

use crate::message::{Message, Question, Questions, Record, Records};
use octseq::AsOctets;
use std::alloc::{AllocError, Global};

/// The entries of a message: a list for each section.
#[derive(Debug, Drop)]
pub struct Sections<R: AsOctets> {
    /// The questions, from the first one on.
    pub questions: Vec<Question<R>>,
    /// The answers.
    pub answers: Vec<Record<R>>,
    /// The authority records.
    pub authorities: Vec<Record<R>>,
    /// The additional records.
    pub additionals: Vec<Record<R>>,
}

impl<R: AsOctets + Copy> Message<R> {
    ghost use Rattle.octseq_dns_message.specs.Parsed.{questions_of, answers_of, authorities_of, additionals_of};

    /// Returns all entries of the message, as lists. No octet of the message is copied.
    ///
    /// # Errors
    ///
    /// `AllocError` if a request for memory was refused.
    pub fn collect(&self, alloc: Global) -> Result<Sections<R>, AllocError>
        ensures questions { IfOk result (λ sections.
            map question_of sections.questions.items ≡ questions_of self.now) }
        ensures answers { IfOk result (λ sections.
            map record_of sections.answers.items ≡ answers_of self.now) }
        ensures authorities { IfOk result (λ sections.
            map record_of sections.authorities.items ≡ authorities_of self.now) }
        ensures additionals { IfOk result (λ sections.
            map record_of sections.additionals.items ≡ additionals_of self.now) }
    {
        let questions = collect_questions(alloc, self.questions())?;
        let answers = collect_records(alloc, self.answers())?;
        let authorities = collect_records(alloc, self.authorities())?;
        let additionals = collect_records(alloc, self.additionals())?;
        Ok(Sections {
            questions,
            answers,
            authorities,
            additionals,
        })
    }
}

/// Collects the questions that are left.
fn collect_questions<R: AsOctets + Copy>(
    alloc: Global,
    questions: Questions<R>,
) -> Result<Vec<Question<R>>, AllocError>
    ensures { IfOk result (λ list. map question_of list.items ≡ questions_left questions) }
{
    questions.collect(alloc)
}

/// Collects the records that are left.
fn collect_records<R: AsOctets + Copy>(
    alloc: Global,
    records: Records<R>,
) -> Result<Vec<Record<R>>, AllocError>
    ensures { IfOk result (λ list. map record_of list.items ≡ records_left records) }
{
    records.collect(alloc)
}
