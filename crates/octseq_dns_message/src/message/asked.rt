//! The question of a message: most messages have exactly one.
ghost use Rattle.std.specs.Prelude.{◌≡◌, ◌≢◌, [], ◌∷◌, Some, length, option_map, slice_get, codes, IsErr, IfOk};
ghost use Rattle.octseq_dns_message.specs.Said.{question_of};

use crate::message::{Message, Question};
use octseq::AsOctets;
use std::error::Error;
use std::fmt;

/// A message has no question, or more than one.
#[derive(Clone, Copy, Debug, Default, PartialEq, Eq)]
pub struct NotOneQuestion;

impl Error for NotOneQuestion {}

impl fmt::Display for NotOneQuestion {
    ghost output = { λ _. Some (codes "not one question") };

    fn fmt<W: fmt::Write>(&self, f: &mut fmt::Formatter<W>) -> fmt::Result {
        f.write_str("not one question")
    }
}

impl<R: AsOctets + Copy> Message<R> {
    ghost use Rattle.octseq_dns_message.specs.Parsed.{questions_of};

    /// Returns the first question, if there is one.
    pub fn first_question(&self) -> Option<Question<R>>
        ensures { option_map question_of result ≡ slice_get (questions_of self.now) 0 }
    {
        self.questions().next()
    }

    /// Returns the question, if there is exactly one.
    ///
    /// # Errors
    ///
    /// `NotOneQuestion` if there is none, or more than one.
    pub fn sole_question(&self) -> Result<Question<R>, NotOneQuestion>
        ensures sole { IfOk result (λ question. questions_of self.now ≡ question_of question ∷ []) }
        ensures refused { IsErr result → length (questions_of self.now) ≢ 1 }
    {
        if self.header_counts().qdcount != 1 {
            return Err(NotOneQuestion);
        }
        self.first_question().ok_or(NotOneQuestion)
    }
}
