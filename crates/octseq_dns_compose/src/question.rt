//! The line of a question.
ghost use Rattle.std.specs.Prelude.{ℕ, List, IfSome, IsNone};
ghost use Rattle.octseq_dns_name.specs.Owned.{owned_labels};
ghost use Rattle.octseq_dns_scan.specs.Word.{AreWords};
ghost use Rattle.octseq_dns_scan.specs.Words.{ahead_of, offset_of};
ghost use Rattle.octseq_dns_text.specs.Scans.{IsWordFault};
ghost use Rattle.octseq_dns_compose.specs.QuestionText.{IsAnyQuestion, IsQuestionText};

use crate::head::{take_class, take_owner, take_rtype};
use octseq::Array;
use octseq_dns_data::{Class, Rtype};
use octseq_dns_name::Name;
use octseq_dns_scan::Words;

/// A question that was read from text.
#[derive(Drop)]
pub(crate) struct QuestionText {
    pub(crate) qname: Name<Array<255>>,
    pub(crate) qclass: Class,
    pub(crate) qtype: Rtype,
}

/// Reads a question from the words that are left. If they are none, the cursor stays at the first word that isn't what
/// has to come there.
pub(crate) fn scan_question(words: &mut Words) -> Option<QuestionText>
    ensures some { IfSome result (λ question. (all : List (List ℕ)) × AreWords all (ahead_of words.old)
        × IsQuestionText (owned_labels question.qname) question.qclass question.qtype all) }
    ensures none { IsNone result → IsWordFault IsAnyQuestion (ahead_of words.old) (offset_of words.old)
        (offset_of words.new) }
{
    let Some(qname) = take_owner::<&[u8]>(words, None) else {
        return None;
    };
    let Some(qclass) = take_class(words) else {
        return None;
    };
    let Some(qtype) = take_rtype(words) else {
        return None;
    };
    if !words.is_at_end() {
        return None;
    }
    Some(QuestionText {
        qname,
        qclass,
        qtype,
    })
}
