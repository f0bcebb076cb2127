//! The canonical name for the qname of a message: RFC 1034, 3.6.2.
ghost use Rattle.std.specs.Prelude.{◌≡◌, ◌+◌, ◌*◌, ◌<◌, ◌≤◌, List, length, IsSome, IsNone, IfSome};
ghost use Rattle.octseq_dns_message.specs.AliasTurns.{alias_turns, canonical_turns};
ghost use Rattle.octseq_dns_message.specs.Canonical.{IsAlias, IsAliasOf, IsCanonicalName};
ghost use Rattle.octseq_dns_message.specs.Entry as said;
ghost use Rattle.octseq_dns_message.specs.Said.{record_of};
ghost use Rattle.octseq_dns_message.specs.Walk.{records_left};
ghost use Rattle.octseq_dns_name.specs.Name as named;
ghost use Rattle.octseq_dns_name.specs.NameFormat.{least_turns};
ghost use Rattle.octseq_dns_name.specs.Read.{name_of};

use crate::message::{Message, Record, Records};
use octseq::{AsOctets, Turns};
use octseq_dns_data::{Class, Data, Rtype};
use octseq_dns_name::ParsedName;

/// The maximum number of aliases that are followed from the qname.
pub const ALIAS_MAX: usize = 15;

/// A message has at most one canonical name.
///
/// It does nothing. Calling it brings the law into the caller's proof.
pub fn one_canonical_name()
    ensures { (questions : List said.Question) (answers : List said.Record) (name other : named.Name)
        → IsCanonicalName questions answers name → IsCanonicalName questions answers other → name ≡ other }
{}

impl<R: AsOctets + Copy> Message<R> {
    ghost use Rattle.octseq_dns_message.specs.Parsed.{questions_of, answers_of};

    /// Returns the qname of the first question, or, if the answers make it an alias, the name that the aliases lead to.
    ///
    /// As long as the name owns an answer of type CNAME and of the question's class, the target of the first such
    /// answer takes its place. An answer whose data isn't a name is left out. Returns `None` if the message has no
    /// question, or if more than 15 aliases follow one another, as in a loop.
    pub fn canonical_name(&self) -> Option<ParsedName<R>>
        ensures canonical { IfSome result (λ name.
            IsCanonicalName (questions_of self.now) (answers_of self.now) (name_of name)) }
        ensures none { IsNone result → (name : named.Name)
            → ¬ IsCanonicalName (questions_of self.now) (answers_of self.now) name }
    {
        self.canonical_name_counted(&mut Turns::new())
    }

    /// Returns the same as [`canonical_name`](Self::canonical_name), and counts a turn for each answer that it looks
    /// at, and the turns that the names in data take. So an alias takes at least two: one for the answer, and one for
    /// the root of its target.
    pub fn canonical_name_counted(&self, turns: &mut Turns) -> Option<ParsedName<R>>
        ensures canonical { IfSome result (λ name.
            IsCanonicalName (questions_of self.now) (answers_of self.now) (name_of name)) }
        ensures none { IsNone result → (name : named.Name)
            → ¬ IsCanonicalName (questions_of self.now) (answers_of self.now) name }
        ensures some { turns.old ≤ turns.new }
        ensures least { IfSome result (λ name.
            (is : IsCanonicalName (questions_of self.now) (answers_of self.now) (name_of name))
            → turns.old + canonical_turns (questions_of self.now) (answers_of self.now) (name_of name) is ≤ turns.new) }
        ensures aliases { IsNone result → 0 < length (questions_of self.now) → turns.old + 16 * 2 ≤ turns.new }
        ensures turns { turns.new ≤ turns.old + 16 * (511 * length (answers_of self.now)) }
    {
        let question = self.first_question()?;
        let class = question.qclass();
        let mut name = question.qname();
        for followed in 0..ALIAS_MAX + 1 {
            match alias_target(self.answers(), class, &name, turns) {
                Some(target) => name = target,
                None => return Some(name),
            }
        }
        None
    }
}

/// Returns the target of the first record that makes a name an alias.
fn alias_target<R: AsOctets + Copy>(
    records: Records<R>,
    class: Class,
    name: &ParsedName<R>,
    turns: &mut Turns,
) -> Option<ParsedName<R>>
    ensures target { IfSome result (λ target.
        IsAliasOf class (records_left records) (name_of name.now) (name_of target)) }
    ensures none { IsNone result → (target : named.Name)
        → ¬ IsAliasOf class (records_left records) (name_of name.now) target }
    ensures some { turns.old ≤ turns.new }
    ensures least { IfSome result (λ target.
        (is : IsAliasOf class (records_left records) (name_of name.now) (name_of target))
        → turns.old + alias_turns class (records_left records) (name_of name.now) (name_of target) is ≤ turns.new) }
    ensures all { IsNone result → turns.old + length (records_left records) ≤ turns.new }
    ensures turns { turns.new ≤ turns.old + 511 * length (records_left records) }
{
    for entry in records {
        turns.tick();
        if let Some(target) = target_in(&entry, class, name, turns) {
            return Some(target);
        }
    }
    None
}

/// Returns the target of a record, if it makes a name an alias.
fn target_in<R: AsOctets + Copy>(
    entry: &Record<R>,
    class: Class,
    name: &ParsedName<R>,
    turns: &mut Turns,
) -> Option<ParsedName<R>>
    ensures alias { IfSome result (λ target.
        IsAlias class (name_of name.now) (record_of entry.now) (name_of target)) }
    ensures none { IsNone result → (target : named.Name)
        → ¬ IsAlias class (name_of name.now) (record_of entry.now) target }
    ensures some { turns.old ≤ turns.new }
    ensures least { IfSome result (λ target. turns.old + least_turns (name_of target) ≤ turns.new) }
    ensures turns { turns.new ≤ turns.old + 510 }
{
    if entry.rtype() != Rtype::CNAME || entry.class() != class || !entry.owner().name_eq(name) {
        return None;
    }
    match entry.data_counted(turns) {
        Data::Cname(target) => Some(target),
        _ => None,
    }
}
