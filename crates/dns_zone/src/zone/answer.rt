//! The answer of a zone to a question (RFC 1034 section 4.3.2, RFC 2308 sections 2 and 3).

ghost use Rattle.std.specs.Prelude.{◌≡◌, [], ◌∷◌, length, true, IfOk, IsOk};
ghost use Rattle.dns_wire.specs.codes.RecordType.{type_number};
ghost use Rattle.dns_messages.specs.declared.query.Query.{Query};
ghost use Rattle.dns_zone.specs.Rows.{zone_of};
ghost use Rattle.dns_zone.specs.Answer.{answer, bare, is_no_row_type, is_refused, IsSoundAnswer};
ghost use Rattle.dns_zone.specs.Section.{borrowed_answer};

use crate::sets::ZoneSets;
use crate::zone::Zone;
use crate::zone::chain::answer_along;
use crate::zone::section::Section;
use dns_messages::{Message, Query, ResponseCode, Sequence};
use dns_names::Name;
use dns_records::Record;
use dns_wire::{DNSClass, RecordType};
use std::alloc::{AllocError, Global};

/// The answer of a zone to a question: a response code, and two sections of records.
#[derive(Drop)]
pub struct Answer {
    pub code: ResponseCode,
    /// The records that answer the question: the aliases along a chain, and then the records at its end.
    pub answers: Sequence<Record>,
    /// The SOA record of the zone, in a negative answer.
    pub authorities: Sequence<Record>,
}

/// An answer whose records are borrowed from the zone.
#[derive(Clone, Copy, Drop)]
pub(crate) struct AnswerRef<'a> {
    pub(crate) code: ResponseCode,
    pub(crate) answers: Section<'a>,
    pub(crate) authorities: Section<'a>,
}

impl Zone {
    /// Returns the answer to the question of a request, along an alias chain of at most seven links (RFC 1034 section 3.6.2).
    /// An alias is not followed to a name outside the zone, or to a special-use name (RFC 6761). A question that is refused
    /// takes no memory.
    pub fn answer(&self, request: &Message) -> Result<Answer, AllocError>
        requires { length request.now.queries ≡ 1 }
        ensures answer { IfOk result (λ a. (q : Query) → request.now.queries ≡ q ∷ []
            → a ≡ answer self.now q) }
        ensures sound { IfOk result (λ a. (q : Query) → request.now.queries ≡ q ∷ []
            → q.name.is_fqdn ≡ true → IsSoundAnswer a) }
        ensures refused { (q : Query) → request.now.queries ≡ q ∷ []
            → is_refused self.now q ≡ true → IsOk result }
    {
        let [query] = request.queries.as_slice() else {
            unreachable!();
        };
        self.answer_to(query)
    }

    /// Returns the answer to a question.
    fn answer_to(&self, query: &Query) -> Result<Answer, AllocError>
        ensures answer { IfOk result (λ a. a ≡ answer self.now query.now) }
        ensures sound { IfOk result (λ a. query.now.name.is_fqdn ≡ true → IsSoundAnswer a) }
        ensures refused { is_refused self.now query.now ≡ true → IsOk result }
    {
        self.answer_ref(query).to_owned(self.alloc)
    }

    /// Returns the answer to a question, with borrowed records.
    pub(crate) fn answer_ref<'a>(&'a self, query: &'a Query) -> AnswerRef<'a>
        ensures answer { borrowed_answer result ≡ answer self.now query.now }
        ensures sound { query.now.name.is_fqdn ≡ true → IsSoundAnswer (borrowed_answer result) }
    {
        answer_from(&self.origin, &self.sets, query)
    }
}

impl<'a> AnswerRef<'a> {
    /// Creates an answer without records. `owner` is ignored.
    pub(crate) fn bare(owner: &'a Name, code: ResponseCode) -> AnswerRef<'a>
        ensures { borrowed_answer result ≡ bare code }
    {
        AnswerRef {
            code,
            answers: Section::empty(owner),
            authorities: Section::empty(owner),
        }
    }

    /// Copies the answer. An answer without records takes no memory.
    fn to_owned(&self, alloc: Global) -> Result<Answer, AllocError>
        ensures answer { IfOk result (λ copy. copy ≡ borrowed_answer self.now) }
        ensures bare { borrowed_answer self.now ≡ bare self.now.code → IsOk result }
    {
        let answers = self.answers.to_owned(alloc)?;
        Ok(Answer {
            code: self.code,
            answers,
            authorities: self.authorities.to_owned(alloc)?,
        })
    }
}

/// Returns `true` if no row has this type: it is 0, OPT or one of 128 to 255 (RFC 6895 section 3.1), or SIG (RFC 2931).
fn is_without_rows(record_type: RecordType) -> bool
    ensures { result ≡ is_no_row_type (type_number record_type) }
{
    matches!(u16::from(record_type), 0 | 24 | 41 | 128..=255)
}

/// Returns the answer of the zone with this origin and these sets.
fn answer_from<'a>(origin: &'a Name, sets: &'a ZoneSets, query: &'a Query) -> AnswerRef<'a>
    ensures { borrowed_answer result ≡ answer (zone_of origin.now sets.now) query.now }
{
    if is_without_rows(query.query_type) {
        return AnswerRef::bare(origin, ResponseCode::NotImp);
    }
    if query.query_class != DNSClass::IN || !origin.zone_of(&query.name) {
        return AnswerRef::bare(origin, ResponseCode::Refused);
    }
    answer_along(origin, sets, query)
}
