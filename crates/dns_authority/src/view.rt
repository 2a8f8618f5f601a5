//! The zones of an authoritative server, borrowed, and their answers to questions (RFC 1034 section 4.3.2).

ghost use Rattle.std.specs.Prelude.{◌≡◌, ◌≤◌, true, Ok, IfOk};
ghost use Rattle.dns_wire.specs.codes.RecordType.{type_number};
ghost use Rattle.dns_zone.specs.Answer.{is_no_row_type};
ghost use Rattle.dns_authority.specs.Additional.{with_additionals};
ghost use Rattle.dns_authority.specs.Answer.{authority_answer, bare_answer, is_unanswered};
ghost use Rattle.dns_authority.specs.Front.{answer_front, first_records};
ghost use Rattle.dns_authority.specs.Step.{refusal};

use crate::additional::with_additionals;
use crate::answer::AuthorityAnswer;
use crate::asked::{AnyAnswer, Asked, Wanted, is_any};
use crate::chain::{MAX_ALIASES, answer_at};
use dns_messages::{Query, ResponseCode};
use dns_server::ZoneTable;
use dns_wire::{DNSClass, RecordType};
use std::alloc::{AllocError, Global};

/// Zones that are borrowed from their server, and what questions for the type ANY are answered with.
#[derive(Clone, Copy)]
pub struct AuthorityView<'a> {
    /// The zones.
    pub zones: &'a ZoneTable,
    /// The records that a question for the type ANY is answered with.
    pub any: AnyAnswer,
}

impl AuthorityView<'_> {
    /// Returns the answer to a question, along at most seven aliases (RFC 1034 section 4.3.2).
    ///
    /// The code is `NotImp` for a type other than ANY that no record has, before memory is taken; otherwise it is `Refused` for
    /// a class other than `IN`.
    pub fn answer(&self, alloc: Global, query: &Query) -> Result<AuthorityAnswer, AllocError>
        ensures answer { IfOk result (λ answer. answer
            ≡ authority_answer self.now.any self.now.zones.now query.now) }
        ensures unanswered { is_unanswered query.now.query_type ≡ true
            → result ≡ Ok (refusal ResponseCode.NotImp) }
    {
        if is_unanswered(query.query_type) {
            return Ok(AuthorityAnswer::refusal(alloc, ResponseCode::NotImp));
        }
        let answer = self.bare_answer(alloc, query)?;
        self.with_additionals(alloc, answer)
    }

    /// Returns the answer to a question without its additional section.
    ///
    /// The code is `NotImp` for a type other than ANY that no record has, before memory is taken; otherwise it is `Refused` for
    /// a class other than `IN`.
    pub fn bare_answer(&self, alloc: Global, query: &Query) -> Result<AuthorityAnswer, AllocError>
        ensures answer { IfOk result (λ answer. answer
            ≡ bare_answer self.now.any self.now.zones.now query.now) }
        ensures unanswered { is_unanswered query.now.query_type ≡ true
            → result ≡ Ok (refusal ResponseCode.NotImp) }
    {
        let answer = self.answer_front(alloc, usize::MAX, query)?;
        prove!(answer.answers.len() < usize::MAX);
        prove!(answer.authorities.len() < usize::MAX);
        Ok(answer)
    }

    /// Returns the first `most` of the answers and the authority records of [`bare_answer`](AuthorityView::bare_answer), with its code
    /// and its authority. The time does not grow with the records that are left out.
    pub fn first_records(
        &self,
        alloc: Global,
        most: usize,
        query: &Query,
    ) -> Result<AuthorityAnswer, AllocError>
        requires { 1 ≤ most }
        ensures { IfOk result (λ answer. answer ≡ first_records most
            (bare_answer self.now.any self.now.zones.now query.now)) }
    {
        let answer = self.answer_front(alloc, most, query)?;
        Ok(answer.into_first_records(most))
    }

    /// Returns the answer to a question without its additional section, and with the first `most` records of each of its other
    /// sections, or with more of them.
    fn answer_front(
        &self,
        alloc: Global,
        most: usize,
        query: &Query,
    ) -> Result<AuthorityAnswer, AllocError>
        requires { 1 ≤ most }
        ensures answer { IfOk result (λ answer. answer_front most answer ≡ answer_front most
            (bare_answer self.now.any self.now.zones.now query.now)) }
        ensures unanswered { is_unanswered query.now.query_type ≡ true
            → result ≡ Ok (refusal ResponseCode.NotImp) }
    {
        if is_unanswered(query.query_type) {
            return Ok(AuthorityAnswer::refusal(alloc, ResponseCode::NotImp));
        }
        if query.query_class != DNSClass::IN {
            return Ok(AuthorityAnswer::refusal(alloc, ResponseCode::Refused));
        }
        let asked = Asked {
            record_type: query.query_type,
            any: self.any,
        };
        answer_at(
            alloc,
            MAX_ALIASES,
            self.zones,
            Wanted { asked, most },
            &query.name,
        )
    }

    /// Returns an answer with the additional section of its answers and authority records, in place of that which it has. It has
    /// addresses of the hosts that these name (RFC 1034 section 4.3.2 step 6).
    pub fn with_additionals(
        &self,
        alloc: Global,
        answer: AuthorityAnswer,
    ) -> Result<AuthorityAnswer, AllocError>
        ensures { IfOk result (λ whole. whole ≡ with_additionals self.now.zones.now answer) }
    {
        with_additionals(alloc, self.zones, answer)
    }
}

/// Returns `true` for a type that no row has, other than ANY.
fn is_unanswered(record_type: RecordType) -> bool
    ensures { result ≡ is_unanswered record_type }
{
    !is_any(record_type) && is_without_rows(record_type)
}

/// Returns `true` if no row has this type: it is 0, SIG, OPT, or one of 128 to 255 (RFC 6895 section 3.1).
fn is_without_rows(record_type: RecordType) -> bool
    ensures { result ≡ is_no_row_type (type_number record_type) }
{
    matches!(u16::from(record_type), 0 | 24 | 41 | 128..=255)
}
