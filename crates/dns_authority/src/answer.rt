//! Answers of an authoritative server.

ghost use Rattle.std.specs.Prelude.{◌≡◌, take, IfOk};
ghost use Rattle.dns_authority.specs.Answer.{after_records};
ghost use Rattle.dns_authority.specs.Front.{answer_front, first_records};
ghost use Rattle.dns_authority.specs.Step.{authoritative_answer, negative, referral, refusal};

use crate::copies::{first_copies, joined, soa_copies};
use dns_messages::ResponseCode;
use dns_names::Name;
use dns_records::{Record, Sequence};
use dns_wire::RecordType;
use dns_zone::Zone;
use std::alloc::{AllocError, Global};

/// The answer to a question: a response code, and three sections of records.
#[derive(Drop)]
pub struct AuthorityAnswer {
    pub code: ResponseCode,
    /// AA: whether the server is an authority for the name in the question (RFC 1035 section 4.1.1).
    pub authoritative: bool,
    /// The records that answer the question, along aliases.
    pub answers: Sequence<Record>,
    /// The NS records of a referral, or the SOA record of a negative answer.
    pub authorities: Sequence<Record>,
    /// Addresses of the hosts that the other sections name.
    pub additionals: Sequence<Record>,
}

impl AuthorityAnswer {
    /// Creates an answer without records and without authority. No memory is taken.
    pub fn refusal(alloc: Global, code: ResponseCode) -> AuthorityAnswer
        ensures { result ≡ refusal code }
    {
        AuthorityAnswer {
            code,
            authoritative: false,
            answers: Sequence::new(alloc),
            authorities: Sequence::new(alloc),
            additionals: Sequence::new(alloc),
        }
    }

    /// Creates an authoritative answer. No memory is taken.
    pub(crate) fn authoritative(
        alloc: Global,
        code: ResponseCode,
        answers: Sequence<Record>,
        authorities: Sequence<Record>,
    ) -> AuthorityAnswer
        ensures { result ≡ authoritative_answer code answers authorities }
    {
        AuthorityAnswer {
            code,
            authoritative: true,
            answers,
            authorities,
            additionals: Sequence::new(alloc),
        }
    }

    /// Creates the answer of a zone where there are no records: it has the SOA record (RFC 2308 section 3).
    pub(crate) fn negative(
        alloc: Global,
        zone: &Zone,
        code: ResponseCode,
    ) -> Result<AuthorityAnswer, AllocError>
        ensures { IfOk result (λ answer. answer ≡ negative zone.now code) }
    {
        let authorities = soa_copies(alloc, zone)?;
        Ok(AuthorityAnswer::authoritative(alloc, code, Sequence::new(alloc), authorities))
    }

    /// Creates the referral at a zone cut (RFC 1034 section 4.2.1), with the first `most` of its records.
    pub(crate) fn referral(
        alloc: Global,
        most: usize,
        zone: &Zone,
        cut: &Name,
    ) -> Result<AuthorityAnswer, AllocError>
        ensures { IfOk result (λ answer. answer_front most answer
            ≡ answer_front most (referral zone.now cut.now)) }
    {
        let stored = zone.records_at(cut, RecordType::NS);
        let authorities = first_copies(alloc, most, cut, stored)?;
        let authoritative = false;
        Ok(AuthorityAnswer {
            code: ResponseCode::NoError,
            authoritative,
            answers: Sequence::new(alloc),
            authorities,
            additionals: Sequence::new(alloc),
        })
    }

    /// Puts records before the answers. AA is then set, for the owner of the first of them (RFC 1035 section 4.1.1).
    pub(crate) fn after_records(
        self,
        records: Sequence<Record>,
    ) -> Result<AuthorityAnswer, AllocError>
        ensures { IfOk result (λ answer. answer ≡ after_records records self) }
    {
        let AuthorityAnswer {
            code,
            authoritative: _authoritative,
            answers,
            authorities,
            additionals,
        } = self;
        Ok(AuthorityAnswer {
            code,
            authoritative: true,
            answers: joined(records, answers)?,
            authorities,
            additionals,
        })
    }

    /// Drops all of the answers and the authority records after the first `most`.
    pub(crate) fn into_first_records(self, most: usize) -> AuthorityAnswer
        ensures { result ≡ first_records most self }
    {
        let AuthorityAnswer {
            code,
            authoritative,
            answers,
            authorities,
            additionals,
        } = self;
        let left = most.saturating_sub(answers.len());
        AuthorityAnswer {
            code,
            authoritative,
            answers: first_of(answers, most),
            authorities: first_of(authorities, left),
            additionals,
        }
    }
}

/// Drops all records after the first `most`.
fn first_of(records: Sequence<Record>, most: usize) -> Sequence<Record>
    ensures { result ≡ take most records }
{
    let mut records = records.into_vec();
    records.truncate(most);
    Sequence::from_vec(records)
}
