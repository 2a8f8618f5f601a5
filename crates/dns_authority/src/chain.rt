//! The answer along aliases (RFC 1034 section 3.6.2).

ghost use Rattle.std.specs.Prelude.{◌≡◌, ◌≤◌, [], IfOk};
ghost use Rattle.dns_authority.specs.Step.{positive};
ghost use Rattle.dns_authority.specs.Answer.{answer_at};
ghost use Rattle.dns_authority.specs.Front.{answer_front};

use crate::answer::AuthorityAnswer;
use crate::asked::Wanted;
use crate::step::{Step, next_step};
use dns_messages::ResponseCode;
use dns_names::Name;
use dns_records::Sequence;
use dns_server::ZoneTable;
use std::alloc::{AllocError, Global};

/// The most steps over aliases.
pub(crate) const MAX_ALIASES: usize = 7;

/// Returns the answer at a name, along so many steps over aliases at most. It has the first of the records: as many as are wanted.
///
/// It calls itself for each step, and [`MAX_ALIASES`] times at most.
pub(crate) fn answer_at(
    alloc: Global,
    links: usize,
    zones: &ZoneTable,
    wanted: Wanted,
    owner: &Name,
) -> Result<AuthorityAnswer, AllocError>
    requires { 1 ≤ wanted.most }
    ensures { IfOk result (λ answer. answer_front wanted.most answer
        ≡ answer_front wanted.most (answer_at links zones.now wanted.asked owner.now)) }
{
    let (records, next) = match next_step(alloc, zones, wanted, owner)? {
        Step::End(answer) => return Ok(answer),
        Step::Links(records, next) => (records, next),
    };
    if links == 0 {
        return Ok(nothing(alloc));
    }
    let rest = match next {
        Some(name) => answer_at(alloc, links - 1, zones, wanted, &name)?,
        None => nothing(alloc),
    };
    rest.after_records(records)
}

/// Returns an answer without records.
fn nothing(alloc: Global) -> AuthorityAnswer
    ensures { result ≡ positive [] }
{
    AuthorityAnswer::authoritative(
        alloc,
        ResponseCode::NoError,
        Sequence::new(alloc),
        Sequence::new(alloc),
    )
}
