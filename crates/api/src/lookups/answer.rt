//! What a lookup found, and why it found nothing.

ghost use Rattle.std.specs.Fmt.{WritesOnOk};
ghost use Rattle.std.specs.Prelude.{◌≡◌, Some};
ghost use Rattle.dns_messages.specs.Printed.{record_lines};
ghost use Rattle.api.specs.lookups.Answers.{IsAnswer, failure_of, found_as};

use crate::lookups::refusal::LookupRefusal;
use api_resolver::LookupState;
use dns_messages::{Record, ResponseCode};
use std::alloc::Global;
use std::fmt;
use stub_lookup::{DnsError, LinkFault, NetError};

/// Returns the records that a lookup found, each on a line.
///
/// # Errors
///
/// - [`LookupRefusal::Waiting`] if the lookup has not ended;
/// - why it found nothing;
/// - [`LookupRefusal::Memory`] if memory is refused.
pub(crate) fn answer_of(alloc: Global, state: &LookupState) -> Result<Vec<u8>, LookupRefusal>
    ensures { IsAnswer state.now (found_as (λ bytes. bytes.items) result) }
{
    match state {
        LookupState::Waits(_) => Err(LookupRefusal::Waiting),
        LookupState::Ended(Err(error)) => Err(failure_of(error)),
        LookupState::Ended(Ok(lookup)) => {
            let lines = Lines(lookup.answers());
            Ok(format!(in alloc; "{lines}")?.into_bytes())
        }
    }
}

/// Returns why a lookup found nothing.
fn failure_of(error: &NetError) -> LookupRefusal
    ensures { result ≡ failure_of error.now }
{
    match error {
        NetError::Dns(DnsError::NoRecordsFound(answer)) => match answer.response_code {
            ResponseCode::NXDomain => LookupRefusal::NoName,
            _ => LookupRefusal::NoRecords,
        },
        NetError::Dns(DnsError::ResponseCode(_)) => LookupRefusal::ServerError,
        NetError::Link(LinkFault::NoId) => LookupRefusal::NoId,
        NetError::Link(_) => LookupRefusal::NoReply,
        // The lookup had no memory.
        NetError::Memory => LookupRefusal::Memory,
        NetError::Proto(_) | NetError::Message(_) | NetError::Unsupported => {
            LookupRefusal::Unsupported
        }
    }
}

/// Records, each on a line.
#[derive(Clone, Copy)]
struct Lines<'a>(&'a [Record]);

impl fmt::Display for Lines<'_> {
    ghost output = { λ lines. Some (record_lines lines.0.now) };

    fn fmt<W: fmt::Write>(&self, f: &mut fmt::Formatter<W>) -> fmt::Result {
        write_lines(self.0, f)
    }
}

/// Writes records, each on a line.
fn write_lines<W: fmt::Write>(records: &[Record], f: &mut fmt::Formatter<W>) -> fmt::Result
    ensures { WritesOnOk W.write_str_gives f.old result (record_lines records.now) f.new }
{
    for line in records {
        writeln!(f, "{line}")?;
    }
    Ok(())
}
