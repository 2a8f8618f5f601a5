//! What was looked up, and what was found.

ghost use Rattle.std.specs.Prelude.{◌≡◌};
ghost use Rattle.lookup_cli.specs.answers.Answer.{code_of, denies_name, records_of};
ghost use Rattle.lookup_cli.specs.answers.Status.{status_of};

use crate::answers::item::Item;
use crate::answers::status::Status;
use dns_messages::{Record, ResponseCode};
use stub_lookup::{DnsError, Lookup, NetError};

/// What was looked up, what was found, and what it took.
#[derive(Drop)]
pub struct Answer {
    /// What was looked up.
    pub item: Item,
    /// What was found.
    pub outcome: Result<Lookup, NetError>,
    /// The number of requests that were sent to servers.
    pub questions: u64,
    /// How long it took, in milliseconds.
    pub milliseconds: u64,
}

impl Answer {
    /// Returns what the lookup led to.
    pub fn status(&self) -> Status
        ensures { result ≡ status_of self.now.outcome }
    {
        Status::of(&self.outcome)
    }

    /// Returns the records that were found.
    pub(crate) fn records(&self) -> &[Record]
        ensures { result.now ≡ records_of self.now.outcome }
    {
        match &self.outcome {
            Ok(lookup) => lookup.answers(),
            Err(_) => &[],
        }
    }

    /// Returns the response code, if a server replied.
    pub(crate) fn code(&self) -> Option<ResponseCode>
        ensures { result ≡ code_of self.now.outcome }
    {
        match &self.outcome {
            Ok(lookup) => Some(lookup.message().metadata.response_code),
            Err(NetError::Dns(DnsError::NoRecordsFound(none))) => Some(none.response_code),
            Err(NetError::Dns(DnsError::ResponseCode(code))) => Some(*code),
            Err(_) => None,
        }
    }

    /// Returns `true` if the name does not exist (RFC 2308 section 2.1).
    pub(crate) fn has_no_name(&self) -> bool
        ensures { result ≡ denies_name (code_of self.now.outcome) }
    {
        matches!(self.code(), Some(ResponseCode::NXDomain))
    }
}
