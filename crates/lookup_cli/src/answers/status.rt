//! What a lookup led to, and the exit status.

ghost use Rattle.std.specs.Prelude.{◌≡◌, max};
ghost use Rattle.lookup_cli.specs.answers.Status.{exit_code, status_of, status_of_count, status_of_update, status_word};

use dns_messages::ResponseCode;
use stub_lookup::{DnsError, Lookup, NetError};
use stub_net::signed::UpdateError;

/// What a lookup led to.
#[derive(Clone, Copy, Debug, PartialEq, Eq)]
pub enum Status {
    /// It found records.
    Found,
    /// There is nothing to find: the name does not exist, or has no records of the type.
    Nothing,
    /// There is no answer.
    Failed,
}

/// The exit status of the program, which is that of its worst lookup.
#[derive(Clone, Copy, Debug, PartialEq, Eq)]
pub struct ExitStatus {
    code: u8,
}

impl Status {
    /// Returns what a lookup led to.
    pub fn of(outcome: &Result<Lookup, NetError>) -> Status
        ensures { result ≡ status_of outcome.now }
    {
        match outcome {
            Ok(lookup) => Status::of_count(lookup.answers().len()),
            Err(NetError::Dns(DnsError::NoRecordsFound(_))) => Status::Nothing,
            Err(_) => Status::Failed,
        }
    }

    /// Returns what a lookup with so many answers led to.
    fn of_count(count: usize) -> Status
        ensures { result ≡ status_of_count count }
    {
        if count == 0 {
            Status::Nothing
        } else {
            Status::Found
        }
    }

    /// Returns what an update led to.
    pub fn of_update(outcome: &Result<ResponseCode, UpdateError>) -> Status
        ensures { result ≡ status_of_update outcome.now }
    {
        match outcome {
            Ok(ResponseCode::NoError) => Status::Found,
            Ok(_) => Status::Nothing,
            Err(_) => Status::Failed,
        }
    }

    /// Returns the word for it.
    pub fn word(self) -> &'static str
        ensures { result.now ≡ status_word self }
    {
        match self {
            Status::Found => "found",
            Status::Nothing => "nothing",
            Status::Failed => "failed",
        }
    }

    /// Returns the exit status of a program with this lookup alone.
    fn exit_code(self) -> u8
        ensures { result ≡ exit_code self }
    {
        match self {
            Status::Found => 0,
            Status::Nothing => 1,
            Status::Failed => 3,
        }
    }
}

impl ExitStatus {
    /// The status without a lookup.
    pub fn new() -> ExitStatus
        ensures { result.code ≡ 0 }
    {
        ExitStatus { code: 0 }
    }

    /// Counts a lookup.
    pub fn count(&mut self, status: Status)
        ensures { self.new.code ≡ max self.old.code (exit_code status) }
    {
        self.code = self.code.max(status.exit_code());
    }

    /// Returns the status: 0 if each lookup found something, 3 if one of them failed, and else 1.
    pub fn code(self) -> u8
        ensures { result ≡ self.code }
    {
        self.code
    }
}
