//! What the functions for C return: 0, or the number of a refusal.

ghost use Rattle.std.specs.Prelude.{◌≡◌};
ghost use Rattle.rumstrait_c.specs.Codes.{code_of, done_code, lookup_code, result_code};

use api::buffer::Refusal;
use api::lookups::LookupRefusal;

/// The number of the refusal of a null handle.
pub(crate) const NULL_HANDLE: i32 = 4;

/// Returns the number of a refusal.
pub(crate) fn code_of(refusal: Refusal) -> i32
    ensures { result ≡ code_of refusal }
{
    match refusal {
        Refusal::NoReply => 1,
        Refusal::TooSmall => 2,
        Refusal::Memory => 3,
        Refusal::NullHandle => NULL_HANDLE,
        Refusal::Transport => 5,
        Refusal::Limit => 6,
        Refusal::Encoding => 7,
        Refusal::Name => 8,
        Refusal::Zone => 9,
        Refusal::Message => 10,
        Refusal::TooLong => 11,
        Refusal::Update => 12,
        Refusal::Item => 13,
        Refusal::Data => 14,
    }
}

/// Returns the number of an outcome.
pub(crate) fn result_code(outcome: Result<(), Refusal>) -> i32
    ensures { result ≡ result_code outcome }
{
    match outcome {
        Ok(()) => 0,
        Err(refusal) => code_of(refusal),
    }
}

/// Returns the number of the refusal of a call on a resolver.
pub(crate) fn lookup_code(refusal: LookupRefusal) -> i32
    ensures { result ≡ lookup_code refusal }
{
    match refusal {
        LookupRefusal::Memory => 3,
        LookupRefusal::Name => 8,
        LookupRefusal::Endpoint => 15,
        LookupRefusal::NoLookup => 16,
        LookupRefusal::Waiting => 17,
        LookupRefusal::Ended => 18,
        LookupRefusal::NoName => 19,
        LookupRefusal::NoRecords => 20,
        LookupRefusal::ServerError => 21,
        LookupRefusal::NoReply => 22,
        LookupRefusal::NoId => 23,
        LookupRefusal::Unsupported => 24,
        LookupRefusal::NoNumber => 25,
    }
}

/// Returns the number of the outcome of a call on a resolver.
pub(crate) fn done_code(outcome: Result<(), LookupRefusal>) -> i32
    ensures { result ≡ done_code outcome }
{
    match outcome {
        Ok(_) => 0,
        Err(refusal) => lookup_code(refusal),
    }
}
