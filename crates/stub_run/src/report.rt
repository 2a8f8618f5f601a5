//! Reports of runs.

use dns_messages::{Query, ResponseCode};
use stub_lookup::{Lookup, LookupIp, NetError};

/// The reply to an event.
#[derive(Drop)]
pub enum EventReply {
    /// What a lookup of a name found.
    Lookup(Result<Lookup, NetError>),
    /// What a lookup of a host found.
    LookupIp(Result<LookupIp, NetError>),
    /// Whether entries were removed from the cache. The only error is [`NetError::Memory`].
    Cleared(Result<(), NetError>),
    /// The response code of the reply to an update.
    Update(Result<ResponseCode, NetError>),
}

/// The report of an event.
#[derive(Drop)]
pub struct EventReport {
    /// The reply to the event.
    pub reply: EventReply,
    /// The number of questions and updates that ended in a fault, `F1` to `F9`; at most `u64::MAX`.
    pub faults: u64,
    /// The number of datagrams with a question that were sent; at most `u64::MAX`.
    pub questions: u64,
}

/// The report of a run.
#[derive(Drop)]
pub struct Report {
    /// The reports of the events, in order.
    pub events: Vec<EventReport>,
    /// The ids that were drawn, in order, each with its question.
    pub sent: Vec<(u16, Query)>,
    /// The number of datagrams that were received and are not the reply to the open request; at most `u64::MAX`.
    pub dropped: u64,
}

/// Why a run ended early.
#[derive(Drop)]
pub enum Stopped {
    /// A moment is before an earlier one, or after 2^62. Nothing happened.
    Moments,
    /// Out of memory: for the reports, the ids that are drawn, the link or its server. The report is that of the events before.
    Memory(Report),
}
