//! The parts of a message.

use crate::edns::Edns;
use crate::header::Metadata;
use crate::query::Query;
use dns_records::{Record, Sequence};

/// The parts of a [`Message`](crate::Message).
#[derive(Drop)]
pub struct MessageParts {
    /// The header, without its counts.
    pub metadata: Metadata,
    /// The question section.
    pub queries: Sequence<Query>,
    /// The answer section.
    pub answers: Sequence<Record>,
    /// The authority section.
    pub authorities: Sequence<Record>,
    /// The additional section, without the OPT record and the signature.
    pub additionals: Sequence<Record>,
    /// The OPT record (RFC 6891 section 6.1).
    pub edns: Option<Edns>,
    /// The TSIG record (RFC 8945 section 4.2), as opaque data.
    pub signature: Option<Record>,
}
