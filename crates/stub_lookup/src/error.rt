//! Why a lookup found nothing.

use dns_data::SOA;
use dns_messages::{Query, Record, ResponseCode, Sequence};
use dns_names::ParseError;
use std::alloc::{AllocError, AllocFailed};
use std::fmt;
use thiserror::Error;

/// Why asking a server failed. Reports number the faults from `F1` to `F9`, in this order.
#[derive(Clone, Copy, Debug, PartialEq, Eq, Drop, Error)]
pub enum LinkFault {
    /// The question could not be sent.
    #[error("question could not be sent")]
    NotSent,
    /// A datagram could not be received.
    #[error("datagram could not be received")]
    NotReceived,
    /// No further datagram was received, or no reply arrived before the time-out.
    #[error("no datagram was received")]
    Quiet,
    /// As many datagrams were received as are awaited, sixteen over a link, and none is the reply.
    #[error("none of sixteen datagrams is the reply")]
    NoMatch,
    /// Asking over a stream failed, as after a truncated reply (RFC 7766 section 5).
    #[error("asking over a stream failed")]
    StreamFailed,
    /// The reply over the stream is truncated, too, or the reply is truncated and there is no stream (RFC 1035 section
    /// 4.1.1).
    #[error("reply is truncated")]
    Truncated,
    /// The reply over the stream cannot be decoded.
    #[error("reply over the stream cannot be decoded")]
    StreamUnreadable,
    /// The message over the stream is not a reply to the question.
    #[error("message over the stream is not the reply")]
    StreamMismatch,
    /// No id is left for the question, or none could be drawn.
    #[error("no id is left")]
    NoId,
}

impl LinkFault {
    ghost use Rattle.std.specs.Prelude.{◌≡◌};
    ghost use Rattle.stub_lookup.specs.Error.{fault_number};

    /// Returns the number of the fault in reports, as in `F6`.
    pub fn number(self) -> u8
        ensures { result ≡ fault_number self }
    {
        match self {
            LinkFault::NotSent => 1,
            LinkFault::NotReceived => 2,
            LinkFault::Quiet => 3,
            LinkFault::NoMatch => 4,
            LinkFault::StreamFailed => 5,
            LinkFault::Truncated => 6,
            LinkFault::StreamUnreadable => 7,
            LinkFault::StreamMismatch => 8,
            LinkFault::NoId => 9,
        }
    }
}

/// A name server of a zone below the server's own, with its addresses (RFC 1034 section 4.2.1).
pub struct ForwardNSData {
    /// The NS record.
    pub ns: Record,
    /// The records of its addresses.
    pub glue: Sequence<Record>,
}

impl Drop for ForwardNSData {
    fn drop(self) {
        let ForwardNSData { ns, glue } = self;
        drop(ns);
        drop(glue);
    }
}

/// A negative answer: there is no record of the type at the name (RFC 2308 section 2).
pub struct NoRecords {
    /// The question.
    pub query: Query,
    /// The SOA record of the zone.
    pub soa: Option<Record<SOA>>,
    /// The name servers that the server refers to. [`DnsError::from_response`] leaves them out.
    pub ns: Option<Sequence<ForwardNSData>>,
    /// How long the answer may be cached, in seconds (RFC 2308 section 5).
    pub negative_ttl: Option<u32>,
    /// `NXDomain` if the name does not exist, and `NoError` if it has no records of the type.
    pub response_code: ResponseCode,
    /// The records of the authority section.
    pub authorities: Option<Sequence<Record>>,
}

impl Drop for NoRecords {
    fn drop(self) {
        let NoRecords {
            query,
            soa,
            ns,
            negative_ttl: _negative_ttl,
            response_code: _response_code,
            authorities,
        } = self;
        drop(query);
        drop(soa);
        drop(ns);
        drop(authorities);
    }
}

impl NoRecords {
    ghost use Rattle.std.specs.Prelude.{◌≡◌};
    ghost use Rattle.stub_lookup.specs.Error.{no_records};

    /// Creates a negative answer without records.
    pub fn new(query: Query, response_code: ResponseCode) -> NoRecords
        ensures { result ≡ no_records query response_code }
    {
        NoRecords {
            query,
            soa: None,
            ns: None,
            negative_ttl: None,
            response_code,
            authorities: None,
        }
    }
}

impl fmt::Display for NoRecords {
    fn fmt<W: fmt::Write>(&self, f: &mut fmt::Formatter<W>) -> fmt::Result {
        let (name, kind) = (&self.query.name, self.query.query_type);
        write!(f, "no {kind} records at {name}: {}", self.response_code)
    }
}

impl fmt::Debug for NoRecords {
    fn fmt<W: fmt::Write>(&self, f: &mut fmt::Formatter<W>) -> fmt::Result {
        write!(f, "NoRecords({:?}, {:?})", self.query, self.response_code)
    }
}

/// What a server replied in place of records.
#[derive(Debug, Error)]
pub enum DnsError {
    /// There are no records of the type at the name.
    #[error("{0}")]
    NoRecordsFound(NoRecords),
    /// A response code that is an error, as `ServFail` or `Refused`.
    #[error("server replied with {0}")]
    ResponseCode(ResponseCode),
}

impl Drop for DnsError {
    fn drop(self) {
        match self {
            DnsError::NoRecordsFound(answer) => drop(answer),
            DnsError::ResponseCode(_) => {}
        }
    }
}

/// Why a lookup found no records.
#[derive(Debug, Error)]
pub enum NetError {
    /// The server replied that there are none, or with an error.
    #[error("{0}")]
    Dns(DnsError),
    /// A text is not a name.
    #[error("{0}")]
    Proto(ParseError),
    /// Another reason.
    #[error("{0}")]
    Message(&'static str),
    /// The link failed.
    #[error("{0}")]
    Link(LinkFault),
    /// The request cannot be asked, or an option is not supported.
    #[error("unsupported request or option")]
    Unsupported,
    /// Memory could not be allocated.
    #[error("out of memory")]
    Memory,
}

impl Drop for NetError {
    fn drop(self) {
        match self {
            NetError::Dns(error) => drop(error),
            NetError::Proto(error) => drop(error),
            NetError::Message(_) => {}
            NetError::Link(_) => {}
            NetError::Unsupported => {}
            NetError::Memory => {}
        }
    }
}

impl DnsError {
    ghost use Rattle.std.specs.Prelude.{◌≡◌};
    ghost use Rattle.stub_lookup.specs.Error.{negative_answer};
    ghost use Rattle.stub_lookup.specs.declared.error.NetError.TheVariants.{Dns};

    /// Returns the negative answer, or the error if it is another one.
    pub fn into_no_records(self) -> Result<NoRecords, NetError>
        ensures { result ≡ negative_answer (Dns self) }
    {
        match self {
            DnsError::NoRecordsFound(answer) => Ok(answer),
            error => Err(NetError::Dns(error)),
        }
    }
}

impl NetError {
    ghost use Rattle.std.specs.Prelude.{◌≡◌};
    ghost use Rattle.stub_lookup.specs.Error.{negative_answer};

    /// Returns the negative answer, or the error if it is another one.
    pub fn into_no_records(self) -> Result<NoRecords, NetError>
        ensures { result ≡ negative_answer self }
    {
        match self {
            NetError::Dns(error) => error.into_no_records(),
            error => Err(error),
        }
    }
}

impl From<AllocError> for NetError {
    ghost use Rattle.std.specs.Prelude.{◌≡◌};
    ghost use Rattle.stub_lookup.specs.declared.error.NetError.TheVariants.{Memory};

    ghost from_gives = { λ _ e. e ≡ Memory };

    fn from(_e: AllocError) -> NetError {
        NetError::Memory
    }
}

impl<T: Drop> From<AllocFailed<T>> for NetError {
    ghost use Rattle.std.specs.Prelude.{◌≡◌};
    ghost use Rattle.stub_lookup.specs.declared.error.NetError.TheVariants.{Memory};

    ghost from_gives = { λ _ e. e ≡ Memory };

    fn from(_e: AllocFailed<T>) -> NetError {
        NetError::Memory
    }
}

impl From<NoRecords> for NetError {
    ghost use Rattle.std.specs.Prelude.{◌≡◌};
    ghost use Rattle.stub_lookup.specs.declared.error.DnsError.TheVariants.{NoRecordsFound};
    ghost use Rattle.stub_lookup.specs.declared.error.NetError.TheVariants.{Dns};

    ghost from_gives = { λ answer e. e ≡ Dns (NoRecordsFound answer) };

    fn from(answer: NoRecords) -> NetError {
        NetError::Dns(DnsError::NoRecordsFound(answer))
    }
}

/// [`ParseError::Memory`] becomes [`NetError::Memory`].
impl From<ParseError> for NetError {
    ghost use Rattle.std.specs.Prelude.{◌≡◌};
    ghost use Rattle.stub_lookup.specs.Error.{error_of_name};

    ghost from_gives = { λ error e. e ≡ error_of_name error };

    fn from(error: ParseError) -> NetError {
        match error {
            // The name had no memory.
            ParseError::Memory => NetError::Memory,
            error => NetError::Proto(error),
        }
    }
}
