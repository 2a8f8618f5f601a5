//! Messages of DNS (RFC 1035 section 4.1, RFC 6891): decoded, and encoded under a limit.
//!
//! - `header`, with `message_type`, `op_code` and `response_code`, `query`, `edns`: the parts of a message; records are
//!   those of `dns_records`;
//! - `message`: messages, edited and encoded under a limit; `section`: sections of records;
//! - `read`: decoding messages; `emit`, with `emit_and_count` and `emit_edns`: encoding the parts of one;
//! - `response`: responses, and what they say;
//! - `laws`: theorems about the definitions.
#![tactic(auto)]

mod edns;
mod emit;
mod emit_and_count;
mod emit_edns;
mod header;
pub mod laws;
mod message;
mod message_type;
mod op_code;
mod query;
mod read;
mod response;
mod response_code;
mod response_error;
mod section;

pub use dns_records::{Record, Sequence};
pub use edns::{DEFAULT_MAX_PAYLOAD_LEN, Edns, EdnsFlags};
pub use emit::emit_message_parts;
pub use emit_and_count::EmitAndCount;
pub use header::{Flags, Header, HeaderCounts, Metadata};
pub use message::{IntoSections, Message, MessageParts, Sections};
pub use message_type::MessageType;
pub use op_code::OpCode;
pub use query::Query;
pub use response::DnsResponse;
pub use response_code::ResponseCode;
pub use response_error::ResponseError;
pub use section::SectionRecords;
