//! Record data (RFC 1035 section 3.3): on the wire, and as the text of zone files.
#![tactic(auto)]

mod error;
mod fields;
mod generic;
pub mod laws;
mod octets;
mod rdata;
mod record_data;
mod text;
mod wire;

pub use dns_text::{parse_ip, write_ip};
pub use error::RDataParseError;
pub use octets::{CharacterString, Octets, OptionData, TooLong};
pub use rdata::{A, AAAA, CNAME, EdnsOption, MX, NS, OPT, PTR, RData, SOA, SRV, TXT};
pub use record_data::RecordData;
