//! Record data of many types in the text of zone files, as views of its bytes.
//!
//! A type is a sequence of fields, one line in the table of `field`; what the text of its data is, and which bytes it
//! denotes, follows from their kinds. The generic form of RFC 3597 section 5 has data of any type.
//!
//! - `field`: the kinds of fields, and the fields of each type; `fault`: why tokens or bytes are refused
//! - `dnssec`: the fields of DNSSEC: types by their names, times, salts and hashes; `types`: sets of types
//! - `mnemonic`: algorithms and types of certificates by their mnemonics
//! - `value`: a token as the bytes of one field; `rest`: all tokens that are left, as one field
//! - `service`: the parameters of service bindings; `location`: locations
//! - `read`: the tokens of record data, read as its bytes
#![tactic(auto)]

mod dnssec;
mod fault;
mod field;
mod generic;
pub mod laws;
mod location;
mod mnemonic;
mod print;
mod read;
mod rest;
mod service;
mod types;
mod value;
mod wire;

pub use dns_fields::bitmaps::{TypeWord, type_of_word};
pub use dns_fields::location::LocationFault;
pub use dns_fields::service::ServiceFault;
pub use fault::{FormatFault, TokenFault};
pub use field::{Field, format_of};
pub use generic::is_generic;
pub use print::DataText;
pub use read::read_data;
pub use wire::fits;
