//! The codes of DNS: types, classes and serial numbers (RFC 1035 section 3.2, RFC 1982).
//!
//! Types and classes convert from every 16-bit number and back without loss, and are parsed and printed by name, or by
//! number if they have none (RFC 3597). Serial numbers are compared as RFC 1982 says.
//!
//! - `record_type`, `later_types`: types, and the tables of those that are later than RFC 1035; `dns_class`: classes;
//! - `serial_number`: serial numbers; `code_text`, `decimal`: types, classes and decimal numbers in text;
//! - `laws`: the laws of conversion and comparison.

mod code_text;
mod decimal;
mod dns_class;
mod later_types;
pub mod laws;
mod record_type;
mod serial_number;

pub use code_text::CodeTextError;
pub use decimal::parse_decimal;
pub use dns_class::DNSClass;
pub use record_type::RecordType;
pub use serial_number::{SerialNumber, SerialOrder};
