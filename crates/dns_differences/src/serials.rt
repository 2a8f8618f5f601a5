//! Serial numbers of zones that rise with each change (RFC 2136 section 3.6, RFC 1982).
//!
//! - `record`: the serial number of an SOA record; `serial`: that after a change; `laws`: theorems about it.

pub mod laws;
mod record;
mod serial;

pub use record::data_serial;
pub use serial::{next_serial, serial_after};
