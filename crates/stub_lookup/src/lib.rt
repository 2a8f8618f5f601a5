//! What lookups find, how long it is valid, and why they find nothing.
//!
//! - `moment`: moments; `lookup`: the response to a question, with its deadline; `lookup_ip`: its addresses
//! - `copy`: copies of negative answers, and of records
//! - `error`: why a lookup found nothing; `outcome`: what a response means (RFC 2308)
#![tactic(auto)]

mod copy;
mod error;
mod lookup;
mod lookup_ip;
mod moment;
mod outcome;

pub use copy::copy_records;
pub use error::{DnsError, ForwardNSData, LinkFault, NetError, NoRecords};
pub use lookup::{Lookup, MAX_TTL};
pub use lookup_ip::{LookupIp, LookupIpIntoIter, LookupIpIter};
pub use moment::Moment;
pub use outcome::copy_soa;
