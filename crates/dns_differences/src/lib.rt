//! Differences between versions of a zone, for incremental transfers (RFC 1995).
//!
//! A difference has the records that are deleted from one version of a zone, and those that are added to it. A history has the
//! last differences, each from the version to which the one before it leads. A secondary that applies those from its version on
//! has the records of the current one.
//!
//! - `difference`: differences; `history`: the last differences of a zone;
//! - `laws`: theorems about the definitions of this crate.
//!
//! Further modules, each with a page of its own:
//! - [`serials`]: serial numbers of zones that rise with each change (RFC 2136 section 3.6, RFC 1982).
#![tactic(auto)]

mod difference;
mod history;
pub mod laws;
pub mod serials;

pub use difference::Difference;
pub use history::{History, Limits};
