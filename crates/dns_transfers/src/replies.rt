//! The last differences of zones, and replies to requests for transfers of zones: whole ones (RFC 5936), incremental ones (RFC 1995), and signed ones (RFC 8945).
//!
//! A requestor that asks for the changes since its version of a zone is sent the differences that lead to the current one, or the SOA
//! record alone if it has this version. If the differences are not known, it is sent the whole zone, as RFC 1995 section 4 allows. Over
//! UDP, what has no room in one message is the SOA record alone, so that the requestor asks again over a stream (section 2).
//!
//! - `recorder`: the last differences of each zone, as requests change it;
//! - `request`: requests for incremental transfers; `zone_history`: the differences that are known; `incremental`: their replies;
//! - `signing`: messages that are signed one after another; `signed_stream`: those of a reply;
//!   `reply`: replies to bytes that have arrived.

mod incremental;
mod recorder;
mod reply;
mod request;
mod signed_stream;
mod signing;
mod zone_history;

pub use recorder::Recorder;
pub use reply::{Terms, may_ask_by_datagram, transfer_reply};
pub use zone_history::ZoneHistory;
