//! Which secondaries of a zone are notified of a change, and when (RFC 1996 section 3.6).
//!
//! A name server keeps [`Notifications`] for a zone. After a change it announces it: a copy of the notification is due for each
//! secondary at once, and further ones after growing intervals, until the secondary responds or enough copies were sent. The
//! messages and the sockets are the caller's.
//!
//! - `notifications`: the secondaries of a zone; `secondary`: one of them;
//! - `retries`: how often a notification is repeated, and after which intervals;
//! - `laws`: theorems about the definitions of this crate.
//!
//! Further modules, each with a page of its own:
//! - [`notifier`]: notifications of a change of a zone as messages, and the responses to them (RFC 1996).
#![tactic(auto)]

pub mod laws;
mod notifications;
pub mod notifier;
mod retries;
mod secondary;

pub use notifications::Notifications;
pub use retries::Retries;
