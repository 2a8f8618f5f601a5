//! Notifications of a change of a zone as messages, and the responses to them (RFC 1996).
//!
//! A [`Notifier`] has the secondaries of a zone. After a change it makes a message with the zone's SOA record, says when it is to
//! be sent to which secondary, and takes the responses. The sockets and the clock are the caller's.
//!
//! - `notifier`: what is sent, to whom and when; `notification`: the message; `response`: which messages are responses to it;
//! - `follower`: which SOA records of the zone are announced.

mod follower;
mod notification;
mod notifier;
mod response;

pub use crate::Retries;
pub use follower::Follower;
pub use notifier::Notifier;
