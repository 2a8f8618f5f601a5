//! Items that wait for their moment.
//!
//! A server that delays some of its replies keeps them in a [`Schedule`], asks it when the next one is due, and takes out
//! those that are. No thread waits.
//!
//! - `schedule`: the schedule.

mod schedule;

pub use schedule::{PushError, PushFault, Schedule};
