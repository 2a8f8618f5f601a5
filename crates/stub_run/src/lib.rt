//! Runs: events that happen to a resolver over a zone's server, one after another.
//!
//! - `event`: what happens, and when; `event_link`: links over which events happen; `traced_events`: those that note their calls
//! - `world`: a zone's server, a link to it, and a resolver that asks over it; `runs`: the events in a world, or over any link
//! - `report`: what each event led to
//! - `laws`: what holds of every question, lookup and run
#![tactic(auto)]

mod event;
mod event_link;
pub mod laws;
mod report;
mod runs;
mod traced_events;
mod world;

pub use event::{Action, Event};
pub use event_link::EventLink;
pub use report::{EventReply, EventReport, Report, Stopped};
pub use runs::{happen, is_in_order, know_names, reserve_for, run, run_events};
pub use stub_link::{LinkEvent, Script, UpdateError, UpdateEvent};
pub use world::{World, resolver_over};
