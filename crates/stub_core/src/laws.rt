//! What every lookup of a resolver keeps, over any handle.
//!
//! The laws are functions with an empty body. Their contracts state what follows from the contracts of
//! [`Resolver`](crate::Resolver), whatever the handle does.

mod origins;
mod outcomes;

pub use origins::{
    clears_keep_origins, every_address_has_an_origin, every_answer_has_an_origin,
    later_events_keep_origins,
};
pub use outcomes::{every_clear_keeps_outcomes, every_lookup_comes_to_its_outcomes};
