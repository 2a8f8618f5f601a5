//! Theorems about histories of a zone, as functions with empty bodies.

mod answers;
mod asking;
mod lookups;

pub use answers::{
    answers_that_stood_are_fresh, answers_that_stood_have_asked_types,
    answers_that_stood_have_the_chain_bound, later_versions_keep_what_stood,
};
pub use asking::{
    events_keep_states_faithful, outcomes_hold_answers_that_stood,
    replies_are_made_for_open_questions, streams_bring_the_reply,
    updates_have_the_code_of_a_delivery, updates_keep_states_faithful,
};
pub use lookups::{lookups_have_answers_that_stood, lookups_have_current_answers};
