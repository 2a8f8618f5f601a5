//! Theorems about whole answers, as functions with empty bodies.

mod lookups;
mod sources;
mod standing;

pub use lookups::{
    WholeClaim, answers_that_stood_bear_out, caches_keep_what_stood,
    every_lookup_keeps_whole_answers, every_resolver_lookup_stands, names_end_at_a_question,
};
pub use sources::{
    answers_that_stood_are_rows, caches_keep_sources, every_answer_has_a_source,
    every_lookup_keeps_sources,
};
pub use standing::{
    absences_are_negative_answers, questions_lead_along_aliases,
    questions_that_lead_nowhere_are_answered_at_their_name, short_chains_are_followed_to_their_end,
    whole_sets_are_fresh,
};
