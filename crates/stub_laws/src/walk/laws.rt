//! Theorems about walks over a zone, as functions with empty bodies.

mod agreement;
mod lookups;
mod outcomes;
mod walks;

pub use agreement::walked_lookups_agree;
pub use lookups::{
    clears_keep_agreement, every_lookup_agrees_with_walks, every_resolver_lookup_comes_to_walks,
    short_aliases_are_short_at_each_name,
};
pub use outcomes::{
    alias_chains_of_answers_end, answers_of_steady_rows_are_of_a_zone,
    outcomes_of_answers_are_walks, questions_fail_by_faults,
};
pub use walks::{other_lookups_walk_everywhere, walks_are_functions, walks_ignore_spelling};
