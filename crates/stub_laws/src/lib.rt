//! What stood in a zone, walks over a zone, and what a resolver returns of both.
//!
//! - [`history`]: what stood in a zone, and what of it a resolver may return: bounded staleness;
//! - [`walk`]: walks over a zone, and lookups that agree with them;
//! - [`answers`]: whole sets of records and negative answers that stood in a zone: claims about all answers to a question
//!   together.
#![tactic(auto)]

pub mod answers;
pub mod history;
pub mod walk;
