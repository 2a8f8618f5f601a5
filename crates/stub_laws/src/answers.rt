//! Whole sets of records and negative answers that stood in a zone: claims about all answers to a question together.
//!
//! - `laws`: lookups keep claims about whole answers, and what they return of a zone that changes stood, whole
//!
//! There is no other code: the definitions are in `specs/`.

pub mod laws;
