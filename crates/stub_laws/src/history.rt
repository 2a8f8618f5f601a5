//! What stood in a zone, and what of it a resolver may return: bounded staleness.
//!
//! - `laws`: records with an origin among answers that stood are fresh, and questions over the scripted link have such answers
//!
//! There is no other code: the definitions are in `specs/`.

pub mod laws;
