//! Runs that meet the premises of the laws of zones, messages and name servers, and on which their conclusions say something.
//!
//! This library has lemmas alone. Nothing stands on it, so a run that is added has no other library proved again.
#![tactic(auto)]
