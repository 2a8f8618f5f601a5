//! Faults on demand for a test name server: rules, and the rule that decides.
//!
//! A table has rules: each has the questions that it matches, the actions that it takes, and perhaps how often. The first rule
//! that applies to a question and is not used up decides, and its count rises by one.
//!
//! - `fault`: the actions of a rule, on a transport; `rule`: rules, and what they match; `table`: tables, and the rule that
//!   decides;
//! - `edits`: the edits of a reply's bytes;
//! - `laws`: theorems about the definitions of this crate.

mod edits;
mod fault;
pub mod laws;
mod rule;
mod table;

pub use edits::{garbage, set_wrong_id, set_wrong_question};
pub use fault::{Fault, Service, Transport};
pub use rule::{NamePattern, Rule, TypePattern};
pub use table::{CountedRule, Decision, FaultTable};
