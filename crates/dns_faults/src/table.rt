//! The text of a table of faults: one rule a line.
//!
//! ```text
//! # name  type  actions             how often
//! www.a.t A     code SERVFAIL       times 2
//! *.a.t   *     delay 1500 truncate
//! *       SOA   drop
//! ```
//!
//! A rule is a name, a type, actions, and perhaps `times` and a number. Blank lines, and lines whose first word begins with `#`,
//! are skipped. Blanks are spaces, tabs and carriage returns; one in a name is written `\032`.
//!
//! - `text`: tables from text; `line`: rules from the words of a line; `actions`: the actions of a rule; `keyword`: the words of
//!   actions; `code`: response codes;
//! - `error`: why a text is not a table.

mod actions;
mod code;
mod error;
mod keyword;
mod line;
mod text;

pub use error::{FaultTableError, RuleFault};
pub use text::parse_faults;
