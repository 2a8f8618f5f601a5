//! The check of a zone file or a script that a person wrote: what is wrong, on which line, and what to write instead.
//!
//! - `check`: the zone of a file, or its faults, with the warnings; `apex`: the origin of a file, also of one with faults;
//!   `fault`: the faults of entries; `mark`: the byte-order mark at the start of a file;
//! - `report`: the text of a whole check; `files`: the files that it shows; `summary`: the line about a file of which there is
//!   nothing to say; `origin`: which warnings other programs say;
//! - `script_text`: the text of the check of a script; `script_line`: the word at fault in a line of a script;
//! - `encoding`: a file that is not UTF-8; `laws`: theorems.
//!
//! Further modules, each with a page of its own:
//! - [`findings`]: what is said of a zone file or a script: the sentences, and the text of a finding.
#![tactic(auto)]

mod apex;
mod check;
mod encoding;
mod fault;
mod files;
pub mod findings;
pub mod laws;
mod mark;
mod origin;
mod report;
mod script_line;
mod script_text;
mod summary;

pub use crate::findings::ReportFormat;
pub use check::{ZoneCheck, check_zone};
pub use encoding::encoding_report;
pub use mark::without_mark;
pub use origin::{drop_server_warnings, keep_origin_warnings, states_origin};
pub use report::zone_report;
pub use script_text::{moment_report, script_report};
pub use summary::zone_summary;
pub use zone_lines::ZoneText;
