//! The entries of a zone file with their lines: its records, and all its faults.
//!
//! - `reading`: the entries of a file and of those that it includes, in order; `context`: what an entry adds, and what a fault
//!   leaves; `generate`: the records of a `$GENERATE`; `skip`: where a text is read on after a fault of it; `source`: the texts
//!   of a file;
//! - `line`: the lines of the texts; `fault`: the faults of entries; `word`: the token at fault in an entry; `dotless`: names
//!   without a dot;
//! - `record_line`: records and faults with their lines.
//!
//! Further modules, each with a page of its own:
//! - [`warnings`]: what a zone file says and nobody means.
#![tactic(auto)]

mod context;
mod dotless;
mod fault;
mod generate;
mod line;
mod reading;
mod record_line;
mod skip;
mod source;
pub mod warnings;
mod word;

pub use line::{line_at, line_numbered, lines_of, lines_of_file};
pub use reading::read_lines;
pub use record_line::{Earlier, EntryLine, FaultLine, Position, RecordLine};
pub use source::ZoneText;
