//! Expectations in a script of events: lines `#> TEXT` after an event are what the event is to print.
//!
//! For a script these lines are comments. An output is compared with them, or a script is written whose expectations are what
//! its events printed.
//!
//! - `line`: events and expectations among the lines of a script; `printed`: the lines that each event printed;
//! - `differences`: the comparison; `shortest`: the difference of the lines of an event, over `common_lengths`, those of longest
//!   common subsequences; `change`: a line of a difference; `diff`: its text;
//! - `bless`: scripts with new expectations; `indented`: expectations that are not at the start of their line;
//! - `laws`: theorems about blessed scripts and differences.
#![tactic(auto)]

mod bless;
mod change;
mod common_lengths;
mod diff;
mod differences;
mod indented;
pub mod laws;
mod line;
mod printed;
mod shortest;

pub use bless::write_blessed;
pub use differences::write_differences;
pub use indented::indented_expectation;
