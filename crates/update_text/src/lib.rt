//! The text of updates: words, and the update that they say.
//!
//! A line of a script has such words after its keyword, and so has an argument of a program.
//!
//! - `words`: the words of a text; `line`: lines of words, with more words after a semicolon
//! - `type_word`: the types that words name
//! - `update`: the words of an update
#![tactic(auto)]

mod line;
mod type_word;
mod update;
mod words;

pub use line::{Line, split_line};
pub use type_word::parse_type;
pub use update::{parse_update, read_update};
pub use words::is_blank;
