//! What the program `lookup` looks up, what it finds, and the text of both.
//!
//! - `item`: what is looked up, of arguments and of lines of standard input
//! - `status`: what a lookup led to, and the exit status
//! - `answer`: what was looked up and what was found
//! - `plain`, `json`: the text of an answer; `json_records`: records as JSON; `given_text`: given texts as JSON

mod answer;
mod given_text;
mod item;
mod json;
mod json_records;
mod plain;
mod status;

pub use answer::Answer;
pub use item::{Item, Question, item_of_line};
pub use json::{JsonAnswer, JsonUpdate};
pub use plain::{PlainAnswer, PlainReason};
pub use status::{ExitStatus, Status};
