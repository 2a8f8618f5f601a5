//! The text of a report, and its JSON objects.
//!
//! - `report`: the text of a report; `report_text`, `report_json`: that of an event's, for people and for programs
//! - `shown`: reasons in it; `json_members`: the members of an object
//! - `laws`: what the objects of events say

mod json_members;
pub mod laws;
mod report;
mod report_json;
mod report_text;
mod shown;

pub use report::{PlayFormat, write_report, write_told};
pub use report_text::write_event;
