//! Messages of DNS that are read in place, without taking memory (RFC 1035 section 4.1, RFC 6891).
//!
//! - `request_view`: requests, with `question_view` and `edns_view`, their parts;
//! - `plain_name`: names without compression pointers; `option_view`: options of an OPT record;
//! - `message_view`: messages, with `query_views` and `record_views`, their sections;
//! - `record_view`, `query_view`: records and questions, with `name_view`, names that may be compressed;
//! - `laws`: theorems about the definitions.

mod edns_view;
pub mod laws;
mod message_view;
mod name_view;
mod option_view;
mod plain_name;
mod query_view;
mod query_views;
mod question_view;
mod record_view;
mod record_views;
mod request_view;
#[cfg(test)]
mod tests;

pub use edns_view::EdnsView;
pub use message_view::MessageView;
pub use name_view::NameView;
pub use option_view::OptionView;
pub use plain_name::{PlainLabels, PlainName};
pub use query_view::QueryView;
pub use query_views::QueryViews;
pub use question_view::QuestionView;
pub use record_view::RecordView;
pub use record_views::RecordViews;
pub use request_view::RequestView;
