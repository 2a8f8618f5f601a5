//! Scripts of lookups, clears and updates: their events, one a line, and the replies that they give in the place of the server's.
//!
//! - `script_text`: lines and their events; `script_fields`: moments, names, types and hosts
//! - `lookup_line`, `clear_line`, `update_line`: the kinds of lines; `link_words`: the link scripts of lines
//! - `reply_lines`: which lines give replies; `reply_line`: what such a line gives; `given_link`: a link that answers by them
//! - `laws`: which words of a script are hosts
#![tactic(auto)]

mod clear_line;
mod given_link;
pub mod laws;
mod link_words;
mod lookup_line;
mod reply_line;
mod reply_lines;
mod script_fields;
mod script_text;
mod update_line;

pub use given_link::GivenLink;
pub use reply_line::{GivenAnswer, GivenMessage, GivenReply, ReplyTransport};
pub use reply_lines::{read_replies, without_replies};
pub use script_text::{ScriptFault, ScriptText, read_script};
