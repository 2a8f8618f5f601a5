//! The link to a server, and the handle that asks questions and sends updates over it.
//!
//! Over every link, a handle returns only the reply to the open request. Over the scripted link, that is the answer of the
//! server's zone, whatever the link loses, repeats, delays or reorders.
//!
//! - `link`: what carries requests and replies; `link/scripted`: a link to a server in memory, which follows a script;
//!   `link/script`: scripts; `link/server`: the server
//! - `update_event`: updates that can be sent
//! - `wire_handle`: a handle that asks over any link; `wire_handle/request`: which requests can be asked, and their
//!   datagrams; `wire_handle/reply`: which datagrams are the reply; `wire_handle/stream`: replies over a stream
//! - `laws`: what a request over the scripted link ends in
//!
//! Further modules, each with a page of its own:
//! - [`trace`]: a link that notes each of its calls, and what the notes say.
#![tactic(auto)]

pub mod laws;
mod link;
pub mod trace;
mod update_event;
mod wire_handle;

pub use link::{Link, LinkError, LinkEvent, Script, ScriptedLink};
pub use update_event::{UpdateError, UpdateEvent};
pub use wire_handle::{AskCounts, WireHandle, is_reply_code, question_of, reply_in, request_bytes};
