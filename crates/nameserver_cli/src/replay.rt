//! Scripts of requests, which are answered in the place of requests at sockets.
//!
//! - `script`: the events of a script; `request`: the messages of requests in words; `shown`: what is printed of replies;
//! - `outcome`: the comparison with the expectations in the script; `file`: a script with what is done with it.

mod file;
mod outcome;
mod request;
mod script;
mod shown;

pub use file::Replay;
pub use request::{RequestBytes, RequestFault, request_of};
pub use script::{Event, Part, Script, parse_script};
pub use shown::{show_answered, show_messages, show_notice};
