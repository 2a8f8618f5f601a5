//! What the program does: its arguments, its files, and the text that it prints.
//!
//! - `words`: the arguments; `program`: the files that the program reads, and how it reports each fault
//! - `plays`: a whole run, from the contents of the files to the text that is printed; `plays/input`: its input;
//!   `plays/events`: its events, one after another; `plays/sockets`: a run over sockets; `plays/given`: a run with replies that the
//!   script gives; `plays/fault`: why it ended early
//! - `plays/traced`: a run over a link that notes its calls; `plays/watcher`, `plays/trace`: what is told of each event;
//!   `plays/source`: where the result of a lookup comes from
//!
//! Further modules, each with a page of its own:
//! - [`sockets`]: a link to the server of a zone over sockets of the loopback interface;
//! - [`report`]: the text of a report, and its JSON objects.
#![tactic(auto)]

mod plays;
mod program;
pub mod report;
pub mod sockets;
mod words;

pub use crate::report::{PlayFormat, write_report};
pub use plays::{
    PlayFault, PlayInput, play, play_given, play_given_traced, play_in_memory, play_traced,
    play_traced_in_memory,
};
pub use program::{Ending, FileContents, InputFile, reading_order, unread_arguments};
pub use words::{Words, WordsFault, read_words};
