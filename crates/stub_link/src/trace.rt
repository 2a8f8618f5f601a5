//! A link that notes each of its calls, and what the notes say.
//!
//! - `traced_link`: a link around another, which passes each call on as it is, and notes it; `note`: its notes
//! - `verdict`: what a datagram is to a request: its reply, or why it is dropped
//! - `note_text`: the notes of an event as lines of text
//! - `laws`: a handle over such a link asks as one over the other link

pub mod laws;
mod note;
mod note_text;
mod traced_link;
mod verdict;

pub use note::Note;
pub use note_text::{RequestNote, write_notes};
pub use traced_link::TracedLink;
pub use verdict::{Verdict, verdict_on};
