//! Messages for the library for C: as text, encoded again, queries and updates.
//!
//! - `message`: messages as text, and encoded again; `encoding`: the bytes of a message;
//! - `question`: queries;
//! - `update`: updates of any prerequisites and changes; `item`: these, by number; `data`: record data of a text, with `tokens`.

mod data;
mod encoding;
mod item;
mod message;
mod question;
mod tokens;
mod update;

pub use item::{EmptyItem, FilledItem, Item, item_of};
pub use message::{encode_again, message_text};
pub use question::question_bytes;
pub use update::{add_item, new_update, update_bytes};
