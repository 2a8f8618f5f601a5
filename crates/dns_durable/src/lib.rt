//! A name server whose updates outlast a crash, and are made by the holders of keys alone (RFC 2136 section 3, RFC 8945).
//!
//! Each update that is allowed is appended to a journal before it is served, and served once it is on the disk; updates that arrive
//! together are one entry. After a crash, the updates of the journal are served again, in order, so that the zones are those after the
//! same updates.
//!
//! - `policy`: keys, grants, and what they make of a request; `grant_text`: grants from words;
//! - `incoming`: requests are decoded and verified; `storing`: their updates are appended; `answering`: they are served and answered;
//!   `signing`: replies are signed, within the sizes that their requests ask for;
//!   `durable_server`: all of this; `rule`: by which rule updates are made; `replaying`: those of a journal are served again;
//!   `compaction`: the text of a zone takes the place of its journal; `draft`: that text is written in steps while the zone changes;
//!   `drafting`: a server does so;
//! - `laws`: theorems; `error`: why updates are not served again, or words are not a grant.
//!
//! Further modules, each with a page of its own:
//! - [`recovery`]: a zone file and its journal: what they stand for after a crash, and how the journal is replaced;
//! - [`zone_texts`]: the text of a zone is read back as a zone file of all types (RFC 1035 section 5.1, RFC 3597 section 5).
#![tactic(auto)]

mod answering;
mod compaction;
mod draft;
mod drafting;
mod durable_server;
mod error;
mod grant_text;
mod incoming;
pub mod laws;
mod policy;
pub mod recovery;
mod replaying;
mod rule;
mod signing;
mod storing;
pub mod zone_texts;

pub use answering::Reply;
pub use compaction::Rewritten;
pub use draft::{Draft, DraftFault, Progress};
pub use durable_server::{DurableServer, Replies};
pub use error::{CompactError, GrantError, ReplayError};
pub use grant_text::parse_grant;
pub use incoming::{Admitted, Arrived, Incoming, Terms, is_update};
pub use policy::{Admission, Policy, admission_of};
pub use replaying::{FirstFrame, first_frame, replay};
pub use signing::{sign, sign_within};
