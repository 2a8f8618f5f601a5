//! What a zone file says and nobody means.
//!
//! - `kind`: the kinds of warnings; `warning`: the warnings of a zone's records; `applies`: to which records a kind applies;
//! - `survey`: what is known of the zone as a whole; `places`: the first records of each owner with a property;
//!   `cuts`: its delegations;
//! - `names`: the names in data; `text`: what TXT records and lines say; `signature`: the time of signatures; `digest`: the
//!   lengths of digests.

mod applies;
mod cuts;
mod digest;
mod kind;
mod names;
mod places;
mod signature;
mod survey;
mod text;
mod warning;

pub use digest::{DigestLengths, wrong_digest};
pub use kind::{Warning, WarningKind};
pub use names::{doubled_origin, name_below};
pub use survey::ZoneFacts;
pub use text::has_directive;
pub use warning::warnings;
