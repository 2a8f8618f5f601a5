//! Zone files (RFC 1035 section 5.1): parsed to record sets, with included texts and TTLs that are omitted.
//!
//! - `parser`: the parser of a text; `types`: which types a file may have;
//! - `entry`: its entries, and the arguments of directives; `fields`: owner, TTL, class and type of a record; `data`: the data of
//!   a record; `context`: what entries determine for those after them;
//! - `generate`: the directive `$GENERATE` of BIND;
//! - `listed`: the names of the texts that a text includes;
//! - `record_sets`: record sets by owner and type; `set_index`: their places;
//! - `laws`: theorems about the definitions of this crate;
//! - `error`: why a text cannot be parsed.
//!
//! Further modules, each with a page of its own:
//! - [`templates`]: the directive `$GENERATE` of zone files, an extension of BIND: the numbers of a range, and the text that a
//!   template makes of each;
//! - [`includes`]: the files that a zone file includes (RFC 1035 section 5.1): which are to be read, and where they are;
//! - [`record_texts`]: the text of records, as programs print them (RFC 1035 section 5.1).
#![tactic(auto)]

mod context;
mod data;
mod entry;
mod error;
mod fields;
mod generate;
pub mod includes;
pub mod laws;
mod listed;
mod parser;
mod record_sets;
pub mod record_texts;
mod set_index;
pub mod templates;
mod types;

pub use context::{Context, ParsedRecord, SavedContext, StartOfAuthority};
pub use data::parse_rdata;
pub use entry::{
    Entry, Inclusion, entry_of, next_entry, parse_default_ttl, parse_inclusion, parse_origin,
};
pub use error::{EntryError, EntryFault, ZoneFileError};
pub use fields::{Fields, parse_fields};
pub use generate::{Generation, generate_arguments, line_text, line_tokens, parse_generation};
pub use listed::included_names;
pub use parser::{MAX_INCLUDES, Parser, ZoneRecords};
pub use record_sets::RecordSets;
pub use types::Types;
