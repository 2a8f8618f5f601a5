//! Labels and domain names (RFC 1035 sections 2.3.4, 3.1, 4.1.4 and 5.1).
//!
//! In contracts a `Name` is a flag and a list of labels: each label has 1 to 63 bytes, and the encoded name at most 255.
//! Decoding a name follows only pointers that lead backwards and reports the first fault; encoding it compresses or not,
//! as the encoder's mode says. Parsing a text yields the name that the text spells or its first fault, and printing a
//! name yields a text that parses back to it. Equality, order, hash and zones ignore ASCII case.
//!
//! - `label`: the type; `label/compare`: order, equality and hash of labels; `into_label`: what converts to a label
//! - `name`: the type; `name/build`: names from labels and names; `name/partial`: names that are built octet by octet;
//!   `name/labels`: iteration and counts; `name/compare`: equality, order, hash, zones; `name/wire`: decoding and
//!   encoding
//! - `lower_name`: names in lower case, as keys; `text`: names in text; `reverse`: names of addresses
//! - `error`: why a text is not a name; `laws`: what the definitions say together, for the crates above
#![tactic(auto)]

mod error;
mod into_label;
mod label;
pub mod laws;
mod lower_name;
mod name;
mod reverse;
mod text;

pub use error::ParseError;
pub use into_label::IntoLabel;
pub use label::Label;
pub use label::compare::{CaseInsensitive, CaseSensitive, LabelCmp};
pub use lower_name::LowerName;
pub use name::{LabelIter, Name};
pub use reverse::AddrPrefix;
pub use text::escaped_octet;
