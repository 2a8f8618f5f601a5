//! The steps of a lookup within a zone (RFC 1034 section 4.3.2).
//!
//! A lookup goes down from the origin of a zone to a name. It ends above the name at a zone cut or at a DNAME record; else the
//! name is answered from its own rows, or from those of a wildcard.
//!
//! - `barriers`: zone cuts and DNAME records on the way; `wildcard`: the closest encloser and the source of synthesis;
//! - `redirection`: the target of a DNAME record, and the name that it makes of another.

mod barriers;
mod redirection;
mod wildcard;

pub(crate) use barriers::is_cut_with;
pub use barriers::{barrier, barrier_above, has_rows, is_cut, is_ds};
pub use redirection::{dname_target, with_target};
pub use wildcard::source_of_synthesis;
