//! The files that a zone file includes (RFC 1035 section 5.1): which are to be read, and where they are.
//!
//! `dns_zone_file` opens no file: the texts that `$INCLUDE` names are passed to its parser. A program reads them before: as long as
//! [`missing_name`] finds a name, it reads the file at [`included_path`].
//!
//! - `path`: the path of an included file; `missing`: the names whose files are to be read.

mod missing;
mod path;

pub use missing::missing_name;
pub use path::{Reach, included_path};
