//! The data of LOC records, from the words of zone files and as text (RFC 1876).
//!
//! - `fixed`: decimal numbers with a fraction; `angle`: latitudes and longitudes; `size`: sizes and precisions
//! - `location`: the words of a location, read as its bytes; `wire`: which bytes are a location
//! - `text`: a location as text; `laws`: what is written is read back
//! - `fault`: why words are refused

mod angle;
mod fault;
mod fixed;
pub mod laws;
mod location;
mod size;
mod text;
mod wire;

pub use fault::LocationFault;
pub use location::location_bytes;
pub use text::LocationText;
pub use wire::is_location;
