//! The parameters of service bindings, from their texts and as bytes (RFC 9460).
//!
//! - `key`: the keys by their names; `address`: addresses in text; `list`: lists in one value, with their escapes
//! - `parameter`: a parameter beside those before it; `wire`: which bytes are parameters
//! - `text`: parameters in text; `laws`: what is written is read back
//! - `fault`: why a text is refused

mod address;
mod fault;
mod key;
pub mod laws;
mod list;
mod parameter;
mod text;
mod wire;

pub use fault::ServiceFault;
pub use parameter::with_parameter;
pub use text::ParametersText;
pub use wire::are_parameters;
