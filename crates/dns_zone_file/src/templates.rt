//! The directive `$GENERATE` of zone files, an extension of BIND: the numbers of a range, and the text that a template makes of
//! each.
//!
//! - `range`: the numbers of a directive; `template`: templates and their text; `form`: the text of a number;
//! - `fault`: why a directive is refused.

mod fault;
mod form;
mod range;
mod template;

pub use fault::GenerateFault;
pub use range::{Range, parse_range};
pub use template::expand;
