//! What the program `nameserver` is given: its arguments, the texts of its files, and scripts of requests.
//!
//! Nothing here opens a file or a socket: each reader takes the words or the text, and returns the value that they state, or the
//! [`Ending`] that says what is wrong with them.
//!
//! - `arguments`: the arguments; `durable_arguments`: those about keys and a journal
//! - `texts`: the texts of files, and fault tables; `zones`: zone files; `includes`: the files that these include
//! - `ending`: why the program ends
//!
//! Further modules, each with a page of its own:
//! - [`replay`]: scripts of requests, and what is printed of the replies.
#![tactic(auto)]

mod arguments;
mod durable_arguments;
mod ending;
mod includes;
pub mod replay;
mod texts;
mod zones;

pub use arguments::{Arguments, ReplayMode, Until, read_arguments};
pub use durable_arguments::DurableArguments;
pub use ending::Ending;
pub use includes::{included_path_of, next_inclusion, refuse_includes};
pub use texts::{faults_of, text_of};
pub use zones::{add_zone, count_records, zone_of};
