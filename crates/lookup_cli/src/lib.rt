//! What the program `lookup` decides: its arguments, its settings, and its lookups and updates.
//!
//! - `arguments`: the arguments; `command`: their command for clap; `found`: what clap finds of each; `values`: the values of options;
//!   `dig`: words that are written as for that program
//! - `settings`: the configuration and the options of the resolver
//! - `session`: lookups over a resolver; `signed_session`: signed updates; `keys`: the key that signs them
//! - `ending`: why the program ends early
//!
//! Further modules, each with a page of its own:
//! - [`answers`]: what the program `lookup` looks up, what it finds, and the text of both.
#![tactic(auto)]

pub mod answers;
mod arguments;
mod command;
mod dig;
mod ending;
mod found;
mod keys;
mod session;
mod settings;
mod signed_session;
mod values;

pub use arguments::{Arguments, KeyArguments, UpdateArguments, read_arguments};
pub use ending::Ending;
pub use keys::key_of;
pub use session::{Session, moment_of};
pub use settings::{default_conf_path, settings_of};
pub use signed_session::SignedSession;
