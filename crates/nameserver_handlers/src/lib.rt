//! What the program `nameserver` does with a request: the [`Handler`](dns_sockets::Handler)s of its service.
//!
//! The type parameters of a handler are all that it has of the system: memory, the time, random bytes and standard error by
//! `R: `[`Host`], the storage of the journal by `S: `[`TextFile`], and the writer of the log by `W`.
//!
//! - `handler`: what handles requests; `settings`: how; `serving`: without a fault; `by_rules`: by the rules of the fault table; `upkeep`:
//!   the journal is looked after;
//! - `recording`: the differences that are kept; `transfers`: transfers of zones; `notices`: notifications of secondaries;
//! - `replacement`, `compaction`: the zone with its updates takes the place of the zone file, at once or in steps; `text_file`: that file;
//! - `policy`: keys and grants; `unmatched`: rules and grants for names that no zone has;
//! - `host`: memory, the time, random bytes and standard error; `clock`: the time of day; `request_log`: the log;
//! - `replay`: the requests of a script;
//! - `laws`: theorems about what the handlers do.
#![tactic(auto)]

mod by_rules;
mod clock;
mod compaction;
mod handler;
mod host;
pub mod laws;
mod notices;
mod policy;
mod recording;
mod replacement;
mod replay;
mod request_log;
mod serving;
mod settings;
mod text_file;
mod transfers;
mod unmatched;
mod upkeep;

pub use clock::WallClock;
pub use handler::RequestHandler;
pub use host::Host;
pub use notices::Notices;
pub use policy::{add_keys, grants_of};
pub use recording::recorder_of;
pub use replacement::{Unreplaced, draw_key, replace_text};
pub use replay::make_all;
pub use request_log::RequestLog;
pub use settings::Settings;
pub use text_file::TextFile;
pub use transfers::{Sources, Transfers};
pub use unmatched::tell_unmatched;
pub use upkeep::Upkeep;
