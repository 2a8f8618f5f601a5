//! The configuration file of the system's resolver, resolv.conf(5).
//!
//! ```text
//! ; the servers of this network
//! nameserver 192.0.2.1
//! nameserver 2001:db8::1
//! search corp.example.com example.com
//! options ndots:2 timeout:3 rotate
//! ```
//!
//! A line is a keyword at its start, white space (spaces and tabs), and values that white space separates. Lines with another
//! start, as those that begin with `#` or `;`, are ignored, and so are lines that are not UTF-8.
//!
//! | Keyword | Values | Effect |
//! |---|---|---|
//! | `nameserver` | an address | adds a name server; the first [`MAX_NAME_SERVERS`] are kept |
//! | `search` | names | sets the search list |
//! | `domain` | a name | sets the search list to this name alone |
//! | `options` | `ndots:N` | sets the least number of dots of a name that is looked up as it is first: at most [`MAX_NDOTS`] |
//! | | `timeout:N` | sets how long to wait for a reply: from 1 to [`MAX_TIMEOUT`] seconds |
//! | | `attempts:N` | sets how many rounds are made through the servers: from 1 to [`MAX_ATTEMPTS`] |
//! | | `rotate` | asks the servers in turn |
//! | | `edns0` | adds an OPT record to requests |
//! | | `use-vc` | asks the servers over TCP alone |
//!
//! Values that a keyword does not use, words of a search list that are not names, and other options are ignored. So are lines
//! without a value, and name servers whose address does not parse or has a scope (`fe80::1%eth0`). The number of an option is that
//! of the digits it begins with, and 0 without any.
//!
//! - `conf`: the configuration of a text; `settings`: what the lines set, one after another;
//! - `line`: the keyword and the values of a line; `options`: what the words of `options` set;
//! - `laws`: theorems about these definitions.

mod conf;
pub mod laws;
mod line;
mod options;
mod settings;

pub use conf::{SystemConf, parse_resolv_conf};
pub use options::{MAX_ATTEMPTS, MAX_NDOTS, MAX_TIMEOUT};
pub use settings::MAX_NAME_SERVERS;
