//! An authoritative name server without sockets: the whole answer to a question (RFC 1034 section 4.3.2).
//!
//! An authority has zones, and answers each question from the one with the closest origin: with records of the name or of a
//! wildcard, along CNAME and DNAME records, with a referral at a zone cut, and with the addresses of the hosts that the answer
//! names.
//!
//! - `authority`: servers of zones; `view`: the answers of zones that are borrowed, as from any `dns_server::Server`; `answer`: what
//!   an answer is; `chain`: the answer along aliases;
//! - `step`: what a zone has at a name; `redirection`: what a DNAME record makes of it; `zones`: the zone of a name;
//! - `asked`: the records of a type, or of ANY; `copies`: records of a zone, with an owner;
//! - `additional`: the additional section; `section` and `set_index`: that of an answer with many records, found through an index;
//! - `laws`: theorems about the definitions of this crate.
//!
//! Further modules, each with a page of its own:
//! - [`steps`]: the steps of a lookup within a zone (RFC 1034 section 4.3.2);
//! - [`replies`]: the replies of an authoritative server to requests as bytes (RFC 1035 section 4.1, RFC 6891);
//! - [`sent`]: what is known of the replies that an authoritative server sends, as theorems about their bytes;
//! - [`service`]: requests to a server of zones, and how it answers them: each by its zone alone, or by the whole of RFC 1034
//!   section 4.3.2.
#![tactic(auto)]

mod additional;
mod answer;
mod asked;
mod authority;
mod chain;
mod copies;
pub mod laws;
mod redirection;
pub mod replies;
mod section;
pub mod sent;
pub mod service;
mod set_index;
mod step;
pub mod steps;
mod view;
mod zones;

pub use answer::AuthorityAnswer;
pub use asked::AnyAnswer;
pub use authority::Authority;
pub use view::AuthorityView;
