//! Names and zone files as text: tokens, character strings and times (RFC 1035 section 5.1), addresses, special-use names
//! (RFC 6761), and conversion into names.
//!
//! The lexer yields exactly the tokens that the definitions derive from the text, or its first fault with its line. A time
//! parses to the sum of its runs, or fails at the first character that no time can have there. Addresses and character
//! strings print as text that parses back to them.
//!
//! - `lexer`: the tokens of a zone file; `token`: their type; `front`: what a text begins with; `quotes`: how far quoted
//!   strings may go; `error`: lexical errors
//! - `character_string`: the octets of words and quoted strings; `address`: addresses; `ttl`: times to live
//! - `into_name`: what converts into a name; `usage`: zones of special-use names
//! - `laws`: theorems about these definitions
#![tactic(auto)]

mod address;
mod character_string;
mod error;
mod front;
mod into_name;
pub mod laws;
mod lexer;
mod quotes;
mod token;
mod ttl;
pub mod usage;

pub use address::{parse_ip, parse_ipv4, parse_ipv6, write_ip};
pub use character_string::{QuotedString, unescape};
pub use error::LexerError;
pub use into_name::IntoName;
pub use lexer::Lexer;
pub use quotes::Quotes;
pub use token::Token;
pub use ttl::{parse_ttl, parse_ttl_bytes};
pub use usage::{ResolverUsage, ZoneUsage};
