//! The configuration of a resolver, and the options of its requests.
//!
//! - `config`: name servers, their connections, those of public providers, and the configuration of a resolver
//! - `options`, with `strategy`: the options of a resolver; `opportunistic`: probing for encrypted transports (RFC 9539)
//! - `request_options`: the options of a request
#![tactic(auto)]

mod config;
mod opportunistic;
mod options;
mod request_options;
mod strategy;

pub use config::{
    ConnectionConfig, NameServerConfig, Protocol, ProtocolConfig, PublicServers, ResolverConfig,
    ServerGroup, ServerIter, cloudflare, google, quad9,
};
pub use opportunistic::{
    OpportunisticEncryption, OpportunisticEncryptionConfig, OpportunisticEncryptionPersistence,
};
pub use options::ResolverOpts;
pub use request_options::DnsRequestOptions;
pub use strategy::{LookupIpStrategy, ResolveHosts, ServerOrderingStrategy};
