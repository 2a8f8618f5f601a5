//! Options of a resolver, and of its requests.

ghost use Rattle.std.specs.Prelude.{◌≡◌};
ghost use Rattle.stub_config.specs.Options.{default_options};

use crate::strategy::{LookupIpStrategy, ResolveHosts, ServerOrderingStrategy};
use dns_messages::{DEFAULT_MAX_PAYLOAD_LEN, Sequence};
use dns_names::AddrPrefix;
use std::alloc::Global;
use std::collections::BTreeSet;

/// The options of a resolver.
///
/// In a resolver, `ndots`, `edns0`, `ip_strategy`, `cache_size`, `use_hosts_file`, the bounds of TTLs,
/// `preserve_intermediates`, `recursion_desired` and `edns_payload_len` take effect. A resolver that sets
/// `case_randomization`, `trust_anchor` or `deny_answers`, or a minimum TTL above its maximum, is refused. In a handle that
/// asks name servers (`stub_net`), `timeout`, `attempts` and `server_ordering_strategy` take effect. The other options have
/// no effect.
#[derive(Drop)]
pub struct ResolverOpts {
    /// A name with more labels than this is looked up as it is, before it is completed.
    pub ndots: usize,
    /// How long to wait for a reply, in seconds.
    pub timeout: u64,
    /// How many rounds are made through the name servers, at least one.
    pub attempts: usize,
    /// Whether requests have an OPT record (RFC 6891).
    pub edns0: bool,
    /// Which types of addresses are asked for, and in which order.
    pub ip_strategy: LookupIpStrategy,
    /// The maximum number of entries in the cache. With 0 nothing is cached.
    pub cache_size: u64,
    /// Whether hosts are looked up.
    pub use_hosts_file: ResolveHosts,
    /// The minimum TTL of a record in a response, in seconds. `None` is 0.
    pub positive_min_ttl: Option<u32>,
    /// How long a negative answer is cached at least, in seconds. `None` is 0.
    pub negative_min_ttl: Option<u32>,
    /// The maximum TTL of a record in a response, in seconds. `None` is one day.
    pub positive_max_ttl: Option<u32>,
    /// How long a negative answer is cached at most, in seconds. `None` is one day.
    pub negative_max_ttl: Option<u32>,
    /// How many servers are asked at the same time.
    pub num_concurrent_reqs: usize,
    /// The maximum number of requests at the same time on one connection.
    pub max_active_requests: usize,
    /// Whether an answer has the aliases that lead to it.
    pub preserve_intermediates: bool,
    /// Whether TCP is tried after an error over UDP.
    pub try_tcp_on_error: bool,
    /// The order in which servers are asked.
    pub server_ordering_strategy: ServerOrderingStrategy,
    /// RD of requests (RFC 1035 section 4.1.1).
    pub recursion_desired: bool,
    /// Local ports that no UDP request is sent from.
    pub avoid_local_udp_ports: BTreeSet<u16>,
    /// Whether the system chooses local UDP ports.
    pub os_port_selection: bool,
    /// Whether the case of letters in questions is random.
    pub case_randomization: bool,
    /// The path of a file with trust anchors (RFC 4033 section 2).
    pub trust_anchor: Option<String>,
    /// Networks whose addresses are kept in answers even if `deny_answers` has them.
    pub allow_answers: Sequence<AddrPrefix>,
    /// Networks whose addresses are removed from answers.
    pub deny_answers: Sequence<AddrPrefix>,
    /// The payload size that requests announce, in bytes (RFC 6891 section 6.2.3).
    pub edns_payload_len: u16,
}

impl ResolverOpts {
    /// Creates the default options.
    pub fn default(alloc: Global) -> ResolverOpts
        ensures { result ≡ default_options }
    {
        ResolverOpts {
            ndots: 1,
            timeout: 5,
            attempts: 2,
            edns0: true,
            ip_strategy: LookupIpStrategy::default(),
            cache_size: 8_192,
            use_hosts_file: ResolveHosts::default(),
            positive_min_ttl: None,
            negative_min_ttl: None,
            positive_max_ttl: None,
            negative_max_ttl: None,
            num_concurrent_reqs: 2,
            max_active_requests: 32,
            preserve_intermediates: true,
            try_tcp_on_error: false,
            server_ordering_strategy: ServerOrderingStrategy::default(),
            recursion_desired: true,
            avoid_local_udp_ports: BTreeSet::new(alloc),
            os_port_selection: false,
            case_randomization: false,
            trust_anchor: None,
            allow_answers: Sequence::new(alloc),
            deny_answers: Sequence::new(alloc),
            edns_payload_len: DEFAULT_MAX_PAYLOAD_LEN,
        }
    }
}
