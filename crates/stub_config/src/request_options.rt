//! Options of one request.

use dns_messages::DEFAULT_MAX_PAYLOAD_LEN;

/// The options of one request.
#[derive(Clone, Copy, Debug, PartialEq, Eq)]
pub struct DnsRequestOptions {
    /// Whether the request has an OPT record (RFC 6891).
    pub use_edns: bool,
    /// The payload size that the OPT record announces, in bytes (RFC 6891 section 6.2.3).
    pub edns_payload_len: u16,
    /// DO: whether records of DNSSEC are wanted (RFC 3225 section 3).
    pub edns_set_dnssec_ok: bool,
    /// RD: whether recursion is desired (RFC 1035 section 4.1.1).
    pub recursion_desired: bool,
}

impl Default for DnsRequestOptions {
    ghost use Rattle.std.specs.Prelude.{◌≡◌};
    ghost use Rattle.stub_config.specs.RequestOptions.{default_request_options};

    ghost is_default = { λ options. options ≡ default_request_options };

    fn default() -> DnsRequestOptions {
        DnsRequestOptions {
            use_edns: false,
            edns_payload_len: DEFAULT_MAX_PAYLOAD_LEN,
            edns_set_dnssec_ok: false,
            recursion_desired: true,
        }
    }
}
