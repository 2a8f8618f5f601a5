//! What decides on replies, and stays as it is.

use crate::transfers::Transfers;
use dns_durable::Policy;
use dns_server::AddressList;
use dns_zone::DatagramLimit;

/// How requests are answered, and what their requestors may do.
#[derive(Drop)]
pub struct Settings {
    /// The keys and the grants, and how requests are answered.
    pub policy: Policy,
    /// The maximum size of datagrams.
    pub limit: DatagramLimit,
    /// The addresses from which updates are taken without a key (RFC 2136 section 3.3).
    pub updaters: AddressList,
    /// To whom zones are transferred.
    pub transfers: Transfers,
    /// Whether there is a journal, which is begun anew once it is long.
    pub has_journal: bool,
}
