//! Why an update has no signed reply.

use dns_tsig::signer::Refusal;
use stub_lookup::NetError;
use thiserror::Error;

/// Why an update has no signed reply.
#[derive(Debug, Drop, Error)]
pub enum UpdateError {
    /// There was no reply, or the network failed.
    #[error("{0}")]
    Net(NetError),
    /// A reply was refused, and no signed one arrived.
    #[error("{0}")]
    Refused(Refusal),
}
