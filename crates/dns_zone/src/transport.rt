//! The transports of a message: datagrams and streams.

ghost use Rattle.std.specs.Prelude.{◌≡◌, ◌≤◌, ◌<◌, IfOk, OnErr};

use std::marker::Model;
use thiserror::Error;

/// The maximum size of the datagrams that a server sends, in bytes. It is at least 512 (RFC 1035 section 4.2.1).
#[derive(Clone, Copy, Debug, PartialEq, Eq)]
pub struct DatagramLimit {
    value: u16,
}

impl Model for DatagramLimit {
    ghost use Rattle.std.specs.Prelude.{ℕ, ◌≤◌};
    ghost use Rattle.std.specs.Coded.{coded_ℕ};

    ghost Value = { ℕ };

    ghost coded = { coded_ℕ };

    ghost view = { λ limit. limit.value };

    ghost invariant = { λ limit. 512 ≤ limit.value };

    ghost inverse = { λ number. record { value = number } };
}

/// The error for a maximum size below 512 bytes, which every datagram may have.
#[derive(Clone, Copy, Debug, PartialEq, Eq, Drop, Error)]
#[error("a limit of less than 512 bytes")]
pub struct LimitTooSmall;

impl DatagramLimit {
    /// Creates a maximum size, in bytes. Less than 512 is refused.
    pub fn new(value: u16) -> Result<DatagramLimit, LimitTooSmall>
        ensures ok { IfOk result (λ limit. limit ≡ value) }
        ensures refused { OnErr result (value < 512) }
    {
        if value < 512 {
            return Err(LimitTooSmall);
        }
        Ok(DatagramLimit { value })
    }

    /// Returns the maximum size, in bytes.
    pub fn value(self) -> u16
        ensures value { result ≡ self }
        ensures least { 512 ≤ result }
    {
        self.value
    }
}

/// The transport on which a request arrives and its reply is sent. It limits the size of the reply.
#[derive(Clone, Copy, Debug, PartialEq, Eq)]
pub enum Transport {
    /// A datagram (RFC 1035 section 4.2.1). The reply has at most the server's maximum size, and at most the size that the
    /// request announces in its OPT record, or 512 bytes (RFC 6891 section 6.2.3).
    Datagram(DatagramLimit),
    /// A stream, whose messages have at most 65,535 bytes (RFC 1035 section 4.2.2).
    Stream,
}
