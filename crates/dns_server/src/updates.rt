//! Whether a requestor may update.

/// Whether a requestor may update the zones of a server (RFC 2136 section 3.3).
#[derive(Clone, Copy, Debug, PartialEq, Eq)]
pub enum Updates {
    /// Updates are served.
    Allowed,
    /// Updates are answered with `Refused`.
    Refused,
}
