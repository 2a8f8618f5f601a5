//! Whether a message is a query or a response (RFC 1035 section 4.1.1).

/// Whether a message is a query or a response: QR.
#[derive(Clone, Copy, Debug, PartialEq, Eq)]
pub enum MessageType {
    /// A query, QR clear.
    Query,
    /// A response, QR set.
    Response,
}
