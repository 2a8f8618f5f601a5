//! What ties an entry to the one before it.

/// What ties an entry to the one before it, or to the header.
#[derive(Clone, Copy, Debug, PartialEq, Eq)]
pub struct Link {
    /// The seal of the entry before, or of the header.
    pub seal: u64,
    /// The number of the entry before, which is 0 for the header.
    pub number: u64,
}
