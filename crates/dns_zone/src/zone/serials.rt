//! Whether serial numbers rise by themselves.

/// Whether the serial number of a zone rises with each change of its records (RFC 2136 section 3.6).
#[derive(Clone, Copy, Debug, PartialEq, Eq)]
pub enum Serials {
    /// It is as the updates set it.
    Kept,
    /// A change of the records that leaves the SOA record as it was raises its serial number by one.
    Rising,
}
