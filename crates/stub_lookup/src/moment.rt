//! Moments.

/// A moment, in seconds since one that the caller chooses.
///
/// No function reads a clock: a function that depends on time takes the current moment, which is at most 2^62.
pub type Moment = u64;
