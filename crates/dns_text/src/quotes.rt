//! How far the quoted strings of a text may go (RFC 1035 section 5.1).

/// How far a quoted string may go.
#[derive(Clone, Copy, Debug, PartialEq, Eq)]
pub enum Quotes {
    /// To the end of its line.
    OneLine,
    /// Over several lines, whose ends are part of the string.
    ManyLines,
}
