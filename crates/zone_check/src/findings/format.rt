//! How reports are written.

/// How a report is written.
#[derive(Clone, Copy, Debug, PartialEq, Eq)]
pub enum ReportFormat {
    /// For people: two or three lines for each finding.
    Text,
    /// For programs: one JSON object on a line for each finding (RFC 8259).
    Json,
}
