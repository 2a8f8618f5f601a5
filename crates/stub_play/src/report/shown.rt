//! Reasons, as reports show them.

ghost use Rattle.std.specs.Prelude.{Some};
ghost use Rattle.stub_play.specs.report.ReportText.{reason_text};

use std::fmt;
use stub_lookup::{DnsError, NetError};

/// Why there are no records.
#[derive(Clone, Copy)]
pub(crate) struct ShownReason<'a> {
    pub(crate) error: &'a NetError,
}

impl fmt::Display for ShownReason<'_> {
    ghost output = { λ reason. Some (reason_text reason.error.now) };

    fn fmt<W: fmt::Write>(&self, f: &mut fmt::Formatter<W>) -> fmt::Result {
        match self.error {
            NetError::Dns(DnsError::NoRecordsFound(none)) => {
                let code = none.response_code;
                write!(f, "no records {code}")
            }
            NetError::Dns(DnsError::ResponseCode(code)) => write!(f, "code {code}"),
            NetError::Link(fault) => {
                let number = fault.number();
                write!(f, "fault F{number}")
            }
            NetError::Memory => f.write_str("no memory"),
            NetError::Proto(_) | NetError::Message(_) | NetError::Unsupported => {
                f.write_str("refused")
            }
        }
    }
}
