//! The files of a check, as a report shows them.

ghost use Rattle.std.specs.Prelude.{◌≡◌, ◌++◌, OnOk, map, string_bytes};
ghost use Rattle.zone_check.specs.Files.{file_name, file_lines, files_view, finding_in};
ghost use Rattle.zone_check.specs.findings.Finding.{said_by};

use crate::findings::{Finding, ReportFormat};
use std::alloc::{AllocError, Global};

/// The files of a check, in the order of their texts.
#[derive(Clone, Copy)]
pub(crate) struct Files<'names, 'name, 'text> {
    /// Their names.
    pub(crate) names: &'names [&'name str],
    /// Their lines.
    pub(crate) texts: &'text [Vec<&'text str>],
}

impl<'names, 'name, 'text> Files<'names, 'name, 'text> {
    /// Appends what is said of a file to a report.
    pub(crate) fn push(
        self,
        alloc: Global,
        format: ReportFormat,
        report: &mut String,
        finding: &Finding<'_>,
    ) -> Result<(), AllocError>
        ensures { OnOk result (string_bytes report.new ≡ string_bytes report.old
            ++ finding_in format (files_view self.entry) (said_by finding.now)) }
    {
        let name = self.name(finding.source);
        let lines = self.lines(finding.source);
        finding.push_to(alloc, format, report, name, lines)
    }

    /// Returns the name of the file of a text.
    fn name(self, source: usize) -> &'name str
        ensures { result.now ≡ file_name (files_view self.entry) source }
    {
        match self.names.get(source) {
            Some(name) => name,
            None => "",
        }
    }

    /// Returns the lines of a text.
    fn lines(self, source: usize) -> &'text [&'text str]
        ensures { map (λ line. line.now) result.now ≡ file_lines (files_view self.entry) source }
    {
        match self.texts.get(source) {
            Some(lines) => lines.as_slice(),
            None => &[],
        }
    }
}
