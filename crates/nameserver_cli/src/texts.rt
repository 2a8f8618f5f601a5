//! The texts of files.

use crate::ending::Ending;
use dns_faults::rules::FaultTable;
use dns_faults::table::{FaultTableError, parse_faults};
use std::alloc::Global;
use zone_check::{ReportFormat, encoding_report};

/// Returns the text of the file at a path, or where it is not UTF-8.
pub fn text_of(alloc: Global, path: &str, bytes: Vec<u8>) -> Result<String, Ending> {
    let report = encoding_report(alloc, ReportFormat::Text, path, bytes.as_slice())?;
    match String::from_utf8(bytes) {
        Ok(text) => Ok(text),
        Err(_) => Err(Ending::Refused(report)),
    }
}

/// Returns the fault table of the text of the file at a path, or what is wrong in it.
pub fn faults_of(alloc: Global, path: &str, text: &str) -> Result<FaultTable, Ending> {
    match parse_faults(alloc, text) {
        Ok(table) => Ok(table),
        // Memory was refused while the table was read.
        Err(FaultTableError::Memory) => Err(Ending::Memory),
        Err(error) => Err(Ending::Refused(format!(in alloc; "{path}: {error}\n")?)),
    }
}
