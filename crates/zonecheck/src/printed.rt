//! The text of a zone, with the data of each type by its fields.

use dns_records::Record;
use dns_wire::RecordType;
use dns_zone::Zone;
use dns_zone_file::Types;
use dns_zone_file::record_texts::RecordText;
use std::alloc::{AllocError, Global};

/// Returns a zone as a zone file: one record a line, with every name fully qualified, the SOA record first.
pub(crate) fn zone_text(alloc: Global, zone: &Zone) -> Result<String, AllocError> {
    let mut text = String::new(alloc);
    push_records(
        alloc,
        &mut text,
        zone.records_at(zone.origin(), RecordType::SOA),
    )?;
    for set in zone.sets() {
        if set.record_type() != RecordType::SOA {
            push_records(alloc, &mut text, set.as_slice())?;
        }
    }
    Ok(text)
}

/// Appends records, each on a line.
fn push_records(alloc: Global, text: &mut String, records: &[Record]) -> Result<(), AllocError> {
    for present in records {
        let line = RecordText {
            types: Types::All,
            record: present,
        };
        match format!(in alloc; "{line}\n") {
            Ok(line) => text.push_str(line.as_str())?,
            // Memory for the line was refused.
            Err(_) => return Err(AllocError),
        }
    }
    Ok(())
}
