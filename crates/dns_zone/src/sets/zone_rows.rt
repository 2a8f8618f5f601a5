//! The rows of record sets, as updates read them.

use crate::rows::records_at;
use crate::sets::ZoneSets;
use dns_names::Name;
use dns_records::Record;
use dns_updates::ZoneRows;
use dns_wire::RecordType;
use std::alloc::{AllocError, Global};

impl ZoneRows for ZoneSets {
    ghost use Rattle.dns_zone.specs.Rows.{rows_of_sets};

    ghost rows = { rows_of_sets };

    fn records(&self, owner: &Name, record_type: RecordType) -> &[Record] {
        records_at(self, owner, record_type)
    }

    fn has_set(&self, owner: &Name, record_type: RecordType) -> bool {
        self.contains(owner, record_type)
    }

    fn has_rows(&self, owner: &Name) -> bool {
        self.has_set_of(owner)
    }

    fn types(&self, alloc: Global, owner: &Name) -> Result<Vec<RecordType>, AllocError> {
        let found = self.types_of(alloc, owner)?;
        Ok(found)
    }
}
