//! A set that an update changes.

use dns_names::Name;
use dns_records::edits::EditedRecords;
use dns_wire::RecordType;

/// The records of an owner and a type after an update. Without records, the set is removed.
pub struct ChangedSet {
    /// The owner.
    pub name: Name,
    /// The type.
    pub record_type: RecordType,
    /// The records, in their order.
    pub records: EditedRecords,
}

impl Drop for ChangedSet {
    fn drop(self) {
        let ChangedSet {
            name,
            record_type: _record_type,
            records,
        } = self;
        drop(name);
        drop(records);
    }
}
