//! The rows of a zone, as updates read them.

ghost use Rattle.std.specs.Prelude.{◌≡◌, IfOk};

mod set_list;

use dns_names::Name;
use dns_records::Record;
use dns_wire::RecordType;
pub use set_list::SetList;
use std::alloc::{AllocError, Global};

/// The rows of a zone, to which an update is compared. Names are compared without ASCII case, and whether they are fully
/// qualified is ignored.
pub trait ZoneRows {
    ghost use Rattle.dns_records.specs.Rows.{Rows, rows_at, rows_of};
    ghost use Rattle.dns_updates.specs.Records.{has_set, has_rows};
    ghost use Rattle.dns_updates.specs.Sets.{AreTypesAt};

    /// The rows.
    ghost rows: { Self → Rows };

    /// Returns the records of a type at a name, in their order. A name without such records has none.
    fn records(&self, owner: &Name, record_type: RecordType) -> &[Record]
        ensures { rows_of result.now ≡ rows_at (rows self.now) owner.now.labels record_type };

    /// Returns `true` if the name has records of the type.
    fn has_set(&self, owner: &Name, record_type: RecordType) -> bool
        ensures { result ≡ has_set (rows self.now) owner.now record_type };

    /// Returns `true` if the name has records.
    fn has_rows(&self, owner: &Name) -> bool
        ensures { result ≡ has_rows (rows self.now) owner.now };

    /// Returns the types of the records of a name.
    fn types(&self, alloc: Global, owner: &Name) -> Result<Vec<RecordType>, AllocError>
        ensures { IfOk result (λ found.
            AreTypesAt (rows self.now) owner.now.labels found.items) };
}
