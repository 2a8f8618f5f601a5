//! Edits of the records of a set.

ghost use Rattle.std.specs.Prelude.{◌≡◌, IfOk};
ghost use Rattle.dns_records.specs.Rows.{row_of, rows_of};
ghost use Rattle.dns_updates.specs.Change.{with_row, without_data};

use dns_data::RData;
use dns_records::Record;
use dns_records::edits::EditedRecords;
use std::alloc::AllocError;

/// Puts a record in place of one with equal data, or at the end.
pub fn put_record(
    mut records: EditedRecords,
    resource_record: Record,
) -> Result<EditedRecords, AllocError>
    ensures { IfOk result (λ edited.
        rows_of edited ≡ with_row (rows_of records) (row_of resource_record)) }
{
    records.put(resource_record)?;
    Ok(records)
}

/// Returns the records without those with the data.
pub fn remove_data(mut records: EditedRecords, rdata: &RData) -> Result<EditedRecords, AllocError>
    ensures { IfOk result (λ edited.
        rows_of edited ≡ without_data (rows_of records) rdata.now) }
{
    records.remove(rdata)?;
    Ok(records)
}
