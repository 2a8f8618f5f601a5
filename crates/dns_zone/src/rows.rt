//! The rows of a zone: the records of its sets.

ghost use Rattle.std.specs.Prelude.{◌≡◌};
ghost use Rattle.dns_zone.specs.Rows.{rows_of, rows_of_sets, rows_at, some_row_below, AreSoundRows, AreSoundSets};

use crate::sets::ZoneSets;
use dns_names::Name;
use dns_records::Record;
use dns_wire::RecordType;

/// Returns the records of a type at a name, in their order.
pub fn records_at<'a>(sets: &'a ZoneSets, name: &Name, record_type: RecordType) -> &'a [Record]
    ensures rows { rows_of result.now
        ≡ rows_at (rows_of_sets sets.now) name.now.labels record_type }
    ensures sound { AreSoundSets sets.now → AreSoundRows (rows_of result.now) }
{
    match sets.get(name, record_type) {
        Some(set) => set.as_slice(),
        None => &[],
    }
}

/// Returns `true` if the owner of some record is at or below the name.
pub fn has_row_below(sets: &ZoneSets, name: &Name) -> bool
    ensures { result ≡ some_row_below (rows_of_sets sets.now) name.now.labels }
{
    sets.has_set_below(name)
}
