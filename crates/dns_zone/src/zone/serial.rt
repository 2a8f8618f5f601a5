//! The serial number of a zone.

ghost use Rattle.std.specs.Prelude.{◌≡◌};
ghost use Rattle.dns_zone.specs.Rows.{rows_of};
ghost use Rattle.dns_zone.specs.ZoneSerial.{rows_serial, zone_serial};

use crate::zone::Zone;
use dns_differences::serials::data_serial;
use dns_records::Record;
use dns_wire::RecordType;

/// Returns the serial number of a zone: that of its SOA record.
pub fn zone_serial(zone: &Zone) -> Option<u32>
    ensures { result ≡ zone_serial zone.now }
{
    first_serial(zone.records_at(zone.origin(), RecordType::SOA))
}

/// Returns the serial number of the first of some records, if it is an SOA record.
pub fn first_serial(records: &[Record]) -> Option<u32>
    ensures { result ≡ rows_serial (rows_of records.now) }
{
    match records {
        [first, ..] => data_serial(&first.rdata),
        [] => None,
    }
}
