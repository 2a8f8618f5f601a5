//! The records of prerequisites and changes.

ghost use Rattle.std.specs.Prelude.{◌≡◌};
ghost use Rattle.dns_updates.specs.Builders.{empty_record};

use dns_data::RData;
use dns_messages::Record;
use dns_names::Name;
use dns_wire::{DNSClass, RecordType};

/// Returns a record without TTL and data.
pub(crate) fn empty_record(dns_class: DNSClass, owner: Name, record_type: RecordType) -> Record
    ensures { result ≡ empty_record dns_class owner record_type }
{
    Record {
        name: owner,
        dns_class,
        ttl: 0,
        rdata: RData::Update0(record_type),
    }
}
