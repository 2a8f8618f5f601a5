//! Tests of records of an update.

ghost use Rattle.std.specs.Prelude.{◌≡◌};
ghost use Rattle.dns_updates.specs.Records.{is_of_type, is_in_class, has_data, is_meta_type, is_transfer_type};

use dns_data::RData;
use dns_records::Record;
use dns_wire::{DNSClass, RecordType};

/// Returns `true` for the Internet class.
pub fn is_in_class(dns_class: DNSClass) -> bool
    ensures { result ≡ is_in_class dns_class }
{
    match dns_class {
        DNSClass::IN => true,
        _ => false,
    }
}

/// Returns `true` if a record is of a type. Types are the same if their numbers are.
pub fn is_of_type(record_type: RecordType, resource_record: &Record) -> bool
    ensures { result ≡ is_of_type record_type resource_record.now }
{
    record_type == resource_record.record_type()
}

/// Returns `true` if a record has data.
pub fn has_data(resource_record: &Record) -> bool
    ensures { result ≡ has_data resource_record.now }
{
    match &resource_record.rdata {
        RData::Update0(_) => false,
        _ => true,
    }
}

/// Returns `true` for a type that no row has: 0, OPT and 128 to 255 (RFC 6895 section 3.1), and SIG (RFC 2931).
pub fn is_meta_type(record_type: RecordType) -> bool
    ensures { result ≡ is_meta_type record_type }
{
    match u16::from(record_type) {
        0 | 24 | 41 | 128..=255 => true,
        _ => false,
    }
}

/// Returns `true` for AXFR, MAILB and MAILA, which only questions have (RFC 1035 section 3.2.3).
pub fn is_transfer_type(record_type: RecordType) -> bool
    ensures { result ≡ is_transfer_type record_type }
{
    match u16::from(record_type) {
        252..=254 => true,
        _ => false,
    }
}
