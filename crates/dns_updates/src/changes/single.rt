//! Updates that put one record into its set.

ghost use Rattle.std.specs.Prelude.{◌≡◌, ◌&&◌, ◌||◌, true, not};
ghost use Rattle.dns_wire.specs.declared.codes.record_type.RecordType.TheVariants as types;
ghost use Rattle.dns_names.specs.Name.{DomainName};
ghost use Rattle.dns_records.specs.Rows.{key_of, row_of, set_of, with_set};
ghost use Rattle.dns_updates.specs.Change.{change, is_put, with_row};
ghost use Rattle.dns_updates.specs.Records.{has_set, is_of_type};

use crate::record_tests::is_of_type;
use crate::zone_rows::ZoneRows;
use dns_records::Record;
use dns_wire::{DNSClass, RecordType};

/// Returns `true` for an update that puts its record into the set of its owner and type, in place of one with equal data or as
/// the last (RFC 2136 section 3.4.2.2): an addition that is not ignored, of neither a CNAME nor an SOA. No memory is taken.
///
/// Such an update can be made on the set itself, which need not be copied.
pub fn is_put<Z: ZoneRows>(zone: &Z, update: &Record) -> bool
    ensures put { result ≡ is_put (Z.rows zone.now) update.now.dns_class update.now }
    ensures change { result ≡ true → (origin : DomainName)
        → change origin (Z.rows zone.now) update.now
        ≡ with_set (Z.rows zone.now) (key_of update.now)
        (with_row (set_of (Z.rows zone.now) update.now) (row_of update.now)) }
{
    match update.dns_class {
        DNSClass::IN => is_put_addition(zone, update),
        _ => false,
    }
}

/// Returns `true` for an addition that is not ignored, of neither a CNAME nor an SOA.
fn is_put_addition<Z: ZoneRows>(zone: &Z, update: &Record) -> bool
    ensures { result ≡ (not (is_of_type types.CNAME update.now || is_of_type types.SOA update.now)
        && not (has_set (Z.rows zone.now) update.now.name types.CNAME)) }
{
    let is_single = is_of_type(RecordType::CNAME, update) || is_of_type(RecordType::SOA, update);
    !is_single && !zone.has_set(&update.name, RecordType::CNAME)
}
