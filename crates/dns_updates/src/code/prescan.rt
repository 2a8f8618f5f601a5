//! The prescan of the updates of a message (RFC 2136 section 3.4.1).

ghost use Rattle.std.specs.Prelude.{◌≡◌};
ghost use Rattle.dns_updates.specs.Code.{first_fault_of, is_bad_addition, is_bad_set_deletion, is_bad_row_deletion, is_malformed, prescan_code};

use crate::code::fault_if;
use crate::record_tests::{has_data, is_meta_type, is_of_type, is_transfer_type};
use dns_messages::ResponseCode;
use dns_names::Name;
use dns_records::Record;
use dns_wire::{DNSClass, RecordType};

/// Returns the code of the first fault of updates.
pub fn updates_code(origin: &Name, updates: &[Record]) -> ResponseCode
    ensures { result ≡ first_fault_of (prescan_code origin.now) updates.now }
{
    for update in updates {
        match prescan_code(origin, update) {
            ResponseCode::NoError => {}
            fault => return fault,
        }
    }
    ResponseCode::NoError
}

/// Returns the code of an update: its owner is in the zone, and it is well-formed for its class.
fn prescan_code(origin: &Name, update: &Record) -> ResponseCode
    ensures { result ≡ prescan_code origin.now update.now }
{
    if !origin.zone_of(&update.name) {
        return ResponseCode::NotZone;
    }
    fault_if(is_malformed(update), ResponseCode::FormErr)
}

/// Returns `true` for an update that is none for its class.
fn is_malformed(update: &Record) -> bool
    ensures { result ≡ is_malformed update.now.dns_class update.now }
{
    match update.dns_class {
        DNSClass::IN => is_bad_addition(update),
        DNSClass::ANY => is_bad_set_deletion(update),
        DNSClass::NONE => is_bad_row_deletion(update),
        _ => true,
    }
}

/// Returns `true` for an addition without data, or of a type that no row has.
fn is_bad_addition(update: &Record) -> bool
    ensures { result ≡ is_bad_addition update.now }
{
    is_meta_type(update.record_type()) || !has_data(update)
}

/// Returns `true` for a deletion of sets with a TTL or data, or of a type that only questions have.
fn is_bad_set_deletion(update: &Record) -> bool
    ensures { result ≡ is_bad_set_deletion update.now }
{
    update.ttl != 0 || has_data(update) || is_transfer_type(update.record_type())
}

/// Returns `true` for a deletion of a row with a TTL, or of a type that only questions have.
fn is_bad_row_deletion(update: &Record) -> bool
    ensures { result ≡ is_bad_row_deletion update.now }
{
    update.ttl != 0 || is_of_type(RecordType::ANY, update) || is_transfer_type(update.record_type())
}
