//! Records that can be encoded, and decoded as themselves (RFC 1035 section 4.1.3).

ghost use Rattle.std.specs.Prelude.{◌≡◌, ◌<◌, ◌^◌, ◌↔◌, ◌&&◌, ◌||◌, not, IsTrue};
ghost use Rattle.std.specs.List.{AllByRecursion};
ghost use Rattle.dns_data.specs.rdata.{data_type, is_update_data};
ghost use Rattle.dns_wire.specs.codes.DNSClass.{class_number};
ghost use Rattle.dns_records.specs.Record.{IsSoundRecord};
ghost use Rattle.dns_records.specs.RecordHead.{class_for};
ghost use Rattle.dns_messages.specs.Section.{is_opt, is_signature};
ghost use Rattle.dns_messages.specs.Sound.{IsSoundIn, IsSoundSignature};

use crate::soundness::code::{has_32_bits, is_named_class};
use crate::soundness::rdata::is_sound_data;
use dns_data::RData;
use dns_messages::Record;
use dns_wire::{DNSClass, RecordType};

/// Returns `true` if a record can be encoded, and decoded as itself: its owner is fully qualified, its class is the variant
/// that its number decodes to, and its data is sound.
pub fn is_sound_record(resource_record: &Record) -> bool
    ensures sound { IsTrue result → IsSoundRecord resource_record.now }
    ensures only { IsSoundRecord resource_record.now → IsTrue result }
{
    has_32_bits(resource_record.ttl);
    if !resource_record.name.is_fqdn() {
        return false;
    }
    if !has_sound_class(resource_record.record_type(), resource_record.dns_class) {
        return false;
    }
    is_sound_data(&resource_record.rdata)
}

/// Returns `true` if the class of a record of a type is the variant that its number decodes to: that of an OPT record is a
/// payload size of at least 512 bytes (RFC 6891 section 6.2.3).
fn has_sound_class(kind: RecordType, class: DNSClass) -> bool
    ensures named { IsTrue result ↔ (class_for kind (class_number class) ≡ class) }
    ensures fits { class_number class < 2 ^ 16 }
{
    let _number = u16::from(class);
    match kind {
        RecordType::OPT => match class {
            DNSClass::OPT(payload) => payload >= 512,
            _ => false,
        },
        _ => is_named_class(class),
    }
}

/// Returns `true` if a section of a message may have a record: it is neither an OPT record nor a signature, and it has data,
/// except in an update (RFC 2136 section 2.4).
fn is_sound_in(is_update: bool, resource_record: &Record) -> bool
    ensures sound { IsTrue result → IsSoundIn is_update resource_record.now }
    ensures only { IsSoundIn is_update resource_record.now → IsTrue result }
{
    let kind = resource_record.record_type();
    let is_opt = matches!(kind, RecordType::OPT);
    let has_data = !matches!(&resource_record.rdata, RData::Update0(_));
    let is_signature = matches!(kind, RecordType::TSIG) && has_data;
    !is_opt && !is_signature && (is_update || has_data) && is_sound_record(resource_record)
}

/// Returns `true` if a section of a message may have each of the records.
pub(crate) fn are_sound_in(is_update: bool, records: &[Record]) -> bool
    ensures sound { IsTrue result → AllByRecursion (IsSoundIn is_update) records.now }
    ensures only { AllByRecursion (IsSoundIn is_update) records.now → IsTrue result }
{
    for resource_record in records {
        if !is_sound_in(is_update, resource_record) {
            return false;
        }
    }
    true
}

/// Returns `true` if a record is a sound TSIG record with data (RFC 8945 section 4.2).
pub(crate) fn is_sound_signature(resource_record: &Record) -> bool
    ensures sound { IsTrue result → IsSoundSignature resource_record.now }
    ensures only { IsSoundSignature resource_record.now → IsTrue result }
{
    let is_tsig = matches!(resource_record.record_type(), RecordType::TSIG);
    let has_data = !matches!(&resource_record.rdata, RData::Update0(_));
    is_tsig && has_data && is_sound_record(resource_record)
}
