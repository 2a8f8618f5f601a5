//! TTLs within their bounds, and how long answers are stored (RFC 2181 section 8, RFC 2308 section 5).

ghost use Rattle.std.specs.Prelude.{◌≡◌, filter, map};
ghost use Rattle.stub_cache.specs.Ttl.{bounds_of, clamp, clamped, clamped_record, deciding_records, least_ttl, lifetime_within, negative_lifetime, positive_lifetime, positive_range};
ghost use Rattle.stub_cache.specs.internal.Ttl.{is_deciding, is_deciding_record, lesser_of, range_between};
ghost use Rattle.dns_data.specs.rdata.{data_type};

use crate::ttl::TtlConfig;
use dns_messages::{Message, Record, Sequence};
use dns_wire::RecordType;
use std::ops::RangeInclusive;
use stub_lookup::NoRecords;

/// Brings the TTLs of the records of a message within the bounds of their types.
pub(super) fn clamp_message(config: &TtlConfig, message: &mut Message)
    ensures { message.new ≡ clamped config.now message.old }
{
    clamp_section(config, &mut message.answers);
    clamp_section(config, &mut message.authorities);
    clamp_section(config, &mut message.additionals);
}

/// Brings the TTLs of the records of a section within the bounds of their types.
fn clamp_section(config: &TtlConfig, section: &mut Sequence<Record>)
    ensures { section.new ≡ map (clamped_record config.now) section.old }
{
    let mut records = section.take().into_vec();
    clamp_records(config, records.as_mut_slice());
    drop(section.replace(records));
}

/// Brings the TTLs of records within the bounds of their types.
fn clamp_records(config: &TtlConfig, records: &mut [Record])
    ensures { records.new ≡ map (clamped_record config.now) records.old }
{
    for present in records.iter_mut() {
        present.ttl = record_ttl(config, present);
    }
}

/// Returns the TTL of a record within the bounds of its type.
fn record_ttl(config: &TtlConfig, present: &Record) -> u32
    ensures { result ≡ (clamped_record config.now present.now).ttl }
{
    let range = config.positive_response_ttl_bounds(present.record_type());
    clamp_ttl(&range, present.ttl)
}

/// Returns a TTL within a range.
fn clamp_ttl(range: &RangeInclusive<u32>, ttl: u32) -> u32
    ensures { result ≡ clamp (range_between range.now) ttl }
{
    ttl.max(*range.start()).min(*range.end())
}

/// Returns for how long a response to a question of a type is stored, in seconds. The TTLs of its records are within
/// their bounds already.
pub(super) fn positive_lifetime(
    config: &TtlConfig,
    query_type: RecordType,
    message: &Message,
) -> u32
    ensures { result ≡ positive_lifetime config.now query_type message.now }
{
    let range = config.positive_response_ttl_bounds(query_type);
    lifetime_within(&range, deciding_ttl(query_type, message))
}

/// Returns for how long a negative answer to a question of a type is stored, in seconds (RFC 2308 section 5).
pub(super) fn negative_lifetime(
    config: &TtlConfig,
    query_type: RecordType,
    answer: &NoRecords,
) -> u32
    ensures { result ≡ negative_lifetime config.now query_type answer.now }
{
    let range = config.negative_response_ttl_bounds(query_type);
    lifetime_within(&range, answer.negative_ttl)
}

/// Returns a TTL within a range, or the least of the range if there is none.
fn lifetime_within(range: &RangeInclusive<u32>, ttl: Option<u32>) -> u32
    ensures { result ≡ lifetime_within (range_between range.now) ttl }
{
    match ttl {
        Some(ttl) => clamp_ttl(range, ttl),
        None => *range.start(),
    }
}

/// Returns the least TTL of the records that decide how long a response to a question of a type is stored.
///
/// The authority section counts for `NS` only, since a referral has its name servers there (RFC 1034 section 4.2.1).
fn deciding_ttl(query_type: RecordType, message: &Message) -> Option<u32>
    ensures { result ≡ least_ttl (deciding_records query_type message.now) }
{
    let answers = least_ttl(query_type, message.answers.as_slice());
    if query_type != RecordType::NS {
        return answers;
    }
    let authorities = least_ttl(query_type, message.authorities.as_slice());
    lesser_of(answers, authorities)
}

/// Returns the least TTL of the records of a section that decide how long a response is stored.
fn least_ttl(query_type: RecordType, records: &[Record]) -> Option<u32>
    ensures { result ≡ least_ttl (filter (is_deciding_record query_type) records.now) }
{
    let mut least = None;
    for present in records {
        if is_deciding(query_type, present.record_type()) {
            least = lesser_of(least, Some(present.ttl));
        }
    }
    least
}

/// Returns whether records of a type decide how long a response to a question of a type is stored: those that were asked
/// for, and aliases unless the question asks for `NS`.
fn is_deciding(query_type: RecordType, kind: RecordType) -> bool
    ensures { result ≡ is_deciding query_type kind }
{
    kind == query_type || kind == RecordType::CNAME && query_type != RecordType::NS
}

/// Returns the lesser of two TTLs, or the only one.
fn lesser_of(first: Option<u32>, second: Option<u32>) -> Option<u32>
    ensures { result ≡ lesser_of first second }
{
    match (first, second) {
        (Some(first), Some(second)) => Some(first.min(second)),
        (first, None) => first,
        (None, second) => second,
    }
}
