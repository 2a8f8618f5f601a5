//! The TTLs that are left after some seconds (RFC 1034 section 5.3.3).

ghost use Rattle.std.specs.Prelude.{◌≡◌, ◌-◌, map};
ghost use Rattle.dns_records.specs.Record.{after_seconds};
ghost use Rattle.stub_cache.specs.Ttl.{aged_answer, aged_message, aged_referral};

use dns_data::RecordData;
use dns_messages::{Message, Record, Sequence};
use stub_lookup::{ForwardNSData, NoRecords};

/// Reduces the TTLs of the records of a message by `seconds`, to 0 at the least.
pub(super) fn age_message(message: &mut Message, seconds: u64)
    ensures { message.new ≡ aged_message seconds message.old }
{
    age_section(&mut message.answers, seconds);
    age_section(&mut message.authorities, seconds);
    age_section(&mut message.additionals, seconds);
}

/// Reduces the TTLs of a negative answer and of its records by `seconds`, to 0 at the least.
pub(super) fn age_answer(answer: &mut NoRecords, seconds: u64)
    ensures { answer.new ≡ aged_answer seconds answer.old }
{
    if let Some(soa) = &mut answer.soa {
        age_record(soa, seconds);
    }
    if let Some(name_servers) = &mut answer.ns {
        age_referrals(name_servers, seconds);
    }
    if let Some(ttl) = answer.negative_ttl {
        answer.negative_ttl = Some(remaining_ttl(ttl, seconds));
    }
    if let Some(authorities) = &mut answer.authorities {
        age_section(authorities, seconds);
    }
}

/// Reduces the TTLs of the records of a section.
fn age_section(section: &mut Sequence<Record>, seconds: u64)
    ensures { section.new ≡ map (after_seconds seconds) section.old }
{
    if section.is_empty() {
        return;
    }
    let mut records = section.take().into_vec();
    age_records(records.as_mut_slice(), seconds);
    drop(section.replace(records));
}

/// Reduces the TTLs of records.
fn age_records(records: &mut [Record], seconds: u64)
    ensures { records.new ≡ map (after_seconds seconds) records.old }
{
    for resource_record in records.iter_mut() {
        age_record(resource_record, seconds);
    }
}

/// Reduces the TTLs of the records of name servers.
fn age_referrals(referrals: &mut Sequence<ForwardNSData>, seconds: u64)
    ensures { referrals.new ≡ map (aged_referral seconds) referrals.old }
{
    let mut name_servers = referrals.take().into_vec();
    age_name_servers(name_servers.as_mut_slice(), seconds);
    drop(referrals.replace(name_servers));
}

/// Reduces the TTLs of the records of each name server.
fn age_name_servers(name_servers: &mut [ForwardNSData], seconds: u64)
    ensures { name_servers.new ≡ map (aged_referral seconds) name_servers.old }
{
    for name_server in name_servers.iter_mut() {
        age_name_server(name_server, seconds);
    }
}

/// Reduces the TTLs of the records of a name server.
fn age_name_server(name_server: &mut ForwardNSData, seconds: u64)
    ensures { name_server.new ≡ aged_referral seconds name_server.old }
{
    age_record(&mut name_server.ns, seconds);
    age_section(&mut name_server.glue, seconds);
}

/// Reduces the TTL of a record.
fn age_record<R: RecordData>(resource_record: &mut Record<R>, seconds: u64)
    ensures { resource_record.new ≡ after_seconds seconds resource_record.old }
{
    resource_record.ttl = remaining_ttl(resource_record.ttl, seconds);
}

/// Returns what is left of a TTL after `seconds`.
fn remaining_ttl(ttl: u32, seconds: u64) -> u32
    ensures { result ≡ ttl - seconds }
{
    match u32::try_from(seconds) {
        Ok(seconds) => ttl.saturating_sub(seconds),
        Err(_) => 0,
    }
}
