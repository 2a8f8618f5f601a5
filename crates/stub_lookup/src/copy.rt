//! Copies of negative answers, and of records.

ghost use Rattle.std.specs.Prelude.{◌≡◌, ◌≤◌, ◌+◌, length, [], Ok, None, IfOk, IsOk};
ghost use Rattle.dns_wire.specs.Name.{name_len};
ghost use Rattle.dns_records.specs.Record.{IsInlineRecord};
ghost use Rattle.stub_lookup.specs.Error.{HasNoRecords};

use crate::error::{ForwardNSData, NoRecords};
use dns_data::SOA;
use dns_messages::{Record, Sequence};
use dns_records::laws::copies_are_identical;
use std::alloc::AllocError;

/// Copies records, in order. An empty list takes no memory.
pub fn copy_records(records: &Sequence<Record>) -> Result<Sequence<Record>, AllocError>
    ensures ok { IfOk result (λ copies. copies ≡ records.now) }
    ensures empty { records.now ≡ [] → IsOk result }
{
    copies_are_identical();
    records.clone()
}

impl NoRecords {
    /// Copies the negative answer. It does not fail if there are no records and the name of the question has at most 24
    /// labels of at most 32 bytes in all, which are stored inline.
    pub fn clone(&self) -> Result<NoRecords, AllocError>
        ensures ok { IfOk result (λ copy. copy ≡ self.now) }
        ensures inline { length self.now.query.name.labels ≤ 24
            → name_len self.now.query.name.labels ≤ length self.now.query.name.labels + 33
            → HasNoRecords self.now → result ≡ Ok self.now }
    {
        Ok(NoRecords {
            query: self.query.clone()?,
            soa: clone_soa(&self.soa)?,
            ns: clone_name_servers(&self.ns)?,
            negative_ttl: self.negative_ttl,
            response_code: self.response_code,
            authorities: clone_authorities(&self.authorities)?,
        })
    }
}

/// Copies an SOA record, if there is one.
fn clone_soa(soa: &Option<Record<SOA>>) -> Result<Option<Record<SOA>>, AllocError>
    ensures ok { IfOk result (λ copy. copy ≡ soa.now) }
    ensures decided { soa.now ≡ None → IsOk result }
{
    match soa {
        Some(soa) => Ok(Some(soa.clone()?)),
        None => Ok(None),
    }
}

/// Copies the name servers that a server refers to, if there are any.
fn clone_name_servers(
    ns: &Option<Sequence<ForwardNSData>>,
) -> Result<Option<Sequence<ForwardNSData>>, AllocError>
    ensures ok { IfOk result (λ copy. copy ≡ ns.now) }
    ensures decided { ns.now ≡ None → IsOk result }
{
    match ns {
        Some(name_servers) => Ok(Some(name_servers.clone()?)),
        None => Ok(None),
    }
}

/// Copies the records of an authority section, if there are any.
fn clone_authorities(
    authorities: &Option<Sequence<Record>>,
) -> Result<Option<Sequence<Record>>, AllocError>
    ensures ok { IfOk result (λ copy. copy ≡ authorities.now) }
    ensures decided { authorities.now ≡ None → IsOk result }
{
    match authorities {
        Some(authorities) => Ok(Some(copy_records(authorities)?)),
        None => Ok(None),
    }
}

impl ForwardNSData {
    /// Copies the name server and its addresses. A record that is stored inline, without addresses, takes no memory.
    pub fn clone(&self) -> Result<ForwardNSData, AllocError>
        ensures ok { IfOk result (λ copy. copy ≡ self.now) }
        ensures inline { IsInlineRecord self.now.ns → self.now.glue ≡ [] → IsOk result }
    {
        Ok(ForwardNSData {
            ns: self.ns.clone()?,
            glue: copy_records(&self.glue)?,
        })
    }
}

impl Clone for ForwardNSData {
    ghost is_clone = { λ name_server copy. copy ≡ name_server };

    fn clone(&self) -> Result<ForwardNSData, AllocError> {
        ForwardNSData::clone(self)
    }
}
