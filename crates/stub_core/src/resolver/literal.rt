//! Lookups of literal addresses.

ghost use Rattle.std.specs.Prelude.{◌≡◌, ◌≢◌, ◌≤◌, ◌^◌, ◌⊎◌, IfOk};
ghost use Rattle.stub_hosts.specs.Hosts.{address_data, address_type};
ghost use Rattle.stub_client.specs.Looks.{out_of_memory};
ghost use Rattle.stub_core.specs.Resolver.{literal, without_name};

use dns_data::{A, AAAA, RData};
use dns_messages::Query;
use dns_names::{Name, ParseError};
use dns_wire::RecordType;
use std::alloc::{AllocError, Global};
use std::net::IpAddr;
use stub_lookup::{Lookup, LookupIp, Moment, NetError};

/// Returns the lookup of a literal address: one record at an owner.
pub(super) fn literal_lookup(
    alloc: Global,
    owner: Name,
    address: IpAddr,
    now: Moment,
) -> Result<Lookup, AllocError>
    requires { now ≤ 2 ^ 62 }
    ensures { IfOk result (λ lookup. lookup ≡ literal owner address now) }
{
    let query = Query::query(owner, address_type(address));
    Lookup::from_rdata(alloc, query, address_data(address), now)
}

/// Returns the lookup of a host whose text is not a name: that of a literal address, or the error of the text.
pub(super) fn lookup_without_name(
    alloc: Global,
    error: ParseError,
    address: Option<IpAddr>,
    now: Moment,
) -> Result<LookupIp, NetError>
    requires { now ≤ 2 ^ 62 }
    ensures { (result ≡ out_of_memory)
        ⊎ ((error ≢ ParseError.Memory) × (result ≡ without_name error address now)) }
{
    match error {
        // The name had no memory.
        ParseError::Memory => Err(NetError::Memory),
        error => match address {
            Some(address) => {
                let lookup = literal_lookup(alloc, Name::new(alloc), address, now)?;
                Ok(LookupIp::from(lookup))
            }
            None => Err(NetError::from(error)),
        },
    }
}

/// Returns the type of the records of an address.
fn address_type(address: IpAddr) -> RecordType
    ensures { result ≡ address_type address }
{
    match address {
        IpAddr::V4(_) => RecordType::A,
        IpAddr::V6(_) => RecordType::AAAA,
    }
}

/// Returns the data of a record with an address.
pub(super) fn address_data(address: IpAddr) -> RData
    ensures { result ≡ address_data address }
{
    match address {
        IpAddr::V4(address) => RData::A(A(address)),
        IpAddr::V6(address) => RData::AAAA(AAAA(address)),
    }
}
