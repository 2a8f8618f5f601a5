//! Lookups of addresses, by a strategy.

ghost use Rattle.std.specs.Prelude.{◌≡◌, ◌≤◌, ◌^◌, IfOk, Some};
ghost use Rattle.std.specs.Vec.Iter.{into_iter_items};
ghost use Rattle.stub_core.specs.Attempts.{Attempts};
ghost use Rattle.stub_client.specs.Handle.{IsMessage};
ghost use Rattle.stub_client.specs.Looks.{Answers};
ghost use Rattle.stub_core.specs.Strategies.{EndsWith, LooksUpAddresses, LooksUpIp, fallback, no_addresses};

mod one_name;

use crate::attempts::is_final;
use dns_data::RData;
use dns_messages::{Query, Record};
use dns_names::Name;
use one_name::look_up_addresses;
use std::alloc::{AllocError, Global};
use std::vec;
use stub_client::{CachingClient, DnsHandle};
use stub_config::{DnsRequestOptions, LookupIpStrategy};
use stub_hosts::Hosts;
use stub_lookup::{Lookup, LookupIp, MAX_TTL, Moment, NetError};

/// Looks up the addresses of names, in order, up to the first that has answers. The hosts are asked for each name and
/// type, before the client.
///
/// A strategy for both types joins what was found of each; of two errors the first is returned. A strategy for one type
/// and then the other asks for the second if the first has no answers or an error. If no name has answers,
/// `finally_ip_addr` is returned, without an owner. Without `finally_ip_addr` it is the result for the last name, or
/// [`NetError::Message`] if there are no names. Want of memory ends the lookup.
pub fn lookup_ip_names<C: DnsHandle>(
    alloc: Global,
    names: Vec<Name>,
    strategy: LookupIpStrategy,
    client: &mut CachingClient<C>,
    options: DnsRequestOptions,
    hosts: &Hosts,
    finally_ip_addr: Option<RData>,
    now: Moment,
) -> Result<LookupIp, NetError>
    requires { now ≤ 2 ^ 62 }
    ensures { LooksUpIp strategy hosts.now now
        (λ old q reply new. Answers C.gives options now old q reply new)
        finally_ip_addr client.old names.items result client.new }
{
    let names = names.into_iter();
    let last = attempt(no_addresses(), names, strategy, client, options, hosts, now);
    addresses(or_fallback(alloc, last, finally_ip_addr, now))
}

/// Returns the error of a lookup of the addresses of no names.
fn no_addresses() -> Result<Lookup, NetError>
    ensures { IsMessage no_addresses result }
{
    Err(NetError::Message("can not lookup IPs for no names"))
}

/// Looks up the addresses of names, in order, unless the last reply ends the lookup.
fn attempt<C: DnsHandle>(
    mut last: Result<Lookup, NetError>,
    names: vec::IntoIter<Name>,
    strategy: LookupIpStrategy,
    client: &mut CachingClient<C>,
    options: DnsRequestOptions,
    hosts: &Hosts,
    now: Moment,
) -> Result<Lookup, NetError>
    requires { now ≤ 2 ^ 62 }
    ensures { Attempts (λ old name reply new. LooksUpAddresses strategy hosts.now now
        (λ old q reply new. Answers C.gives options now old q reply new) old name reply new)
        last client.old (into_iter_items names) result client.new }
{
    for name in names {
        if is_final(&last) {
            return last;
        }
        drop(last);
        last = look_up_addresses(&name, strategy, client, options, hosts, now);
    }
    last
}

/// Returns the last reply, or the address that is returned if no name has answers.
fn or_fallback(
    alloc: Global,
    last: Result<Lookup, NetError>,
    finally_ip_addr: Option<RData>,
    now: Moment,
) -> Result<Lookup, NetError>
    requires { now ≤ 2 ^ 62 }
    ensures { EndsWith finally_ip_addr now last result }
{
    match finally_ip_addr {
        Some(rdata) => or_address(alloc, last, rdata, now),
        None => last,
    }
}

/// Returns the last reply if it ends the lookup, or else a lookup of an address.
fn or_address(
    alloc: Global,
    last: Result<Lookup, NetError>,
    rdata: RData,
    now: Moment,
) -> Result<Lookup, NetError>
    requires { now ≤ 2 ^ 62 }
    ensures { EndsWith (Some rdata) now last result }
{
    if is_final(&last) {
        drop(rdata);
        return last;
    }
    drop(last);
    Ok(fallback(alloc, rdata, now)?)
}

/// Returns a lookup of one record without an owner, which answers the question for the addresses of the root.
fn fallback(alloc: Global, rdata: RData, now: Moment) -> Result<Lookup, AllocError>
    requires { now ≤ 2 ^ 62 }
    ensures { IfOk result (λ lookup. lookup ≡ fallback rdata now) }
{
    let mut answers = Vec::new(alloc);
    answers.push(Record::from_rdata(Name::new(alloc), MAX_TTL, rdata))?;
    Lookup::new_with_max_ttl(alloc, Query::new(alloc), answers, now)
}

/// Takes a lookup as one of addresses.
fn addresses(reply: Result<Lookup, NetError>) -> Result<LookupIp, NetError>
    ensures { result ≡ reply }
{
    match reply {
        Ok(lookup) => Ok(LookupIp::from(lookup)),
        Err(error) => Err(error),
    }
}
