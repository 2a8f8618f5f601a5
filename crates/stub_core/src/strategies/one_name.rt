//! The addresses of one name, by a strategy.

ghost use Rattle.std.specs.Prelude.{◌≡◌, ◌≤◌, ◌^◌, Ok};
ghost use Rattle.stub_core.specs.Attempts.{WithHosts};
ghost use Rattle.stub_client.specs.Looks.{Answers};
ghost use Rattle.stub_core.specs.Strategies.{Both, Joins, LooksUpAddresses, Then, is_out_of_memory};
ghost use Rattle.stub_hosts.specs.Hosts.{question};

use crate::attempts::{ask_with_hosts, is_final};
use dns_messages::Query;
use dns_names::Name;
use dns_wire::RecordType;
use stub_client::{CachingClient, DnsHandle};
use stub_config::{DnsRequestOptions, LookupIpStrategy};
use stub_hosts::Hosts;
use stub_lookup::{Lookup, Moment, NetError};

/// Looks up the addresses of a name, of the types and in the order of a strategy.
pub(super) fn look_up_addresses<C: DnsHandle>(
    name: &Name,
    strategy: LookupIpStrategy,
    client: &mut CachingClient<C>,
    options: DnsRequestOptions,
    hosts: &Hosts,
    now: Moment,
) -> Result<Lookup, NetError>
    requires { now ≤ 2 ^ 62 }
    ensures { LooksUpAddresses strategy hosts.now now
        (λ old q reply new. Answers C.gives options now old q reply new)
        client.old name.now result client.new }
{
    let v4 = RecordType::A;
    let v6 = RecordType::AAAA;
    match strategy {
        LookupIpStrategy::Ipv4Only => one(name, v4, client, options, hosts, now),
        LookupIpStrategy::Ipv6Only => one(name, v6, client, options, hosts, now),
        LookupIpStrategy::Ipv4AndIpv6 => both(name, v4, v6, client, options, hosts, now),
        LookupIpStrategy::Ipv6AndIpv4 => both(name, v6, v4, client, options, hosts, now),
        LookupIpStrategy::Ipv6thenIpv4 => then(name, v6, v4, client, options, hosts, now),
        LookupIpStrategy::Ipv4thenIpv6 => then(name, v4, v6, client, options, hosts, now),
    }
}

/// Looks up the records of a type.
fn one<C: DnsHandle>(
    name: &Name,
    record_type: RecordType,
    client: &mut CachingClient<C>,
    options: DnsRequestOptions,
    hosts: &Hosts,
    now: Moment,
) -> Result<Lookup, NetError>
    requires { now ≤ 2 ^ 62 }
    ensures { WithHosts hosts.now now
        (λ old q reply new. Answers C.gives options now old q reply new)
        client.old (question name.now record_type) result client.new }
{
    let query = Query::query(name.clone()?, record_type);
    ask_with_hosts(query, options, client, hosts, now)
}

/// Looks up the records of two types, one after the other, and joins what was found.
fn both<C: DnsHandle>(
    name: &Name,
    first: RecordType,
    second: RecordType,
    client: &mut CachingClient<C>,
    options: DnsRequestOptions,
    hosts: &Hosts,
    now: Moment,
) -> Result<Lookup, NetError>
    requires { now ≤ 2 ^ 62 }
    ensures { Both (λ old kind reply new. WithHosts hosts.now now
        (λ old q reply new. Answers C.gives options now old q reply new)
        old (question name.now kind) reply new)
        first second client.old result client.new }
{
    let reply = one(name, first, client, options, hosts, now);
    if is_out_of_memory(&reply) {
        return reply;
    }
    let other = one(name, second, client, options, hosts, now);
    join(reply, other)
}

/// Looks up the records of the first type, and those of the second if there are none.
fn then<C: DnsHandle>(
    name: &Name,
    first: RecordType,
    second: RecordType,
    client: &mut CachingClient<C>,
    options: DnsRequestOptions,
    hosts: &Hosts,
    now: Moment,
) -> Result<Lookup, NetError>
    requires { now ≤ 2 ^ 62 }
    ensures { Then (λ old kind reply new. WithHosts hosts.now now
        (λ old q reply new. Answers C.gives options now old q reply new)
        old (question name.now kind) reply new)
        first second client.old result client.new }
{
    let found = one(name, first, client, options, hosts, now);
    if is_final(&found) {
        return found;
    }
    drop(found);
    one(name, second, client, options, hosts, now)
}

/// Returns `true` if memory ran out.
fn is_out_of_memory(reply: &Result<Lookup, NetError>) -> bool
    ensures { result ≡ is_out_of_memory reply.now }
{
    matches!(reply, Err(NetError::Memory))
}

/// Joins the replies for two types: the records of both, or of the one that was found, or the first error.
fn join(
    first: Result<Lookup, NetError>,
    second: Result<Lookup, NetError>,
) -> Result<Lookup, NetError>
    ensures { Joins first second result }
{
    if is_out_of_memory(&second) {
        drop(first);
        return second;
    }
    match second {
        Ok(lookup) => join_found(first, lookup),
        Err(other) => {
            drop(other);
            first
        }
    }
}

/// Appends a lookup to that of the reply for the first type, or returns it if the reply is an error.
fn join_found(first: Result<Lookup, NetError>, second: Lookup) -> Result<Lookup, NetError>
    ensures { Joins first (Ok second) result }
{
    match first {
        Ok(lookup) => Ok(lookup.append(second)?),
        Err(error) => {
            drop(error);
            Ok(second)
        }
    }
}
