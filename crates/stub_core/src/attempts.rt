//! Lookups of one name after another.

ghost use Rattle.std.specs.Prelude.{◌≡◌, ◌≤◌, ◌^◌};
ghost use Rattle.std.specs.Vec.Iter.{into_iter_items};
ghost use Rattle.stub_core.specs.Attempts.{Attempts, AttemptsAll, AttemptsWithHosts, WithHosts, is_final, no_names};
ghost use Rattle.stub_client.specs.Handle.{IsMessage};
ghost use Rattle.stub_client.specs.Looks.{Answers};
ghost use Rattle.stub_hosts.specs.Hosts.{question};

use dns_messages::Query;
use dns_names::Name;
use dns_wire::RecordType;
use std::vec;
use stub_client::{CachingClient, DnsHandle};
use stub_config::DnsRequestOptions;
use stub_hosts::Hosts;
use stub_lookup::{Lookup, Moment, NetError};

/// Looks up records of a type for names, in order, up to the first name whose response has answers.
///
/// An error or a response without answers leads to the next name. If no name has answers, the result for the last one is
/// returned. Want of memory ends the lookup. If there are no names, the error is [`NetError::Message`].
pub fn lookup_names<C: DnsHandle>(
    names: Vec<Name>,
    record_type: RecordType,
    options: DnsRequestOptions,
    client: &mut CachingClient<C>,
    now: Moment,
) -> Result<Lookup, NetError>
    requires { now ≤ 2 ^ 62 }
    ensures { AttemptsAll no_names (λ old name reply new.
        Answers C.gives options now old (question name record_type) reply new)
        client.old names.items result client.new }
{
    let names = names.into_iter();
    attempt(no_names(), names, record_type, options, client, now)
}

/// Looks up names, in order, as [`lookup_names`] does. The hosts are asked for the first name alone, before the client.
pub fn lookup_names_with_hosts<C: DnsHandle>(
    names: Vec<Name>,
    record_type: RecordType,
    options: DnsRequestOptions,
    client: &mut CachingClient<C>,
    hosts: &Hosts,
    now: Moment,
) -> Result<Lookup, NetError>
    requires { now ≤ 2 ^ 62 }
    ensures { AttemptsWithHosts hosts.now now
        (λ old q reply new. Answers C.gives options now old q reply new)
        record_type client.old names.items result client.new }
{
    let mut names = names.into_iter();
    let Some(name) = names.next() else {
        return no_names();
    };
    let query = Query::query(name, record_type);
    let first = ask_with_hosts(query, options, client, hosts, now);
    attempt(first, names, record_type, options, client, now)
}

/// Returns the error of a lookup of no names.
fn no_names() -> Result<Lookup, NetError>
    ensures { IsMessage no_names result }
{
    Err(NetError::Message("can not lookup for no names"))
}

/// Looks up names, in order, unless the last reply ends the lookup.
fn attempt<C: DnsHandle>(
    mut last: Result<Lookup, NetError>,
    names: vec::IntoIter<Name>,
    record_type: RecordType,
    options: DnsRequestOptions,
    client: &mut CachingClient<C>,
    now: Moment,
) -> Result<Lookup, NetError>
    requires { now ≤ 2 ^ 62 }
    ensures { Attempts (λ old name reply new.
        Answers C.gives options now old (question name record_type) reply new)
        last client.old (into_iter_items names) result client.new }
{
    for name in names {
        if is_final(&last) {
            return last;
        }
        drop(last);
        last = client.lookup(Query::query(name, record_type), options, now);
    }
    last
}

/// Returns `true` if a reply ends a lookup of names: it has answers, or memory ran out.
pub(crate) fn is_final(reply: &Result<Lookup, NetError>) -> bool
    ensures { result ≡ is_final reply.now }
{
    match reply {
        Ok(lookup) => !lookup.answers().is_empty(),
        // Memory ran out.
        Err(NetError::Memory) => true,
        Err(_) => false,
    }
}

/// Asks the hosts for a question, and the client if they have nothing for it.
pub(crate) fn ask_with_hosts<C: DnsHandle>(
    query: Query,
    options: DnsRequestOptions,
    client: &mut CachingClient<C>,
    hosts: &Hosts,
    now: Moment,
) -> Result<Lookup, NetError>
    requires { now ≤ 2 ^ 62 }
    ensures { WithHosts hosts.now now
        (λ old q reply new. Answers C.gives options now old q reply new)
        client.old query result client.new }
{
    match hosts.lookup_static_host(&query, now)? {
        Some(lookup) => Ok(lookup),
        None => client.lookup(query, options, now),
    }
}
