//! The aliases among the answers of a reply (RFC 1034 section 3.6.2).

ghost use Rattle.std.specs.Prelude.{◌≡◌, IfOk, false, option_copied};
ghost use Rattle.stub_lookup.specs.Lookup.{max_ttl};
ghost use Rattle.stub_client.specs.Step.{asks_for_aliases, chain_of, chain_over, next_name};

use dns_data::RData;
use dns_messages::{Message, Query, Record};
use dns_names::Name;
use dns_wire::RecordType;
use std::alloc::AllocError;
use stub_lookup::MAX_TTL;

/// Where the aliases among answers lead.
#[derive(Drop)]
pub struct Chain {
    /// The name at their end.
    pub name: Name,
    /// The least of their TTLs, and [`MAX_TTL`](stub_lookup::MAX_TTL) at most.
    pub ttl: u32,
    /// Whether there are any.
    pub is_alias: bool,
}

/// Returns where the aliases among the answers of a message lead from the name of a question. A question that asks for
/// aliases follows none.
pub(super) fn chain_of(query: &Query, message: &Message) -> Result<Chain, AllocError>
    ensures { IfOk result (λ chain. chain ≡ chain_of query.now message.now) }
{
    if asks_for_aliases(query) {
        return chain_over(&query.name, &[]);
    }
    chain_over(&query.name, message.answers.as_slice())
}

/// Returns `true` if a question asks for aliases themselves, or for all types (RFC 1034 section 3.6.2).
fn asks_for_aliases(query: &Query) -> bool
    ensures { result ≡ asks_for_aliases query.now }
{
    let asked = query.query_type;
    asked == RecordType::CNAME || asked == RecordType::ANY
}

/// Returns where the aliases among answers lead from a name, each one from where those before it lead.
fn chain_over(name: &Name, answers: &[Record]) -> Result<Chain, AllocError>
    ensures { IfOk result (λ chain. chain ≡ chain_over
        (record { name = name.now; ttl = max_ttl; is_alias = false }) answers.now) }
{
    let mut end = name;
    let mut ttl = MAX_TTL;
    let mut is_alias = false;
    for answer in answers {
        if let Some(target) = next_name(end, answer) {
            end = target;
            ttl = answer.ttl.min(ttl);
            is_alias = true;
        }
    }
    let name = end.clone()?;
    Ok(Chain {
        name,
        ttl,
        is_alias,
    })
}

/// Returns where a record leads from a name: an alias of this name to its target, and an SRV record of any owner to its
/// target (RFC 2782).
fn next_name<'a>(name: &Name, entry: &'a Record) -> Option<&'a Name>
    ensures { option_copied result ≡ next_name name.now entry.now entry.now.rdata }
{
    match &entry.rdata {
        RData::CNAME(alias) => {
            if entry.name == *name {
                Some(&alias.0)
            } else {
                None
            }
        }
        RData::SRV(service) => Some(&service.target),
        _ => None,
    }
}
