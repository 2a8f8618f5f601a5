//! The lookup of a name, to which others are joined in place.

ghost use Rattle.std.specs.Prelude.{◌≡◌, ◌≤◌, ◌^◌, ◌++◌, take, min, IfOk, OnOk, OnErr};
ghost use Rattle.std.specs.List.{list_any};
ghost use Rattle.stub_hosts.specs.Hosts.{fresh, is_address_of, same_address};
ghost use Rattle.stub_lookup.specs.Lookup.{joined, joined_messages};

use dns_messages::{Message, Query, Record, Sequence};
use dns_names::Name;
use dns_wire::RecordType;
use std::alloc::{AllocError, Global};
use std::marker::Model;
use std::net::IpAddr;
use stub_lookup::{Lookup, Moment};

/// A response to a question, and the last moment at which it is valid.
#[derive(Drop)]
pub(crate) struct HostLookup {
    message: Message,
    valid_until: Moment,
}

impl Model for HostLookup {
    ghost use Rattle.std.specs.Prelude.{◌<◌, length};
    ghost use Rattle.stub_lookup.specs.Lookup.{LookupContent};

    ghost Value = { LookupContent };

    ghost view = { λ l. record { message = l.message; valid_until = l.valid_until } };

    ghost invariant = { λ l. 0 < length l.message.queries };
}

impl HostLookup {
    /// Creates a lookup without records.
    pub(crate) fn fresh(
        alloc: Global,
        name: &Name,
        record_type: RecordType,
        now: Moment,
    ) -> Result<HostLookup, AllocError>
        requires { now ≤ 2 ^ 62 }
        ensures { IfOk result (λ lookup. lookup ≡ fresh name.now record_type now) }
    {
        let query = Query::query(name.clone()?, record_type);
        let lookup = Lookup::new_with_max_ttl(alloc, query, Vec::new(alloc), now)?;
        Ok(HostLookup::new(lookup))
    }

    /// Takes a lookup apart.
    fn new(lookup: Lookup) -> HostLookup
        ensures { result ≡ lookup }
    {
        // The message has a question.
        let _query = lookup.query();
        let valid_until = lookup.valid_until();
        HostLookup {
            message: Message::from(lookup),
            valid_until,
        }
    }

    /// Adds the records of another lookup, section by section, and keeps the sooner deadline.
    pub(crate) fn join(&mut self, other: Lookup) -> Result<(), AllocError>
        ensures ok { OnOk result (self.new ≡ joined self.old other) }
        ensures err { OnErr result (self.new ≡ self.old) }
    {
        let valid_until = other.valid_until();
        let mut other = Message::from(other);
        add_sections(&mut self.message, &mut other)?;
        if valid_until < self.valid_until {
            self.valid_until = valid_until;
        }
        Ok(())
    }

    /// Returns the records of the answer section.
    pub(crate) fn answers(&self) -> &[Record]
        ensures { result.now ≡ self.now.message.answers }
    {
        self.message.answers.as_slice()
    }

    /// Returns `true` if an answer has an address.
    pub(crate) fn has_address(&self, address: IpAddr) -> bool
        ensures { result ≡ list_any (is_address_of address) self.now.message.answers }
    {
        self.answers()
            .iter()
            .any(|answer| is_address_of(address, answer))
    }

    /// Copies the lookup.
    pub(crate) fn copy(&self) -> Result<Lookup, AllocError>
        ensures { IfOk result (λ copy. copy ≡ self.now) }
    {
        Ok(Lookup::new(self.message.clone()?, self.valid_until))
    }
}

/// Moves the records of another message to the ends of the sections of a message.
fn add_sections(message: &mut Message, other: &mut Message) -> Result<(), AllocError>
    ensures ok { OnOk result (message.new ≡ joined_messages message.old other.old) }
    ensures err { OnErr result (message.new ≡ message.old) }
{
    let answers = message.answers.len();
    add_records(&mut message.answers, &mut other.answers)?;
    match add_other_sections(message, other) {
        Ok(()) => Ok(()),
        Err(error) => {
            truncate(&mut message.answers, answers);
            Err(error)
        }
    }
}

/// Moves the records of the authority and the additional section of another message.
fn add_other_sections(message: &mut Message, other: &mut Message) -> Result<(), AllocError>
    ensures ok { OnOk result (message.new ≡ record message.old {
      authorities = message.old.authorities ++ other.old.authorities;
      additionals = message.old.additionals ++ other.old.additionals;
    }) }
    ensures err { OnErr result (message.new ≡ message.old) }
{
    let authorities = message.authorities.len();
    add_records(&mut message.authorities, &mut other.authorities)?;
    match add_records(&mut message.additionals, &mut other.additionals) {
        Ok(()) => Ok(()),
        Err(error) => {
            truncate(&mut message.authorities, authorities);
            Err(error)
        }
    }
}

/// Moves the records of a section to the end of another one, which stays as it is if memory runs out.
fn add_records(
    section: &mut Sequence<Record>,
    other: &mut Sequence<Record>,
) -> Result<(), AllocError>
    ensures ok { OnOk result (section.new ≡ section.old ++ other.old) }
    ensures err { OnErr result (section.new ≡ section.old) }
{
    let mut records = other.take().into_vec();
    move_records(section, &mut records)
}

/// Moves records to the end of a section, which stays as it is if memory runs out.
fn move_records(section: &mut Sequence<Record>, records: &mut Vec<Record>) -> Result<(), AllocError>
    ensures ok { OnOk result (section.new ≡ section.old ++ records.old.items) }
    ensures err { OnErr result (section.new ≡ section.old) }
{
    let mut all = section.take().into_vec();
    let result = all.append(records);
    *section = Sequence::from_vec(all);
    result
}

/// Keeps the first records of a section.
fn truncate(section: &mut Sequence<Record>, count: usize)
    ensures { section.new ≡ take count section.old }
{
    let mut records = section.take().into_vec();
    records.truncate(count);
    *section = Sequence::from_vec(records);
}

/// Returns `true` if a record has an address.
fn is_address_of(address: IpAddr, answer: &Record) -> bool
    ensures { result ≡ is_address_of address answer.now }
{
    match answer.rdata.ip_addr() {
        Some(other) => same_address(address, other),
        None => false,
    }
}

/// Returns `true` if addresses are of one family and have the same octets or segments.
fn same_address(address: IpAddr, other: IpAddr) -> bool
    ensures { result ≡ same_address address other }
{
    match (address, other) {
        (IpAddr::V4(address), IpAddr::V4(other)) => address.octets() == other.octets(),
        (IpAddr::V6(address), IpAddr::V6(other)) => address.segments() == other.segments(),
        _ => false,
    }
}
