//! Where the result of a lookup comes from.

use dns_messages::Query;
use dns_names::{Name, ParseError};
use dns_text::parse_ip;
use dns_wire::RecordType;
use dns_zone_file::Types;
use dns_zone_file::record_texts::{OwnerText, TypeText};
use std::alloc::{AllocError, Global};
use std::{fmt, io};
use stub_client::{SpecialAnswer, special_answer};
use stub_core::names_to_attempt;
use stub_hosts::Hosts;
use stub_link::trace::{Note, RequestNote};
use stub_lookup::NetError;
use stub_run::{Action, Event, EventReply, EventReport};

/// Where the answer to a question comes from.
#[derive(Clone, Copy, Debug, PartialEq, Eq)]
enum Source {
    Server,
    Hosts,
    SpecialName,
    Cache,
}

impl fmt::Display for Source {
    fn fmt<W: fmt::Write>(&self, f: &mut fmt::Formatter<W>) -> fmt::Result {
        match self {
            Source::Server => f.write_str("from the server"),
            Source::Hosts => f.write_str("from the hosts file"),
            Source::SpecialName => f.write_str("a name of special use"),
            Source::Cache => f.write_str("from the cache"),
        }
    }
}

/// Writes where the answer to each question of a lookup comes from, unless the lookup met a fault: for each question a line, as
/// `  a.t. A: from the cache`.
pub(super) fn write_sources<W: io::Write>(
    alloc: Global,
    types: Types,
    hosts: &Hosts,
    notes: &[Note],
    event: &Event,
    told: &EventReport,
    writer: &mut W,
) -> io::Result<()> {
    if !is_answered(told) {
        return Ok(());
    }
    match &event.action {
        Action::Lookup { name, rtype } => {
            write_source(alloc, types, hosts, notes, name, *rtype, writer)
        }
        Action::LookupIp { host } => {
            write_host_sources(alloc, types, hosts, notes, host.as_str(), writer)
        }
        Action::Clear { .. } | Action::ClearAll | Action::Update(_) => Ok(()),
    }
}

/// Returns `true` if an event was answered, and none of its questions ended in a fault.
fn is_answered(told: &EventReport) -> bool {
    if told.faults > 0 {
        return false;
    }
    match &told.reply {
        EventReply::Lookup(Ok(_)) | EventReply::LookupIp(Ok(_)) => true,
        EventReply::Lookup(Err(error)) | EventReply::LookupIp(Err(error)) => {
            matches!(error, NetError::Dns(_))
        }
        EventReply::Cleared(_) | EventReply::Update(_) => false,
    }
}

/// Writes where the addresses of a host come from.
fn write_host_sources<W: io::Write>(
    alloc: Global,
    types: Types,
    hosts: &Hosts,
    notes: &[Note],
    host: &str,
    writer: &mut W,
) -> io::Result<()> {
    if parse_ip(host.as_bytes()).is_some() {
        return writeln!(writer, "  {host}: an address");
    }
    match Name::from_ascii_bytes(alloc, host.as_bytes()) {
        Ok(name) => {
            write_source(alloc, types, hosts, notes, &name, RecordType::AAAA, writer)?;
            write_source(alloc, types, hosts, notes, &name, RecordType::A, writer)
        }
        // There was no memory for the name.
        Err(ParseError::Memory) => Err(io::Error::from(AllocError)),
        Err(_) => Ok(()),
    }
}

/// Writes where the answer to a question comes from.
fn write_source<W: io::Write>(
    alloc: Global,
    types: Types,
    hosts: &Hosts,
    notes: &[Note],
    name: &Name,
    rtype: RecordType,
    writer: &mut W,
) -> io::Result<()> {
    let Some(query) = question_for(alloc, name, rtype)? else {
        return Ok(());
    };
    let source = source_of(alloc, hosts, notes, &query)?;
    let owner = OwnerText { name: query.name() };
    let rtype = TypeText {
        types,
        record_type: rtype,
    };
    writeln!(writer, "  {owner} {rtype}: {source}")
}

/// Returns the question that is asked for a name: without domain and search list, for the name as it is.
fn question_for(
    alloc: Global,
    name: &Name,
    rtype: RecordType,
) -> Result<Option<Query>, AllocError> {
    let mut names = names_to_attempt(alloc, name, 1, None, &[])?;
    match names.pop() {
        Some(name) => Ok(Some(Query::query(name, rtype.canonical()))),
        None => Ok(None),
    }
}

/// Returns where the answer to a question comes from: the server if the question was sent, or else the first of the hosts file, the
/// names of special use and the cache that has it.
fn source_of(
    alloc: Global,
    hosts: &Hosts,
    notes: &[Note],
    query: &Query,
) -> Result<Source, AllocError> {
    if was_sent(alloc, notes, query)? {
        return Ok(Source::Server);
    }
    if hosts.lookup_static_host(query, 0)?.is_some() {
        return Ok(Source::Hosts);
    }
    match special_answer(alloc, query)? {
        SpecialAnswer::Ordinary => Ok(Source::Cache),
        SpecialAnswer::Loopback(_) | SpecialAnswer::Nothing(_) => Ok(Source::SpecialName),
    }
}

/// Returns `true` if a question was sent.
fn was_sent(alloc: Global, notes: &[Note], query: &Query) -> Result<bool, AllocError> {
    for note in notes {
        if let Note::Send { bytes, .. } = note
            && let Some(request) = RequestNote::read(alloc, bytes.as_slice())?
            && request.asks(query)
        {
            return Ok(true);
        }
    }
    Ok(false)
}
