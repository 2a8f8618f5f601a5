//! What is known of a zone as a whole.

ghost use Rattle.std.specs.Prelude.{◌≡◌, IfOk, map};
ghost use Rattle.zone_lines.specs.warnings.Survey.{Surveys, facts_view, has_top_entry, lacks_origin, lacks_server, may_serve, names_top, some_serve};

use crate::EntryLine;
use crate::warnings::names::{doubled_origin, has_top_name};
use crate::warnings::places::{Places, Trait, has_trait};
use crate::warnings::text::has_directive;
use dns_names::Name;
use std::alloc::{AllocError, Global};

/// The number of the type NS (RFC 1035 section 3.2.2).
const NS: u16 = 2;

/// What is known of a zone besides its records.
#[derive(Clone, Copy)]
pub struct ZoneFacts<'a> {
    pub origin: &'a Name,
    /// Whether the origin was given, and not found in the text.
    pub is_given: bool,
    /// Whether the zone is served plainly: wildcards are not expanded, and delegations not followed.
    pub is_plain: bool,
    /// The time at which signatures must not have expired, in seconds since 1970 and modulo 2^32.
    pub now: Option<u32>,
    /// The lines of each text.
    pub texts: &'a [Vec<&'a str>],
}

/// What is known of a zone as a whole.
#[derive(Drop)]
pub(crate) struct Survey {
    /// The origin with its labels once more.
    pub(crate) doubled: Option<Name>,
    /// Whether the root completes names, and some name has been completed so.
    pub(crate) lacks_origin: bool,
    /// Whether the origin has no NS record, and no entry with a fault may be meant as one.
    pub(crate) lacks_server: bool,
    pub(crate) others: Places,
    pub(crate) addresses: Places,
    pub(crate) cuts: Places,
    /// By the names of name servers.
    pub(crate) servers: Places,
    pub(crate) spf: Places,
    pub(crate) dmarc: Places,
}

impl Survey {
    /// Surveys the records of a zone.
    pub(crate) fn new(
        alloc: Global,
        facts: &ZoneFacts<'_>,
        entries: &[EntryLine],
    ) -> Result<Survey, AllocError>
        ensures { IfOk result (λ survey. Surveys survey (facts_view facts.entry.now) entries.now) }
    {
        Ok(Survey {
            doubled: doubled_origin(facts.origin)?,
            lacks_origin: lacks_origin(facts, entries),
            lacks_server: lacks_server(facts, entries),
            others: Places::of(alloc, Trait::NotBesideAlias, entries)?,
            addresses: Places::of(alloc, Trait::Address, entries)?,
            cuts: Places::of(alloc, Trait::NameServer, entries)?,
            servers: Places::of(alloc, Trait::Target, entries)?,
            spf: Places::of(alloc, Trait::Spf, entries)?,
            dmarc: Places::of(alloc, Trait::Dmarc, entries)?,
        })
    }
}

/// Returns `true` if the root completes names, and some name in data was completed so.
fn lacks_origin(facts: &ZoneFacts<'_>, entries: &[EntryLine]) -> bool
    ensures { result ≡ lacks_origin (facts_view facts.entry.now) entries.now }
{
    !facts.is_given && !has_directive(facts.texts) && names_top(entries)
}

/// Returns `true` if the root completed some name in data.
fn names_top(entries: &[EntryLine]) -> bool
    ensures { result ≡ names_top entries.now }
{
    entries.iter().any(|entry| has_top_entry(entry))
}

/// Returns `true` if an entry is a record with a name in its data that the root completed.
fn has_top_entry(entry: &EntryLine) -> bool
    ensures { result ≡ has_top_entry entry.now }
{
    match entry {
        EntryLine::Record(record_line) => {
            record_line.has_dotless_name && has_top_name(&record_line.rdata)
        }
        EntryLine::Fault(_) => false,
    }
}

/// Returns `true` if a zone that is not served plainly has no NS record at its origin, and no entry that may be meant as one.
fn lacks_server(facts: &ZoneFacts<'_>, entries: &[EntryLine]) -> bool
    ensures { result ≡ lacks_server (facts_view facts.entry.now) entries.now }
{
    !facts.is_plain && !some_serve(facts.origin, entries)
}

/// Returns `true` if some entry is an NS record of an origin, or has a fault and may be meant as one.
fn some_serve(origin: &Name, entries: &[EntryLine]) -> bool
    ensures { result ≡ some_serve origin.now entries.now }
{
    entries.iter().any(|entry| may_serve(origin, entry))
}

/// Returns `true` if an entry is an NS record of an origin, or has a fault and states no other type.
fn may_serve(origin: &Name, entry: &EntryLine) -> bool
    ensures { result ≡ may_serve origin.now entry.now }
{
    match entry {
        EntryLine::Record(record_line) => {
            has_trait(Trait::NameServer, record_line) && origin.eq_ignore_root(&record_line.owner)
        }
        EntryLine::Fault(fault) => match fault.record_type {
            Some(record_type) => u16::from(record_type) == NS,
            None => true,
        },
    }
}
