//! The first records of each owner with a property.

ghost use Rattle.std.specs.Prelude.{◌≡◌, IfOk, OnOk, option_copied};
ghost use Rattle.zone_lines.specs.warnings.Places.{ArePlaces, HasNoted, has_trait, is_alias, joins_alias, name_server_of, name_with, place_of};

use crate::warnings::text::{is_dmarc, is_spf};
use crate::{EntryLine, RecordLine};
use dns_data::RData;
use dns_names::Name;
use std::alloc::{AllocError, Global};
use std::collections::HashMap;

/// A property of a record by itself.
#[derive(Clone, Copy, Debug, PartialEq, Eq)]
pub(crate) enum Trait {
    /// It may not be beside a CNAME record.
    NotBesideAlias,
    Address,
    NameServer,
    /// It names a name server, by whose name it is found.
    Target,
    Spf,
    Dmarc,
}

/// The place of the first record of each owner, or for each target, up to ASCII case, that has a property. It is found in a
/// time that does not grow with the number of records.
pub(crate) struct Places {
    first: HashMap<Name, usize>,
}

impl Drop for Places {
    fn drop(self) {
        let Places { first } = self;
        drop(first);
    }
}

impl Places {
    /// Finds the places of the records with a property, by their owners, or by their targets.
    pub(crate) fn of(
        alloc: Global,
        property: Trait,
        entries: &[EntryLine],
    ) -> Result<Places, AllocError>
        ensures { IfOk result (λ places. ArePlaces places property entries.now) }
    {
        let mut first = HashMap::new(alloc);
        for (place, entry) in entries.iter().enumerate() {
            match name_with(property, entry) {
                Some(name) => note(&mut first, name, place)?,
                None => continue,
            }
        }
        Ok(Places { first })
    }

    /// Returns the place of an owner.
    pub(crate) fn get(&self, owner: &Name) -> Option<usize>
        ensures { result ≡ place_of self.now owner.now }
    {
        self.first.get(owner).copied()
    }
}

/// Returns the name by which an entry's record is found, if that has a property.
fn name_with(property: Trait, entry: &EntryLine) -> Option<&Name>
    ensures { option_copied result ≡ name_with property entry.now }
{
    match (property, entry) {
        (Trait::Target, EntryLine::Record(record_line)) => name_server_of(&record_line.rdata),
        (property, EntryLine::Record(record_line)) if has_trait(property, record_line) => Some(
            &record_line.owner,
        ),
        _ => None,
    }
}

/// Returns the name server that data names.
fn name_server_of(rdata: &RData) -> Option<&Name>
    ensures { option_copied result ≡ name_server_of rdata.now }
{
    match rdata {
        RData::NS(ns) => Some(&ns.0),
        _ => None,
    }
}

/// Enters the place of an owner, unless it has one.
fn note(first: &mut HashMap<Name, usize>, owner: &Name, place: usize) -> Result<(), AllocError>
    ensures { OnOk result (HasNoted first.old owner.now place first.new) }
{
    if first.contains_key(owner) {
        return Ok(());
    }
    first.insert(owner.clone()?, place)?;
    Ok(())
}

/// Returns `true` if a record has a property.
pub(crate) fn has_trait(property: Trait, record_line: &RecordLine) -> bool
    ensures { result ≡ has_trait property record_line.now }
{
    match property {
        Trait::NotBesideAlias => !is_alias(&record_line.rdata) && !joins_alias(&record_line.rdata),
        Trait::Address => matches!(&record_line.rdata, RData::A(_) | RData::AAAA(_)),
        Trait::NameServer | Trait::Target => matches!(&record_line.rdata, RData::NS(_)),
        Trait::Spf => is_spf(&record_line.rdata),
        Trait::Dmarc => is_dmarc(record_line),
    }
}

/// Returns `true` if data is a CNAME.
pub(crate) fn is_alias(rdata: &RData) -> bool
    ensures { result ≡ is_alias rdata.now }
{
    matches!(rdata, RData::CNAME(_))
}

/// Returns `true` if data may be beside a CNAME record: in a signed zone RRSIG and NSEC are, and KEY may be (RFC 4035 section 2.5).
fn joins_alias(rdata: &RData) -> bool
    ensures { result ≡ joins_alias rdata.now }
{
    match rdata {
        RData::Unknown { code, rdata: _ } => matches!(u16::from(*code), 25 | 46 | 47),
        _ => false,
    }
}
