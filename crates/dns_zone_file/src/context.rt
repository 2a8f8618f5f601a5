//! What the entries of a zone file determine for those after them, and the records that they add (RFC 1035 section 5.1, RFC
//! 2308 section 4).

ghost use Rattle.std.specs.Prelude.{◌≡◌, ◌+◌, ◌-◌, ◌*◌, ◌<◌, ◌≤◌, ◌^◌, map, drop, Ok, Err, None, IfOk, IfSome, IfErr, OnOk, true, false};
ghost use Rattle.dns_text.specs.Token.{lexeme};
ghost use Rattle.dns_data.specs.rdata.{data_type};
ghost use Rattle.dns_zone_file.specs.Context.{soa_of};
ghost use Rattle.dns_zone_file.specs.RecordSets.{IsNamedType};
ghost use Rattle.dns_zone_file.specs.internal.Error.{IsFault};

use crate::data::parse_rdata;
use crate::entry::{Entry, Inclusion, entry_of, parse_default_ttl, parse_inclusion, parse_origin};
use crate::error::{EntryError, EntryFault};
use crate::fields::{parse_fields, parse_name};
use crate::generate::{Generation, generate_arguments, line_text, line_tokens, parse_generation};
use crate::record_sets::RecordSets;
use crate::templates::{GenerateFault, expand};
use crate::types::Types;
use dns_data::RData;
use dns_names::Name;
use dns_records::Record;
use dns_text::Token;
use dns_wire::DNSClass;
use std::alloc::{AllocError, Global};
use std::mem;

/// The owner and the minimum of an SOA record.
#[derive(Drop)]
pub struct StartOfAuthority {
    /// The owner.
    pub owner: Name,
    /// The TTL of negative answers, in seconds.
    pub minimum: u32,
}

/// What the entries so far determine for the next ones, and their records.
#[derive(Drop)]
pub struct Context {
    /// Which types the file may have.
    pub types: Types,
    /// Completes relative names.
    pub origin: Name,
    /// The owner of the last record.
    pub owner: Option<Name>,
    /// The TTL of the last `$TTL`, in seconds.
    pub default_ttl: Option<u32>,
    /// The last TTL of a record that was stated, in seconds.
    pub last_ttl: Option<u32>,
    /// The class of the last record, IN before any.
    pub last_class: DNSClass,
    /// The records.
    pub sets: RecordSets,
    /// That of the first SOA record.
    pub first_soa: Option<StartOfAuthority>,
}

/// What an included text does not change in the context of the text that includes it.
#[derive(Drop)]
pub struct SavedContext {
    origin: Name,
    owner: Option<Name>,
    default_ttl: Option<u32>,
    last_ttl: Option<u32>,
    last_class: DNSClass,
}

/// A record without its owner, and its TTL if the entry states one.
#[derive(Drop)]
struct ParsedData {
    stated: Option<u32>,
    ttl: u32,
    dns_class: DNSClass,
    rdata: RData,
}

/// A record, and its TTL if the entry states one.
#[derive(Drop)]
pub struct ParsedRecord {
    /// That TTL, in seconds.
    pub stated: Option<u32>,
    /// The record.
    pub parsed: Record,
}

impl Context {
    ghost use Rattle.dns_names.specs.Name.{DomainName};
    ghost use Rattle.dns_zone_file.specs.Context.{included, resumed};
    ghost use Rattle.dns_zone_file.specs.internal.Context.{saved_of, restored};
    ghost use Rattle.dns_zone_file.specs.Parsing.{context_in};

    /// Creates the context at the start of a file.
    pub fn new(alloc: Global, types: Types, origin: Name) -> Context
        ensures { result ≡ context_in types origin }
    {
        Context {
            types,
            origin,
            owner: None,
            default_ttl: None,
            last_ttl: None,
            last_class: DNSClass::IN,
            sets: RecordSets::new(alloc),
            first_soa: None,
        }
    }

    /// Sets the origin at the start of an included text, and returns what [`resume`](Context::resume) restores.
    pub fn enter(&mut self, origin: Name) -> Result<SavedContext, AllocError>
        ensures saved { IfOk result (λ saved. saved ≡ saved_of self.old) }
        ensures ok { OnOk result (self.new ≡ included self.old origin) }
    {
        let owner = clone_name(&self.owner)?;
        Ok(SavedContext {
            origin: mem::replace(&mut self.origin, origin),
            owner,
            default_ttl: self.default_ttl,
            last_ttl: self.last_ttl,
            last_class: self.last_class,
        })
    }

    /// Restores origin, owner, TTLs and class after an included text.
    pub fn resume(&mut self, saved: SavedContext)
        ensures { self.new ≡ restored saved self.old }
    {
        self.origin = saved.origin;
        self.owner = saved.owner;
        self.default_ttl = saved.default_ttl;
        self.last_ttl = saved.last_ttl;
        self.last_class = saved.last_class;
    }
}

impl Context {
    ghost use Rattle.dns_zone_file.specs.Context.{owner_of, ttl_for, default_class, ReadsRecord, RefusesRecord};
    ghost use Rattle.dns_zone_file.specs.internal.Context.{ReadsData, RefusesData, minimum_for};

    /// Parses the owner of a record.
    pub fn parse_owner(&self, alloc: Global, tokens: &[Token<'_>]) -> Result<Name, EntryError>
        ensures ok { IfOk result (λ name. owner_of self.now (map lexeme tokens.now) ≡ Ok name) }
        ensures refused { IfErr result (IsFault (λ fault.
            owner_of self.now (map lexeme tokens.now) ≡ Err fault)) }
    {
        let [token, ..] = tokens else {
            return Err(EntryError::Fault(EntryFault::NoOwner));
        };
        match token {
            Token::Blank => {
                clone_name(&self.owner)?.ok_or(EntryError::Fault(EntryFault::NoOwner))
            }
            _ => parse_name(alloc, *token, &self.origin)?.ok_or(EntryError::Fault(
                EntryFault::InvalidOwner,
            )),
        }
    }

    /// Returns the minimum of SOA data, or else that of the first SOA record.
    fn minimum_for(&self, rdata: &RData) -> Option<u32>
        ensures { result ≡ minimum_for self.now rdata.now }
    {
        match rdata {
            RData::SOA(soa) => Some(soa.minimum),
            _ => match &self.first_soa {
                Some(soa) => Some(soa.minimum),
                None => None,
            },
        }
    }

    /// Returns the TTL of a record: the one that is stated, or else that of `$TTL`, the last one stated, or the minimum of
    /// the SOA.
    fn ttl_for(&self, stated: Option<u32>, rdata: &RData) -> Option<u32>
        ensures { result ≡ ttl_for self.now stated rdata.now }
    {
        let minimum = self.minimum_for(rdata);
        stated.or(self.default_ttl).or(self.last_ttl).or(minimum)
    }

    /// Returns the class of a record that states none.
    fn default_class(&self) -> DNSClass
        ensures { result ≡ default_class self.now }
    {
        match self.types {
            Types::Nine => DNSClass::IN,
            Types::All => self.last_class,
        }
    }

    /// Parses a record behind its owner.
    fn parse_data(&self, alloc: Global, tokens: &[Token<'_>]) -> Result<ParsedData, EntryError>
        ensures ok { IfOk result (ReadsData self.now (map lexeme tokens.now)) }
        ensures named { IfOk result (λ d. IsNamedType (data_type d.rdata)) }
        ensures refused { IfErr result (IsFault (RefusesData self.now (map lexeme tokens.now))) }
    {
        let fields = parse_fields(self.types, tokens)?;
        let rdata = parse_rdata(
            alloc,
            self.types,
            fields.record_type,
            &tokens[fields.count..],
            &self.origin,
        )?;
        match self.ttl_for(fields.ttl, &rdata) {
            Some(ttl) => Ok(ParsedData {
                stated: fields.ttl,
                ttl,
                dns_class: fields.dns_class.unwrap_or(self.default_class()),
                rdata,
            }),
            None => Err(EntryError::Fault(EntryFault::NoTtl)),
        }
    }

    /// Parses the entry of a record.
    pub fn parse_record(
        &self,
        alloc: Global,
        tokens: &[Token<'_>],
    ) -> Result<ParsedRecord, EntryError>
        ensures ok { IfOk result (λ p.
            ReadsRecord self.now (map lexeme tokens.now) p.stated p.parsed) }
        ensures named { IfOk result (λ p. IsNamedType (data_type p.parsed.rdata)) }
        ensures refused { IfErr result (IsFault (RefusesRecord self.now (map lexeme tokens.now))) }
    {
        let owner = self.parse_owner(alloc, tokens)?;
        let behind = self.parse_data(alloc, &tokens[1..])?;
        Ok(ParsedRecord {
            stated: behind.stated,
            parsed: Record {
                name: owner,
                dns_class: behind.dns_class,
                ttl: behind.ttl,
                rdata: behind.rdata,
            },
        })
    }
}

impl Context {
    ghost use Rattle.dns_zone_file.specs.Context.{AddsRecord, RefusesRecord, after_record};
    ghost use Rattle.dns_zone_file.specs.internal.Context.{noted};
    ghost use Rattle.dns_zone_file.specs.internal.Entry.{inclusion_view};
    ghost use Rattle.dns_zone_file.specs.RecordSets.{has_other_class};
    ghost use Rattle.dns_zone_file.specs.Entry.{entry_of, record_entry};
    ghost use Rattle.dns_zone_file.specs.Generate.{AddsLine, AddsNumber, Generates};
    ghost use Rattle.dns_zone_file.specs.internal.Generate.{generation_view};
    ghost use Rattle.dns_zone_file.specs.Parsing.{Applies, IncludesText, RefusesEntry};
    ghost use Rattle.dns_zone_file.specs.templates.Range.{greatest};

    /// Keeps what a record determines for the next entries, except the record itself.
    pub fn note_record(&mut self, stated: Option<u32>, parsed: &Record) -> Result<(), AllocError>
        ensures { OnOk result (self.new ≡ noted self.old stated parsed.now) }
    {
        if self.first_soa.is_none() {
            self.first_soa = start_of_authority(parsed)?;
        }
        self.owner = Some(parsed.name.clone()?);
        self.last_ttl = stated.or(self.last_ttl);
        self.last_class = parsed.dns_class;
        Ok(())
    }

    /// Adds a record, of the class of the others of its set.
    fn insert_record(&mut self, added: ParsedRecord) -> Result<(), EntryError>
        requires { IsNamedType (data_type added.parsed.rdata) }
        ensures fits { OnOk result (has_other_class self.old.sets added.parsed ≡ false) }
        ensures ok { OnOk result (self.new ≡ after_record self.old added.stated added.parsed) }
        ensures refused { IfErr result (IsFault (λ fault. (fault ≡ EntryFault.ClassMismatch)
            × (has_other_class self.old.sets added.parsed ≡ true))) }
    {
        if self.sets.has_other_class(&added.parsed) {
            return Err(EntryError::Fault(EntryFault::ClassMismatch));
        }
        self.note_record(added.stated, &added.parsed)?;
        self.sets.insert(added.parsed)?;
        Ok(())
    }

    /// Parses the entry of a record, and adds the record.
    fn add_record(&mut self, alloc: Global, tokens: &[Token<'_>]) -> Result<(), EntryError>
        ensures ok { OnOk result (AddsRecord self.old (map lexeme tokens.now) self.new) }
        ensures refused { IfErr result (IsFault (RefusesRecord self.old (map lexeme tokens.now))) }
    {
        let added = self.parse_record(alloc, tokens)?;
        self.insert_record(added)
    }

    /// Adds the record of a line that a `$GENERATE` makes.
    fn add_line(&mut self, alloc: Global, line: &[u8]) -> Result<(), EntryError>
        ensures ok { OnOk result (AddsLine self.old line.now (Ok self.new)) }
        ensures refused { IfErr result (IsFault (λ fault. AddsLine self.old line.now (Err fault))) }
    {
        let text = line_text(line)?;
        let tokens = line_tokens(alloc, text, self.types)?;
        self.add_record(alloc, tokens.as_slice())
    }

    /// Adds the record of a number of a `$GENERATE`.
    fn add_number(&mut self, alloc: Global, template: &[u8], number: u32) -> Result<(), EntryError>
        requires { number < 2 ^ 31 }
        ensures ok { OnOk result (AddsNumber self.old template.now number (Ok self.new)) }
        ensures refused { IfErr result (IsFault (λ fault.
            AddsNumber self.old template.now number (Err fault))) }
    {
        match expand(alloc, template, number) {
            Ok(line) => self.add_line(alloc, line.as_slice()),
            // Memory for the text was refused.
            Err(GenerateFault::Memory) => Err(EntryError::Memory),
            Err(fault) => Err(EntryError::Fault(EntryFault::InvalidGenerate(fault))),
        }
    }

    /// Adds the records of a `$GENERATE`.
    fn add_generated(&mut self, alloc: Global, generation: &Generation) -> Result<(), EntryError>
        requires { generation.now.numbers.start
            + (generation.now.numbers.count - 1) * generation.now.numbers.step ≤ greatest }
        ensures ok { OnOk result
            (Generates (generation_view generation.now) self.old (Ok self.new)) }
        ensures refused { IfErr result (IsFault (λ fault.
            Generates (generation_view generation.now) self.old (Err fault))) }
    {
        for place in 0..generation.numbers.count {
            let number = generation.numbers.number(place);
            self.add_number(alloc, generation.template.as_slice(), number)?;
        }
        Ok(())
    }

    /// Adds the record of an entry, or those of a `$GENERATE`.
    fn add_records(&mut self, alloc: Global, tokens: &[Token<'_>]) -> Result<(), EntryError>
        ensures ok { OnOk result (entry_of (map lexeme tokens.now) ≡ record_entry
            → Applies self.old (map lexeme tokens.now) self.new) }
        ensures refused { IfErr result (IsFault (λ fault.
            entry_of (map lexeme tokens.now) ≡ record_entry
            → RefusesEntry self.old (map lexeme tokens.now) fault)) }
    {
        match generate_arguments(self.types, tokens) {
            Some(arguments) => {
                let generation = parse_generation(alloc, arguments)?;
                self.add_generated(alloc, &generation)
            }
            None => self.add_record(alloc, tokens),
        }
    }

    /// Applies an entry, unless it includes a text, which is returned. After an error the context is not to be used.
    pub(crate) fn apply<'a>(
        &mut self,
        alloc: Global,
        tokens: &[Token<'a>],
    ) -> Result<Option<Inclusion<'a>>, EntryError>
        ensures applied { result ≡ Ok None → Applies self.old (map lexeme tokens.now) self.new }
        ensures includes { IfOk result (λ found. IfSome found (λ i.
            IncludesText self.old (map lexeme tokens.now) (inclusion_view i))) }
        ensures unchanged { IfOk result (λ found. IfSome found (λ _. self.new ≡ self.old)) }
        ensures refused { IfErr result (IsFault (RefusesEntry self.old (map lexeme tokens.now))) }
    {
        match entry_of(tokens) {
            Entry::Nothing => Ok(None),
            Entry::Origin(arguments) => {
                let origin = parse_origin(alloc, arguments, &self.origin)?;
                self.origin = origin;
                Ok(None)
            }
            Entry::Ttl(arguments) => {
                let ttl = parse_default_ttl(arguments)?;
                self.default_ttl = Some(ttl);
                Ok(None)
            }
            Entry::Include(arguments) => {
                let inclusion = parse_inclusion(alloc, arguments, &self.origin)?;
                Ok(Some(inclusion))
            }
            Entry::Record => {
                self.add_records(alloc, tokens)?;
                Ok(None)
            }
        }
    }
}

/// Copies a name, if there is one.
fn clone_name(name: &Option<Name>) -> Result<Option<Name>, AllocError>
    ensures { IfOk result (λ copy. copy ≡ name.now) }
{
    match name {
        Some(name) => Ok(Some(name.clone()?)),
        None => Ok(None),
    }
}

/// Copies the owner and the minimum of an SOA record.
fn start_of_authority(parsed: &Record) -> Result<Option<StartOfAuthority>, AllocError>
    ensures { IfOk result (λ soa. soa ≡ soa_of parsed.now) }
{
    match &parsed.rdata {
        RData::SOA(soa) => Ok(Some(StartOfAuthority {
            owner: parsed.name.clone()?,
            minimum: soa.minimum,
        })),
        _ => Ok(None),
    }
}
