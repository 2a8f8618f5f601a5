//! The records of a zone file, with their lines, and the entries that are none.

use dns_data::RData;
use dns_names::Name;
use dns_wire::{DNSClass, RecordType};
use dns_zone_file::ZoneFileError;

/// Where an entry begins.
#[derive(Clone, Copy, Debug, PartialEq, Eq)]
pub struct Position {
    /// The text: 0 for that of the file, and *n* for the *n*-th of those to include.
    pub source: usize,
    /// The line of the text, from 1.
    pub line: usize,
}

/// What the records above are to a record: those of its owner and type.
#[derive(Clone, Copy, Debug, PartialEq, Eq)]
pub struct Earlier {
    /// Whether there is one.
    pub exists: bool,
    /// Whether the set of these records has another TTL.
    pub has_other_ttl: bool,
    /// Whether the set has no more records with this one: it has equal data already, or one record replaces the other.
    pub is_no_more: bool,
}

/// A record of a zone file.
pub struct RecordLine {
    /// Where its entry begins.
    pub at: Position,
    pub owner: Name,
    /// The TTL, in seconds: the one that is stated, or the default of its place.
    pub ttl: u32,
    pub dns_class: DNSClass,
    pub rdata: RData,
    /// Whether a name in the data is written without a dot, so that the origin completed it.
    pub has_dotless_name: bool,
    pub earlier: Earlier,
}

impl Drop for RecordLine {
    fn drop(self) {
        let RecordLine {
            at: _at,
            owner,
            ttl: _ttl,
            dns_class: _dns_class,
            rdata,
            has_dotless_name: _has_dotless_name,
            earlier: _earlier,
        } = self;
        drop(owner);
        drop(rdata);
    }
}

/// An entry of a zone file that has a fault, or where a text has one.
pub struct FaultLine {
    /// The text, as that of a [`Position`].
    pub source: usize,
    /// The fault, with its line in that text, from 1. It is not `Memory`.
    pub error: ZoneFileError,
    /// The token at fault, as it is written, if it is known: a string without its quotes.
    pub word: Option<String>,
    /// The type that the entry states, if it can be read.
    pub record_type: Option<RecordType>,
    /// Whether the entry may be meant as an SOA record.
    pub may_be_start: bool,
    /// The origin of the zone, if the entry states the type SOA, or may be meant so and cannot be read: its owner, or else the
    /// origin that completes names there, unless that is the root.
    pub apex: Option<Name>,
}

impl Drop for FaultLine {
    fn drop(self) {
        let FaultLine {
            source: _source,
            error,
            word,
            record_type: _record_type,
            may_be_start: _may_be_start,
            apex,
        } = self;
        drop(error);
        drop(word);
        drop(apex);
    }
}

/// What is read of an entry of a zone file: its record, or its fault.
#[derive(Drop)]
pub enum EntryLine {
    Record(RecordLine),
    Fault(FaultLine),
}
