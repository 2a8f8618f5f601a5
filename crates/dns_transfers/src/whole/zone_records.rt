//! The records of a zone, in the order of a transfer (RFC 5936 section 2.2).

ghost use Rattle.std.specs.Prelude.{◌≡◌, ◌<◌, ◌∷◌, [], true, false, List};
ghost use Rattle.dns_records.specs.RecordSet.{RecordSetValue};
ghost use Rattle.dns_zone.specs.Lookup.{AreSetsOf};
ghost use Rattle.dns_transfers.specs.whole.ZoneRecords.{remaining, sets_left, transfer_records};

use crate::{LentRecord, RecordSource};
use dns_names::Name;
use dns_records::Record;
use dns_zone::{Sets, Zone};
use std::alloc::AllocError;

/// The records of a zone: its SOA record, each other record once, and the SOA record again.
#[derive(Drop)]
pub struct ZoneRecords<'a> {
    origin: &'a Name,
    /// The owner of the set under way.
    owner: &'a Name,
    /// What is left of the set under way.
    records: &'a [Record],
    /// The sets after it.
    sets: Sets<'a>,
    /// The SOA record, until it was returned for the last time.
    last: &'a [Record],
}

impl<'a> ZoneRecords<'a> {
    /// Iterates over the records of a zone.
    pub fn new(zone: &'a Zone) -> ZoneRecords<'a>
        ensures { (sets : List RecordSetValue) × (AreSetsOf zone.now sets
            × (remaining result ≡ transfer_records zone.now.origin sets)) }
    {
        let origin = zone.origin();
        let mut sets = zone.sets();
        let start = first_records(&mut sets);
        ZoneRecords {
            origin,
            owner: origin,
            records: start,
            sets,
            last: start,
        }
    }

    /// Goes on to the next set when one is over, and at last to the SOA record. Returns `false` if nothing is left.
    fn advance(&mut self) -> bool
        requires { self.old.records.now ≡ [] }
        ensures same { remaining self.new ≡ remaining self.old }
        ensures over { result ≡ false → remaining self.new ≡ [] }
        ensures fewer { result ≡ true → sets_left self.new < sets_left self.old }
    {
        match self.sets.next() {
            Some(set) => {
                self.owner = set.name();
                self.records = set.as_slice();
                true
            }
            None => self.close(),
        }
    }

    /// Goes on to the SOA record at the end. Returns `false` if it was returned.
    fn close(&mut self) -> bool
        requires records { self.old.records.now ≡ [] }
        requires sets { self.old.sets ≡ [] }
        ensures same { remaining self.new ≡ remaining self.old }
        ensures over { result ≡ false → remaining self.new ≡ [] }
        ensures fewer { result ≡ true → sets_left self.new < sets_left self.old }
    {
        if self.last.is_empty() {
            return false;
        }
        self.owner = self.origin;
        self.records = self.last;
        self.last = &[];
        true
    }
}

impl<'a> RecordSource<'a> for ZoneRecords<'a> {
    ghost use Rattle.dns_transfers.specs.whole.ZoneRecords.{remaining};

    ghost left = { remaining };

    fn next(&mut self) -> Option<LentRecord<'a>> {
        while self.records.is_empty() {
            if !self.advance() {
                return None;
            }
        }
        let (first, others) = self.records.split_first()?;
        self.records = others;
        Some(LentRecord::new(self.owner, first))
    }

    fn copied(&self) -> ZoneRecords<'a> {
        let sets = match self.sets.clone() {
            Ok(sets) => sets,
            // A copy of the iterator takes no memory.
            Err(AllocError) => unreachable!(),
        };
        ZoneRecords {
            origin: self.origin,
            owner: self.owner,
            records: self.records,
            sets,
            last: self.last,
        }
    }
}

/// Returns the records of the first set, and removes it.
fn first_records<'a>(sets: &mut Sets<'a>) -> &'a [Record]
    ensures some { (set : RecordSetValue) (more : List RecordSetValue) → sets.old ≡ set ∷ more
        → (result.now ≡ set.records) × (sets.new ≡ more) }
{
    match sets.next() {
        Some(set) => set.as_slice(),
        None => &[],
    }
}
