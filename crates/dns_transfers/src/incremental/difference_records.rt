//! The records of differences, in the order of an incremental transfer (RFC 1995 section 4).

ghost use Rattle.std.specs.Prelude.{◌≡◌, ◌<◌, [], true, false};
ghost use Rattle.dns_transfers.specs.Records.{IsNext};
ghost use Rattle.dns_transfers.specs.incremental.DifferenceRecords.{incremental_records, owned_by, parts_left, remaining};

use crate::{LentRecord, RecordSource};
use dns_differences::Difference;
use dns_names::Name;
use dns_records::Record;

/// The records of an incremental transfer: the SOA record of the newest version, for each difference those that are deleted and
/// those that are added, and the SOA record again.
#[derive(Drop)]
pub struct DifferenceRecords<'a> {
    origin: &'a Name,
    /// The SOA record, until it was returned for the first time.
    first: &'a [Record],
    /// What is left of the part under way.
    records: &'a [Record],
    /// The records that the difference under way adds, until that part begins.
    added: &'a [Record],
    /// The differences after it.
    differences: &'a [Difference],
    /// The SOA record, until it was returned for the last time.
    last: &'a [Record],
}

impl<'a> DifferenceRecords<'a> {
    /// Iterates over the records of differences to the version with this SOA record. Without differences, it is returned once.
    pub fn new(
        origin: &'a Name,
        soa: &'a [Record],
        differences: &'a [Difference],
    ) -> DifferenceRecords<'a>
        ensures { remaining result
            ≡ incremental_records (owned_by origin.now soa.now) differences.now }
    {
        let last: &[Record] = if differences.is_empty() { &[] } else { soa };
        DifferenceRecords {
            origin,
            first: soa,
            records: &[],
            added: &[],
            differences,
            last,
        }
    }

    /// Returns the next record of the differences, or the SOA record after them.
    fn next_after_first(&mut self) -> Option<LentRecord<'a>>
        requires { self.old.first.now ≡ [] }
        ensures { IsNext (remaining self.old) result (remaining self.new) }
    {
        while self.records.is_empty() {
            if !self.advance() {
                return self.next_last();
            }
        }
        let (first, others) = self.records.split_first()?;
        self.records = others;
        Some(LentRecord::new(&first.name, first))
    }

    /// Goes on to the next part when one is over. Returns `false` if no part is left.
    fn advance(&mut self) -> bool
        requires { self.old.records.now ≡ [] }
        ensures same { remaining self.new ≡ remaining self.old }
        ensures first { self.new.first.now ≡ self.old.first.now }
        ensures records { result ≡ false → self.new.records.now ≡ [] }
        ensures added { result ≡ false → self.new.added.now ≡ [] }
        ensures differences { result ≡ false → self.new.differences.now ≡ [] }
        ensures fewer { result ≡ true → parts_left self.new < parts_left self.old }
    {
        if !self.added.is_empty() {
            self.records = self.added;
            self.added = &[];
            return true;
        }
        let Some((first, others)) = self.differences.split_first() else {
            return false;
        };
        self.records = first.deleted.as_slice();
        self.added = first.added.as_slice();
        self.differences = others;
        true
    }

    /// Returns the SOA record after the differences, once.
    fn next_last(&mut self) -> Option<LentRecord<'a>>
        requires first { self.old.first.now ≡ [] }
        requires records { self.old.records.now ≡ [] }
        requires added { self.old.added.now ≡ [] }
        requires differences { self.old.differences.now ≡ [] }
        ensures { IsNext (remaining self.old) result (remaining self.new) }
    {
        let (soa, others) = self.last.split_first()?;
        self.last = others;
        Some(LentRecord::new(self.origin, soa))
    }
}

impl<'a> RecordSource<'a> for DifferenceRecords<'a> {
    ghost use Rattle.dns_transfers.specs.incremental.DifferenceRecords.{remaining};

    ghost left = { remaining };

    fn next(&mut self) -> Option<LentRecord<'a>> {
        match self.first.split_first() {
            Some((soa, others)) => {
                self.first = others;
                Some(LentRecord::new(self.origin, soa))
            }
            None => self.next_after_first(),
        }
    }

    fn copied(&self) -> DifferenceRecords<'a> {
        DifferenceRecords {
            origin: self.origin,
            first: self.first,
            records: self.records,
            added: self.added,
            differences: self.differences,
            last: self.last,
        }
    }
}
