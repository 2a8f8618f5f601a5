//! Iterators over the records of a set.

ghost use Rattle.std.specs.Prelude.{◌≡◌, ◌==◌, length};
ghost use Rattle.std.specs.Iterator.{YieldsFirstRef, item_count};
ghost use Rattle.dns_records.specs.RrsetRecords.{records_left};

use crate::record::Record;

/// An iterator over the records of a set, in their order.
#[derive(Drop)]
pub enum RrsetRecords<'a> {
    /// No records.
    Empty,
    /// Records without signatures.
    RecordsOnly(&'a [Record]),
}

impl<'a> RrsetRecords<'a> {
    /// Iterates over records.
    pub fn new(records: &'a [Record]) -> RrsetRecords<'a>
        ensures { records_left result ≡ records.now }
    {
        if records.is_empty() {
            return RrsetRecords::Empty;
        }
        RrsetRecords::RecordsOnly(records)
    }

    /// Returns the number of records left.
    fn count_left(&self) -> usize
        ensures { result ≡ length (records_left self.now) }
    {
        match self {
            RrsetRecords::Empty => 0,
            RrsetRecords::RecordsOnly(records) => records.len(),
        }
    }

    /// Returns `true` if no records are left.
    pub fn is_empty(&self) -> bool
        ensures { result ≡ (length (records_left self.now) == 0) }
    {
        self.count_left() == 0
    }
}

impl<'a> Iterator for RrsetRecords<'a> {
    type Item = &'a Record;

    ghost next_gives = { YieldsFirstRef records_left };

    ghost remaining = { item_count records_left };

    fn next(&mut self) -> Option<&'a Record> {
        let RrsetRecords::RecordsOnly(records) = self else {
            return None;
        };
        let (first, others) = records.split_first()?;
        *self = RrsetRecords::RecordsOnly(others);
        Some(first)
    }

    fn size_hint(&self) -> (usize, Option<usize>) {
        (self.count_left(), Some(self.count_left()))
    }
}

impl<'a> ExactSizeIterator for RrsetRecords<'a> {
    fn len(&self) -> usize {
        self.count_left()
    }
}
