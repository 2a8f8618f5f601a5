//! The records of a section, one after another.

ghost use Rattle.std.specs.Prelude.{◌≡◌, ◌++◌, [], ◌∷◌};
ghost use Rattle.dns_zone.specs.Section.{alias_records, borrowed_record, remaining_records, set_records, IsNext};

use crate::zone::section::{RowRef, SectionTtl};
use dns_names::Name;
use dns_records::Record;

/// An iterator over the records of a section: its aliases, and then the records of its set.
#[derive(Drop)]
pub(crate) struct RowRefs<'s, 'a> {
    aliases: &'s [Option<RowRef<'a>>],
    /// The number of aliases that were returned.
    index: usize,
    owner: &'a Name,
    ttl: SectionTtl,
    records: &'a [Record],
}

impl<'s, 'a> RowRefs<'s, 'a> {
    /// Iterates over aliases, up to the first place without one, and then over the records of a set, with an owner and a
    /// TTL.
    pub(crate) fn new(
        aliases: &'s [Option<RowRef<'a>>],
        owner: &'a Name,
        ttl: SectionTtl,
        records: &'a [Record],
    ) -> RowRefs<'s, 'a>
        ensures { remaining_records result
            ≡ alias_records aliases.now ++ set_records owner.now ttl records.now }
    {
        RowRefs {
            aliases,
            index: 0,
            owner,
            ttl,
            records,
        }
    }

    /// Returns the next record, or `None` after the last.
    pub(crate) fn next(&mut self) -> Option<RowRef<'a>>
        ensures { IsNext (remaining_records self.old) result (remaining_records self.new) }
    {
        if let Some(Some(alias)) = self.aliases.get(self.index) {
            self.index += 1;
            return Some(*alias);
        }
        let (first, others) = self.records.split_first()?;
        self.records = others;
        Some(RowRef::new(self.owner, self.ttl, first))
    }
}
