//! Sets of one record.

ghost use Rattle.std.specs.Prelude.{IfOk};
ghost use Rattle.update_text.specs.Update.{IsData, IsSet, IsSetWithTtl, IsSetWithoutTtl};
ghost use Rattle.update_text.specs.Words.{texts};

use super::UpdateReader;
use super::record_words::RecordWords;
use dns_data::RData;
use dns_messages::Record;
use dns_names::Name;
use dns_records::RecordSet;
use dns_zone_file::{EntryError, parse_rdata};
use std::alloc::AllocError;

impl<'a> UpdateReader<'a> {
    /// Reads a TTL, a type and data.
    pub(super) fn read_set_with_ttl(
        &self,
        owner: Name,
        arguments: &[Vec<u8>],
    ) -> Result<Option<RecordSet>, AllocError>
        ensures { IfOk result (IsSetWithTtl self.now owner (texts arguments.now)) }
    {
        match RecordWords::with_ttl(arguments, self.types) {
            Some(words) => self.read_set(owner, &words),
            None => Ok(None),
        }
    }

    /// Reads a type and data.
    pub(super) fn read_set_without_ttl(
        &self,
        owner: Name,
        arguments: &[Vec<u8>],
    ) -> Result<Option<RecordSet>, AllocError>
        ensures { IfOk result (IsSetWithoutTtl self.now owner (texts arguments.now)) }
    {
        match RecordWords::without_ttl(arguments, self.types) {
            Some(words) => self.read_set(owner, &words),
            None => Ok(None),
        }
    }

    /// Reads the data of a type, as a set of one record.
    pub(super) fn read_set(
        &self,
        owner: Name,
        words: &RecordWords<'_>,
    ) -> Result<Option<RecordSet>, AllocError>
        ensures { IfOk result (IsSet self.now owner words.now) }
    {
        match self.parse_data(words)? {
            Some(rdata) => {
                let added = Record::from_rdata(owner, words.ttl, rdata);
                Ok(Some(RecordSet::from_record(self.alloc, added)?))
            }
            None => Ok(None),
        }
    }

    /// Parses the data of a type.
    fn parse_data(&self, words: &RecordWords<'_>) -> Result<Option<RData>, AllocError>
        ensures { IfOk result (IsData self.now words.now) }
    {
        let tokens = words.tokens(self.alloc)?;
        match parse_rdata(
            self.alloc,
            self.types,
            words.rtype,
            tokens.as_slice(),
            self.origin,
        ) {
            Ok(rdata) => Ok(Some(rdata)),
            // The memory for the data was refused.
            Err(EntryError::Memory) => Err(AllocError),
            Err(EntryError::Fault(_)) => Ok(None),
        }
    }
}
