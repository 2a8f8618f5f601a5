//! Updates that replace a record.

ghost use Rattle.std.specs.Prelude.{IfOk};
ghost use Rattle.update_text.specs.Update.{IsSwap, IsSwapBetween, IsSwapTo};
ghost use Rattle.update_text.specs.Words.{texts};

use super::UpdateReader;
use super::record_words::RecordWords;
use dns_messages::Message;
use dns_names::Name;
use dns_records::RecordSet;
use dns_updates::compare_and_swap;
use std::alloc::AllocError;

impl<'a> UpdateReader<'a> {
    /// Reads the replacement of a record by another: its TTL is that of the new one, and `->` is between their data.
    pub(super) fn read_swap(
        &self,
        owner: Name,
        arguments: &[Vec<u8>],
    ) -> Result<Option<Message>, AllocError>
        ensures { IfOk result (IsSwap self.now owner (texts arguments.now)) }
    {
        let Some(words) = RecordWords::with_ttl(arguments, self.types) else {
            return Ok(None);
        };
        let Some(arrow) = words.find_arrow() else {
            return Ok(None);
        };
        let before = words.before(arrow);
        let after = words.after(arrow);
        self.read_swap_between(owner, &before, &after)
    }

    /// Reads the current data and the data that replaces it.
    fn read_swap_between(
        &self,
        owner: Name,
        before: &RecordWords<'_>,
        after: &RecordWords<'_>,
    ) -> Result<Option<Message>, AllocError>
        ensures { IfOk result (IsSwapBetween self.now owner before.now after.now) }
    {
        match self.read_set(owner.clone()?, before)? {
            Some(current) => self.read_swap_to(owner, current, after),
            None => Ok(None),
        }
    }

    /// Reads the data that replaces the current set.
    fn read_swap_to(
        &self,
        owner: Name,
        current: RecordSet,
        after: &RecordWords<'_>,
    ) -> Result<Option<Message>, AllocError>
        ensures { IfOk result (IsSwapTo self.now owner (Some current) after.now) }
    {
        match self.read_set(owner, after)? {
            Some(new) => {
                let origin = self.origin.clone()?;
                let message = compare_and_swap(self.alloc, self.id, current, new, origin, false)?;
                Ok(Some(message))
            }
            None => Ok(None),
        }
    }
}
