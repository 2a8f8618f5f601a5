//! Updates that add a record.

ghost use Rattle.std.specs.Prelude.{IfOk};
ghost use Rattle.update_text.specs.Update.{IsAppend, IsCreate};
ghost use Rattle.update_text.specs.Words.{texts};

use super::UpdateReader;
use dns_messages::Message;
use dns_names::Name;
use dns_updates::{append, create};
use std::alloc::AllocError;

impl<'a> UpdateReader<'a> {
    /// Reads the addition of a record, if the zone has none of its owner and type.
    pub(super) fn read_create(
        &self,
        owner: Name,
        arguments: &[Vec<u8>],
    ) -> Result<Option<Message>, AllocError>
        ensures { IfOk result (IsCreate self.now owner (texts arguments.now)) }
    {
        match self.read_set_with_ttl(owner, arguments)? {
            Some(rrset) => {
                let origin = self.origin.clone()?;
                Ok(Some(create(self.alloc, self.id, rrset, origin, false)?))
            }
            None => Ok(None),
        }
    }

    /// Reads the addition of a record.
    pub(super) fn read_append(
        &self,
        owner: Name,
        arguments: &[Vec<u8>],
    ) -> Result<Option<Message>, AllocError>
        ensures { IfOk result (IsAppend self.now owner (texts arguments.now)) }
    {
        match self.read_set_with_ttl(owner, arguments)? {
            Some(rrset) => {
                let origin = self.origin.clone()?;
                Ok(Some(append(self.alloc, self.id, rrset, origin, false, false)?))
            }
            None => Ok(None),
        }
    }
}
