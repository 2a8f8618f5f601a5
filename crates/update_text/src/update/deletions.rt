//! Updates that delete records.

ghost use Rattle.std.specs.Prelude.{◌≡◌, IfOk};
ghost use Rattle.update_text.specs.Update.{IsDeleteRecord, delete_name, delete_set, only_type};
ghost use Rattle.update_text.specs.Words.{texts};

use super::UpdateReader;
use crate::type_word::parse_type;
use dns_messages::{Message, Record};
use dns_names::Name;
use dns_updates::{delete_all, delete_by_rdata, delete_rrset};
use dns_wire::{DNSClass, RecordType};
use dns_zone_file::Types;
use std::alloc::AllocError;

impl<'a> UpdateReader<'a> {
    /// Reads the deletion of a record.
    pub(super) fn read_delete_record(
        &self,
        owner: Name,
        arguments: &[Vec<u8>],
    ) -> Result<Option<Message>, AllocError>
        ensures { IfOk result (IsDeleteRecord self.now owner (texts arguments.now)) }
    {
        match self.read_set_without_ttl(owner, arguments)? {
            Some(rrset) => {
                let origin = self.origin.clone()?;
                Ok(Some(delete_by_rdata(self.alloc, self.id, rrset, origin, false)?))
            }
            None => Ok(None),
        }
    }

    /// Reads the deletion of the records of an owner and a type.
    pub(super) fn read_delete_set(
        &self,
        owner: Name,
        arguments: &[Vec<u8>],
    ) -> Result<Option<Message>, AllocError>
        ensures { IfOk result (λ message. message
            ≡ delete_set self.now owner (texts arguments.now)) }
    {
        let Some(rtype) = parse_only_type(arguments, self.types) else {
            return Ok(None);
        };
        let deleted = Record::update0(owner, 0, rtype);
        let origin = self.origin.clone()?;
        Ok(Some(delete_rrset(self.alloc, self.id, deleted, origin, false)?))
    }

    /// Reads the deletion of the records of an owner.
    pub(super) fn read_delete_name(
        &self,
        owner: Name,
        arguments: &[Vec<u8>],
    ) -> Result<Option<Message>, AllocError>
        ensures { IfOk result (λ message. message
            ≡ delete_name self.now owner (texts arguments.now)) }
    {
        if !arguments.is_empty() {
            return Ok(None);
        }
        let origin = self.origin.clone()?;
        let message = delete_all(self.alloc, self.id, owner, origin, DNSClass::IN, false)?;
        Ok(Some(message))
    }
}

/// Parses a type, after which no word comes.
fn parse_only_type(arguments: &[Vec<u8>], types: Types) -> Option<RecordType>
    ensures { result ≡ only_type types (texts arguments.now) }
{
    match arguments {
        [rtype] => parse_type(rtype, types),
        _ => None,
    }
}
