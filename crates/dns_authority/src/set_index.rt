//! The record sets of an answer, found in logarithmic time.

ghost use Rattle.std.specs.Prelude.{◌≡◌, ◌||◌, OnOk};
ghost use Rattle.dns_wire.specs.declared.codes.record_type.RecordType.{RecordType};
ghost use Rattle.dns_names.specs.Name.{DomainName};
ghost use Rattle.dns_authority.specs.Additional.{has_set, is_of_set};
ghost use Rattle.dns_authority.specs.SetIndex.{is_indexed, HasNoSet};

use dns_names::Name;
use dns_records::Record;
use dns_updates::{SetKey, set_key};
use dns_wire::RecordType;
use std::alloc::{AllocError, Global};
use std::collections::BTreeSet;

/// Record sets, by owner, up to ASCII case, and type.
pub(crate) struct SetIndex {
    keys: BTreeSet<SetKey>,
}

impl Drop for SetIndex {
    fn drop(self) {
        let SetIndex { keys } = self;
        drop(keys);
    }
}

impl SetIndex {
    /// Creates an index without sets. No memory is taken.
    pub(crate) fn new(alloc: Global) -> SetIndex
        ensures { HasNoSet result }
    {
        SetIndex {
            keys: BTreeSet::new(alloc),
        }
    }

    /// Returns `true` if the index has the set of a name and a type.
    pub(crate) fn contains(&self, name: &Name, record_type: RecordType) -> bool
        ensures { result ≡ is_indexed self.now name.now record_type }
    {
        self.keys.contains(&set_key(name, record_type))
    }

    /// Adds the set of a record.
    fn add(&mut self, resource_record: &Record) -> Result<(), AllocError>
        ensures { OnOk result ((name : DomainName) (t : RecordType)
            → is_indexed self.new name t
            ≡ (is_of_set name t resource_record.now || is_indexed self.old name t)) }
    {
        let key = set_key(&resource_record.name, resource_record.rdata.record_type());
        self.keys.insert(key)?;
        Ok(())
    }

    /// Adds the sets of records.
    pub(crate) fn add_all(&mut self, records: &[Record]) -> Result<(), AllocError>
        ensures { OnOk result ((name : DomainName) (t : RecordType)
            → is_indexed self.new name t
            ≡ (is_indexed self.old name t || has_set records.now name t)) }
    {
        for resource_record in records {
            self.add(resource_record)?;
        }
        Ok(())
    }
}
