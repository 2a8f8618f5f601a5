//! The lookups of one type, by name and by address.

ghost use Rattle.std.specs.Prelude.{◌≡◌, ◌≤◌, ◌^◌, [], true, None, Ok, IfOk, IsOk, OnOk, OnErr, option_and_then, option_copied};
ghost use Rattle.std.specs.List.{find};
ghost use Rattle.dns_names.specs.Compare.{same_labels};
ghost use Rattle.stub_hosts.specs.Hosts.{with_entry, fresh, lookup_at, answered, pointers};

use crate::hosts::address_index::AddressIndex;
use crate::hosts::entries::HostEntries;
use crate::hosts::key::HostKey;
use crate::hosts::lookup::HostLookup;
use dns_messages::Record;
use dns_names::Name;
use dns_wire::RecordType;
use std::alloc::{AllocError, Global};
use std::marker::Model;
use std::net::IpAddr;
use stub_lookup::{Lookup, Moment};

/// The lookup of a name.
#[derive(Drop)]
pub(crate) struct HostEntry {
    pub(crate) name: Name,
    pub(crate) lookup: HostLookup,
}

/// Lookups of one type, in the order of their names, which are fully qualified.
#[derive(Drop)]
pub(crate) struct HostTable {
    entries: HostEntries,
    addresses: AddressIndex,
    alloc: Global,
}

impl Model for HostTable {
    ghost use Rattle.std.specs.Prelude.{List};
    ghost use Rattle.stub_hosts.specs.declared.hosts.table.HostEntry.{HostEntry};
    ghost use Rattle.stub_hosts.specs.internal.Hosts.{IsIndexOf};

    ghost Value = { List HostEntry };

    ghost view = { λ t. t.entries };

    ghost invariant = { λ t. IsIndexOf t.entries t.addresses };
}

impl HostTable {
    /// Creates a table without entries.
    pub(crate) fn new(alloc: Global) -> HostTable
        ensures { result ≡ [] }
    {
        HostTable {
            entries: HostEntries::new(alloc),
            addresses: AddressIndex::new(alloc),
            alloc,
        }
    }

    /// Inserts a lookup for a fully qualified name.
    pub(crate) fn insert(
        &mut self,
        name: Name,
        record_type: RecordType,
        lookup: Lookup,
        now: Moment,
    ) -> Result<(), AllocError>
        requires moment { now ≤ 2 ^ 62 }
        requires is_fqdn { name.is_fqdn ≡ true }
        ensures ok { OnOk result (self.new
            ≡ with_entry name (fresh name record_type now) lookup self.old) }
        ensures err { OnErr result (self.new ≡ self.old) }
    {
        let key = HostKey::of_name(self.alloc, &name)?;
        let own = self.entries.own_name(&key, &name)?;
        let added = self.addresses.add_all(&own, lookup.answers())?;
        match self.entries.join(key, name, record_type, lookup, now) {
            Ok(()) => Ok(()),
            Err(error) => {
                self.addresses.remove_all(added);
                Err(error)
            }
        }
    }

    /// Returns the lookup of a name, taken as fully qualified, if it has answers. If it has none, no memory is needed.
    pub(crate) fn lookup(&self, name: &Name) -> Result<Option<Lookup>, AllocError>
        ensures found { IfOk result (λ found.
            found ≡ option_and_then answered (lookup_at name.now self.now)) }
        ensures decided { option_and_then answered (lookup_at name.now self.now) ≡ None
            → result ≡ Ok None }
    {
        match self.entry(name) {
            Some(entry) if !entry.lookup.answers().is_empty() => Ok(Some(entry.lookup.copy()?)),
            _ => Ok(None),
        }
    }

    /// Returns the entry of a name, taken as fully qualified. It is found by its key, or, without memory for the key, by a
    /// search of all entries.
    fn entry(&self, name: &Name) -> Option<&HostEntry>
        ensures { option_copied result
            ≡ find (λ e. same_labels e.name.labels name.now.labels) self.now }
    {
        if self.entries.is_empty() {
            return None;
        }
        match HostKey::of_name(self.alloc, name) {
            Ok(key) => self.entries.get(&key),
            Err(_) => self.entries.search(name),
        }
    }

    /// Returns pointers from an owner to the names that have an address. If there are none, no memory is needed.
    pub(crate) fn pointers(&self, owner: &Name, address: IpAddr) -> Result<Vec<Record>, AllocError>
        ensures records { IfOk result (λ records.
            records.items ≡ pointers owner.now address self.now) }
        ensures decided { pointers owner.now address self.now ≡ [] → IsOk result }
    {
        if self.entries.is_empty() {
            return Ok(Vec::new(self.alloc));
        }
        match self.addresses.pointers(owner, address) {
            Ok(records) => Ok(records),
            Err(error) => {
                if self.entries.has_address(address) {
                    return Err(error);
                }
                Ok(Vec::new(self.alloc))
            }
        }
    }
}
