//! The lookups of one type, by name.

ghost use Rattle.std.specs.Prelude.{◌≡◌, ◌≤◌, ◌^◌, [], true, None, List, ℕ, IfOk, OnOk, OnErr, option_copied};
ghost use Rattle.std.specs.List.{find, list_any};
ghost use Rattle.std.specs.List.Sorted.{IsStrictlySortedBy};
ghost use Rattle.std.specs.Map.{keys_of};
ghost use Rattle.dns_names.specs.Compare.{same_labels};
ghost use Rattle.stub_lookup.specs.Lookup.{joined};
ghost use Rattle.std.specs.BTreeMap.{get, insert_entry};
ghost use Rattle.stub_hosts.specs.Hosts.{with_entry, entry, fresh, has_address};
ghost use Rattle.stub_hosts.specs.internal.HostKeys.{labels_key, key_cmp};
ghost use Rattle.stub_hosts.specs.internal.Hosts.{own_name, AreInOrder};

use crate::hosts::key::HostKey;
use crate::hosts::lookup::HostLookup;
use crate::hosts::table::HostEntry;
use dns_names::Name;
use dns_wire::RecordType;
use std::alloc::{AllocError, Global};
use std::collections::BTreeMap;
use std::marker::Model;
use std::net::IpAddr;
use stub_lookup::{Lookup, Moment};

/// Entries of fully qualified names, in the order of the names.
#[derive(Drop)]
pub(crate) struct HostEntries {
    entries: BTreeMap<HostKey, HostEntry>,
    alloc: Global,
}

impl Model for HostEntries {
    ghost use Rattle.std.specs.Prelude.{List};
    ghost use Rattle.std.specs.List.Sorted.{IsStrictlySortedBy};
    ghost use Rattle.std.specs.Map.{keys_of, values_of};
    ghost use Rattle.stub_hosts.specs.declared.hosts.table.HostEntry.{HostEntry};
    ghost use Rattle.stub_hosts.specs.internal.HostKeys.{key_cmp};
    ghost use Rattle.stub_hosts.specs.internal.Hosts.{AreKeyed};

    ghost Value = { List HostEntry };

    ghost view = { λ t. values_of t.entries.entries };

    ghost invariant = { λ t. AreKeyed t.entries.entries
        × IsStrictlySortedBy key_cmp (keys_of t.entries.entries) };
}

impl HostEntries {
    /// Creates a table without entries.
    pub(crate) fn new(alloc: Global) -> HostEntries
        ensures { result ≡ [] }
    {
        HostEntries {
            entries: BTreeMap::new(alloc),
            alloc,
        }
    }

    /// Returns `true` if there are no entries.
    pub(crate) fn is_empty(&self) -> bool
        ensures { result ≡ true → self.now ≡ [] }
    {
        self.entries.is_empty()
    }

    /// Returns the entry of the name that has a key.
    pub(crate) fn get(&self, key: &HostKey) -> Option<&HostEntry>
        ensures { (labels : List (List ℕ)) → key.now ≡ labels_key labels
            → option_copied result ≡ find (λ e. same_labels e.name.labels labels) self.now }
    {
        self.entries.get(key)
    }

    /// Returns the entry of a name, taken as fully qualified, as [`get`](HostEntries::get) does, without its key.
    pub(crate) fn search(&self, name: &Name) -> Option<&HostEntry>
        ensures { option_copied result
            ≡ find (λ e. same_labels e.name.labels name.now.labels) self.now }
    {
        self.entries
            .values()
            .find(|entry| entry.name.eq_ignore_root(name))
    }

    /// Returns `true` if an entry has an address.
    pub(crate) fn has_address(&self, address: IpAddr) -> bool
        ensures { result ≡ list_any (has_address address) self.now }
    {
        self.entries
            .values()
            .any(|entry| entry.lookup.has_address(address))
    }

    /// Copies the name of the entry of a name, or the name itself, if it has none.
    pub(crate) fn own_name(&self, key: &HostKey, name: &Name) -> Result<Name, AllocError>
        requires key { key.now ≡ labels_key name.now.labels }
        requires is_fqdn { name.now.is_fqdn ≡ true }
        ensures own { IfOk result (λ own. own ≡ own_name name.now self.now) }
        ensures is_fqdn { IfOk result (λ own. own.is_fqdn ≡ true) }
        ensures order { AreInOrder self.now }
    {
        match self.entries.get(key) {
            Some(entry) => entry.name.clone(),
            None => name.clone(),
        }
    }

    /// Joins a lookup to that of a name.
    pub(crate) fn join(
        &mut self,
        key: HostKey,
        name: Name,
        record_type: RecordType,
        lookup: Lookup,
        now: Moment,
    ) -> Result<(), AllocError>
        requires moment { now ≤ 2 ^ 62 }
        requires key { key ≡ labels_key name.labels }
        requires is_fqdn { name.is_fqdn ≡ true }
        ensures ok { OnOk result (self.new
            ≡ with_entry name (fresh name record_type now) lookup self.old) }
        ensures err { OnErr result (self.new ≡ self.old) }
    {
        match self.entries.get_mut(&key) {
            Some(entry) => entry.lookup.join(lookup),
            None => insert(
                &mut self.entries,
                self.alloc,
                key,
                name,
                record_type,
                lookup,
                now,
            ),
        }
    }
}

/// Inserts an entry of a new name.
fn insert(
    entries: &mut BTreeMap<HostKey, HostEntry>,
    alloc: Global,
    key: HostKey,
    name: Name,
    record_type: RecordType,
    lookup: Lookup,
    now: Moment,
) -> Result<(), AllocError>
    requires moment { now ≤ 2 ^ 62 }
    requires absent { get key_cmp entries.old key ≡ None }
    ensures ok { OnOk result (entries.new.entries ≡ insert_entry key_cmp entries.old.entries key
        (entry name (joined (fresh name record_type now) lookup))) }
    ensures err { OnErr result (entries.new.entries ≡ entries.old.entries) }
    ensures ordered { OnOk result (IsStrictlySortedBy key_cmp (keys_of entries.new.entries)) }
{
    let mut own = HostLookup::fresh(alloc, &name, record_type, now)?;
    own.join(lookup)?;
    entries.insert(key, HostEntry { name, lookup: own })?;
    Ok(())
}
