//! The names that have an address.

ghost use Rattle.std.specs.Prelude.{◌≡◌, [], ◌∷◌, ◌++◌, map, true, false, None, IfOk, OnOk, OnErr};
ghost use Rattle.std.specs.BTreeMap.{get, insert_entry};
ghost use Rattle.std.specs.BTreeMap.Range.{entries_between};
ghost use Rattle.std.specs.List.{list_any};
ghost use Rattle.std.specs.List.Sorted.{IsStrictlySortedBy};
ghost use Rattle.std.specs.Map.{keys_of, values_of};
ghost use Rattle.std.specs.Ordering.{is_gt};
ghost use Rattle.std.specs.declared.ops.Bound.TheVariants.{Included, Excluded};
ghost use Rattle.stub_hosts.specs.Hosts.{is_address_of, same_address};
ghost use Rattle.stub_hosts.specs.internal.HostKeys.{key_cmp};
ghost use Rattle.stub_hosts.specs.internal.Hosts.{names_at, pointer_to, AddsName, without_keys};

use crate::hosts::key::HostKey;
use dns_data::{PTR, RData};
use dns_messages::Record;
use dns_names::Name;
use std::alloc::{AllocError, Global};
use std::collections::BTreeMap;
use std::marker::Model;
use std::net::IpAddr;
use stub_lookup::MAX_TTL;

/// Pointers from addresses to fully qualified names. Those of an address are in the order of the names.
#[derive(Drop)]
pub(crate) struct AddressIndex {
    names: BTreeMap<HostKey, Name>,
    alloc: Global,
}

impl Model for AddressIndex {
    ghost use Rattle.std.specs.Prelude.{List, ℕ};
    ghost use Rattle.std.specs.List.Sorted.{IsStrictlySortedBy};
    ghost use Rattle.std.specs.Map.{keys_of};
    ghost use Rattle.dns_names.specs.Name.{DomainName};
    ghost use Rattle.stub_hosts.specs.Hosts.{is_address_of, same_address};
    ghost use Rattle.stub_hosts.specs.internal.HostKeys.{key_cmp};
    ghost use Rattle.stub_hosts.specs.internal.Hosts.{ArePointers};

    ghost Value = { List (List ℕ × DomainName) };

    ghost view = { λ t. t.names.entries };

    ghost invariant = { λ t. ArePointers t.names.entries
        × IsStrictlySortedBy key_cmp (keys_of t.names.entries) };
}

impl AddressIndex {
    /// Creates an index without addresses.
    pub(crate) fn new(alloc: Global) -> AddressIndex
        ensures { result ≡ [] }
    {
        AddressIndex {
            names: BTreeMap::new(alloc),
            alloc,
        }
    }

    /// Adds a name at the addresses of records. Returns the keys of the pointers that are new.
    pub(crate) fn add_all(
        &mut self,
        name: &Name,
        records: &[Record],
    ) -> Result<Vec<HostKey>, AllocError>
        requires { name.now.is_fqdn ≡ true }
        ensures ok { OnOk result (AddsName name.now (λ address.
            list_any (is_address_of address) records.now) self.old self.new) }
        ensures added { IfOk result (λ added. without_keys added.items self.new ≡ self.old) }
        ensures err { OnErr result (self.new ≡ self.old) }
    {
        let mut added = Vec::new(self.alloc);
        match self.add_each(name, records, &mut added) {
            Ok(()) => Ok(added),
            Err(error) => {
                self.remove_all(added);
                Err(error)
            }
        }
    }

    /// Removes the pointers that have keys.
    pub(crate) fn remove_all(&mut self, keys: Vec<HostKey>)
        ensures { self.new ≡ without_keys keys.items self.old }
    {
        let mut keys = keys;
        while let Some(key) = keys.pop() {
            self.remove(&key);
        }
    }

    /// Removes the pointer that has a key.
    fn remove(&mut self, key: &HostKey)
        ensures { self.new ≡ without_keys (key.now ∷ []) self.old }
    {
        drop(self.names.remove(key));
    }

    /// Adds a name at the addresses of records, and the keys of the pointers that are new to a list.
    fn add_each(
        &mut self,
        name: &Name,
        records: &[Record],
        added: &mut Vec<HostKey>,
    ) -> Result<(), AllocError>
        requires { name.now.is_fqdn ≡ true }
        ensures ok { OnOk result (AddsName name.now (λ address.
            list_any (is_address_of address) records.now) self.old self.new) }
        ensures added { without_keys added.new.items self.new
            ≡ without_keys added.old.items self.old }
    {
        for record in records {
            self.add_record(name, record, added)?;
        }
        Ok(())
    }

    /// Adds a name at the address of a record, if it has one, and the key of the pointer to a list, if it is new.
    fn add_record(
        &mut self,
        name: &Name,
        answer: &Record,
        added: &mut Vec<HostKey>,
    ) -> Result<(), AllocError>
        requires { name.now.is_fqdn ≡ true }
        ensures ok { OnOk result (AddsName name.now (λ address. is_address_of address answer.now)
            self.old self.new) }
        ensures added { without_keys added.new.items self.new
            ≡ without_keys added.old.items self.old }
    {
        match answer.rdata.ip_addr() {
            Some(address) => self.add(name, address, added),
            None => Ok(()),
        }
    }

    /// Adds a name at an address, and the key of the pointer to a list, if it is new.
    fn add(
        &mut self,
        name: &Name,
        address: IpAddr,
        added: &mut Vec<HostKey>,
    ) -> Result<(), AllocError>
        requires { name.now.is_fqdn ≡ true }
        ensures ok { OnOk result (AddsName name.now (same_address address)
            self.old self.new) }
        ensures added { without_keys added.new.items self.new
            ≡ without_keys added.old.items self.old }
    {
        let key = HostKey::of_pointer(self.alloc, address, name)?;
        if self.names.contains_key(&key) {
            return Ok(());
        }
        insert(&mut self.names, key, name, added)
    }

    /// Returns pointers from an owner to the names that have an address.
    pub(crate) fn pointers(&self, owner: &Name, address: IpAddr) -> Result<Vec<Record>, AllocError>
        ensures { IfOk result (λ records. records.items
            ≡ map (pointer_to owner.now) (names_at address self.now)) }
    {
        let start = HostKey::of_address(self.alloc, address, 0)?;
        let end = HostKey::of_address(self.alloc, address, 1)?;
        pointers_between(self.alloc, &self.names, &start, &end, owner)
    }
}

/// Inserts a new pointer, and adds its key to a list.
fn insert(
    names: &mut BTreeMap<HostKey, Name>,
    key: HostKey,
    name: &Name,
    added: &mut Vec<HostKey>,
) -> Result<(), AllocError>
    requires { get key_cmp names.old key ≡ None }
    ensures ok { OnOk result (
        (names.new.entries ≡ insert_entry key_cmp names.old.entries key name.now)
        × (added.new.items ≡ added.old.items ++ key ∷ [])) }
    ensures ordered { OnOk result (IsStrictlySortedBy key_cmp (keys_of names.new.entries)) }
    ensures err { OnErr result ((names.new.entries ≡ names.old.entries)
        × (added.new.items ≡ added.old.items)) }
{
    added.reserve(1)?;
    names.insert(key.clone()?, name.clone()?)?;
    added.push_reserved(key);
    Ok(())
}

/// Returns pointers from an owner to the names whose keys are between two keys, without the second.
fn pointers_between(
    alloc: Global,
    names: &BTreeMap<HostKey, Name>,
    start: &HostKey,
    end: &HostKey,
    owner: &Name,
) -> Result<Vec<Record>, AllocError>
    requires { is_gt (key_cmp start.now end.now) ≡ false }
    ensures { IfOk result (λ records. records.items ≡ map (pointer_to owner.now) (values_of
        (entries_between key_cmp (Included start.now) (Excluded end.now) names.now.entries))) }
{
    let mut pointers = Vec::new(alloc);
    for (_, name) in names.range(start..end) {
        pointers.push(pointer(owner, name)?)?;
    }
    Ok(pointers)
}

/// Returns a pointer from an owner to a name.
fn pointer(owner: &Name, name: &Name) -> Result<Record, AllocError>
    ensures { IfOk result (λ made. made ≡ pointer_to owner.now name.now) }
{
    let rdata = RData::PTR(PTR(name.clone()?));
    Ok(Record::from_rdata(owner.clone()?, MAX_TTL, rdata))
}
