//! The types of the sets of owners, as far as an update needs them.

ghost use Rattle.std.specs.Prelude.{◌≡◌, ℕ, List, None, Some, OnOk, if◌then◌else◌};
ghost use Rattle.dns_updates.specs.Keys.{owner_code};
ghost use Rattle.dns_updates.specs.internal.Indexes.{is_code, listing_at};

use crate::keys::{OwnerKey, owner_key};
use dns_names::Name;
use dns_wire::RecordType;
use std::alloc::{AllocError, Global};
use std::collections::BTreeMap;

/// The types of the sets of an owner.
#[derive(Drop)]
pub struct Listing {
    /// Types, some maybe more than once, and some maybe of sets that are deleted.
    pub types: Vec<RecordType>,
    /// Whether each set of the owner has one of these types. Otherwise those in which the zone has sets are missing.
    pub is_complete: bool,
}

/// The types of the sets of owners, by owner. Those of an owner without a listing are those in the zone.
pub struct OwnerTypes {
    /// The listings.
    pub map: BTreeMap<OwnerKey, Listing>,
}

impl Drop for OwnerTypes {
    fn drop(self) {
        let OwnerTypes { map } = self;
        drop(map);
    }
}

impl OwnerTypes {
    /// Creates an empty collection.
    pub fn new(alloc: Global) -> OwnerTypes
        ensures { (code : List ℕ) → listing_at result code ≡ None }
    {
        OwnerTypes {
            map: BTreeMap::new(alloc),
        }
    }

    /// Removes the listing of an owner, and returns it.
    pub fn take(&mut self, owner: &Name) -> Option<Listing>
        ensures value { result ≡ listing_at self.old (owner_code owner.now.labels) }
        ensures others { (code : List ℕ) → listing_at self.new code
            ≡ (if is_code (owner_code owner.now.labels) code then None
            else listing_at self.old code) }
    {
        self.map.remove(&owner_key(owner))
    }

    /// Inserts the listing of an owner.
    pub fn put(&mut self, owner: &Name, listing: Listing) -> Result<(), AllocError>
        ensures { OnOk result ((code : List ℕ) → listing_at self.new code
            ≡ (if is_code (owner_code owner.now.labels) code then Some listing
            else listing_at self.old code)) }
    {
        self.map.insert(owner_key(owner), listing)?;
        Ok(())
    }
}
