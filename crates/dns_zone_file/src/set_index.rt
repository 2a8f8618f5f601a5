//! The place of each record set in a list, by owner and type.

ghost use Rattle.std.specs.Prelude.{◌≡◌, None, OnOk, OnErr};
ghost use Rattle.dns_wire.specs.codes.RecordType.{type_number};
ghost use Rattle.dns_zone_file.specs.internal.SetIndex.{place_of, HasNoPlaces, HasPlaced, HasSamePlaces};

use dns_names::Name;
use dns_wire::RecordType;
use std::alloc::{AllocError, Global};
use std::collections::{BTreeMap, HashMap};

/// The places of record sets in a list, by owner, ignoring ASCII case, and type, by its number.
pub(crate) struct SetIndex {
    /// The places of the sets of each owner, by the numbers of their types.
    owners: HashMap<Name, BTreeMap<u16, usize>>,
}

impl Drop for SetIndex {
    fn drop(self) {
        let SetIndex { owners } = self;
        drop(owners);
    }
}

impl SetIndex {
    /// Creates an index without places.
    pub(crate) fn new(alloc: Global) -> SetIndex
        ensures { HasNoPlaces result }
    {
        SetIndex {
            owners: HashMap::new(alloc),
        }
    }

    /// Returns the place of the set of an owner and a type.
    pub(crate) fn get(&self, owner: &Name, record_type: RecordType) -> Option<usize>
        ensures { result ≡ place_of self.now owner.now (type_number record_type) }
    {
        match self.owners.get(owner) {
            Some(places) => places.get(&u16::from(record_type)).copied(),
            None => None,
        }
    }

    /// Sets the place of the set of an owner and a type. An error leaves the places unchanged.
    pub(crate) fn insert(
        &mut self,
        alloc: Global,
        owner: &Name,
        record_type: RecordType,
        place: usize,
    ) -> Result<(), AllocError>
        ensures ok { OnOk result
            (HasPlaced self.old owner.now (type_number record_type) place self.new) }
        ensures err { OnErr result (HasSamePlaces self.old self.new) }
    {
        let number = u16::from(record_type);
        if let Some(places) = self.owners.get_mut(owner) {
            places.insert(number, place)?;
            return Ok(());
        }
        let mut places = BTreeMap::new(alloc);
        places.insert(number, place)?;
        self.owners.insert(owner.clone()?, places)?;
        Ok(())
    }
}
