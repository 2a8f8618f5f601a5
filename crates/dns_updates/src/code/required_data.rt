//! The data that prerequisites require, found by owner and type in logarithmic time.

ghost use Rattle.std.specs.Prelude.{◌≡◌, ◌++◌, [], ◌∷◌, None, Some, OnOk, if◌then◌else◌, unwrap_or};
ghost use Rattle.std.specs.Option.{option_map};
ghost use Rattle.dns_updates.specs.Keys.{Place};
ghost use Rattle.dns_updates.specs.internal.Required.{all_data_at, data_at, is_place, lent, set_place};

use crate::keys::{SetKey, set_key};
use dns_data::RData;
use dns_names::Name;
use dns_wire::RecordType;
use std::alloc::{AllocError, Global};
use std::collections::BTreeMap;

/// The data that prerequisites require, by owner, up to ASCII case, and type.
pub struct RequiredData<'a> {
    /// The data.
    pub map: BTreeMap<SetKey, Vec<&'a RData>>,
}

impl<'a> Drop for RequiredData<'a> {
    fn drop(self) {
        let RequiredData { map } = self;
        drop(map);
    }
}

impl<'a> RequiredData<'a> {
    /// Creates an empty collection.
    pub fn new(alloc: Global) -> RequiredData<'a>
        ensures { (p : Place) → data_at result p ≡ None }
    {
        RequiredData {
            map: BTreeMap::new(alloc),
        }
    }

    /// Removes the data of an owner and a type, and returns it.
    pub fn take(&mut self, owner: &Name, record_type: RecordType) -> Option<Vec<&'a RData>>
        ensures value { option_map (λ ds. lent ds.items) result
            ≡ data_at self.old (set_place owner.now.labels record_type) }
        ensures others { (p : Place) → data_at self.new p
            ≡ (if is_place (set_place owner.now.labels record_type) p then None
            else data_at self.old p) }
    {
        self.map.remove(&set_key(owner, record_type))
    }

    /// Inserts the data of an owner and a type.
    fn put(
        &mut self,
        owner: &Name,
        record_type: RecordType,
        required: Vec<&'a RData>,
    ) -> Result<(), AllocError>
        ensures { OnOk result ((p : Place) → data_at self.new p
            ≡ (if is_place (set_place owner.now.labels record_type) p
            then Some (lent required.entry.items) else data_at self.old p)) }
    {
        self.map.insert(set_key(owner, record_type), required)?;
        Ok(())
    }

    /// Adds data to that of an owner and a type.
    pub fn add(
        &mut self,
        alloc: Global,
        owner: &Name,
        record_type: RecordType,
        rdata: &'a RData,
    ) -> Result<(), AllocError>
        ensures { OnOk result ((p : Place) → all_data_at self.new p
            ≡ (if is_place (set_place owner.now.labels record_type) p
            then all_data_at self.old p ++ rdata.now ∷ [] else all_data_at self.old p)) }
    {
        let found = self.take(owner, record_type);
        let mut required = or_new(alloc, found);
        required.push(rdata)?;
        self.put(owner, record_type, required)?;
        Ok(())
    }
}

/// Returns data, or a list without any.
fn or_new<'a>(alloc: Global, found: Option<Vec<&'a RData>>) -> Vec<&'a RData>
    ensures { lent result.items ≡ unwrap_or (option_map (λ ds. lent ds.items) found.entry) [] }
{
    match found {
        Some(required) => required,
        None => Vec::new(alloc),
    }
}
