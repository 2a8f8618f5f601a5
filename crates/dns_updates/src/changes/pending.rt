//! The changes of an update so far.

ghost use Rattle.std.specs.Prelude.{◌≡◌, [], IfOk, IsOk};
ghost use Rattle.dns_updates.specs.Changes.{AreInOrder};

use crate::changes::changed_set::ChangedSet;
use crate::changes::changed_sets::ChangedSets;
use crate::changes::owner_types::OwnerTypes;
use std::alloc::{AllocError, Global};

/// The changes of an update so far.
pub struct Pending {
    /// The sets that are changed.
    pub sets: ChangedSets,
    /// The types of the sets of owners.
    pub types: OwnerTypes,
}

impl Drop for Pending {
    fn drop(self) {
        let Pending { sets, types } = self;
        drop(sets);
        drop(types);
    }
}

impl Pending {
    /// Returns the changed sets. For none, no memory is taken.
    pub fn into_sets(self, alloc: Global) -> Result<Vec<ChangedSet>, AllocError>
        ensures sets { IfOk result (λ sets. sets.items ≡ self.sets) }
        ensures ordered { AreInOrder self.sets }
        ensures decided { self.sets ≡ [] → IsOk result }
    {
        let Pending { sets, types } = self;
        drop(types);
        sets.order();
        sets.into_vec(alloc)
    }
}
