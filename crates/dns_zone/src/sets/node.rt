//! The sets of a name, found in one descent (RFC 1034 section 4.3.2 step 3).

ghost use Rattle.std.specs.Prelude.{◌≡◌, ◌||◌, false, option_copied};
ghost use Rattle.std.specs.List.{list_any, AllByRecursion};
ghost use Rattle.std.specs.List.Sorted.{IsStrictlySortedBy};
ghost use Rattle.std.specs.Map.{keys_of};
ghost use Rattle.std.specs.Ordering.{is_gt};
ghost use Rattle.dns_wire.specs.declared.codes.record_type.RecordType.TheVariants.{CNAME, DNAME, NS};
ghost use Rattle.dns_names.specs.Compare.{at_or_below};
ghost use Rattle.dns_updates.specs.Keys.{bytes_cmp, place_cmp, type_code};
ghost use Rattle.dns_zone.specs.Rows.{key};
ghost use Rattle.dns_zone.specs.Sets.{set_at};
ghost use Rattle.dns_zone.specs.internal.Node.{AreSoughtWith, at_place, is_first_below, sought};

use crate::sets::{SetEntries, ZoneSets};
use dns_names::Name;
use dns_records::RecordSet;
use dns_updates::{OwnerKey, first_key, type_code};
use dns_wire::RecordType;
use std::ops::Bound;

/// The sets of a name that decide how a question goes on, and whether the name exists.
#[derive(Clone, Copy, Drop)]
pub(crate) struct NodeSets<'a> {
    /// The number of the type that is asked for.
    code: u32,
    /// The set of the type that is asked for.
    pub(crate) asked: Option<&'a RecordSet>,
    /// The set of the CNAME record.
    pub(crate) aliases: Option<&'a RecordSet>,
    /// The set of the NS records.
    pub(crate) servers: Option<&'a RecordSet>,
    /// The set of the DNAME record.
    pub(crate) redirections: Option<&'a RecordSet>,
    /// Whether the owner of some set is at or below the name.
    pub(crate) exists: bool,
}

impl<'a> NodeSets<'a> {
    /// Takes a set of the name, whose type has a number.
    fn with(self, code: u32, set: &'a RecordSet) -> NodeSets<'a>
        ensures { AreSoughtWith self.entry code set.now result }
    {
        NodeSets {
            code: self.code,
            asked: sought(self.asked, self.code, code, set),
            aliases: sought(self.aliases, type_code(RecordType::CNAME), code, set),
            servers: sought(self.servers, type_code(RecordType::NS), code, set),
            redirections: sought(self.redirections, type_code(RecordType::DNAME), code, set),
            exists: true,
        }
    }

    /// Returns the sets of a name, given whether the owner of the next set, which is another one, is below it.
    fn beside(self, is_below: bool) -> NodeSets<'a>
        ensures { result ≡ record self.entry { exists = self.entry.exists || is_below } }
    {
        NodeSets {
            exists: self.exists || is_below,
            ..self
        }
    }
}

/// Returns the set that was found, or else a set of the number that is wanted.
fn sought<'a>(
    found: Option<&'a RecordSet>,
    wanted: u32,
    code: u32,
    set: &'a RecordSet,
) -> Option<&'a RecordSet>
    ensures { option_copied result ≡ sought (option_copied found.entry) wanted code set.now }
{
    if found.is_some() || wanted != code {
        return found;
    }
    Some(set)
}

impl ZoneSets {
    /// Returns the sets of a name that decide how a question for a type goes on.
    pub(crate) fn node(&self, name: &Name, record_type: RecordType) -> NodeSets<'_>
        ensures asked { option_copied result.asked
            ≡ set_at self.now (key name.now.labels record_type) }
        ensures aliases { option_copied result.aliases
            ≡ set_at self.now (key name.now.labels CNAME) }
        ensures servers { option_copied result.servers
            ≡ set_at self.now (key name.now.labels NS) }
        ensures redirections { option_copied result.redirections
            ≡ set_at self.now (key name.now.labels DNAME) }
        ensures exists { result.exists
            ≡ list_any (λ s. at_or_below name.now.labels s.name.labels) self.now }
    {
        let start = first_key(name);
        let sets = self.map.range((Bound::Included(&start), Bound::Unbounded));
        node_of(sets, &start.0, record_type)
    }
}

/// Returns the sets of an owner, which come first among sets in order, if there are any.
fn node_of<'a>(sets: SetEntries<'a>, owner: &OwnerKey, record_type: RecordType) -> NodeSets<'a>
    requires ordered { IsStrictlySortedBy place_cmp (keys_of sets) }
    requires reached { AllByRecursion (λ e. is_gt (bytes_cmp owner.now e.0.0) ≡ false) sets }
    ensures asked { option_copied result.asked
        ≡ at_place (owner.now, type_code record_type) sets.entry }
    ensures aliases { option_copied result.aliases
        ≡ at_place (owner.now, type_code CNAME) sets.entry }
    ensures servers { option_copied result.servers
        ≡ at_place (owner.now, type_code NS) sets.entry }
    ensures redirections { option_copied result.redirections
        ≡ at_place (owner.now, type_code DNAME) sets.entry }
    ensures exists { result.exists ≡ is_first_below owner.now sets.entry }
{
    let mut sets = sets;
    let mut node = NodeSets {
        code: type_code(record_type),
        asked: None,
        aliases: None,
        servers: None,
        redirections: None,
        exists: false,
    };
    while let Some((place, set)) = sets.next() {
        if place.0 != *owner {
            // The names below a name come directly after it.
            return node.beside(place.0.as_slice().starts_with(owner.as_slice()));
        }
        node = node.with(place.1, set);
    }
    node
}
