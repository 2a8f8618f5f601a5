//! The changes of an update that is answered with `NoError` (RFC 2136 section 3.4.2).

ghost use Rattle.std.specs.Prelude.{◌≡◌, true, Ok, IsOk, IfOk, OnOk};
ghost use Rattle.dns_updates.specs.Change.{are_void, change, is_void_in_class, update_change};
ghost use Rattle.dns_updates.specs.Changes.{overlay, AreInOrder};
ghost use Rattle.dns_updates.specs.internal.Indexes.{AreListed};

mod additions;
mod changed_set;
mod changed_sets;
mod current;
mod deletions;
mod edits;
mod listings;
mod owner_types;
mod pending;
mod single;
mod store;

use crate::zone_rows::ZoneRows;
use additions::add;
pub use changed_set::ChangedSet;
use changed_sets::ChangedSets;
use deletions::{delete_row, delete_sets};
use dns_messages::Message;
use dns_names::Name;
use dns_records::Record;
use dns_wire::DNSClass;
use owner_types::OwnerTypes;
use pending::Pending;
pub use single::is_put;
use std::alloc::{AllocError, Global};

/// The sets that an update changes. The rows of the zone become those with each of them in place of the zone's own.
#[derive(Drop)]
pub struct Changes {
    /// The sets.
    pub sets: Vec<ChangedSet>,
}

/// Returns what an update that is answered with `NoError` changes in the zone with an origin, which stays as it is: sets in
/// the canonical order of their owners (RFC 4034 section 6.1), of which that of SOA records comes first. Updates that are without effect because a record, a CNAME or a set forbids the change take no memory.
pub fn update_changes<Z: ZoneRows>(
    alloc: Global,
    zone: &Z,
    origin: &Name,
    message: &Message,
) -> Result<Changes, AllocError>
    ensures change { IfOk result (λ changes. overlay (Z.rows zone.now) changes.sets.items
        ≡ update_change origin.now (Z.rows zone.now) message.now) }
    ensures ordered { IfOk result (λ changes. AreInOrder changes.sets.items) }
    ensures decided { are_void origin.now (Z.rows zone.now) message.now.authorities ≡ true
        → IsOk result }
{
    let mut pending = Pending {
        sets: ChangedSets::new(alloc),
        types: OwnerTypes::new(alloc),
    };
    for update in message.authorities.as_slice() {
        apply(alloc, zone, origin, &mut pending, update)?;
    }
    let sets = pending.into_sets(alloc)?;
    Ok(Changes { sets })
}

/// Applies an update.
fn apply<Z: ZoneRows>(
    alloc: Global,
    zone: &Z,
    origin: &Name,
    pending: &mut Pending,
    update: &Record,
) -> Result<(), AllocError>
    requires { AreListed (Z.rows zone.now) (overlay (Z.rows zone.now) pending.old.sets)
        pending.old.types }
    ensures change { OnOk result (overlay (Z.rows zone.now) pending.new.sets
        ≡ change origin.now (overlay (Z.rows zone.now) pending.old.sets) update.now) }
    ensures listed { OnOk result (AreListed (Z.rows zone.now)
        (overlay (Z.rows zone.now) pending.new.sets) pending.new.types) }
    ensures decided { is_void_in_class origin.now (overlay (Z.rows zone.now) pending.old.sets)
        update.now.dns_class update.now ≡ true
        → (result ≡ Ok tt) × (pending.new.sets ≡ pending.old.sets) }
{
    match update.dns_class {
        DNSClass::IN => add(alloc, zone, pending, update),
        DNSClass::ANY => delete_sets(alloc, zone, origin, pending, update),
        DNSClass::NONE => delete_row(alloc, zone, origin, &mut pending.sets, update),
        _ => Ok(()),
    }
}
