//! Theorems about grants, as functions with empty bodies.

ghost use Rattle.std.specs.Prelude.{◌≡◌, ℕ, List, true, false};
ghost use Rattle.std.specs.FinMap as rows_map;
ghost use Rattle.dns_names.specs.Name.{DomainName};
ghost use Rattle.dns_messages.specs.declared.message.Message.{Message};
ghost use Rattle.dns_records.specs.Rows.{Key, Rows};
ghost use Rattle.dns_updates.specs.Change.{update_change};
ghost use Rattle.dns_keys.specs.grants.Grant.{may_change, permits};
ghost use Rattle.dns_keys.specs.declared.grants.grant.Grant.{Grant};

use dns_names::laws::{equal_labels_have_equal_lowercase, zone_of_ignores_case};

/// A permitted update leaves each set as it was that the holders of its key may not change.
pub fn permitted_updates_change_nothing_else()
    ensures { (grants : List Grant) (name : List ℕ) (origin : DomainName) (rows : Rows)
        (update : Message) (at : Key) → permits grants name update ≡ true
        → may_change grants name at.0 at.1 ≡ false
        → rows_map.get (update_change origin rows update) at ≡ rows_map.get rows at }
{
    equal_labels_have_equal_lowercase();
    zone_of_ignores_case();
}
