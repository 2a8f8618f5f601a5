//! Theorems about updates and their builders (RFC 2136).

ghost use Rattle.std.specs.Prelude.{◌≡◌, ◌≢◌, ◌&&◌, Bool, ℕ, [], true, false, not};
ghost use Rattle.std.specs.List.{AllByRecursion};
ghost use Rattle.dns_wire.specs.declared.codes.dns_class.DNSClass.{DNSClass};
ghost use Rattle.dns_wire.specs.declared.codes.dns_class.DNSClass.TheVariants.{IN};
ghost use Rattle.dns_wire.specs.declared.codes.record_type.RecordType.TheVariants as types;
ghost use Rattle.dns_names.specs.Name.{DomainName};
ghost use Rattle.dns_names.specs.Compare.{same_labels};
ghost use Rattle.dns_records.specs.Record.{Record};
ghost use Rattle.dns_records.specs.RecordSet.{RecordSetValue};
ghost use Rattle.dns_records.specs.Rows.{Rows, HasNoEmptySet, type_of_record};
ghost use Rattle.dns_messages.specs.declared.message.Message.{Message};
ghost use Rattle.dns_messages.specs.declared.response_code.ResponseCode.TheVariants.{NoError, YXRRSet, NXRRSet};
ghost use Rattle.dns_updates.specs.Records.{AreAliasesAlone, is_type, is_in_zone, is_transfer_type};
ghost use Rattle.dns_updates.specs.Code.{fault_if, prescan_code, update_code};
ghost use Rattle.dns_updates.specs.Change.{update_change};
ghost use Rattle.dns_updates.specs.Builders.{IsSetFor, AreRowsFor, is_present, is_current, created, appended, swapped, IsWithoutRows, IsWithoutSet, IsWithoutName, create_message, append_message, compare_and_swap_message, delete_by_rdata_message, delete_rrset_message, delete_all_message};

use dns_names::laws::{equal_labels_have_equal_lowercase, zone_of_ignores_case};

/// An update by [`create`](crate::create) is answered with YXRRSet exactly if the zone has records of the set's owner and
/// type, and else adds the set.
pub fn created_sets_are_added()
    ensures code { (id : ℕ) (origin : DomainName) (rows : Rows) (s : RecordSetValue) (e : Bool)
        → IsSetFor origin s
        → update_code origin rows (create_message id s origin e)
        ≡ fault_if (is_present rows s) YXRRSet }
    ensures change { (id : ℕ) (origin : DomainName) (rows : Rows) (s : RecordSetValue) (e : Bool)
        → IsSetFor origin s → AreRowsFor s rows
        → update_code origin rows (create_message id s origin e) ≡ NoError
        → update_change origin rows (create_message id s origin e) ≡ created rows s }
{
    equal_labels_have_equal_lowercase();
    zone_of_ignores_case();
}

/// An update by [`append`](crate::append) is answered with NXRRSet exactly if the set must exist and the zone has no records
/// of its owner and type, and else adds each record, or replaces the one with equal data.
pub fn appended_records_are_added()
    ensures code { (id : ℕ) (origin : DomainName) (rows : Rows) (s : RecordSetValue)
        (must_exist e : Bool) → IsSetFor origin s
        → update_code origin rows (append_message id s origin must_exist e)
        ≡ fault_if (must_exist && not (is_present rows s)) NXRRSet }
    ensures change { (id : ℕ) (origin : DomainName) (rows : Rows) (s : RecordSetValue)
        (must_exist e : Bool) → IsSetFor origin s → AreRowsFor s rows
        → update_code origin rows (append_message id s origin must_exist e) ≡ NoError
        → update_change origin rows (append_message id s origin must_exist e)
        ≡ appended rows s must_exist }
{
    equal_labels_have_equal_lowercase();
    zone_of_ignores_case();
}

/// An update by [`compare_and_swap`](crate::compare_and_swap) is answered with NXRRSet exactly if the zone has other data than
/// the current set, and else makes the set the new one.
pub fn swapped_sets_are_replaced()
    ensures code { (id : ℕ) (origin : DomainName) (rows : Rows) (current new : RecordSetValue)
        (e : Bool) → IsSetFor origin current → IsSetFor origin new → current.records ≢ []
        → update_code origin rows (compare_and_swap_message id current new origin e)
        ≡ fault_if (not (is_current rows current)) NXRRSet }
    ensures change { (id : ℕ) (origin : DomainName) (rows : Rows) (current new : RecordSetValue)
        (e : Bool) → IsSetFor origin current → IsSetFor origin new → current.records ≢ []
        → same_labels current.name.labels new.name.labels ≡ true
        → current.record_type ≡ new.record_type → AreRowsFor new rows
        → update_code origin rows (compare_and_swap_message id current new origin e) ≡ NoError
        → update_change origin rows (compare_and_swap_message id current new origin e)
        ≡ swapped rows current new }
{
    equal_labels_have_equal_lowercase();
    zone_of_ignores_case();
}

/// An update by [`delete_by_rdata`](crate::delete_by_rdata) deletes the records with the set's data.
pub fn records_are_deleted_by_data()
    ensures code { (id : ℕ) (origin : DomainName) (rows : Rows) (s : RecordSetValue) (e : Bool)
        → IsSetFor origin s
        → update_code origin rows (delete_by_rdata_message id s origin e) ≡ NoError }
    ensures change { (id : ℕ) (origin : DomainName) (rows : Rows) (s : RecordSetValue) (e : Bool)
        → IsSetFor origin s → HasNoEmptySet rows
        → IsWithoutRows s rows (update_change origin rows (delete_by_rdata_message id s origin e)) }
{
    equal_labels_have_equal_lowercase();
    zone_of_ignores_case();
}

/// An update by [`delete_rrset`](crate::delete_rrset) deletes the records of an owner and a type, except SOA and NS at the
/// origin.
pub fn sets_are_deleted()
    ensures code { (id : ℕ) (origin : DomainName) (rows : Rows) (r : Record) (e : Bool)
        → is_in_zone origin r.name ≡ true → r.dns_class ≡ IN
        → is_transfer_type (type_of_record r) ≡ false
        → update_code origin rows (delete_rrset_message id r origin e) ≡ NoError }
    ensures change { (id : ℕ) (origin : DomainName) (rows : Rows) (r : Record) (e : Bool)
        → is_type types.ANY (type_of_record r) ≡ false
        → IsWithoutSet origin r.name (type_of_record r) rows
        (update_change origin rows (delete_rrset_message id r origin e)) }
{
    equal_labels_have_equal_lowercase();
    zone_of_ignores_case();
}

/// An update by [`delete_all`](crate::delete_all) deletes the records of a name, except SOA and NS at the origin.
pub fn names_are_deleted()
    ensures code { (id : ℕ) (origin : DomainName) (rows : Rows) (owner : DomainName) (c : DNSClass)
        (e : Bool) → is_in_zone origin owner ≡ true → c ≡ IN
        → update_code origin rows (delete_all_message id owner origin c e) ≡ NoError }
    ensures change { (id : ℕ) (origin : DomainName) (rows : Rows) (owner : DomainName)
        (c : DNSClass) (e : Bool)
        → IsWithoutName origin owner rows
        (update_change origin rows (delete_all_message id owner origin c e)) }
{
    equal_labels_have_equal_lowercase();
    zone_of_ignores_case();
}

/// Each update of a message that is answered with NoError passes the prescan (RFC 2136 section 3.4.1).
pub fn accepted_updates_pass_the_prescan()
    ensures { (origin : DomainName) (rows : Rows) (m : Message)
        → update_code origin rows m ≡ NoError
        → AllByRecursion (λ r. prescan_code origin r ≡ NoError) m.authorities }
{}

/// An update leaves no owner and type with an empty set, if there was none before.
pub fn updates_leave_no_empty_set()
    ensures { (origin : DomainName) (rows : Rows) (m : Message) → HasNoEmptySet rows
        → HasNoEmptySet (update_change origin rows m) }
{}

/// An update adds no rows beside a CNAME, and no CNAME beside rows (RFC 2136 section 3.4.2.2).
pub fn updates_add_nothing_beside_aliases()
    ensures { (origin : DomainName) (rows : Rows) (m : Message) → AreAliasesAlone rows
        → AreAliasesAlone (update_change origin rows m) }
{
    equal_labels_have_equal_lowercase();
}
