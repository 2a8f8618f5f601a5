//! Theorems about the definitions of this crate, as functions with empty bodies.

ghost use Rattle.std.specs.Prelude.{◌≡◌, ◌+◌, ◌&&◌, ◌↔◌, ℕ, List, map};
ghost use Rattle.std.specs.Cmp.{IsEquivalence, IsTotalOrder};
ghost use Rattle.std.specs.declared.cmp.Ordering.TheVariants.{Equal};
ghost use Rattle.dns_wire.specs.codes.DNSClass.{class_number};
ghost use Rattle.dns_wire.specs.codes.RecordType.{type_number};
ghost use Rattle.dns_data.specs.declared.rdata.RData.{RData};
ghost use Rattle.dns_data.specs.rdata.{data_type};
ghost use Rattle.dns_wire.specs.declared.codes.dns_class.DNSClass.{DNSClass};
ghost use Rattle.dns_names.specs.Compare.{same_name, name_cmp};
ghost use Rattle.dns_records.specs.declared.record.Record.{Record};
ghost use Rattle.dns_records.specs.Record.{same_record, after_seconds, record_cmp, IsCopyOf};
ghost use Rattle.dns_wire.specs.declared.codes.record_type.RecordType.{RecordType};
ghost use Rattle.dns_records.specs.RrsetRecords.{records_left};
ghost use Rattle.dns_records.specs.declared.rrset_records.RrsetRecords.{RrsetRecords};
ghost use Rattle.std.specs.Iterator.{Drains, IsFinite};
ghost use Rattle.std.specs.Borrow.{Bor};
ghost use Rattle.std.specs.Vec.Iter.{into_iter_steps};
ghost use Rattle.std.specs.declared.alloc.Global.{Global};
ghost use Rattle.std.specs.declared.vec.IntoIter.{IntoIter};
ghost use Rattle.dns_records.specs.RecordSet.{AreDistinct, RecordSetValue, inserted, removed};

use crate::record_set::RecordSet;
use crate::rrset_records::RrsetRecords;
use dns_data::{RData, RecordData};
use dns_wire::DNSClass;

/// Equality of records is an equivalence on owner, class and data. It does not depend on the TTL.
pub fn equality_of_records<R: RecordData + Eq>()
    ensures equivalence { IsEquivalence (same_record R.eq) }
    ensures fields { (x y : Record R) → same_record R.eq x y ≡ (same_name x.name y.name
        && (⟦<DNSClass as PartialEq>⟧.eq x.dns_class y.dns_class && R.eq x.rdata y.rdata)) }
    ensures any_ttl { (x y : Record R) (ttl : ℕ)
        → same_record R.eq (record x { ttl = ttl }) y ≡ same_record R.eq x y }
{}

/// A record after some seconds and then after some more is the record after all of them.
pub fn seconds_add_up<R: RecordData>()
    ensures { (r : Record R) (first second : ℕ)
        → after_seconds second (after_seconds first r) ≡ after_seconds (first + second) r }
{}

/// The order of records is total.
pub fn order_of_records<R: RecordData + Ord>()
    ensures { IsTotalOrder (record_cmp R.rdata R.cmp) }
{}

/// Records compare equal exactly if owner, type, class, TTL and data each do.
pub fn records_that_compare_equal<R: RecordData + Ord>()
    ensures { (x y : Record R) → (record_cmp R.rdata R.cmp x y ≡ Equal) ↔
        ((name_cmp x.name y.name ≡ Equal)
        × (type_number (data_type (R.rdata x.rdata)) ≡ type_number (data_type (R.rdata y.rdata)))
        × (class_number x.dns_class ≡ class_number y.dns_class)
        × (x.ttl ≡ y.ttl)
        × (R.cmp x.rdata y.rdata ≡ Equal)) }
{}

/// A copy of a record with data of any type is identical to the record.
pub fn copies_are_identical()
    ensures { (r copy : Record RData)
        → IsCopyOf ⟦<RData as Clone>⟧.is_clone r copy → copy ≡ r }
{}

/// Insertions and removals never make two data equal: those of records, of rows, and of anything that has data.
pub fn data_stay_distinct<T>()
    ensures inserted { (rdata : T → RData) (present : List T) (x : T)
        → AreDistinct rdata present → AreDistinct rdata (inserted rdata present x) }
    ensures removed { (rdata : T → RData) (record_type : RecordType)
        (present : List T) (d : RData)
        → AreDistinct rdata present → AreDistinct rdata (removed rdata record_type present d) }
{}

/// The iterators over the records of a set, lent or by value, yield each record once, in their order, and end.
pub fn records_come_in_order<'a>()
    ensures ends { (it : RrsetRecords) → IsFinite (⟦<RrsetRecords<'a> as Iterator>⟧.remaining it) }
    ensures order { (it : RrsetRecords) (items : List (Bor (Record RData)))
        → Drains ⟦<RrsetRecords<'a> as Iterator>⟧.next_gives it items
        → map (λ r. r.now) items ≡ records_left it }
    ensures order_by_value { (set : RecordSetValue) (it : IntoIter (Record RData) Global)
        (items : List (Record RData)) → ⟦<RecordSet as IntoIterator>⟧.into_iter_gives set it
        → Drains (into_iter_steps {X = Record RData} {Z = Global}) it items → items ≡ set.records }
{}
