//! Theorems about the definitions of this crate, as functions with empty bodies.

ghost use Rattle.std.specs.Prelude.{◌≡◌, [], ◌∷◌, ◌++◌, Some, ℕ, List, true};
ghost use Rattle.dns_records.specs.Record.{Record};
ghost use Rattle.dns_records.specs.Rows.{Rows};
ghost use Rattle.dns_differences.specs.declared.difference.Difference.{Difference};
ghost use Rattle.dns_differences.specs.declared.history.Limits.{Limits};
ghost use Rattle.dns_differences.specs.Difference.{applied, applied_all, first_serial, AreRecordsOf, HasSerial, IsDifference, Lead};
ghost use Rattle.dns_differences.specs.History.{fits, last_serial, recorded, since, IsHistoryOf};

/// A secondary that applies a difference to the records of the old version has those of the new one (RFC 1995 section 4).
pub fn a_difference_leads_to_the_new_version()
    ensures { (old new : Rows) (d : Difference) (records : List Record)
        → IsDifference old new d → AreRecordsOf old records
        → AreRecordsOf new (applied d records) }
{}

/// A secondary that applies differences, one after another, to the records of the first version has those of the last one.
pub fn differences_lead_to_the_last_version()
    ensures { (old new : Rows) (ds : List Difference) (records : List Record)
        → Lead old ds new → AreRecordsOf old records → AreRecordsOf new (applied_all ds records) }
{}

/// A history of a zone stays one when the difference of a change is recorded.
pub fn recorded_differences_lead_to_the_current_version()
    ensures empty { (current : Rows) → IsHistoryOf current [] }
    ensures recorded { (limits : Limits) (ds : List Difference) (current new : Rows)
        (d : Difference) → IsHistoryOf current ds → IsDifference current new d
        → IsHistoryOf new (recorded limits ds d) }
{}

/// A history stays within its limits.
pub fn histories_stay_within_their_limits()
    ensures empty { (limits : Limits) → fits limits [] ≡ true }
    ensures recorded { (limits : Limits) (ds : List Difference) (d : Difference)
        → fits limits ds ≡ true → fits limits (recorded limits ds d) ≡ true }
{}

/// The differences that a client lacks are the last of a history. They begin at the client's version, and end at the current one.
pub fn differences_since_a_version_lead_to_the_current_one()
    ensures last { (ds : List Difference) (current serial : ℕ) (d : Difference)
        (more : List Difference) → since ds current serial ≡ Some (d ∷ more)
        → (older : List Difference) × (ds ≡ older ++ d ∷ more) }
    ensures begins { (ds : List Difference) (current serial : ℕ) (d : Difference)
        (more : List Difference) → since ds current serial ≡ Some (d ∷ more)
        → first_serial d.deleted.items ≡ Some serial }
    ensures ends { (ds : List Difference) (current serial : ℕ) (d : Difference)
        (more : List Difference) → since ds current serial ≡ Some (d ∷ more)
        → last_serial (d ∷ more) ≡ Some current }
    ensures leads { (ds : List Difference) (current serial : ℕ) (now : Rows) (d : Difference)
        (more : List Difference) → since ds current serial ≡ Some (d ∷ more)
        → IsHistoryOf now ds → IsHistoryOf now (d ∷ more) }
{}

/// A client that applies the differences that it lacks to the records of the version with its serial number has the records of the
/// current version, whose serial number is the current one (RFC 1995 section 4).
pub fn clients_reach_the_current_version()
    ensures { (ds : List Difference) (current serial : ℕ) (now : Rows) (d : Difference)
        (more : List Difference) → since ds current serial ≡ Some (d ∷ more)
        → IsHistoryOf now ds → (old : Rows) × (HasSerial old serial × (HasSerial now current
        × ((records : List Record) → AreRecordsOf old records
        → AreRecordsOf now (applied_all (d ∷ more) records)))) }
{}
