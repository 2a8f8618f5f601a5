//! What whole sets and negative answers say of the zone.

ghost use Rattle.std.specs.Prelude.{◌≡◌, ◌≢◌, ◌⊎◌, ℕ, Bool, List, [], Contains, false, true};
ghost use Rattle.dns_wire.specs.codes.RecordType.{type_number};
ghost use Rattle.dns_wire.specs.declared.codes.record_type.RecordType.{RecordType};
ghost use Rattle.dns_names.specs.Name.{DomainName};
ghost use Rattle.dns_records.specs.Record.{Record};
ghost use Rattle.dns_records.specs.Rows.{Rows, rows_at};
ghost use Rattle.dns_messages.specs.Response.{has_type};
ghost use Rattle.dns_messages.specs.declared.query.Query.{Query};
ghost use Rattle.dns_zone.specs.Rows.{IsZone};
ghost use Rattle.dns_zone.specs.Answer.{answer, is_no_row_type, negative};
ghost use Rattle.stub_cache.specs.Ttl.{TtlConfigContent};
ghost use Rattle.stub_lookup.specs.declared.error.NoRecords.{NoRecords};
ghost use Rattle.stub_hosts.specs.Hosts.{question};
ghost use Rattle.stub_link.specs.LinkState.{Version};
ghost use Rattle.stub_laws.specs.history.Answered.{zone_with};
ghost use Rattle.stub_laws.specs.history.Stands.{AreSame, IsFresh, IsReached};
ghost use Rattle.stub_laws.specs.answers.Standing.{HasBeenAbsent, HasRows, IsAbsent, IsLed, IsWholeSet};
ghost use Rattle.stub_laws.specs.walk.Answered.{HasShortAliases};
ghost use Rattle.stub_laws.specs.answers.Steady.{HasSpecialEnd, LeadsNowhere, always};

use dns_zone::laws::names_without_alias_are_answered_directly;

/// Each record of a whole set is fresh, and the question leads to its owner: a set that is whole is never stale.
pub fn whole_sets_are_fresh()
    ensures { (preserves : Bool) (history : List Version) (greatest now : ℕ) (kind : RecordType)
        (from : DomainName) (records : List Record) (r : Record)
        → IsWholeSet preserves history greatest now kind from records → Contains records r
        → has_type kind r ≡ true
        → IsFresh history greatest now r
        × ((links : ℕ) × IsLed preserves history now kind from links r.name) }
{}

/// A question leads to names that are reached by aliases, unless it asks for services; and one for aliases leads nowhere but to its
/// own name.
pub fn questions_lead_along_aliases()
    ensures reached { (preserves : Bool) (history : List Version) (now : ℕ) (kind : RecordType)
        (from to : DomainName) (links : ℕ) → type_number kind ≢ 33
        → IsLed preserves history now kind from links to → IsReached history now from to }
    ensures here { (preserves : Bool) (history : List Version) (now : ℕ) (kind : RecordType)
        (from to : DomainName) (links : ℕ) → type_number kind ≡ 5
        → IsLed preserves history now kind from links to → AreSame from to }
{}

/// An absence is what the zone answered at its moment to a question for the name and the type: a negative answer.
pub fn absences_are_negative_answers()
    ensures { (config : TtlConfigContent) (preserves : Bool) (origin : DomainName)
        (history : List Version) (age now : ℕ) (kind : RecordType) (from : DomainName)
        (absence : NoRecords) → (a : IsAbsent config preserves origin history age now kind from absence)
        → is_no_row_type (type_number kind) ≡ false
        → answer (zone_with origin a.rows) (question a.owner kind)
        ≡ negative (zone_with origin a.rows) a.owner.labels }
{
    names_without_alias_are_answered_directly();
}

/// In a zone that does not change, a question that leads nowhere finds all rows of its type at its name, in order, and else has the
/// code of the zone's negative answer for this name, in some spelling.
pub fn questions_that_lead_nowhere_are_answered_at_their_name()
    ensures found { (preserves : Bool) (rows : Rows) (greatest now : ℕ) (q : Query)
        (records : List Record) → LeadsNowhere preserves rows q
        → (s : IsWholeSet preserves (always rows) greatest now q.query_type q.name records)
        → AreSame q.name s.owner
        × (rows_at rows q.name.labels q.query_type ≢ [])
        × HasRows greatest s.moment now s.owner q.query_type
        (rows_at rows q.name.labels q.query_type) records }
    ensures absent { (config : TtlConfigContent) (preserves : Bool) (origin : DomainName)
        (rows : Rows) (age now : ℕ) (q : Query) (absence : NoRecords)
        → LeadsNowhere preserves rows q
        → (a : IsAbsent config preserves origin (always rows) age now q.query_type q.name absence)
        → AreSame q.name a.owner
        × (rows_at rows q.name.labels q.query_type ≡ [])
        × (absence.response_code ≡ (negative (zone_with origin rows) a.owner.labels).code) }
{}

/// In a zone that does not change, in which no chain of aliases passes seven links, chains are followed to their end: a question of
/// another type than SOA and SRV has no records only where its type is absent, or at a special-use name.
pub fn short_chains_are_followed_to_their_end()
    ensures { (config : TtlConfigContent) (preserves : Bool) (origin : DomainName) (rows : Rows)
        (age now : ℕ) (q : Query) (absence : NoRecords) → IsZone (zone_with origin rows)
        → HasShortAliases (zone_with origin rows) → type_number q.query_type ≢ 6
        → type_number q.query_type ≢ 33
        → HasBeenAbsent config preserves origin (always rows) age now q absence
        → IsAbsent config preserves origin (always rows) age now q.query_type q.name absence
        ⊎ HasSpecialEnd preserves (always rows) now q absence }
{}
