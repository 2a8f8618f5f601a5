//! Theorems about the definitions of this crate, as functions with empty bodies.

ghost use Rattle.std.specs.Prelude.{◌≡◌, false, true, ℕ, List, [], None, Ok, Some};
ghost use Rattle.dns_wire.specs.declared.codes.record_type.RecordType.TheVariants as types;
ghost use Rattle.dns_wire.specs.declared.codes.dns_class.DNSClass.TheVariants.{IN};
ghost use Rattle.dns_messages.specs.declared.message.Message.{Message};
ghost use Rattle.dns_messages.specs.declared.query.Query.{Query};
ghost use Rattle.dns_messages.specs.declared.response_code.ResponseCode.TheVariants.{NoError};
ghost use Rattle.dns_messages.specs.Sound.{IsSound};
ghost use Rattle.dns_differences.specs.serials.Serial.{next_serial};
ghost use Rattle.dns_updates.specs.Change.{update_change};
ghost use Rattle.dns_updates.specs.Code.{update_code};
ghost use Rattle.std.specs.List.{AllByRecursion};
ghost use Rattle.dns_zone.specs.Answer.{answer, direct_answer, is_refused, IsChain};
ghost use Rattle.dns_zone.specs.Load.{ReadsZone};
ghost use Rattle.dns_zone.specs.Maintained.{is_due, maintained, zone_with};
ghost use Rattle.dns_zone.specs.Printed.{IsZoneText, IsPrintable};
ghost use Rattle.dns_zone.specs.Rows.{ZoneContent, rows_at, IsSoundRowData, IsZone};
ghost use Rattle.dns_zone.specs.ZoneSerial.{zone_serial};
ghost use Rattle.dns_zone.specs.declared.zone.serials.Serials.TheVariants.{Rising};

/// Without an alias at the name in a question, the answer has the rows of its type, or is negative.
pub fn names_without_alias_are_answered_directly()
    ensures { (zone : ZoneContent) (q : Query) → is_refused zone q ≡ false
        → rows_at zone.rows q.name.labels types.CNAME ≡ []
        → answer zone q
        ≡ direct_answer zone q.name (rows_at zone.rows q.name.labels q.query_type) }
{}

/// The answers to a question are records along an alias chain from its name.
pub fn answers_are_alias_chains()
    ensures { (zone : ZoneContent) (q : Query)
        → IsChain zone.rows q.query_type q.name (answer zone q).answers }
{}

/// Each text of a zone parses back to the zone, without texts to include and without an origin, if the data of each row has
/// a text form.
pub fn printed_zones_parse_back()
    ensures { (zone : ZoneContent) (text : List ℕ) → IsZoneText zone text → IsPrintable zone
        → ReadsZone [] None text (Ok zone) }
{}

/// An update that is answered with NoError keeps a zone well formed: its additions are rows that can be encoded, at or below
/// the origin, and its deletions keep the SOA record.
pub fn updates_keep_zones_well_formed()
    ensures { (zone : ZoneContent) (m : Message) → IsZone zone → IsSound m
        → update_code zone.origin zone.rows m ≡ NoError
        → IsZone (record zone { rows = update_change zone.origin zone.rows m }) }
{}

/// Each addition of an update that is answered with NoError has data that can be encoded in a section.
pub fn accepted_additions_have_sound_data()
    ensures { (zone : ZoneContent) (m : Message) → IsSound m
        → update_code zone.origin zone.rows m ≡ NoError
        → AllByRecursion (λ r. r.dns_class ≡ IN → IsSoundRowData r.rdata) m.authorities }
{}

/// Where serial numbers rise by themselves, a change of the records that leaves the SOA record as it was raises the serial
/// number of the zone by one (RFC 2136 section 3.6).
pub fn serials_rise_with_changes()
    ensures { (zone : ZoneContent) (m : Message) (serial : ℕ)
        → is_due zone (zone_with zone m) ≡ true → zone_serial zone ≡ Some serial
        → zone_serial (maintained Rising zone m) ≡ Some (next_serial serial) }
{}
