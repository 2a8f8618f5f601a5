//! Theorems about the definitions of this crate, as functions with empty bodies.

ghost use Rattle.std.specs.Prelude.{ℕ, List, [], Option, None, Ok};
ghost use Rattle.dns_names.specs.Name.{DomainName};
ghost use Rattle.dns_records.specs.Record.{Record};
ghost use Rattle.dns_zone_file.specs.declared.types.Types.TheVariants.{All};
ghost use Rattle.dns_zone_file.specs.Parsing.{Includes, ParsesIn, HasRecords, context_in, start_origin};
ghost use Rattle.dns_zone_file.specs.Printed.{lines_of, after_records, printed_records};
ghost use Rattle.dns_zone.specs.Load.{ReadsZoneIn};
ghost use Rattle.dns_zone.specs.Printed.{IsZoneText};
ghost use Rattle.dns_zone.specs.Rows.{ZoneContent};
ghost use Rattle.dns_durable.specs.zone_texts.Stated.{AreStatedRecords, IsStated, with_origin};

/// Printed records parse back as a zone file of all types: a file with a line for each record contains exactly these records,
/// inserted in their order, whatever texts it could include and whatever the origin is.
pub fn printed_records_parse_back()
    ensures parses { (includes : Includes) (origin : Option DomainName) (records : List Record)
        → AreStatedRecords records
        → ParsesIn All includes origin (lines_of records)
        (Ok (after_records (context_in All (start_origin origin)) records)) }
    ensures contains { (includes : Includes) (origin : Option DomainName) (records : List Record)
        → AreStatedRecords records
        → HasRecords (record {
          text = lines_of records;
          includes = includes;
          origin = origin;
          types = All;
        }) (printed_records origin records) }
{}

/// Each text of a zone parses back to the zone as a zone file of all types, without texts to include and without an origin, if
/// the data of each row can be stated.
pub fn printed_zones_parse_back()
    ensures { (zone : ZoneContent) (text : List ℕ) → IsZoneText zone text → IsStated zone
        → ReadsZoneIn All [] None text (Ok zone) }
{}

/// Behind the line that states the origin of a zone, each text of the zone parses back to the zone, too.
pub fn printed_zones_parse_back_behind_their_origin()
    ensures { (zone : ZoneContent) (text : List ℕ) → IsZoneText zone text → IsStated zone
        → ReadsZoneIn All [] None (with_origin zone.origin text) (Ok zone) }
{}
