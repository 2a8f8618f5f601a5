//! Theorems about the definitions of this crate, as functions with empty bodies.

ghost use Rattle.std.specs.Prelude.{◌≡◌, ◌≢◌, ◌<◌, ◌^◌, ℕ, true, false, List, Option, Result, Ok, IfSome, IsSome};
ghost use Rattle.std.specs.List.{AllByRecursion};
ghost use Rattle.dns_wire.specs.declared.codes.record_type.RecordType.{RecordType};
ghost use Rattle.dns_names.specs.Name.{DomainName};
ghost use Rattle.dns_text.specs.Lexer.{Lexeme};
ghost use Rattle.dns_data.specs.declared.rdata.RData.{RData};
ghost use Rattle.dns_data.specs.rdata.{data_type, whole_len, is_update_data, IsSoundData};
ghost use Rattle.dns_records.specs.Record.{Record};
ghost use Rattle.dns_zone_file.specs.declared.context.Context.{Context};
ghost use Rattle.dns_zone_file.specs.declared.error.ZoneFileError.{ZoneFileError};
ghost use Rattle.dns_zone_file.specs.declared.types.Types.{Types};
ghost use Rattle.dns_zone_file.specs.Data.{ReadsIn};
ghost use Rattle.dns_zone_file.specs.Parsed.{IsParsedSet, AreDistinctSets};
ghost use Rattle.dns_zone_file.specs.Parsing.{Includes, ParsesFile, ParsesIn, ZoneFile, HasRecords, start_context, start_origin};
ghost use Rattle.dns_zone_file.specs.Printed.{ArePrintableRecords, lines_of, after_records, printed_records, IsTextFile, IsTextSet, IsValidName};
ghost use Rattle.dns_zone_file.specs.RecordSets.{set_of};

/// Each set of a zone file has a record, its records have the owner, the class and the type of the set, and no two of its
/// data are equal. There is one set for each owner and type. The origin at the end and the owner of the first SOA record are
/// fully qualified, and this owner has a set of SOA records.
pub fn parsed_sets_have_records()
    ensures sets { (types : Types) (includes : Includes) (origin : Option DomainName)
        (text : List ℕ) (c : Context) → ParsesIn types includes origin text (Ok c)
        → AllByRecursion IsParsedSet c.sets }
    ensures distinct { (types : Types) (includes : Includes) (origin : Option DomainName)
        (text : List ℕ) (c : Context) → ParsesIn types includes origin text (Ok c)
        → AreDistinctSets c.sets }
    ensures origin { (types : Types) (includes : Includes) (origin : Option DomainName)
        (text : List ℕ) (c : Context) → ParsesIn types includes origin text (Ok c)
        → c.origin.is_fqdn ≡ true }
    ensures soa { (types : Types) (includes : Includes) (origin : Option DomainName)
        (text : List ℕ) (c : Context) → ParsesIn types includes origin text (Ok c)
        → IfSome c.first_soa (λ soa. soa.owner.is_fqdn ≡ true) }
    ensures soa_set { (types : Types) (includes : Includes) (origin : Option DomainName)
        (text : List ℕ) (c : Context) → ParsesIn types includes origin text (Ok c)
        → IfSome c.first_soa (λ soa. IsSome (set_of c.sets soa.owner RecordType.SOA)) }
{}

/// A zone file has one outcome: the records that it contains, or its first fault.
pub fn parsing_is_deterministic()
    ensures { (types : Types) (includes : Includes) (origin : Option DomainName) (text : List ℕ)
        (a b : Result Context ZoneFileError)
        → ParsesIn types includes origin text a → ParsesIn types includes origin text b → a ≡ b }
{}

/// The data of a record of a zone file is sound if it is short enough to be encoded: it encodes, and decodes to itself. It
/// is data of its type, which is neither `OPT` nor `TSIG`.
pub fn data_in_zone_files_is_sound()
    ensures sound { (types : Types) (origin : DomainName) (record_type : RecordType)
        (tokens : List Lexeme) (d : RData) → ReadsIn types origin record_type tokens d
        → whole_len d < 2 ^ 16 → IsSoundData d }
    ensures not_opt { (types : Types) (origin : DomainName) (record_type : RecordType)
        (tokens : List Lexeme) (d : RData) → ReadsIn types origin record_type tokens d
        → data_type d ≢ RecordType.OPT }
    ensures not_tsig { (types : Types) (origin : DomainName) (record_type : RecordType)
        (tokens : List Lexeme) (d : RData) → ReadsIn types origin record_type tokens d
        → data_type d ≢ RecordType.TSIG }
    ensures has_data { (types : Types) (origin : DomainName) (record_type : RecordType)
        (tokens : List Lexeme) (d : RData) → ReadsIn types origin record_type tokens d
        → is_update_data d ≡ false }
{}

/// Printed records parse back: a zone file with a line for each record contains exactly these records, inserted in their
/// order, whatever texts it could include and whatever the origin is.
pub fn printed_records_parse_back()
    ensures parses { (includes : Includes) (origin : Option DomainName) (records : List Record)
        → ArePrintableRecords records
        → ParsesFile includes origin (lines_of records)
        (Ok (after_records (start_context (start_origin origin)) records)) }
    ensures contains { (includes : Includes) (origin : Option DomainName) (records : List Record)
        → ArePrintableRecords records
        → HasRecords (record {
          text = lines_of records;
          includes = includes;
          origin = origin;
          types = Types.Nine;
        }) (printed_records origin records) }
{}

/// The sets of a zone file of the types with fields can be printed, unless their data is too long to be encoded: each has a
/// valid owner, and its data has a text form and valid values. The origin at the end and the owner of the first SOA record are
/// valid names. The premise holds for every `&str` and `Name`.
pub fn parsed_sets_can_be_printed()
    ensures sets { (file : ZoneFile) (c : Context) → IsTextFile file
        → ParsesIn file.types file.includes file.origin file.text (Ok c)
        → AllByRecursion IsTextSet c.sets }
    ensures origin { (file : ZoneFile) (c : Context) → IsTextFile file
        → ParsesIn file.types file.includes file.origin file.text (Ok c) → IsValidName c.origin }
    ensures soa { (file : ZoneFile) (c : Context) → IsTextFile file
        → ParsesIn file.types file.includes file.origin file.text (Ok c)
        → IfSome c.first_soa (λ soa. IsValidName soa.owner) }
{}
