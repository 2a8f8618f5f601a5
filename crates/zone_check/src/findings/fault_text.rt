//! The sentences of faults.

ghost use Rattle.std.specs.Prelude.{◌≡◌, option_copied, option_map};
ghost use Rattle.zone_check.specs.findings.FaultText.{advice_on, common_sentences, data_sentences, entry_sentences, fault_sentences, file_sentences, format_sentences, generate_sentences, is_about_fields, is_about_format, lexer_sentences, own_sentences, token_reason, with_form};
ghost use Rattle.zone_check.specs.findings.Finding.{sentences};

use crate::findings::finding::Advice;
use crate::findings::form_text::form_text;
use crate::findings::word_text::word_text;
use dns_data::RDataParseError;
use dns_formats::{FormatFault, ServiceFault, TokenFault};
use dns_text::LexerError;
use dns_wire::RecordType;
use dns_zone::ZoneFault;
use dns_zone_file::templates::GenerateFault;
use dns_zone_file::{EntryFault, Types, ZoneFileError};

/// The types whose data can be written, if a file may not have all.
const TYPES: &str = "write one of A, AAAA, CNAME, MX, NS, PTR, SOA, SRV and TXT";

/// How data is written whose type tells no more.
const FIELDS: &str = "write the fields of the type, or \\# LENGTH HEX with the bytes of such data";

/// How a name is written.
const NAME: &str =
    "write labels of 1 to 63 letters, digits, _ and - (not first), at most 255 in all, and any other character as \\DDD";

/// Returns what a fault of a file of some types says, and what to write instead. The word at fault may say more than the kind of
/// the fault, and the type that its entry states tells how its data is written.
pub fn advice_on(
    types: Types,
    error: &ZoneFileError,
    word: Option<&str>,
    record_type: Option<RecordType>,
) -> Advice
    ensures { sentences result
        ≡ advice_on types error.now (option_copied word.entry) record_type }
{
    let ZoneFileError::Entry(_, fault) = error else {
        return file_text(types, error);
    };
    if let Some(word) = word
        && let Some(advice) = word_text(types, fault, word, record_type)
    {
        return advice;
    }
    with_form(fault, record_type, file_text(types, error))
}

/// Returns what the fault of an entry says, with how the data of its type is written as what to write instead, if the data is at
/// fault and this is known.
fn with_form(fault: &EntryFault, record_type: Option<RecordType>, advice: Advice) -> Advice
    ensures { sentences result ≡ with_form fault.now record_type (sentences advice) }
{
    let Some(record_type) = record_type else {
        return advice;
    };
    if !is_about_fields(fault) {
        return advice;
    }
    match form_text(record_type) {
        Some(hint) => Advice {
            reason: advice.reason,
            hint,
        },
        None => advice,
    }
}

/// Returns `true` if a fault is that data does not have the fields of its type.
fn is_about_fields(fault: &EntryFault) -> bool
    ensures { result ≡ is_about_fields fault.now }
{
    match fault {
        EntryFault::InvalidData(error) => {
            matches!(
                error,
                RDataParseError::MissingToken | RDataParseError::InvalidToken
            )
        }
        EntryFault::InvalidFormat(error) => is_about_format(error),
        _ => false,
    }
}

/// Returns `true` if a fault is that data that is read as bytes does not have the fields of its type. A parameter that is repeated
/// has its form.
fn is_about_format(fault: &FormatFault) -> bool
    ensures { result ≡ is_about_format fault.now }
{
    match fault {
        FormatFault::InvalidToken(_, TokenFault::Parameter(ServiceFault::Repeated)) => false,
        FormatFault::MissingToken(_) | FormatFault::InvalidToken(_, _) => true,
        _ => false,
    }
}

/// Returns what a kind of fault of a file of some types says, and what to write instead.
pub fn fault_advice(types: Types, fault: &ZoneFault) -> Advice
    ensures { sentences result ≡ fault_sentences types fault.now }
{
    match fault {
        ZoneFault::Parse(error) => file_text(types, error),
        ZoneFault::NotInternet => Advice {
            reason: "a record whose class is not IN",
            hint: "leave the class out, or write IN",
        },
        ZoneFault::OutsideOrigin => Advice {
            reason: "an owner outside the zone's origin",
            hint: "write $ORIGIN and the origin above it, pass --origin, or end the owner in the origin and a dot",
        },
        ZoneFault::NoSoa => Advice {
            reason: "no SOA record at the zone's origin",
            hint: "write: @ 3600 IN SOA ns hostmaster ( 1 1h 10m 1d 30 )",
        },
        ZoneFault::SoaElsewhere => Advice {
            reason: "an SOA record elsewhere than at the zone's origin",
            hint: "remove it: a file has one zone",
        },
        ZoneFault::DataTooLong => Advice {
            reason: "data of more than 65,535 bytes",
            hint: "write shorter strings, or several records",
        },
        ZoneFault::Memory => Advice {
            reason: "out of memory",
            hint: "",
        },
    }
}

/// Returns what the fault of a text says.
fn file_text(types: Types, error: &ZoneFileError) -> Advice
    ensures { sentences result ≡ file_sentences types error.now }
{
    match own_text(types, error) {
        Some(advice) => advice,
        None => common_text(error),
    }
}

/// Returns what the fault of a text says only if the text may have all types, and other texts be included.
fn own_text(types: Types, error: &ZoneFileError) -> Option<Advice>
    ensures { option_map sentences result ≡ own_sentences types error.now }
{
    match (types, error) {
        (Types::All, ZoneFileError::Lexer(LexerError::UnclosedQuotedString(_))) => Some(Advice {
            reason: "a quoted string that does not end",
            hint: "write \" at its end, and \\\" for a quotation mark inside it",
        }),
        (Types::All, ZoneFileError::Entry(_, EntryFault::UnknownType)) => Some(Advice {
            reason: "not a type that is known here",
            hint: "write a type, as A, MX or CAA, or TYPE and its number",
        }),
        (
            Types::All,
            ZoneFileError::Entry(
                _,
                EntryFault::InvalidData(RDataParseError::UnsupportedRecordType),
            ),
        ) => Some(Advice {
            reason: "a type whose data cannot be written here",
            hint: "write \\# LENGTH HEX with the bytes of the data, if records have the type",
        }),
        (Types::All, ZoneFileError::Entry(_, EntryFault::InvalidDirective)) => Some(Advice {
            reason: "a directive with a missing or invalid argument",
            hint: "write $ORIGIN NAME, $TTL TIME, $INCLUDE FILE and perhaps its origin, or $GENERATE RANGE OWNER TYPE DATA, on one line",
        }),
        (Types::All, ZoneFileError::IncludeNotFound(_)) => Some(Advice {
            reason: "a file to include that cannot be read",
            hint: "write the path of a file in the folder of the zone file or below it, or pass --include-anywhere",
        }),
        _ => None,
    }
}

/// Returns what the fault of a text says by itself.
fn common_text(error: &ZoneFileError) -> Advice
    ensures { sentences result ≡ common_sentences error.now }
{
    match error {
        ZoneFileError::Lexer(error) => lexer_text(*error),
        ZoneFileError::Entry(_, fault) => entry_text(fault),
        ZoneFileError::IncludeNotFound(_) => Advice {
            reason: "no other file is included here",
            hint: "write the records of that file into this one",
        },
        ZoneFileError::Memory => Advice {
            reason: "out of memory",
            hint: "",
        },
    }
}

/// Returns what the fault of a text's characters says.
fn lexer_text(error: LexerError) -> Advice
    ensures { sentences result ≡ lexer_sentences error }
{
    match error {
        LexerError::UnclosedQuotedString(_) => Advice {
            reason: "a quoted string that does not end on its line",
            hint: "write \" at its end, and \\\" for a quotation mark inside it",
        },
        LexerError::UnclosedList(_) => Advice {
            reason: "a parenthesis that is not closed",
            hint: "write ) after the last value of the entry that begins here",
        },
        LexerError::NestedList(_) => Advice {
            reason: "a parenthesis inside another",
            hint: "write one pair of parentheses in an entry; the one before this may lack its )",
        },
        LexerError::UnopenedList(_) => Advice {
            reason: "a closing parenthesis without an opening one",
            hint: "remove it, or write ( before the first line break of the entry",
        },
        LexerError::LoneBackslash(_) => Advice {
            reason: "a backslash at the end of a line",
            hint: "remove it; parentheses continue an entry on the next line",
        },
    }
}

/// Returns what the fault of an entry says.
fn entry_text(fault: &EntryFault) -> Advice
    ensures { sentences result ≡ entry_sentences fault.now }
{
    match fault {
        EntryFault::NoOwner => Advice {
            reason: "a blank at the start of the line, and no record above to take the owner from",
            hint: "write the owner at the start of the line, or @ for the origin",
        },
        EntryFault::InvalidOwner => Advice {
            reason: "an owner that is not a name",
            hint: NAME,
        },
        EntryFault::InvalidTtl => Advice {
            reason: "a word that begins with a digit and is not a time",
            hint: "write seconds up to 4294967295, or numbers with units, as 1h30m; a type comes before its data",
        },
        EntryFault::RepeatedField => Advice {
            reason: "a second TTL or class",
            hint: "remove one of them",
        },
        EntryFault::MissingType => Advice {
            reason: "an entry that ends before its type",
            hint: "write OWNER TTL TYPE DATA; the TTL may be left out",
        },
        EntryFault::UnknownType => Advice {
            reason: "not a type that is known here",
            hint: TYPES,
        },
        EntryFault::InvalidData(error) => data_text(error),
        EntryFault::InvalidFormat(fault) => format_text(fault),
        EntryFault::NoData => Advice {
            reason: "data of no bytes, which a record of a zone cannot have here",
            hint: "remove the record",
        },
        EntryFault::NoTtl => Advice {
            reason: "the TTL is missing, and no default applies",
            hint: "write $TTL 3600 at the top of the file",
        },
        EntryFault::ClassMismatch => Advice {
            reason: "another class than the records above of this owner and type",
            hint: "leave the class out, or write IN",
        },
        EntryFault::InvalidDirective => Advice {
            reason: "a directive with a missing or invalid argument",
            hint: "write $ORIGIN NAME or $TTL TIME, and nothing after it",
        },
        EntryFault::InvalidGenerate(fault) => generate_text(*fault),
        EntryFault::TooManyIncludes => Advice {
            reason: "more than 16 nested files",
            hint: "include fewer files, and no file from itself",
        },
    }
}

/// Returns what the fault of a `$GENERATE` says.
fn generate_text(fault: GenerateFault) -> Advice
    ensures { sentences result ≡ generate_sentences fault }
{
    match fault {
        GenerateFault::InvalidRange => Advice {
            reason: "a $GENERATE whose range cannot be read",
            hint: "write $GENERATE START-STOP OWNER TYPE DATA, as $GENERATE 1-9 host$ A 192.0.2.$",
        },
        GenerateFault::TooManyNumbers => Advice {
            reason: "a $GENERATE of more than 65,536 records",
            hint: "divide its range, and write several",
        },
        GenerateFault::InvalidTemplate => Advice {
            reason: "a ${ that does not begin the form of a number",
            hint: "write ${OFFSET,WIDTH,BASE}, as ${0,3,d}, and $$ for a dollar sign",
        },
        GenerateFault::NegativeNumber | GenerateFault::NumberTooGreat => Advice {
            reason: "a number of a $GENERATE below 0 or above 2147483647",
            hint: "write another offset or range",
        },
        GenerateFault::Memory => Advice {
            reason: "out of memory",
            hint: "",
        },
    }
}

/// Returns what the fault of data says that is read as bytes.
fn format_text(fault: &FormatFault) -> Advice
    ensures { sentences result ≡ format_sentences fault.now }
{
    match fault {
        FormatFault::MissingToken(_) => data_text(&RDataParseError::MissingToken),
        FormatFault::UnexpectedToken(_) => data_text(&RDataParseError::UnexpectedToken),
        FormatFault::InvalidToken(_, TokenFault::Parameter(ServiceFault::Repeated)) => Advice {
            reason: "a parameter whose key occurs twice",
            hint: "remove one of them",
        },
        FormatFault::InvalidToken(_, fault) => Advice {
            reason: token_reason(*fault),
            hint: FIELDS,
        },
        FormatFault::WrongLength => Advice {
            reason: "data of more or fewer bytes than it says",
            hint: "write \\# and the number of bytes that follow in hexadecimal digits",
        },
        FormatFault::NotOfType => Advice {
            reason: "bytes that are not data of this type",
            hint: FIELDS,
        },
        _ => Advice {
            reason: "data that does not have the fields of its type",
            hint: FIELDS,
        },
    }
}

/// Returns what the fault of a word in such data is.
fn token_reason(fault: TokenFault) -> &'static str
    ensures { result.now ≡ token_reason fault }
{
    match fault {
        TokenFault::NotAWord => "a quoted string or an @ where another word belongs",
        TokenFault::NotANumber => "not a number, or one that is too great here",
        TokenFault::InvalidEscape => "a backslash without an escape after it",
        TokenFault::StringTooLong => "a string of more than 255 bytes",
        TokenFault::NotATag => "not a tag of letters and digits",
        TokenFault::NotAType => "not a type",
        TokenFault::NotATime => "neither seconds since 1970 nor a time as 20300131235959",
        TokenFault::NotHex => "not pairs of hexadecimal digits",
        TokenFault::NotBase64 => "not base64",
        TokenFault::NotBase32 => "not base32hex",
        TokenFault::NotAMnemonic => "neither a number nor a mnemonic that is known here",
        TokenFault::Parameter(_) => "not a parameter of a service binding",
        TokenFault::NotParameters => "parameters of a service binding that do not belong together",
        TokenFault::Location(_) => "not a location",
        TokenFault::Memory => "out of memory",
        _ => "not a name",
    }
}

/// Returns what the fault of a record's data says.
fn data_text(error: &RDataParseError) -> Advice
    ensures { sentences result ≡ data_sentences error.now }
{
    match error {
        RDataParseError::UnsupportedRecordType => Advice {
            reason: "a type whose data cannot be written here",
            hint: TYPES,
        },
        RDataParseError::MissingToken => Advice {
            reason: "data that ends before its last value",
            hint: "write all values of the type, the last ones perhaps on further lines between ( and )",
        },
        RDataParseError::InvalidToken => Advice {
            reason: "an invalid value for this type",
            hint: "write an IPv4 address for A, an IPv6 address for AAAA, PREFERENCE NAME for MX, PRIORITY WEIGHT PORT NAME for SRV, NAME NAME SERIAL and four times for SOA",
        },
        RDataParseError::UnexpectedToken => Advice {
            reason: "a word after the last value",
            hint: "remove it, or write ; before a comment",
        },
        RDataParseError::CharacterDataTooLong => Advice {
            reason: "a string of more than 255 bytes",
            hint: "write several strings, which are joined",
        },
        RDataParseError::Name(_) => Advice {
            reason: "not a name",
            hint: NAME,
        },
        RDataParseError::Memory => Advice {
            reason: "out of memory",
            hint: "",
        },
    }
}
