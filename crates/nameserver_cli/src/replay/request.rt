//! The messages of requests in words.

ghost use Rattle.std.specs.Prelude.{◌≡◌, ◌≤◌, length, IfOk, IfErr};
ghost use Rattle.nameserver_cli.specs.replay.Request.{IsEncodingRefusal, IsWhole, is_truncated};

use crate::replay::script::first_word;
use dns_data::{RData, SOA};
use dns_formats::type_of_word;
use dns_messages::{Edns, Message, Metadata, Query, Record};
use dns_names::{Name, ParseError};
use dns_updates::builder::UpdateBuilder;
use dns_wire::{DNSClass, EncodeError, RecordType};
use dns_zone_file::{Parser, Types, ZoneFileError};
use hex::FromHexError;
use std::alloc::{AllocError, Global};

/// The id of each request in words.
const ID: u16 = 1;

/// The maximum length of a message, in bytes (RFC 1035 section 4.2.2).
const MAX_LENGTH: usize = 65_535;

/// What parts the changes of an update.
const SEPARATOR: &str = " ; ";

/// A message, as bytes.
#[derive(Drop)]
pub struct RequestBytes {
    /// The bytes.
    pub bytes: Vec<u8>,
    /// Whether they were given as they are.
    pub is_raw: bool,
}

/// Why words are no request.
#[derive(Clone, Copy)]
pub enum RequestFault {
    /// The first word names no kind of request.
    Kind,
    /// What follows `hex` is not bytes in hexadecimal digits.
    Hex,
    /// A name cannot be read.
    Name,
    /// A type cannot be read.
    Type,
    /// A serial number cannot be read.
    Serial,
    /// A word after a question is none of its options.
    Option,
    /// A change of an update cannot be read.
    Change,
    /// A record cannot be read.
    Record,
    /// The message has more than 65,535 bytes.
    TooLong,
    /// Memory was refused.
    Memory,
}

impl RequestFault {
    /// Returns what is said of the fault.
    pub fn reason(self) -> &'static str {
        match self {
            RequestFault::Kind => {
                "no request: write `query NAME TYPE`, `update ZONE CHANGE ; CHANGE`, `axfr ZONE`, `ixfr ZONE SERIAL`, `message DIGITS` or `hex DIGITS`"
            }
            RequestFault::Hex => "not bytes in hexadecimal digits",
            RequestFault::Name => "not a domain name",
            RequestFault::Type => "no type, such as A or TYPE65280",
            RequestFault::Serial => "no serial number from 0 to 4294967295",
            RequestFault::Option => "an option of a question is `rd`, `cd`, `do` or `size=N`",
            RequestFault::Change => {
                "a change is `add NAME TTL TYPE DATA`, `delete NAME [TYPE [DATA]]`, or `prereq` with `yxdomain NAME`, `nxdomain NAME`, `yxrrset NAME TYPE [DATA]` or `nxrrset NAME TYPE`"
            }
            RequestFault::Record => "the data of the record cannot be read as that of its type",
            RequestFault::TooLong => "a message has at most 65,535 bytes",
            RequestFault::Memory => "out of memory",
        }
    }
}

impl From<AllocError> for RequestFault {
    fn from(_error: AllocError) -> RequestFault {
        // The memory was refused to the call that returned the error.
        RequestFault::Memory
    }
}

/// Returns the message of a request: bytes after `hex` or `message`, or else words. It has at most 65,535 bytes.
pub fn request_of(alloc: Global, text: &str) -> Result<RequestBytes, RequestFault>
    ensures { IfOk result (λ request. length request.bytes.items ≤ 65535) }
{
    let (kind, rest) = first_word(text);
    let bytes = request_bytes(alloc, kind, rest)?;
    Ok(RequestBytes {
        bytes,
        is_raw: kind == "hex",
    })
}

/// Returns the bytes of the message of a request of a kind.
fn request_bytes(alloc: Global, kind: &str, rest: &str) -> Result<Vec<u8>, RequestFault>
    ensures { IfOk result (λ bytes. length bytes.items ≤ 65535) }
{
    match kind {
        "hex" | "message" => bytes_of(alloc, rest),
        _ => {
            let message = message_of(alloc, kind, rest)?;
            encoded(alloc, &message)
        }
    }
}

/// Returns the message of a request in words.
fn message_of(alloc: Global, kind: &str, rest: &str) -> Result<Message, RequestFault> {
    match kind {
        "query" => query_of(alloc, rest),
        "axfr" => transfer_of(alloc, rest, RecordType::AXFR),
        "ixfr" => incremental_of(alloc, rest),
        "update" => update_of(alloc, rest),
        _ => Err(RequestFault::Kind),
    }
}

/// Returns the bytes that hexadecimal digits state.
fn bytes_of(alloc: Global, digits: &str) -> Result<Vec<u8>, RequestFault>
    ensures { IfOk result (λ bytes. length bytes.items ≤ 65535) }
{
    match hex::decode(alloc, digits) {
        Ok(bytes) if bytes.len() > MAX_LENGTH => Err(RequestFault::TooLong),
        Ok(bytes) => Ok(bytes),
        // Memory for the bytes was refused.
        Err(FromHexError::OutOfMemory) => Err(RequestFault::Memory),
        Err(_) => Err(RequestFault::Hex),
    }
}

/// Returns the bytes of a message, which must fit with all its records. A message has TC clear until it is encoded.
fn encoded(alloc: Global, message: &Message) -> Result<Vec<u8>, RequestFault>
    ensures whole { IfOk result (λ bytes. IsWhole message.now bytes.items) }
    ensures within { IfOk result (λ bytes. length bytes.items ≤ 65535) }
    ensures refused { IfErr result (IsEncodingRefusal message.now) }
{
    match message.to_vec(alloc) {
        Ok(bytes) if is_truncated(bytes.as_slice()) => Err(RequestFault::TooLong),
        Ok(bytes) => Ok(bytes),
        // Memory for the bytes was refused.
        Err(EncodeError::Memory) => Err(RequestFault::Memory),
        Err(EncodeError::MaxBufferSizeExceeded) => Err(RequestFault::TooLong),
    }
}

/// Returns `true` if bytes begin with a header that has TC set (RFC 1035 section 4.1.1).
fn is_truncated(bytes: &[u8]) -> bool
    ensures { result ≡ is_truncated bytes.now }
{
    match Metadata::peek(bytes) {
        Some(metadata) => metadata.truncation,
        None => false,
    }
}

/// Returns the name that a word states. It is fully qualified, with or without a dot at its end.
fn name_of(alloc: Global, word: &str) -> Result<Name, RequestFault> {
    match Name::from_ascii(alloc, word) {
        Ok(mut name) => {
            name.set_fqdn(true);
            Ok(name)
        }
        // Memory for the name was refused.
        Err(ParseError::Memory) => Err(RequestFault::Memory),
        Err(_) => Err(RequestFault::Name),
    }
}

/// Returns the type that a word states.
fn type_of(word: &str) -> Result<RecordType, RequestFault> {
    match type_of_word(word.as_bytes()) {
        Some(record_type) => Ok(record_type),
        None => Err(RequestFault::Type),
    }
}

/// Returns a query with one question.
fn question_of(
    alloc: Global,
    word: &str,
    record_type: RecordType,
) -> Result<Message, RequestFault> {
    let mut message = Message::query(alloc, ID);
    let name = name_of(alloc, word)?;
    message.add_query(Query::query(name, record_type))?;
    Ok(message)
}

/// Returns the query of words: a name, a type, and options.
fn query_of(alloc: Global, text: &str) -> Result<Message, RequestFault> {
    let (name, rest) = first_word(text);
    let (record_type, options) = first_word(rest);
    let mut message = question_of(alloc, name, type_of(record_type)?)?;
    let mut rest = options;
    // Each option has a letter at least.
    for _option in 0..options.len() {
        let (option, more) = first_word(rest);
        set_option(alloc, &mut message, option)?;
        rest = more;
        if rest.is_empty() {
            break;
        }
    }
    Ok(message)
}

/// Sets an option of a query: a flag, or the size of datagrams that it offers (RFC 6891 section 6.2.3).
fn set_option(alloc: Global, message: &mut Message, option: &str) -> Result<(), RequestFault> {
    match option {
        "rd" => message.metadata.recursion_desired = true,
        "cd" => message.metadata.checking_disabled = true,
        "do" => {
            let mut edns = taken_edns(alloc, message);
            edns.set_dnssec_ok(true);
            message.set_edns(edns);
        }
        _ => {
            let size = size_of(option)?;
            let mut edns = taken_edns(alloc, message);
            edns.set_max_payload(size);
            message.set_edns(edns);
        }
    }
    Ok(())
}

/// Returns the size that the option `size=N` states.
fn size_of(option: &str) -> Result<u16, RequestFault> {
    match option.strip_prefix("size=") {
        Some(digits) => match digits.parse::<u16>() {
            Ok(size) => Ok(size),
            Err(_) => Err(RequestFault::Option),
        },
        None => Err(RequestFault::Option),
    }
}

/// Takes the OPT record of a message, or makes one.
fn taken_edns(alloc: Global, message: &mut Message) -> Edns {
    match message.edns.take() {
        Some(edns) => edns,
        None => Edns::new(alloc),
    }
}

/// Returns the query for a transfer of a zone.
fn transfer_of(
    alloc: Global,
    word: &str,
    record_type: RecordType,
) -> Result<Message, RequestFault> {
    question_of(alloc, word, record_type)
}

/// Returns the query for an incremental transfer of a zone from a serial number (RFC 1995 section 3).
fn incremental_of(alloc: Global, text: &str) -> Result<Message, RequestFault> {
    let (zone, digits) = first_word(text);
    let Ok(serial) = digits.parse::<u32>() else {
        return Err(RequestFault::Serial);
    };
    let mut message = transfer_of(alloc, zone, RecordType::IXFR)?;
    let start = RData::SOA(SOA {
        mname: Name::root(alloc),
        rname: Name::root(alloc),
        serial,
        refresh: 0,
        retry: 0,
        expire: 0,
        minimum: 0,
    });
    let owner = name_of(alloc, zone)?;
    message.add_authority(Record::from_rdata(owner, 0, start))?;
    Ok(message)
}

/// Returns the update of a zone by prerequisites and changes.
fn update_of(alloc: Global, text: &str) -> Result<Message, RequestFault> {
    let (zone, changes) = first_word(text);
    let mut builder = UpdateBuilder::new(alloc, name_of(alloc, zone)?, DNSClass::IN);
    for change in changes.split(SEPARATOR) {
        add_change(alloc, &mut builder, change.trim())?;
    }
    Ok(builder.into_message(alloc, ID)?)
}

/// Adds a prerequisite or a change to an update.
fn add_change(alloc: Global, builder: &mut UpdateBuilder, text: &str) -> Result<(), RequestFault> {
    let (kind, rest) = first_word(text);
    match kind {
        "add" => add_record(alloc, builder, rest),
        "delete" => add_deletion(alloc, builder, rest),
        "prereq" => add_prerequisite(alloc, builder, rest),
        _ => Err(RequestFault::Change),
    }
}

/// Adds the addition of a record (RFC 2136 section 2.5.1).
fn add_record(alloc: Global, builder: &mut UpdateBuilder, text: &str) -> Result<(), RequestFault> {
    let found = record_of(alloc, builder, text)?;
    let parts = found.into_parts();
    builder.add(parts.name, parts.ttl, parts.rdata)?;
    Ok(())
}

/// Adds the deletion of a name, of a set or of a record (RFC 2136 sections 2.5.2 to 2.5.4).
fn add_deletion(
    alloc: Global,
    builder: &mut UpdateBuilder,
    text: &str,
) -> Result<(), RequestFault> {
    let (owner, rest) = first_word(text);
    let (record_type, rdata) = first_word(rest);
    if record_type.is_empty() {
        builder.delete_name(name_of(alloc, owner)?)?;
        return Ok(());
    }
    if rdata.is_empty() {
        builder.delete_rrset(name_of(alloc, owner)?, type_of(record_type)?)?;
        return Ok(());
    }
    let parts = data_of(alloc, builder, owner, rest)?.into_parts();
    builder.delete_record(parts.name, parts.rdata)?;
    Ok(())
}

/// Adds a prerequisite (RFC 2136 section 2.4).
fn add_prerequisite(
    alloc: Global,
    builder: &mut UpdateBuilder,
    text: &str,
) -> Result<(), RequestFault> {
    let (kind, rest) = first_word(text);
    match kind {
        "yxdomain" => builder.require_name(name_of(alloc, rest)?)?,
        "nxdomain" => builder.forbid_name(name_of(alloc, rest)?)?,
        "yxrrset" => require_set(alloc, builder, rest)?,
        "nxrrset" => {
            let (owner, record_type) = first_word(rest);
            builder.forbid_rrset(name_of(alloc, owner)?, type_of(record_type)?)?;
        }
        _ => return Err(RequestFault::Change),
    }
    Ok(())
}

/// Adds the prerequisite that a set exists, or a record of it.
fn require_set(alloc: Global, builder: &mut UpdateBuilder, text: &str) -> Result<(), RequestFault> {
    let (owner, rest) = first_word(text);
    let (record_type, rdata) = first_word(rest);
    if rdata.is_empty() {
        builder.require_rrset(name_of(alloc, owner)?, type_of(record_type)?)?;
        return Ok(());
    }
    let parts = data_of(alloc, builder, owner, rest)?.into_parts();
    builder.require_record(parts.name, parts.rdata)?;
    Ok(())
}

/// Returns the record with a name, and with the type and the data of a text.
fn data_of(
    alloc: Global,
    builder: &UpdateBuilder,
    owner: &str,
    text: &str,
) -> Result<Record, RequestFault> {
    let line = format!(in alloc; "{owner} 0 {text}")?;
    record_of(alloc, builder, line.as_str())
}

/// Returns the record of a line of a zone file, whose relative names are completed by the zone of an update.
fn record_of(alloc: Global, builder: &UpdateBuilder, line: &str) -> Result<Record, RequestFault> {
    let origin = builder.zone().clone()?;
    let parser = Parser::with_types(line, &[], Some(origin), Types::All);
    let found = match parser.parse(alloc) {
        Ok(found) => found,
        // Memory for the record was refused.
        Err(ZoneFileError::Memory) => return Err(RequestFault::Memory),
        Err(_) => return Err(RequestFault::Record),
    };
    match found.sets.as_slice() {
        [set] => match set.record() {
            Some(only) => Ok(only.clone()?),
            None => Err(RequestFault::Record),
        },
        _ => Err(RequestFault::Record),
    }
}
