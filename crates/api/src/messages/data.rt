//! Record data of a text (RFC 1035 section 5.1, RFC 3597 section 5).

ghost use Rattle.std.specs.Prelude.{◌≡◌, ◌<◌, [], IfErr, IfOk, length, map};
ghost use Rattle.dns_text.specs.Token.{lexeme};
ghost use Rattle.api.specs.messages.Data.{AreNoData, IsData, IsDataText, IsOpaque, IsRefused, IsUnread, IsUnwritten, is_meta_type};

use crate::buffer::{Refusal, text_in};
use crate::messages::tokens::tokens_of;
use dns_data::{OptionData, RData, RDataParseError};
use dns_formats::{FormatFault, read_data};
use dns_names::Name;
use dns_text::Token;
use dns_wire::RecordType;
use std::alloc::Global;

/// Returns the data of a type that a text is, as in a zone file. Relative names end in the zone's.
///
/// # Errors
///
/// - [`Refusal::Encoding`] if the text is not UTF-8;
/// - [`Refusal::Data`] if the text is no data of the type;
/// - [`Refusal::Memory`] if memory is refused.
pub(crate) fn data_in(
    alloc: Global,
    record_type: RecordType,
    text: &[u8],
    zone: &Name,
) -> Result<RData, Refusal>
    ensures read { IfOk result (IsDataText zone.now record_type text.now) }
    ensures refused { IfErr result (IsRefused zone.now record_type text.now) }
{
    let text = text_in(text)?;
    let tokens = tokens_of(alloc, text)?;
    data_of(alloc, record_type, tokens.as_slice(), zone)
}

/// Returns the data of a type that tokens are.
fn data_of(
    alloc: Global,
    record_type: RecordType,
    tokens: &[Token<'_>],
    zone: &Name,
) -> Result<RData, Refusal>
    ensures read { IfOk result (IsData zone.now record_type (map lexeme tokens.now)) }
    ensures refused { IfErr result (IsUnread zone.now record_type (map lexeme tokens.now)) }
{
    match RData::parse(alloc, record_type, tokens, Some(zone)) {
        Ok(rdata) => Ok(rdata),
        // Memory was refused for the data.
        Err(RDataParseError::Memory) => Err(Refusal::Memory),
        Err(RDataParseError::UnsupportedRecordType) => {
            opaque_data(alloc, record_type, tokens, zone)
        }
        Err(_) => Err(Refusal::Data),
    }
}

/// Returns the data of a type without fields that tokens are.
fn opaque_data(
    alloc: Global,
    record_type: RecordType,
    tokens: &[Token<'_>],
    zone: &Name,
) -> Result<RData, Refusal>
    ensures read { IfOk result (IsOpaque zone.now record_type (map lexeme tokens.now)) }
    ensures refused { IfErr result (IsUnwritten zone.now record_type (map lexeme tokens.now)) }
{
    if is_meta_type(u16::from(record_type)) {
        return Err(Refusal::Data);
    }
    match read_data(alloc, record_type, tokens, Some(zone)) {
        Ok(bytes) => filled_data(record_type, bytes),
        // Memory was refused for the bytes.
        Err(FormatFault::Memory) => Err(Refusal::Memory),
        Err(_) => Err(Refusal::Data),
    }
}

/// Returns the data of a type that bytes are, unless there are none, or too many.
fn filled_data(record_type: RecordType, bytes: Vec<u8>) -> Result<RData, Refusal>
    ensures read { IfOk result (λ d. (0 < length bytes.items)
        × (d ≡ RData.Unknown record_type bytes.items)) }
    ensures refused { IfErr result (λ refusal. (refusal ≡ Refusal.Data) × AreNoData bytes.items) }
{
    if bytes.is_empty() {
        return Err(Refusal::Data);
    }
    match OptionData::new(bytes) {
        Ok(rdata) => Ok(RData::Unknown {
            code: record_type,
            rdata,
        }),
        Err(_) => Err(Refusal::Data),
    }
}

/// Returns `true` for the number of a type that no record of a zone has (RFC 6891 section 6.1.1, RFC 6895 section 3.1).
fn is_meta_type(number: u16) -> bool
    ensures { result ≡ is_meta_type number }
{
    matches!(number, 0 | 41 | 128..=255)
}
