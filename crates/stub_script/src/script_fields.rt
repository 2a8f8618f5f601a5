//! The fields of a script's lines: moments, names, types and hosts.

ghost use Rattle.std.specs.Prelude.{◌≡◌, ◌||◌, IfOk, is_ok, option_map, string_bytes};
ghost use Rattle.dns_names.specs.Parse.{name_of_text};
ghost use Rattle.stub_script.specs.ScriptFields.{host_of, is_address, moment, name_of, question_of};

use dns_names::{Name, ParseError};
use dns_text::parse_ip;
use dns_wire::RecordType;
use dns_wire::codes::parse_decimal;
use dns_zone_file::Types;
use std::alloc::{AllocError, Global};
use stub_lookup::Moment;
use update_text::parse_type;

/// Parses a moment, in seconds.
pub(crate) fn parse_moment(word: &[u8]) -> Option<Moment>
    ensures { result ≡ moment word.now }
{
    parse_decimal(word, Moment::MAX)
}

/// Parses a name and a type, which zone files of these types may have.
#[tactic(auto, unfolding(crate::specs::ScriptFields::question_of))]
pub(crate) fn parse_question(
    alloc: Global,
    name: &[u8],
    rtype: &[u8],
    types: Types,
) -> Result<Option<(Name, RecordType)>, AllocError>
    ensures { IfOk result (λ found. found ≡ question_of types name.now rtype.now) }
{
    let Some(rtype) = parse_type(rtype, types) else {
        return Ok(None);
    };
    match parse_name(alloc, name)? {
        Some(name) => Ok(Some((name, rtype))),
        None => Ok(None),
    }
}

/// Parses a name, which may be relative (RFC 1035 section 5.1).
#[tactic(auto, unfolding(crate::specs::ScriptFields::name_of))]
fn parse_name(alloc: Global, word: &[u8]) -> Result<Option<Name>, AllocError>
    ensures { IfOk result (λ name. name ≡ name_of word.now) }
{
    match Name::from_ascii_bytes(alloc, word) {
        Ok(name) => Ok(Some(name)),
        // The memory for the name was refused.
        Err(ParseError::Memory) => Err(AllocError),
        Err(_) => Ok(None),
    }
}

/// Returns the text of a host: a literal address, or a name.
#[tactic(auto, using(crate::proofs::HostLaws::no_host), unfolding(crate::specs::ScriptFields::host_of))]
pub(crate) fn parse_host(alloc: Global, word: &[u8]) -> Result<Option<String>, AllocError>
    ensures { IfOk result (λ host. option_map string_bytes host ≡ host_of word.now) }
{
    // Addresses and names consist of ASCII characters.
    let Ok(text) = str::from_utf8(word) else {
        return Ok(None);
    };
    if is_host(alloc, word)? {
        Ok(Some(String::from_str(alloc, text)?))
    } else {
        Ok(None)
    }
}

/// Returns `true` if a word is a literal address or a name.
#[tactic(auto, using(crate::proofs::HostLaws::address_test))]
fn is_host(alloc: Global, word: &[u8]) -> Result<bool, AllocError>
    ensures { IfOk result (λ found.
        found ≡ (is_address word.now || is_ok (name_of_text word.now))) }
{
    if parse_ip(word).is_some() {
        return Ok(true);
    }
    match Name::from_ascii_bytes(alloc, word) {
        Ok(_) => Ok(true),
        // The memory for the name was refused.
        Err(ParseError::Memory) => Err(AllocError),
        Err(_) => Ok(false),
    }
}
