//! Rules from the words of a line.

ghost use Rattle.std.specs.Prelude.{◌≡◌, IfOk, map};
ghost use Rattle.dns_faults.specs.table.Line.{names_in, names_of, rule_in, types_in};

use crate::rules::{NamePattern, Rule, TypePattern};
use crate::table::actions::parse_actions;
use crate::table::error::RuleFault;
use dns_names::{Name, ParseError};
use dns_wire::codes::RecordType;
use std::alloc::{AllocError, Global};

/// Parses the rule of a line from its words. The outer error is want of memory.
pub(crate) fn parse_rule(
    alloc: Global,
    line: usize,
    words: &[&[u8]],
) -> Result<Result<Rule, RuleFault>, AllocError>
    ensures { IfOk result (λ rule. rule ≡ rule_in line (map (λ word. word.now) words.now)) }
{
    let [name, words @ ..] = words else {
        return Ok(Err(RuleFault::Name));
    };
    let names = match parse_names(alloc, name)? {
        Some(names) => names,
        None => return Ok(Err(RuleFault::Name)),
    };
    let [word, words @ ..] = words else {
        return Ok(Err(RuleFault::NoType));
    };
    let Some(types) = parse_types(word) else {
        return Ok(Err(RuleFault::Type));
    };
    match parse_actions(words) {
        Ok(actions) => Ok(Ok(Rule {
            line,
            names,
            types,
            fault: actions.fault,
            times: actions.times,
        })),
        Err(fault) => Ok(Err(fault)),
    }
}

/// Parses the types that a rule matches.
fn parse_types(word: &[u8]) -> Option<TypePattern>
    ensures { result ≡ types_in word.now }
{
    if word == b"*".as_slice() {
        return Some(TypePattern::Any);
    }
    match RecordType::from_ascii_bytes(word) {
        Some(record_type) => Some(TypePattern::Exactly(record_type)),
        None => None,
    }
}

/// Parses the names that a rule matches. A name is fully qualified, with or without its last dot.
fn parse_names(alloc: Global, word: &[u8]) -> Result<Option<NamePattern>, AllocError>
    ensures { IfOk result (λ names. names ≡ names_in word.now) }
{
    let name = match Name::from_ascii_bytes(alloc, word) {
        Ok(name) => name,
        // The memory for the name was refused.
        Err(ParseError::Memory) => return Err(AllocError),
        Err(_) => return Ok(None),
    };
    Ok(Some(names_of(name)?))
}

/// Returns the names that a name of a rule stands for.
fn names_of(mut name: Name) -> Result<NamePattern, AllocError>
    ensures { IfOk result (λ names. names ≡ names_of name) }
{
    if !name.is_wildcard() {
        name.set_fqdn(true);
        return Ok(NamePattern::Exactly(name));
    }
    let above = name.base_name()?;
    if above.is_root() {
        return Ok(NamePattern::Any);
    }
    Ok(NamePattern::Below(above))
}
