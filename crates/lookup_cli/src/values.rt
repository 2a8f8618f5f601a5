//! The values of options.

ghost use Rattle.std.specs.Prelude.{◌≡◌, ◌<◌, ◌≤◌, IfErr, IfOk, IfSome, None, OnOk, Some, codes};
ghost use Rattle.std.specs.Net.Grammar.{IsIpText};
ghost use Rattle.std.specs.declared.net.ip_addr.IpAddr.{IpAddr};
ghost use Rattle.dns_fields.specs.bitmaps.TypeWord.{type_of_word};
ghost use Rattle.dns_wire.specs.codes.Decimal.{decimal_up_to};
ghost use Rattle.lookup_cli.specs.Ending.{IsOfInvalidValue};
ghost use Rattle.lookup_cli.specs.Values.{IsLookedUp, IsNameOrIp, IsNoServer, IsServer, IsTextRefusal, SpellsName};
ghost use Rattle.lookup_cli.specs.Values.{IsNameRefusal, IsNotLookedUpRefusal, advice_on, milliseconds_of};
ghost use Rattle.lookup_cli.specs.Values.{no_name, no_server, no_strategy, no_timeout, no_type, strategy_of};
ghost use Rattle.lookup_cli.specs.Values.{thousandths_of, timeout_of};

use crate::dig::{DigWord, dig_word};
use crate::ending::Ending;
use dns_formats::type_of_word;
use dns_names::{Name, ParseError};
use dns_text::parse_ip;
use dns_wire::RecordType;
use dns_wire::codes::parse_decimal;
use std::alloc::Global;
use std::net::SocketAddr;
use stub_config::LookupIpStrategy;

/// The port of name servers (RFC 1035 section 4.2).
const DNS_PORT: u16 = 53;

/// The maximum number of seconds to wait for a reply.
const MAX_SECONDS: u64 = 3_600;

/// Returns the type that a text spells.
pub(crate) fn type_of(alloc: Global, text: &str) -> Result<RecordType, Ending>
    ensures value { IfOk result (λ record_type. type_of_word text.now ≡ Some record_type) }
    ensures refused { IfErr result (λ ending. (type_of_word text.now ≡ None)
        × IsOfInvalidValue (codes "-t") text.now no_type ending) }
{
    match type_of_word(text.as_bytes()) {
        Some(record_type) => Ok(record_type),
        None => Err(Ending::invalid(alloc, "-t", text, "it is not a type")),
    }
}

/// Returns the name that a text spells. It is fully qualified, with or without a dot at its end.
pub(crate) fn name_of(alloc: Global, option: &str, text: &str) -> Result<Name, Ending>
    ensures value { IfOk result (SpellsName text.now) }
    ensures refused { IfErr result (IsNameRefusal option.now text.now) }
{
    match Name::from_ascii(alloc, text) {
        Ok(mut name) => {
            name.set_fqdn(true);
            Ok(name)
        }
        // Memory for the name was refused.
        Err(ParseError::Memory) => Err(Ending::Memory),
        Err(_) => Err(Ending::invalid(alloc, option, text, "it is not a domain name")),
    }
}

/// Checks that a text, which is alone or one of several, is a name that can be looked up.
pub(crate) fn check_name(alloc: Global, text: &str, is_alone: bool) -> Result<(), Ending>
    ensures passes { OnOk result (IsLookedUp is_alone text.now) }
    ensures refused { IfErr result (IsNotLookedUpRefusal is_alone text.now) }
{
    match dig_word(text.as_bytes(), is_alone) {
        Some(word) => Err(Ending::invalid(alloc, "NAME", text, advice_on(word))),
        None => check_text(alloc, text),
    }
}

/// Checks that a text is a name or an IP address.
fn check_text(alloc: Global, text: &str) -> Result<(), Ending>
    ensures passes { OnOk result (IsNameOrIp text.now) }
    ensures refused { IfErr result (IsTextRefusal text.now) }
{
    match Name::from_ascii(alloc, text) {
        Ok(_) => Ok(()),
        // Memory for the name was refused.
        Err(ParseError::Memory) => Err(Ending::Memory),
        Err(_) => check_ip(alloc, text),
    }
}

/// Checks that a text which is no name is an IP address. An IPv6 address is not a name, and is its own address.
fn check_ip(alloc: Global, text: &str) -> Result<(), Ending>
    ensures passes { OnOk result ((ip : IpAddr) × IsIpText text.now ip) }
    ensures refused { IfErr result (λ ending. ((ip : IpAddr) → ¬ (IsIpText text.now ip))
        × IsOfInvalidValue (codes "NAME") text.now no_name ending) }
{
    match parse_ip(text.as_bytes()) {
        Some(_) => Ok(()),
        None => Err(Ending::invalid(alloc, "NAME", text, "it is not a domain name")),
    }
}

/// Returns what to write in place of a word that is written as for `dig`.
fn advice_on(word: DigWord) -> &'static str
    ensures { result.now ≡ advice_on word }
{
    match word {
        DigWord::NameServer => "write a server as --server ADDRESS",
        DigWord::RecordType => {
            "write a type as -t TYPE, and a host of this name with a dot at its end"
        }
    }
}

/// Returns the address of a server, with port 53 if a text has none.
pub(crate) fn server_of(alloc: Global, text: &str) -> Result<SocketAddr, Ending>
    ensures value { IfOk result (IsServer text.now) }
    ensures refused { IfErr result (λ ending. IsNoServer text.now
        × IsOfInvalidValue (codes "--server") text.now no_server ending) }
{
    if let Ok(address) = text.parse::<SocketAddr>()
        && address.port() > 0
    {
        return Ok(address);
    }
    match parse_ip(text.as_bytes()) {
        Some(ip) => Ok(SocketAddr::new(ip, DNS_PORT)),
        None => {
            let reason =
                "it is not an address, such as 192.0.2.1, 192.0.2.1:53, 2001:db8::1 or [2001:db8::1]:53, or its port is 0";
            Err(Ending::invalid(alloc, "--server", text, reason))
        }
    }
}

/// Returns the strategy that a text names.
pub(crate) fn strategy_of(alloc: Global, text: &str) -> Result<LookupIpStrategy, Ending>
    ensures value { IfOk result (λ strategy. strategy_of text.now ≡ Some strategy) }
    ensures refused { IfErr result (λ ending. (strategy_of text.now ≡ None)
        × IsOfInvalidValue (codes "--strategy") text.now no_strategy ending) }
{
    match text {
        "ipv4" => Ok(LookupIpStrategy::Ipv4Only),
        "ipv6" => Ok(LookupIpStrategy::Ipv6Only),
        "both" => Ok(LookupIpStrategy::Ipv6AndIpv4),
        "ipv4-then-ipv6" => Ok(LookupIpStrategy::Ipv4thenIpv6),
        "ipv6-then-ipv4" => Ok(LookupIpStrategy::Ipv6thenIpv4),
        _ => {
            let reason = "it is none of ipv4, ipv6, both, ipv4-then-ipv6 and ipv6-then-ipv4";
            Err(Ending::invalid(alloc, "--strategy", text, reason))
        }
    }
}

/// Returns how many milliseconds a text says, in seconds with at most three decimals: at least one, and at most an hour.
pub(crate) fn timeout_of(alloc: Global, text: &str) -> Result<u64, Ending>
    ensures value { IfOk result (λ milliseconds. timeout_of text.now ≡ Some milliseconds) }
    ensures range { IfOk result (λ milliseconds. (0 < milliseconds) × (milliseconds ≤ 3600000)) }
    ensures refused { IfErr result (λ ending. (timeout_of text.now ≡ None)
        × IsOfInvalidValue (codes "--timeout") text.now no_timeout ending) }
{
    match milliseconds_of(text) {
        Some(milliseconds) if milliseconds > 0 => Ok(milliseconds),
        _ => {
            let reason = "it is not a number of seconds from 0.001 to 3600, such as 2 or 0.5";
            Err(Ending::invalid(alloc, "--timeout", text, reason))
        }
    }
}

/// Returns the milliseconds of a text in seconds, at most an hour.
fn milliseconds_of(text: &str) -> Option<u64>
    ensures value { result ≡ milliseconds_of text.now }
    ensures range { IfSome result (λ milliseconds. milliseconds ≤ 3600000) }
{
    let (seconds, decimals) = text.split_once('.').unwrap_or((text, "0"));
    let seconds = number_up_to(seconds, MAX_SECONDS)?;
    let thousandths = thousandths_of(decimals)?;
    let milliseconds = seconds * 1_000 + thousandths;
    if milliseconds <= MAX_SECONDS * 1_000 {
        Some(milliseconds)
    } else {
        None
    }
}

/// Returns the thousandths of one to three decimals.
fn thousandths_of(decimals: &str) -> Option<u64>
    ensures value { result ≡ thousandths_of decimals.now }
    ensures range { IfSome result (λ number. number ≤ 99900) }
{
    let number = number_up_to(decimals, 999)?;
    match decimals.len() {
        1 => Some(number * 100),
        2 => Some(number * 10),
        3 => Some(number),
        _ => None,
    }
}

/// Returns the number of a text of digits, if it is not above a limit.
fn number_up_to(text: &str, limit: u64) -> Option<u64>
    ensures value { result ≡ decimal_up_to limit text.now }
    ensures range { IfSome result (λ number. number ≤ limit) }
{
    parse_decimal(text.as_bytes(), limit)
}
